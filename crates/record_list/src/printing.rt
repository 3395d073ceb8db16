//! The bytes of records in name order.

ghost use Rattle.std.specs.List.{AllByRecursion};
ghost use Rattle.std.specs.Prelude.{◌≡◌, ◌≤◌, ◌++◌, IfOk, OnOk, List, drop, length};
ghost use Rattle.cache_base.specs.Bytes.{be32};
ghost use Rattle.index_record.specs.Record.{IsRecord};
ghost use Rattle.jenkins_hash.specs.Hash.{hash_of};
ghost use Rattle.record_list.specs.Lists.{AreSorted, HasNames, records_bytes};
ghost use Rattle.record_list.specs.Stored.{AreClean, AreStored, IsPrinted, read_as, stored_bytes};

use crate::HASH;
use crate::name_order::{rise, sort};
use cache_base::{Bytes, NoMemory};
use index_record::{IndexRecord, RECORD, Records};
use std::alloc::Global;

fn push_records(out: &mut Bytes, records: &[IndexRecord]) -> Result<(), NoMemory>
    ensures bytes { OnOk result (out.new ≡ out.old ++ records_bytes (read_as records.now)) }
    ensures widths { OnOk result (AllByRecursion IsRecord records.now) }
{
    for record in records {
        out.extend(&index_record::write(record))?;
    }
    Ok(())
}

fn push_hash(out: &mut Bytes, front: usize) -> Result<(), NoMemory>
    requires { front ≤ length out.old }
    ensures { OnOk result (out.new ≡ out.old ++ be32 (hash_of (drop front out.old))) }
{
    let hash = jenkins_hash::hash(&out.as_slice()[front..]);
    out.extend(&hash.to_be_bytes())
}

// So many records, with so many bytes before them and a hash after them, have at least so many bytes.
fn room(front: usize, records: usize) -> usize {
    records
        .saturating_mul(RECORD)
        .saturating_add(front)
        .saturating_add(HASH)
}

// The beginning of a file, and after it these records as they stand, and their hash.
fn print_sorted(alloc: Global, front: &[u8], records: &[IndexRecord]) -> Result<Bytes, NoMemory>
    requires sorted { AreSorted records.now }
    requires clean { AreClean records.now }
    ensures stored { OnOk result (AreStored records.now) }
    ensures spelled { IfOk result (λ bytes. bytes ≡ front.now ++ stored_bytes records.now) }
{
    let mut out = Bytes::with_room(alloc, room(front.len(), records.len()))?;
    out.extend(front)?;
    push_records(&mut out, records)?;
    push_hash(&mut out, front.len())?;
    Ok(out)
}

/// The beginning of a file, and after it the records in name order and their hash. Records that stand in name order are
/// not copied.
pub fn print(alloc: Global, front: &[u8], records: &Records) -> Result<Bytes, NoMemory>
    requires distinct { HasNames records.now }
    requires clean { AreClean records.now }
    ensures { IfOk result (IsPrinted front.now records.now) }
{
    let records = records.as_slice();
    if rise(records) {
        return print_sorted(alloc, front, records);
    }
    let mut sorted = Vec::from_slice(alloc, records)?;
    sort(&mut sorted);
    print_sorted(alloc, front, sorted.as_slice())
}
