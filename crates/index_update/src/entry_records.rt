//! The files of some entries are read, and the records set to what stands there.

ghost use Rattle.std.specs.Prelude.{◌≡◌, ◌*◌, IfOk, IfSome, IsErrOf, IsTrue, OnErr, OnOk, length};
ghost use Rattle.cache_base.specs.Causes.{CountsFailure};
ghost use Rattle.disk_theory.specs.Account.{Ending, ending};
ghost use Rattle.disk_theory.specs.Calls.{LastLookFails};
ghost use Rattle.disk_theory.specs.declared.disk.DiskFault.TheVariants.{Failed};
ghost use Rattle.entry_file.specs.Looks.{LooksAtMost, meta_looks};
ghost use Rattle.entry_metadata.specs.Meta.{meta_of};
ghost use Rattle.index_map.specs.Known.{IsPlain, SameBase, Sets};
ghost use Rattle.index_record.specs.Filling.{record_of_meta};
ghost use Rattle.index_theory.specs.Scan.{scanned};
ghost use Rattle.index_theory.specs.Ever.{entries_on};
ghost use Rattle.index_update.specs.Reads.{Reads, ReadsSome};

use cache_base::Name;
use disk_theory::{Disk, DiskFault, Place};
use entry_file::{EntryRead, read_meta};
use entry_metadata::Meta;
use index_map::RecordMap;
use index_record::{IndexRecord, of_meta};
use std::alloc::Global;

// The record of an entry, as a map takes it.
fn record_of(name: &Name, meta: &Meta, size: u64) -> IndexRecord
    ensures record { result ≡ record_of_meta name.now (meta_of meta.now) size }
    ensures named { result.name ≡ name.now }
    ensures plain { IsPlain result }
{
    of_meta(name, meta, size)
}

// What stands at the place of an entry, as a record.
fn read_record<D: Disk>(
    alloc: Global,
    disk: &mut D,
    name: &Name,
) -> Result<Option<IndexRecord>, DiskFault>
    ensures record { IfOk result (λ found. IsTrue D.tells →
        found ≡ scanned (entries_on (D.state disk.old)) name.now) }
    ensures named { IfOk result (λ found. IfSome found (λ r. r.name ≡ name.now)) }
    ensures plain { IfOk result (λ found. IfSome found IsPlain) }
    ensures state { IsTrue D.tells → D.state disk.new ≡ D.state disk.old }
    ensures looks { IsTrue D.tells →
        LooksAtMost meta_looks (D.counts disk.old) (D.counts disk.new) }
    ensures cause { CountsFailure (IsErrOf result DiskFault.Failed)
        (D.faults disk.old) (D.faults disk.new) }
    ensures last { ending result ≡ Ending.OneFailed → IsTrue D.tells →
        LastLookFails (D.counts disk.new) }
{
    match read_meta(alloc, disk, &Place::Entry(*name), name)? {
        EntryRead::Absent => Ok(None),
        EntryRead::Unfit(_) => Ok(None),
        EntryRead::Fits { meta, size } => Ok(Some(record_of(name, &meta, size))),
    }
}

// Sets the record of one name to that of what stands there, or removes it.
fn read_one<D: Disk>(
    alloc: Global,
    disk: &mut D,
    name: &Name,
    map: &mut RecordMap,
) -> Result<(), DiskFault>
    ensures sets { OnOk result (IsTrue D.tells →
        Sets map.old map.new name.now (scanned (entries_on (D.state disk.old)) name.now)) }
    ensures base { SameBase map.old map.new }
    ensures kept { OnErr result (map.new ≡ map.old) }
    ensures state { IsTrue D.tells → D.state disk.new ≡ D.state disk.old }
    ensures looks { IsTrue D.tells →
        LooksAtMost meta_looks (D.counts disk.old) (D.counts disk.new) }
    ensures cause { CountsFailure (IsErrOf result DiskFault.Failed)
        (D.faults disk.old) (D.faults disk.new) }
    ensures last { ending result ≡ Ending.OneFailed → IsTrue D.tells →
        LastLookFails (D.counts disk.new) }
{
    match read_record(alloc, disk, name)? {
        Some(record) => map.set(record)?,
        None => map.remove(name),
    }
    Ok(())
}

/// Sets the records of these names to those of what stands there, in their order, and removes those of names under
/// which no file stands that fits. Where a call fails, the records of the names before it are set.
pub(crate) fn read_each<D: Disk>(
    alloc: Global,
    disk: &mut D,
    names: &[Name],
    map: &mut RecordMap,
) -> Result<(), DiskFault>
    ensures reads { OnOk result (IsTrue D.tells →
        Reads (entries_on (D.state disk.old)) names.now map.old map.new) }
    ensures some { OnErr result (IsTrue D.tells →
        ReadsSome (entries_on (D.state disk.old)) names.now map.old map.new) }
    ensures base { SameBase map.old map.new }
    ensures state { IsTrue D.tells → D.state disk.new ≡ D.state disk.old }
    ensures looks { IsTrue D.tells →
        LooksAtMost (meta_looks * length names.now) (D.counts disk.old) (D.counts disk.new) }
    ensures cause { CountsFailure (IsErrOf result DiskFault.Failed)
        (D.faults disk.old) (D.faults disk.new) }
    ensures last { ending result ≡ Ending.OneFailed → IsTrue D.tells →
        LastLookFails (D.counts disk.new) }
{
    for name in names {
        read_one(alloc, disk, name, map)?;
    }
    Ok(())
}
