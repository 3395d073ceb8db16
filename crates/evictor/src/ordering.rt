//! The order in which records are evicted.

ghost use Rattle.std.specs.Prelude.{◌≡◌, IfOk, OnErr, OnOk};
ghost use Rattle.evictor.specs.Evict as spec;

use cache_base::NoMemory;
use index_record::{IndexRecord, Records};
use std::alloc::Global;
use std::cmp::Ordering;

// What stands for frecency 0: more than any frecency.
const NEVER_USED: u64 = 1 << 32;

fn rank(r: &IndexRecord) -> u64
    ensures { result ≡ spec.rank r.now }
{
    if r.frecency == 0 {
        NEVER_USED
    } else {
        u64::from(r.frecency)
    }
}

#[tactic(auto, unfolding(crate::specs::Evict::evict_cmp))]
fn compare(a: &IndexRecord, b: &IndexRecord) -> Ordering
    ensures { result ≡ spec.evict_cmp a.now b.now }
{
    rank(a).cmp(&rank(b)).then(a.name.cmp(&b.name))
}

// Puts the records in their order, or leaves them as they were.
pub(crate) fn sort(records: &mut Vec<IndexRecord>) -> Result<(), NoMemory>
    ensures ok { OnOk result (records.new.items ≡ spec.in_order records.old.items) }
    ensures err { OnErr result (records.new.items ≡ records.old.items) }
{
    records.sort_by(compare)?;
    Ok(())
}

fn listed(alloc: Global, records: &[IndexRecord]) -> Result<Records, NoMemory>
    ensures { IfOk result (λ list. list ≡ records.now) }
{
    let mut list = Records::with_room(alloc, records.len())?;
    for r in records {
        list.push(*r)?;
    }
    Ok(list)
}

/// Puts the records in the order of eviction: by rising frecency, those of frecency 0 last, and equal ones in name
/// order. After `NoMemory` the records are as they were.
pub fn order(alloc: Global, records: &mut Records) -> Result<(), NoMemory>
    ensures ok { OnOk result (records.new ≡ spec.in_order records.old) }
    ensures err { OnErr result (records.new ≡ records.old) }
{
    let mut sorted = Vec::from_slice(alloc, records.as_slice())?;
    sort(&mut sorted)?;
    *records = listed(alloc, sorted.as_slice())?;
    Ok(())
}
