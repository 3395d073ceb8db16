//! The records of an origin.

ghost use Rattle.std.specs.Prelude.{◌≡◌, IfOk, filter};
ghost use Rattle.record_list.specs.Lists.{names_of};
ghost use Rattle.context_clear.specs.Covered as spec;

use cache_base::{Names, NoMemory};
use index_map::RecordMap;
use index_record::{IndexRecord, is_pinned};
use std::alloc::Global;

/// Whether a clearing of the origin with this hash takes the entry of a record: whether it is of the origin, and is not
/// pinned.
pub fn covers(r: &IndexRecord, origin: u64) -> bool
    ensures { result ≡ spec.covers_record origin r.now }
{
    r.origin == origin && !is_pinned(r)
}

// Whether there is a record, and a clearing of the origin takes it.
fn is_covered(found: Option<IndexRecord>, origin: u64) -> bool
    ensures { result ≡ spec.covers_found origin found }
{
    match found {
        None => false,
        Some(r) => covers(&r, origin),
    }
}

// The names of the covered ones among these records, in their order.
fn covered_names(
    alloc: Global,
    map: &RecordMap,
    records: &[IndexRecord],
    origin: u64,
) -> Result<Names, NoMemory>
    ensures { IfOk result (λ names.
        names ≡ filter (spec.covers_name map.now origin) (names_of records.now)) }
{
    let mut names = Names::new(alloc);
    for r in records {
        if is_covered(map.get(&r.name), origin) {
            names.push(r.name)?;
        }
    }
    Ok(names)
}

/// The names that a clearing of the origin with this hash takes, in name order: those whose record was seen, is of the
/// origin, and is not pinned.
pub fn victims(alloc: Global, map: &RecordMap, origin: u64) -> Result<Names, NoMemory>
    ensures { IfOk result (spec.AreCovered map.now origin) }
{
    let records = map.records()?;
    covered_names(alloc, map, records.as_slice(), origin)
}
