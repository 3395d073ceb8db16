//! The victims of an eviction.

ghost use Rattle.std.specs.Prelude.{◌≡◌, IfOk, OnOk, filter, map};
ghost use Rattle.evictor.specs.Evict as spec;

use crate::ordering::sort;
use cache_base::{Name, Names, NoMemory, name_set};
use index_record::{IndexRecord, Records, is_pinned, size_kb};
use std::alloc::Global;

// The sum of the sizes, each below 2^24.
fn total_kb(records: &[IndexRecord]) -> u128
    ensures { result ≡ spec.total_kb records.now }
{
    let mut total = 0;
    for r in records {
        total += u128::from(size_kb(r));
    }
    total
}

// Takes those out that may not be evicted.
fn keep_evictable(
    alloc: Global,
    records: &mut Vec<IndexRecord>,
    in_use: &[Name],
) -> Result<(), NoMemory>
    ensures { OnOk result (records.new.items
        ≡ filter (spec.may_evict in_use.now) records.old.items) }
{
    let set = name_set(alloc, in_use)?;
    records.retain(|r| !is_pinned(r) && !set.contains(&r.name));
    Ok(())
}

// The names of the first of the records, up to the one whose removal brings the total down to the limit.
fn first_names(
    alloc: Global,
    records: &[IndexRecord],
    total: u128,
    limit: u64,
) -> Result<Names, NoMemory>
    ensures { IfOk result (λ names.
        names ≡ map (λ r. r.name) (spec.down_to total limit records.now)) }
{
    let limit = u128::from(limit);
    let mut left = total;
    let mut names = Names::new(alloc);
    for r in records {
        if left <= limit {
            return Ok(names);
        }
        left = left.saturating_sub(u128::from(size_kb(r)));
        names.push(r.name)?;
    }
    Ok(names)
}

/// The names of the entries to evict, in the order of eviction: the fewest after whose removal the sizes of all records
/// sum to at most `limit` KB, or all that may be evicted where even these are too few. Pinned records stay, and so do
/// the names in `in_use`, but their sizes count. The records are copied, and stay as they are.
pub fn victims(
    alloc: Global,
    records: &Records,
    in_use: &Names,
    limit: u64,
) -> Result<Names, NoMemory>
    ensures { IfOk result (λ names. names ≡ spec.victims records.now in_use.now limit) }
{
    let copy = Records::from_vec(Vec::from_slice(alloc, records.as_slice())?);
    victims_of(alloc, copy, in_use, limit)
}

/// The same of records that are handed over: they are sorted in their own memory, and nothing is copied.
pub fn victims_of(
    alloc: Global,
    records: Records,
    in_use: &Names,
    limit: u64,
) -> Result<Names, NoMemory>
    ensures { IfOk result (λ names. names ≡ spec.victims records in_use.now limit) }
{
    let total = total_kb(records.as_slice());
    let mut candidates = records.into_vec();
    keep_evictable(alloc, &mut candidates, in_use.as_slice())?;
    sort(&mut candidates)?;
    first_names(alloc, candidates.as_slice(), total, limit)
}
