//! A journal that is applied to an index.

ghost use Rattle.std.specs.List.Sorted.{IsPermutation, IsSorted};
ghost use Rattle.std.specs.Prelude.{◌≡◌, ◌++◌, IfOk, OnOk, filter, not};
ghost use Rattle.cache_base.specs.Names.{has_name as has_name_of, name_cmp};
ghost use Rattle.index_journal.specs.Merged.{merged as merged_of};
ghost use Rattle.index_record.specs.Record.{is_removed as is_removed_of};
ghost use Rattle.record_list.specs.Change.{HasNoRemoved, IsApplied};
ghost use Rattle.record_list.specs.Lists.{HasNames, names_of};
ghost use Rattle.record_list.specs.Stored.{AreClean, present};

use cache_base::{Name, NoMemory, has_name};
use index_record::{IndexRecord, Records, is_removed};
use record_list::by_name;
use std::alloc::Global;

// The names of records, sorted.
fn sorted_names(alloc: Global, records: &[IndexRecord]) -> Result<Vec<Name>, NoMemory>
    ensures same { IfOk result (λ names. IsPermutation (names_of records.now) names.items) }
    ensures sorted { IfOk result (λ names. IsSorted name_cmp names.items) }
{
    let mut names = Vec::with_capacity(alloc, records.len())?;
    for record in records {
        names.push(record.name)?;
    }
    names.sort_unstable();
    Ok(names)
}

// Adds the records with none of these names.
fn push_others(
    out: &mut Vec<IndexRecord>,
    records: &[IndexRecord],
    sorted: &[Name],
) -> Result<(), NoMemory>
    requires { IsSorted name_cmp sorted.now }
    ensures { OnOk result (out.new.items ≡ out.old.items
        ++ filter (λ r. not (has_name_of sorted.now r.name)) records.now) }
{
    for record in records {
        if !has_name(sorted, &record.name) {
            out.push(*record)?;
        }
    }
    Ok(())
}

// Adds the records that are not removed.
fn push_present(out: &mut Vec<IndexRecord>, records: &[IndexRecord]) -> Result<(), NoMemory>
    ensures { OnOk result (out.new.items ≡ out.old.items ++ present records.now) }
{
    for record in records {
        if !is_removed(record) {
            out.push(*record)?;
        }
    }
    Ok(())
}

// The records of the index that the journal says nothing of, and those that it sets.
fn merged(
    alloc: Global,
    index: &[IndexRecord],
    journal: &[IndexRecord],
) -> Result<Vec<IndexRecord>, NoMemory>
    ensures { IfOk result (λ records. records.items ≡ merged_of index.now journal.now) }
{
    let names = sorted_names(alloc, journal)?;
    let room = index.len().saturating_add(journal.len());
    let mut records = Vec::with_capacity(alloc, room)?;
    push_others(&mut records, index, names.as_slice())?;
    push_present(&mut records, journal)?;
    Ok(records)
}

/// The records of an index after the changes of a journal, in name order: the names that the journal says are gone are
/// not among them, and those that it has a record of have this record.
pub fn apply(alloc: Global, index: &Records, journal: &Records) -> Result<Records, NoMemory>
    requires index { HasNames index.now }
    requires journal { HasNames journal.now }
    ensures applied { IfOk result (IsApplied index.now journal.now) }
    ensures clean { AreClean index.now → AreClean journal.now → IfOk result AreClean }
    ensures present { HasNoRemoved index.now → IfOk result HasNoRemoved }
{
    let records = merged(alloc, index.as_slice(), journal.as_slice())?;
    Ok(by_name(records))
}
