//! Lists made of the slots of a table.

ghost use Rattle.std.specs.Prelude.{◌≡◌, ◌++◌, IfOk, OnOk, length, option_and_then, option_to_list};
ghost use Rattle.std.specs.List.{filter_map};
ghost use Rattle.std.specs.Map.{values_of};
ghost use Rattle.index_map.specs.Slots as spec;

use crate::mark::{Mark, change_of, current_of};
use crate::slot::{Held, change, named};
use crate::table::Slots;
use cache_base::{Name, NoMemory};
use index_record::IndexRecord;
use std::alloc::Global;

fn push_if(list: &mut Vec<IndexRecord>, found: Option<IndexRecord>) -> Result<(), NoMemory>
    ensures { OnOk result (list.new.items ≡ list.old.items ++ option_to_list found) }
{
    match found {
        Some(r) => list.push(r)?,
        None => {}
    }
    Ok(())
}

/// The records now, in the order of the slots.
pub(crate) fn current_records(alloc: Global, slots: &Slots) -> Result<Vec<IndexRecord>, NoMemory>
    ensures { IfOk result (λ list.
        list.items ≡ spec.current_in (values_of (spec.slots_of slots.now.entries))) }
{
    let mut list = Vec::with_capacity(alloc, slots.len())?;
    for (name, slot) in slots {
        push_if(&mut list, named(name, slot.current))?;
    }
    Ok(list)
}

/// What a journal has to say, in the order of the slots.
pub(crate) fn changes(alloc: Global, slots: &Slots) -> Result<Vec<IndexRecord>, NoMemory>
    ensures { IfOk result (λ list.
        list.items ≡ filter_map spec.change_in (values_of (spec.slots_of slots.now.entries))) }
{
    let mut list = Vec::new(alloc);
    for (name, slot) in slots {
        push_if(&mut list, change(name, slot))?;
    }
    Ok(list)
}

/// Adds the records now of the names of a base, in the order of the base.
pub(crate) fn push_current(
    list: &mut Vec<IndexRecord>,
    records: &[IndexRecord],
    marks: &[Mark],
) -> Result<(), NoMemory>
    requires { length marks.now ≡ length records.now }
    ensures { OnOk result (list.new.items
        ≡ list.old.items ++ spec.current_in (values_of (spec.marked_in records.now marks.now))) }
{
    list.reserve(records.len())?;
    for i in 0..records.len() {
        push_if(list, current_of(&records[i], marks[i]))?;
    }
    Ok(())
}

/// Adds what a journal has to say of the names of a base, in the order of the base.
pub(crate) fn push_changes(
    list: &mut Vec<IndexRecord>,
    records: &[IndexRecord],
    marks: &[Mark],
) -> Result<(), NoMemory>
    requires { length marks.now ≡ length records.now }
    ensures { OnOk result (list.new.items ≡ list.old.items
        ++ filter_map spec.change_in (values_of (spec.marked_in records.now marks.now))) }
{
    for i in 0..records.len() {
        push_if(list, change_of(&records[i], marks[i]))?;
    }
    Ok(())
}

/// Adds the records now at places, in the order of the places.
pub(crate) fn push_placed(
    list: &mut Vec<IndexRecord>,
    places: &[(Name, Held)],
) -> Result<(), NoMemory>
    ensures { OnOk result (list.new.items
        ≡ list.old.items ++ spec.current_in (values_of (spec.slots_of places.now))) }
{
    for place in places {
        push_if(list, named(&place.0, place.1.current))?;
    }
    Ok(())
}

/// Adds what a journal has to say of places, in the order of the places.
pub(crate) fn push_placed_changes(
    list: &mut Vec<IndexRecord>,
    places: &[(Name, Held)],
) -> Result<(), NoMemory>
    ensures { OnOk result (list.new.items
        ≡ list.old.items ++ filter_map spec.change_in (values_of (spec.slots_of places.now))) }
{
    for place in places {
        push_if(list, change(&place.0, &place.1))?;
    }
    Ok(())
}
