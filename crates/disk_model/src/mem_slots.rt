// Which files stand at the places of a disk in memory.

ghost use Rattle.std.specs.Prelude.{◌≡◌, ◌⊎◌, OnOk, Option, Some};
ghost use Rattle.disk_theory.specs.State.{with_name, named};
ghost use Rattle.disk_model.specs.MemSlots.{names_in, synced_names_in, HasSlot, HasSlots, SameNames, AreSettled, IsNamedBy};
ghost use Rattle.disk_theory.specs.declared.place.Place.{Place as Where};

use disk_theory::{NameStep, Place};
use std::alloc::AllocError;
use std::collections::BTreeMap;

/// The numbers of the files that stood at a place at the last sync, and that stands there now.
#[derive(Clone, Copy)]
pub(crate) struct Slot {
    pub synced: Option<usize>,
    pub now: Option<usize>,
}

/// Makes a slot for a place, at which no file stands where the slot is new.
pub(crate) fn make_slot(slots: &mut BTreeMap<Place, Slot>, place: &Place) -> Result<(), AllocError>
    ensures same { SameNames slots.old slots.new }
    ensures ok { OnOk result (HasSlot slots.new place.now) }
    ensures kept { (q : Where) → HasSlot slots.old q → HasSlot slots.new q }
{
    if slots.contains_key(place) {
        return Ok(());
    }
    slots.insert(
        *place,
        Slot {
            synced: None,
            now: None,
        },
    )?;
    Ok(())
}

/// The file that stands at a place.
pub(crate) fn file_at(slots: &BTreeMap<Place, Slot>, place: &Place) -> Option<usize>
    ensures { result ≡ names_in slots.now place.now }
{
    match slots.get(place) {
        None => None,
        Some(slot) => slot.now,
    }
}

/// The file that stood at a place at the last sync.
pub(crate) fn synced_at(slots: &BTreeMap<Place, Slot>, place: &Place) -> Option<usize>
    ensures { result ≡ synced_names_in slots.now place.now }
{
    match slots.get(place) {
        None => None,
        Some(slot) => slot.synced,
    }
}

/// Another file, or none, stands at a place that has a slot.
pub(crate) fn set_file(slots: &mut BTreeMap<Place, Slot>, place: &Place, file: Option<usize>)
    requires { HasSlot slots.old place.now }
    ensures now { names_in slots.new ≡ with_name place.now file (names_in slots.old) }
    ensures synced { synced_names_in slots.new ≡ synced_names_in slots.old }
    ensures kept { (q : Where) → HasSlot slots.old q → HasSlot slots.new q }
{
    if let Some(slot) = slots.get_mut(place) {
        slot.now = file;
    }
}

/// Another file stands at a place that has a slot, and stood there at the last sync.
pub(crate) fn put_file(slots: &mut BTreeMap<Place, Slot>, place: &Place, file: usize)
    requires { HasSlot slots.old place.now }
    ensures now { names_in slots.new ≡ with_name place.now (Some file) (names_in slots.old) }
    ensures synced { synced_names_in slots.new
        ≡ with_name place.now (Some file) (synced_names_in slots.old) }
{
    if let Some(slot) = slots.get_mut(place) {
        slot.synced = Some(file);
        slot.now = Some(file);
    }
}

/// Makes a slot for each place of the step.
pub(crate) fn make_slots(
    slots: &mut BTreeMap<Place, Slot>,
    step: &NameStep,
) -> Result<(), AllocError>
    ensures same { SameNames slots.old slots.new }
    ensures ok { OnOk result (HasSlots slots.new step.now) }
{
    match step {
        NameStep::Create(place, _) => make_slot(slots, place),
        NameStep::Rename(from, to) => {
            make_slot(slots, from)?;
            make_slot(slots, to)
        }
        NameStep::Remove(place) => make_slot(slots, place),
    }
}

/// The names after the step stand now.
pub(crate) fn take_step(slots: &mut BTreeMap<Place, Slot>, step: &NameStep)
    requires { HasSlots slots.old step.now }
    ensures now { names_in slots.new ≡ named step.now (names_in slots.old) }
    ensures synced { synced_names_in slots.new ≡ synced_names_in slots.old }
{
    match step {
        NameStep::Create(place, file) => set_file(slots, place, Some(*file)),
        NameStep::Rename(from, to) => {
            let file = file_at(slots, from);
            set_file(slots, to, file);
            set_file(slots, from, None);
        }
        NameStep::Remove(place) => set_file(slots, place, None),
    }
}

// The file that stands at a place is synced there.
fn settle_place(slots: &mut BTreeMap<Place, Slot>, place: &Place)
    ensures now { names_in slots.new ≡ names_in slots.old }
    ensures synced { synced_names_in slots.new
        ≡ with_name place.now (names_in slots.old place.now) (synced_names_in slots.old) }
{
    if let Some(slot) = slots.get_mut(place) {
        slot.synced = slot.now;
    }
}

// So is each file at a place of the step.
fn settle_step(slots: &mut BTreeMap<Place, Slot>, step: &NameStep)
    ensures now { names_in slots.new ≡ names_in slots.old }
    ensures synced { AreSettled slots.old slots.new step.now }
{
    match step {
        NameStep::Create(place, _) => settle_place(slots, place),
        NameStep::Rename(from, to) => {
            settle_place(slots, from);
            settle_place(slots, to);
        }
        NameStep::Remove(place) => settle_place(slots, place),
    }
}

/// The files that stand at the places of these steps are synced there.
pub(crate) fn settle_names(slots: &mut BTreeMap<Place, Slot>, steps: &[NameStep])
    requires { (p : Where) →
        IsNamedBy p steps.now ⊎ (synced_names_in slots.old p ≡ names_in slots.old p) }
    ensures now { names_in slots.new ≡ names_in slots.old }
    ensures synced { synced_names_in slots.new ≡ names_in slots.old }
{
    for step in steps {
        settle_step(slots, step);
    }
}
