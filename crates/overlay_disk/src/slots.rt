//! What stands at the places that were changed.

ghost use Rattle.std.specs.Prelude.{◌≡◌, OnOk};
ghost use Rattle.disk_theory.specs.declared.place.Place.{Place as Where};
ghost use Rattle.overlay_disk.specs.Seen.{overs_in, with_over, HasSlot};
ghost use Rattle.overlay_disk.specs.declared.over.Over.TheVariants.{Below};

use crate::over::Over;
use disk_theory::Place;
use std::alloc::AllocError;
use std::collections::BTreeMap;
use std::mem;

/// Makes a slot for a place. What stands there stays.
pub(crate) fn make_slot(slots: &mut BTreeMap<Place, Over>, place: &Place) -> Result<(), AllocError>
    ensures same { overs_in slots.new ≡ overs_in slots.old }
    ensures ok { OnOk result (HasSlot slots.new place.now) }
    ensures kept { (q : Where) → HasSlot slots.old q → HasSlot slots.new q }
{
    if slots.contains_key(place) {
        return Ok(());
    }
    slots.insert(*place, Over::Below)?;
    Ok(())
}

/// Takes what is known of a place that has a slot, and leaves there what stands below.
pub(crate) fn take(slots: &mut BTreeMap<Place, Over>, place: &Place) -> Over
    requires { HasSlot slots.old place.now }
    ensures over { result ≡ overs_in slots.old place.now }
    ensures rest { overs_in slots.new ≡ with_over place.now Below (overs_in slots.old) }
    ensures kept { (q : Where) → HasSlot slots.old q → HasSlot slots.new q }
{
    match slots.get_mut(place) {
        Some(slot) => mem::replace(slot, Over::Below),
        None => unreachable!(),
    }
}

/// Puts this at a place that has a slot.
pub(crate) fn put(slots: &mut BTreeMap<Place, Over>, place: &Place, over: Over)
    requires { HasSlot slots.old place.now }
    ensures now { overs_in slots.new ≡ with_over place.now over (overs_in slots.old) }
    ensures kept { (q : Where) → HasSlot slots.old q → HasSlot slots.new q }
{
    if let Some(slot) = slots.get_mut(place) {
        *slot = over;
    }
}
