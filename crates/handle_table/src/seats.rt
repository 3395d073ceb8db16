//! Which slots use which places.

ghost use Rattle.std.specs.Prelude.{◌≡◌, ◌<◌, IsSome, None, Some, length, option_map, true};
ghost use Rattle.std.specs.List.{list_any, position};
ghost use Rattle.cache_base.specs.declared.limits.TheConstants.{SLOTS};
ghost use Rattle.handle_table.specs.Finding.{is_free};
ghost use Rattle.handle_table.specs.Seats.{IsLow, is_use_of};

use crate::HandleTable;
use crate::object::{Object, Use};
use crate::table::take_at;
use cache_base::{NoMemory, SLOTS};

/// Whether the use is of this place.
pub(crate) fn uses(used: &Option<Use>, place: usize) -> bool
    ensures { result ≡ is_use_of place used.now }
{
    match used {
        Some(used) => used.place == place,
        None => false,
    }
}

// Whether some slot uses the place.
fn is_used(slots: &[Option<Use>; SLOTS], place: usize) -> bool
    ensures used { result ≡ list_any (is_use_of place) slots.now }
    ensures length { length slots.now ≡ SLOTS }
{
    slots.iter().any(|used| uses(used, place))
}

impl HandleTable {
    ghost use Rattle.handle_table.specs.HeldChunks.{SameChunks};
    ghost use Rattle.handle_table.specs.Joining.{AddsOrIsFull, JoinsAt};
    ghost use Rattle.handle_table.specs.Kept.{kept_in, object_at as object_kept_at, use_at};
    ghost use Rattle.handle_table.specs.Leaving.{LeavesPlace};

    // The first place that no object has, if there is one.
    fn first_free(&self) -> Option<usize>
        ensures { result ≡ position is_free (kept_in self.now).objects }
    {
        self.rows.objects.iter().position(|object| object.is_none())
    }

    // The first place that no object has. There is one while a slot is free.
    fn free_place(&self, slot: u8) -> usize
        requires slot { slot < SLOTS }
        requires free { use_at (kept_in self.now) slot ≡ None }
        ensures { position is_free (kept_in self.now).objects ≡ Some result }
    {
        self.has_rows();
        match self.first_free() {
            Some(place) => place,
            None => unreachable!(),
        }
    }

    /// Makes a free slot a user of the object at a place.
    pub fn join(&mut self, slot: u8, place: usize, writes: bool)
        requires slot { slot < SLOTS }
        requires free { use_at (kept_in self.old) slot ≡ None }
        requires place { place < SLOTS }
        ensures joins { JoinsAt slot place writes (kept_in self.old) (kept_in self.new) }
        ensures used { list_any (is_use_of place) (kept_in self.new).slots ≡ true }
    {
        self.has_rows();
        let rows = &mut self.rows;
        rows.slots[usize::from(slot)] = Some(Use { place, writes });
    }

    /// Puts a new object at the first free place, for a slot that is free. It takes no memory: the only fault is that so
    /// many objects were made that no number is left.
    pub fn add(&mut self, slot: u8, object: Object, writes: bool) -> Result<(), NoMemory>
        requires slot { slot < SLOTS }
        requires free { use_at (kept_in self.old) slot ≡ None }
        requires numbered { object.number ≡ (kept_in self.old).made }
        requires low { IsLow object.aside }
        ensures adds { AddsOrIsFull slot object writes result
            (kept_in self.old) (kept_in self.new) }
        ensures chunks { SameChunks (kept_in self.old) (kept_in self.new) }
    {
        // No run makes so many objects.
        let Some(made) = self.made.checked_add(1) else {
            return Err(NoMemory);
        };
        let place = self.free_place(slot);
        self.made = made;
        self.join(slot, place, writes);
        self.put(place, object);
        Ok(())
    }

    /// Takes its use from a slot that has this place. If no other slot uses the place, the object there is given back,
    /// and its chunks are forgotten.
    pub fn leave(&mut self, slot: u8, place: usize) -> Option<Object>
        requires slot { slot < SLOTS }
        requires place { place < SLOTS }
        requires used { option_map (λ u. u.place) (use_at (kept_in self.old) slot) ≡ Some place }
        requires there { IsSome (object_kept_at (kept_in self.old) place) }
        ensures { LeavesPlace slot place result (kept_in self.old) (kept_in self.new) }
    {
        // Each object has a slot that uses it: so it goes with its last one.
        let rows = &mut self.rows;
        rows.slots[usize::from(slot)] = None;
        if is_used(&rows.slots, place) {
            return None;
        }
        match take_at(&mut rows.objects, place) {
            Some(object) => {
                self.chunks.forget(object.number);
                Some(object)
            }
            None => unreachable!(),
        }
    }
}
