//! The table of entries in use, and of the slots that use them.

ghost use Rattle.std.specs.Prelude.{◌≡◌, ◌<◌, EachIndex, IfOk, IsSome, None, Some, slice_get, slice_index_or, slice_set, true, length, unwrap_or};
ghost use Rattle.std.specs.List.{list_any};
ghost use Rattle.cache_base.specs.declared.limits.TheConstants.{SLOTS};
ghost use Rattle.handle_table.specs.Seats.{AreLow, AreUsed, IsLow, is_use_of};

use crate::object::{Entry, Label, Object, Use};
use cache_base::{NoMemory, SLOTS};
use cache_theory::Refusal;
use chunk_cache::ChunkCache;
use std::alloc::Global;

/// The objects in use, and the uses of the slots. While a slot is free there is room for one more object.
#[derive(Drop)]
pub struct Rows {
    /// The objects in use, at their places.
    pub objects: [Option<Object>; SLOTS],
    /// What each slot uses.
    pub slots: [Option<Use>; SLOTS],
    /// Each object has a slot that uses it.
    pub ghost are_used: { AreUsed objects slots },
    /// A file that stands aside has a number that is less than the number of slots.
    pub ghost are_low: { AreLow objects },
}

/// The table of handles: the entries in use, the slots that use them, and the chunks of their bodies that are held.
#[derive(Drop)]
pub struct HandleTable {
    /// The objects in use, and the uses of the slots.
    pub rows: Rows,
    /// How many objects were made: so no number is used twice.
    pub made: u64,
    /// The chunks that were read last, of objects in use.
    pub chunks: ChunkCache,
}

impl HandleTable {
    ghost use Rattle.handle_table.specs.Held.{labelled};
    ghost use Rattle.handle_table.specs.Kept.{IsUnused, kept_in, live_use as live_use_of, object_at as object_kept_at, use_at, used as used_or, with_object, writing as writing_or};

    /// A table with no entry in use. The memory for chunks is taken as they come.
    pub fn new(alloc: Global) -> Result<HandleTable, NoMemory>
        ensures { IfOk result (λ table. IsUnused (kept_in table)) }
    {
        Ok(HandleTable {
            rows: Rows {
                objects: no_objects(),
                slots: no_uses(),
            },
            made: 0,
            chunks: ChunkCache::new(alloc)?,
        })
    }

    /// The use of a slot.
    pub fn use_of(&self, slot: u8) -> Result<Use, Refusal>
        requires { slot < SLOTS }
        ensures { result ≡ used_or (use_at (kept_in self.now) slot) }
    {
        match self.rows.slots[usize::from(slot)] {
            Some(used) => Ok(used),
            None => Err(Refusal::NoSlot),
        }
    }

    /// The use of a slot whose object is there. The object is gone where a change of it failed: the slot has none then.
    pub fn live_use(&self, slot: u8) -> Result<Use, Refusal>
        requires { slot < SLOTS }
        ensures used { result ≡ used_or (live_use_of (kept_in self.now) slot) }
        ensures there { IfOk result (λ used.
            IsSome (object_kept_at (kept_in self.now) used.place)) }
    {
        let used = self.use_of(slot)?;
        if self.rows.objects[used.place].is_some() {
            Ok(used)
        } else {
            Err(Refusal::NoSlot)
        }
    }

    /// The same, if the slot writes.
    pub fn writing(&self, slot: u8) -> Result<Use, Refusal>
        requires { slot < SLOTS }
        ensures used { result ≡ writing_or (live_use_of (kept_in self.now) slot) }
        ensures there { IfOk result (λ used.
            IsSome (object_kept_at (kept_in self.now) used.place)) }
    {
        let used = self.live_use(slot)?;
        if used.writes {
            Ok(used)
        } else {
            Err(Refusal::NotWriter)
        }
    }

    /// The object at a place.
    pub fn object_at(&self, place: usize) -> &Object
        requires place { place < SLOTS }
        requires there { IsSome (object_kept_at (kept_in self.now) place) }
        ensures { object_kept_at (kept_in self.now) place ≡ Some result.now }
    {
        match &self.rows.objects[place] {
            Some(object) => object,
            None => unreachable!(),
        }
    }

    /// Takes the object at a place out of the table.
    pub fn take(&mut self, place: usize) -> Object
        requires place { place < SLOTS }
        requires there { IsSome (object_kept_at (kept_in self.old) place) }
        ensures found { object_kept_at (kept_in self.old) place ≡ Some result }
        ensures kept { kept_in self.new ≡ with_object (kept_in self.old) place None }
        ensures used { list_any (is_use_of place) (kept_in self.new).slots ≡ true }
        ensures low { IsLow result.aside }
    {
        let rows = &mut self.rows;
        match take_at(&mut rows.objects, place) {
            Some(object) => object,
            None => unreachable!(),
        }
    }

    /// Puts an object at a place that a slot uses.
    pub fn put(&mut self, place: usize, object: Object)
        requires place { place < SLOTS }
        requires used { list_any (is_use_of place) (kept_in self.old).slots ≡ true }
        requires low { IsLow object.aside }
        ensures { kept_in self.new ≡ with_object (kept_in self.old) place (Some object) }
    {
        self.rows.objects[place] = Some(object);
    }

    /// Takes the object at a place out of the table, and its entry out of it.
    pub fn take_apart(&mut self, place: usize) -> (Label, Entry)
        requires place { place < SLOTS }
        requires there { IsSome (object_kept_at (kept_in self.old) place) }
        ensures found { object_kept_at (kept_in self.old) place
            ≡ Some (labelled result.0 result.1) }
        ensures kept { kept_in self.new ≡ with_object (kept_in self.old) place None }
        ensures used { list_any (is_use_of place) (kept_in self.new).slots ≡ true }
        ensures low { IsLow result.0.aside }
    {
        let Object {
            number,
            name,
            doomed,
            aside,
            entry,
        } = self.take(place);
        let label = Label {
            number,
            name,
            doomed,
            aside,
        };
        (label, entry)
    }

    /// Puts the object of a label and an entry at a place that a slot uses.
    pub fn put_entry(&mut self, place: usize, label: Label, entry: Entry)
        requires place { place < SLOTS }
        requires used { list_any (is_use_of place) (kept_in self.old).slots ≡ true }
        requires low { IsLow label.aside }
        ensures { kept_in self.new ≡ with_object (kept_in self.old) place
            (Some (labelled label entry)) }
    {
        let Label {
            number,
            name,
            doomed,
            aside,
        } = label;
        let object = Object {
            number,
            name,
            doomed,
            aside,
            entry,
        };
        self.put(place, object);
    }

    /// The table has a row for each slot: it tells the lengths to a caller.
    pub fn has_rows(&self)
        ensures objects { length (kept_in self.now).objects ≡ SLOTS }
        ensures slots { length (kept_in self.now).slots ≡ SLOTS }
    {
        have_rows(&self.rows.objects, &self.rows.slots);
    }
}

// The lengths of the arrays.
fn have_rows(objects: &[Option<Object>; SLOTS], slots: &[Option<Use>; SLOTS])
    ensures objects { length objects.now ≡ SLOTS }
    ensures slots { length slots.now ≡ SLOTS }
{}

/// Takes what is at a place out of the table.
pub(crate) fn take_at(objects: &mut [Option<Object>; SLOTS], place: usize) -> Option<Object>
    requires { place < SLOTS }
    ensures found { result ≡ unwrap_or (slice_get objects.old place) None }
    ensures taken { objects.new ≡ slice_set objects.old place None }
{
    objects[place].take()
}

// A table with no object.
fn no_objects() -> [Option<Object>; SLOTS]
    ensures { EachIndex result (λ i. slice_index_or result i None ≡ None) }
{
    std::array::from_fn(
        |_| -> Option<Object>
            ensures { result ≡ None }
        { None },
    )
}

// A table in which no slot has a use.
fn no_uses() -> [Option<Use>; SLOTS]
    ensures { EachIndex result (λ i. slice_index_or result i None ≡ None) }
{
    [None; SLOTS]
}
