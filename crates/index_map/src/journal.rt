//! The slots of the names of a journal.

ghost use Rattle.std.specs.Map.{lookup, values_of};
ghost use Rattle.std.specs.List.{filter_map};
ghost use Rattle.std.specs.Prelude.{◌≡◌, ◌++◌, [], IfOk, IsSome, OnOk, map};
ghost use Rattle.record_list.specs.Lists.{HasNames, same_name};

use crate::counts::{Counts, count_places, with, without};
use crate::listing::{push_placed, push_placed_changes};
use crate::name_order::{place_in, places_for};
use crate::slot::{Held, keep_seen_in, mark_written_in};
use cache_base::{Name, NoMemory};
use index_record::{IndexRecord, Records};
use std::alloc::Global;
use std::marker::Model;

/// A place for each name of a journal, in name order, with what is known under it. A place where no record is known
/// stands for no slot. All places are there from the start, so a change takes no memory, and no name is hashed.
#[derive(Drop)]
pub(crate) struct Journal {
    places: Vec<(Name, Held)>,
    counts: Counts,
}

impl Model for Journal {
    ghost use Rattle.std.specs.Prelude.{List};
    ghost use Rattle.cache_base.specs.declared.name.Name.{Name as AName};
    ghost use Rattle.index_map.specs.declared.slot.Held.{Held as AHeld};
    ghost use Rattle.index_map.specs.Slots.{ArePlaces};

    ghost Value = { List (AName × AHeld) };

    ghost view = { λ j. j.places.items };

    ghost invariant = { λ j. ArePlaces j.places.items j.counts };
}

impl Journal {
    ghost use Rattle.index_map.specs.Slots as spec;

    /// No places, which take no memory.
    pub fn new(alloc: Global) -> Journal
        ensures places { result ≡ [] }
    {
        Journal {
            places: Vec::new(alloc),
            counts: Counts::NONE,
        }
    }

    /// A place for each of these changes, where nothing is known yet.
    pub fn over(alloc: Global, changes: &Records) -> Result<Journal, NoMemory>
        requires { HasNames changes.now }
        ensures { IfOk result (λ journal. spec.used_in journal ≡ []) }
    {
        Ok(Journal {
            places: places_for(alloc, changes)?,
            counts: Counts::NONE,
        })
    }

    /// What is known at the place of a name, if it has one.
    pub fn get(&self, name: &Name) -> Option<Held>
        ensures held { result ≡ lookup (same_name name.now) self.now }
        ensures table { spec.IsTable (spec.slots_of self.now) }
    {
        let places = self.places.as_slice();
        match place_in(places, name) {
            Some(i) => Some(places[i].1),
            None => None,
        }
    }

    /// The counts of the slots.
    pub fn counts(&self) -> Counts
        ensures counts { result ≡ spec.counts_of (map spec.bare (values_of self.now)) }
        ensures few { spec.AreFew result }
        ensures table { spec.IsTable (spec.slots_of self.now) }
    {
        self.counts
    }

    /// Puts what is known at the place of a name.
    pub fn put(&mut self, name: &Name, slot: Held)
        requires fits { spec.IsSlotOf name.now (spec.slot_of name.now slot) }
        requires place { IsSome (lookup (same_name name.now) self.old) }
        ensures puts { spec.PutsHeld self.old self.new name.now slot }
        ensures table { spec.IsTable (spec.slots_of self.new) }
    {
        match place_in(self.places.as_slice(), name) {
            Some(i) => {
                let old = self.places[i].1;
                let counts = with(&self.counts, &slot);
                self.counts = without(&counts, &old);
                self.places[i] = (*name, slot);
            }
            None => {}
        }
    }

    /// Adds the records now, in name order.
    pub fn push_records(&self, list: &mut Vec<IndexRecord>) -> Result<(), NoMemory>
        ensures records { OnOk result (list.new.items
            ≡ list.old.items ++ spec.current_in (values_of (spec.slots_of self.now))) }
        ensures table { spec.IsTable (spec.slots_of self.now) }
    {
        push_placed(list, self.places.as_slice())
    }

    /// Adds what a journal has to say, in name order.
    pub fn push_changes(&self, list: &mut Vec<IndexRecord>) -> Result<(), NoMemory>
        ensures changes { OnOk result (list.new.items
            ≡ list.old.items ++ filter_map spec.change_in (values_of (spec.slots_of self.now))) }
        ensures table { spec.IsTable (spec.slots_of self.now) }
    {
        push_placed_changes(list, self.places.as_slice())
    }

    /// Takes the unseen records out.
    pub fn keep_seen(&mut self)
        ensures places { self.new ≡ map (λ e. (e.0, spec.seen_held e.1)) self.old }
    {
        keep_seen_in(&mut self.places);
        self.counts = count_places(self.places.as_slice());
    }

    /// Makes the records now those of the base.
    pub fn mark_written(&mut self)
        ensures places { self.new ≡ map (λ e. (e.0, spec.written_held e.1)) self.old }
    {
        mark_written_in(&mut self.places);
        self.counts = count_places(self.places.as_slice());
    }
}
