//! The slots of names by a hash, and their counts.

ghost use Rattle.std.specs.Prelude.{◌≡◌, [], IfOk, OnOk, OnErr, None, Some};
ghost use Rattle.std.specs.List.{filter_map};
ghost use Rattle.std.specs.Option.{option_copied, option_map};
ghost use Rattle.std.specs.Map.{lookup, values_of};
ghost use Rattle.record_list.specs.Lists.{same_name};

use crate::counts::{Counts, count, with, without};
use crate::listing::{changes, current_records};
use crate::reading::base_at;
use crate::slot::{Held, keep_seen, mark_written};
use cache_base::{Name, NoMemory};
use index_record::IndexRecord;
use indexmap::IndexMap;
use std::alloc::Global;
use std::hash::{BuildHasherDefault, DefaultHasher};
use std::marker::Model;

/// The slots by name, in the order in which they came. The hash is one of all bytes of a name, and its keys are fixed:
/// what comes here are names that a run learns, and those are hashes of keys, so nobody chooses them.
pub(crate) type Slots = IndexMap<Name, Held, BuildHasherDefault<DefaultHasher>>;

/// The slots of some names, each of which has a record now or in the base.
#[derive(Drop)]
pub(crate) struct Table {
    slots: Slots,
    counts: Counts,
}

impl Model for Table {
    ghost use Rattle.std.specs.Map.{values_of};
    ghost use Rattle.std.specs.Prelude.{◌≡◌, List};
    ghost use Rattle.cache_base.specs.declared.name.Name.{Name as AName};
    ghost use Rattle.index_map.specs.Slots.{IsTable, Slot, counts_of, slots_of};

    ghost Value = { List (AName × Slot) };

    ghost view = { λ t. slots_of t.slots.entries };

    ghost invariant = { λ t. IsTable (slots_of t.slots.entries)
        × (t.counts ≡ counts_of (values_of (slots_of t.slots.entries))) };
}

impl Table {
    ghost use Rattle.index_map.specs.Slots as spec;

    /// The table with no slot, which takes no memory.
    pub fn new(alloc: Global) -> Table
        ensures slots { result ≡ [] }
        ensures table { spec.IsTable result }
    {
        Table {
            slots: IndexMap::with_hasher(alloc, BuildHasherDefault::new()),
            counts: Counts::NONE,
        }
    }

    /// The slot of a name.
    pub fn get(&self, name: &Name) -> Option<&Held>
        ensures slot { option_map (spec.slot_of name.now) (option_copied result)
            ≡ lookup (same_name name.now) self.now }
        ensures table { spec.IsTable self.now }
    {
        self.slots.get(name)
    }

    /// The counts of the slots.
    pub fn counts(&self) -> Counts
        ensures counts { result ≡ spec.counts_of (values_of self.now) }
        ensures small { spec.AreSmall result }
        ensures table { spec.IsTable self.now }
    {
        // A map has fewer than 2^63 entries.
        let _len = self.slots.len();
        self.counts
    }

    /// The records now, in the order of the slots.
    pub fn records(&self, alloc: Global) -> Result<Vec<IndexRecord>, NoMemory>
        ensures records { IfOk result (λ list. list.items ≡ spec.current_in (values_of self.now)) }
        ensures table { spec.IsTable self.now }
    {
        current_records(alloc, &self.slots)
    }

    /// What a journal has to say, in the order of the slots.
    pub fn changes(&self, alloc: Global) -> Result<Vec<IndexRecord>, NoMemory>
        ensures changes { IfOk result (λ list.
            list.items ≡ filter_map spec.change_in (values_of self.now)) }
        ensures table { spec.IsTable self.now }
    {
        changes(alloc, &self.slots)
    }

    /// Puts a slot under its name, in place of the one that stands there. After `NoMemory`, which comes only where none
    /// stands there, the table is as before.
    pub fn put(&mut self, name: Name, slot: Held) -> Result<(), NoMemory>
        requires { spec.IsSlotOf name (spec.slot_of name slot) }
        ensures ok { OnOk result
            (spec.PutsSlot self.old self.new name (Some (spec.slot_of name slot))) }
        ensures err { OnErr result (self.new ≡ self.old) }
        ensures absent { OnErr result (lookup (same_name name) self.old ≡ None) }
        ensures was_table { spec.IsTable self.old }
        ensures table { spec.IsTable self.new }
    {
        // A map has fewer than 2^63 entries: the counts fit their types.
        let _len = self.slots.len();
        let old = self.slots.insert(name, slot)?.unwrap_or(Held::EMPTY);
        let counts = with(&self.counts, &slot);
        self.counts = without(&counts, &old);
        Ok(())
    }

    /// Takes the slot of a name out.
    pub fn take(&mut self, name: &Name)
        ensures taken { spec.PutsSlot self.old self.new name.now None }
        ensures was_table { spec.IsTable self.old }
        ensures table { spec.IsTable self.new }
    {
        if let Some(old) = self.slots.swap_remove(name) {
            self.counts = without(&self.counts, &old);
        }
    }

    /// Takes the record of a name out, and its slot where the base has no record of the name.
    pub fn remove(&mut self, name: &Name)
        ensures removes { spec.PutsSlot self.old self.new name.now
            (spec.gone_slot (lookup (same_name name.now) self.old)) }
        ensures was_table { spec.IsTable self.old }
        ensures table { spec.IsTable self.new }
    {
        match base_at(self, name) {
            None => self.take(name),
            Some(base) => {
                let slot = Held {
                    current: None,
                    base: Some(base),
                    seen: false,
                };
                // A name that has a slot needs no memory.
                self.put(*name, slot).unwrap();
            }
        }
    }

    /// Takes the unseen records out, and the slots that hold no record then.
    pub fn keep_seen(&mut self)
        ensures slots { self.new ≡ spec.rewritten spec.seen_only self.old }
        ensures was_table { spec.IsTable self.old }
        ensures table { spec.IsTable self.new }
    {
        self.slots.retain(|_, slot| keep_seen(slot));
        self.counts = count(self.slots.values().as_slice());
    }

    /// Makes the records now those of the base, and takes out the slots that hold no record then.
    pub fn mark_written(&mut self)
        ensures slots { self.new ≡ spec.rewritten spec.written self.old }
        ensures was_table { spec.IsTable self.old }
        ensures table { spec.IsTable self.new }
    {
        self.slots.retain(|_, slot| mark_written(slot));
        self.counts = count(self.slots.values().as_slice());
    }
}
