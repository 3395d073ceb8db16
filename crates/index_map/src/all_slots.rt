//! The slots of a map: those of the names of a journal, and the layers for all other names.

ghost use Rattle.std.specs.List.{filter_map};
ghost use Rattle.std.specs.Map.{lookup, values_of};
ghost use Rattle.std.specs.Option.{option_map};
ghost use Rattle.std.specs.Prelude.{◌≡◌, [], IfOk, OnErr, OnOk, Some, true};
ghost use Rattle.cache_base.specs.declared.name.Name.{Name as AName};
ghost use Rattle.record_list.specs.Lists.{HasNames, record_at, same_name};
ghost use Rattle.index_map.specs.Known.{ArePlain, IsPlain};

use crate::counts::{Counts, both};
use crate::journal::Journal;
use crate::layers::Layers;
use crate::reading::base_over;
use crate::slot::{Held, facts_of, used};
use cache_base::{Name, NoMemory};
use index_record::{IndexRecord, Records};
use std::alloc::Global;
use std::marker::Model;

/// A slot for each name that has a record now or in the base. It stands at the place of the name if the journal had
/// the name, and else in the layers. So only names that the run learns are ever in a table by a hash.
#[derive(Drop)]
pub(crate) struct AllSlots {
    layers: Layers,
    journal: Journal,
}

impl Model for AllSlots {
    ghost use Rattle.std.specs.Prelude.{List, ◌++◌};
    ghost use Rattle.cache_base.specs.declared.name.Name.{Name as AName};
    ghost use Rattle.index_map.specs.Slots.{AreApart, Slot, used_in};

    ghost Value = { List (AName × Slot) };

    ghost view = { λ s. s.layers ++ used_in s.journal };

    ghost invariant = { λ s. AreApart s.layers (used_in s.journal) };
}

impl AllSlots {
    ghost use Rattle.index_map.specs.Slots as spec;

    /// No slots, which take no memory.
    pub fn new(alloc: Global) -> AllSlots
        ensures slots { result ≡ [] }
    {
        AllSlots {
            layers: Layers::new(alloc),
            journal: Journal::new(alloc),
        }
    }

    /// The slots of a base whose records are the records now, all of them seen or none, beside the places of a journal
    /// at which nothing is known.
    pub fn over(
        alloc: Global,
        base: Records,
        seen: bool,
        journal: Journal,
    ) -> Result<AllSlots, NoMemory>
        requires names { HasNames base }
        requires plain { ArePlain base }
        requires unused { spec.used_in journal ≡ [] }
        ensures slots { IfOk result (λ all. (q : AName) →
            lookup (same_name q) all ≡ option_map (spec.base_slot seen) (record_at base q)) }
        ensures table { IfOk result spec.IsTable }
    {
        Ok(AllSlots {
            layers: Layers::over(alloc, base, seen)?,
            journal,
        })
    }

    /// The slot of a name.
    pub fn get(&self, name: &Name) -> Option<Held>
        ensures slot { option_map (spec.slot_of name.now) result
            ≡ lookup (same_name name.now) self.now }
        ensures table { spec.IsTable self.now }
    {
        let placed = used(self.journal.get(name));
        match self.layers.get(name) {
            Some(held) => Some(held),
            None => placed,
        }
    }

    /// Puts a record, and marks it as seen, or leaves the slots as they were.
    pub fn put(&mut self, r: &IndexRecord) -> Result<(), NoMemory>
        requires { IsPlain r.now }
        ensures ok { OnOk result (spec.PutsSlot self.old self.new r.now.name
            (Some (spec.record_slot r.now true (lookup (same_name r.now.name) self.old)))) }
        ensures err { OnErr result (self.new ≡ self.old) }
        ensures was_table { spec.IsTable self.old }
        ensures table { spec.IsTable self.new }
    {
        match self.journal.get(&r.name) {
            None => self.layers.put(r),
            Some(placed) => {
                let base = base_over(&placed, self.layers.get(&r.name));
                let slot = Held {
                    current: Some(facts_of(r)),
                    base,
                    seen: true,
                };
                self.layers.take(&r.name);
                self.journal.put(&r.name, slot);
                Ok(())
            }
        }
    }

    /// Takes the record of a name out.
    pub fn remove(&mut self, name: &Name)
        ensures removes { spec.PutsSlot self.old self.new name.now
            (spec.gone_slot (lookup (same_name name.now) self.old)) }
        ensures was_table { spec.IsTable self.old }
        ensures table { spec.IsTable self.new }
    {
        match self.journal.get(name) {
            None => self.layers.remove(name),
            Some(placed) => {
                let base = base_over(&placed, self.layers.get(name));
                let slot = Held {
                    current: None,
                    base,
                    seen: false,
                };
                self.layers.take(name);
                self.journal.put(name, slot);
            }
        }
    }

    /// The counts of the slots.
    pub fn counts(&self) -> Counts
        ensures counts { result ≡ spec.counts_of (values_of self.now) }
        ensures table { spec.IsTable self.now }
    {
        both(self.layers.counts(), self.journal.counts())
    }

    /// The records now.
    pub fn records(&self, alloc: Global) -> Result<Vec<IndexRecord>, NoMemory>
        ensures records { IfOk result (λ list. list.items ≡ spec.current_in (values_of self.now)) }
        ensures table { spec.IsTable self.now }
    {
        // The places are a table, as their counts ensure.
        let _counts = self.journal.counts();
        let mut list = self.layers.records(alloc)?;
        self.journal.push_records(&mut list)?;
        Ok(list)
    }

    /// What a journal has to say.
    pub fn changes(&self, alloc: Global) -> Result<Vec<IndexRecord>, NoMemory>
        ensures changes { IfOk result (λ list.
            list.items ≡ filter_map spec.change_in (values_of self.now)) }
        ensures table { spec.IsTable self.now }
    {
        // The places are a table, as their counts ensure.
        let _counts = self.journal.counts();
        let mut list = self.layers.changes(alloc)?;
        self.journal.push_changes(&mut list)?;
        Ok(list)
    }

    /// Takes the unseen records out, and the slots that hold no record then.
    pub fn keep_seen(&mut self)
        ensures slots { self.new ≡ spec.rewritten spec.seen_only self.old }
    {
        self.layers.keep_seen();
        self.journal.keep_seen();
    }

    /// Makes the records now those of the base, and takes out the slots that hold no record then.
    pub fn mark_written(&mut self)
        ensures slots { self.new ≡ spec.rewritten spec.written self.old }
    {
        self.layers.mark_written();
        self.journal.mark_written();
    }
}
