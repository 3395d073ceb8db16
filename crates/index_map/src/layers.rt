//! The slots of a map in two layers: the list of the base, and a table of what differs from it.

ghost use Rattle.std.specs.List.{filter_map};
ghost use Rattle.std.specs.Map.{lookup, values_of};
ghost use Rattle.std.specs.Option.{option_map};
ghost use Rattle.std.specs.Prelude.{◌≡◌, ◌+◌, ◌<◌, ◌^◌, [], IfOk, None, OnErr, OnOk, Some, true};
ghost use Rattle.cache_base.specs.declared.name.Name.{Name as AName};
ghost use Rattle.record_list.specs.Lists.{HasNames, record_at, same_name};
ghost use Rattle.index_map.specs.Known.{ArePlain, IsPlain};

use crate::base::Base;
use crate::counts::{Counts, both};
use crate::filling::put_record;
use crate::mark::Mark;
use crate::slot::{Held, differs, facts_of};
use crate::table::Table;
use cache_base::{Name, NoMemory};
use index_record::{IndexRecord, Records};
use std::alloc::Global;
use std::marker::Model;

/// A slot for each name that has a record now or in the base. It stands in the list of the base where the record now
/// is the base's, or where there is none now, and else in the table.
#[derive(Drop)]
pub(crate) struct Layers {
    others: Table,
    base: Base,
}

impl Model for Layers {
    ghost use Rattle.std.specs.Prelude.{List, ◌++◌};
    ghost use Rattle.cache_base.specs.declared.name.Name.{Name as AName};
    ghost use Rattle.index_map.specs.Slots.{AreApart, Slot};

    ghost Value = { List (AName × Slot) };

    ghost view = { λ l. l.others ++ l.base };

    ghost invariant = { λ l. AreApart l.others l.base };
}

impl Layers {
    ghost use Rattle.index_map.specs.Slots as spec;

    /// No slots, which take no memory.
    pub fn new(alloc: Global) -> Layers
        ensures slots { result ≡ [] }
    {
        Layers {
            others: Table::new(alloc),
            base: Base::new(alloc),
        }
    }

    /// The slots of a base whose records are the records now, all of them seen or none.
    pub fn over(alloc: Global, base: Records, seen: bool) -> Result<Layers, NoMemory>
        requires names { HasNames base }
        requires plain { ArePlain base }
        ensures slots { IfOk result (λ layers. (q : AName) →
            lookup (same_name q) layers ≡ option_map (spec.base_slot seen) (record_at base q)) }
        ensures table { IfOk result spec.IsTable }
    {
        Ok(Layers {
            others: Table::new(alloc),
            base: Base::over(alloc, base, seen)?,
        })
    }

    /// The slot of a name.
    pub fn get(&self, name: &Name) -> Option<Held>
        ensures slot { option_map (spec.slot_of name.now) result
            ≡ lookup (same_name name.now) self.now }
        ensures table { spec.IsTable self.now }
    {
        let kept = self.base.get(name);
        match self.others.get(name).copied() {
            Some(held) => Some(held),
            None => kept,
        }
    }

    /// Puts a record, and marks it as seen, or leaves the slots as they were.
    pub fn put(&mut self, r: &IndexRecord) -> Result<(), NoMemory>
        requires { IsPlain r.now }
        ensures ok { OnOk result (spec.PutsSlot self.old self.new r.now.name
            (Some (spec.record_slot r.now true (lookup (same_name r.now.name) self.old)))) }
        ensures err { OnErr result (self.new ≡ self.old) }
        ensures was_table { spec.IsTable self.old }
        ensures table { spec.IsTable self.new }
    {
        // The table is a table, as its counts ensure.
        let _counts = self.others.counts();
        match self.base.get(&r.name) {
            None => put_record(&mut self.others, r, true),
            Some(kept) => {
                let slot = Held {
                    current: Some(facts_of(r)),
                    base: kept.base,
                    seen: true,
                };
                if differs(&slot) {
                    self.others.put(r.name, slot)?;
                    self.base.mark(&r.name, Mark::Away);
                    Ok(())
                } else {
                    self.base.mark(&r.name, Mark::Seen);
                    Ok(())
                }
            }
        }
    }

    /// Takes the record of a name out.
    pub fn remove(&mut self, name: &Name)
        ensures removes { spec.PutsSlot self.old self.new name.now
            (spec.gone_slot (lookup (same_name name.now) self.old)) }
        ensures was_table { spec.IsTable self.old }
        ensures table { spec.IsTable self.new }
    {
        // The table is a table, as its counts ensure.
        let _counts = self.others.counts();
        match self.base.get(name) {
            Some(_) => self.base.mark(name, Mark::Gone),
            None => self.others.remove(name),
        }
    }

    /// Takes the slot of a name out.
    pub fn take(&mut self, name: &Name)
        ensures taken { spec.PutsSlot self.old self.new name.now None }
        ensures was_table { spec.IsTable self.old }
        ensures table { spec.IsTable self.new }
    {
        // The table is a table, as its counts ensure.
        let _counts = self.others.counts();
        match self.base.get(name) {
            Some(_) => self.base.mark(name, Mark::Away),
            None => self.others.take(name),
        }
    }

    /// The counts of the slots.
    pub fn counts(&self) -> Counts
        ensures counts { result ≡ spec.counts_of (values_of self.now) }
        ensures records { result.records < 2 ^ 63 + 2 ^ 62 }
        ensures kilobytes { result.kilobytes < 2 ^ 127 + 2 ^ 126 }
        ensures changed { result.changed < 2 ^ 63 + 2 ^ 62 }
        ensures table { spec.IsTable self.now }
    {
        both(self.others.counts(), self.base.counts())
    }

    /// The records now.
    pub fn records(&self, alloc: Global) -> Result<Vec<IndexRecord>, NoMemory>
        ensures records { IfOk result (λ list. list.items ≡ spec.current_in (values_of self.now)) }
        ensures table { spec.IsTable self.now }
    {
        // The base is a table, as its counts ensure.
        let _counts = self.base.counts();
        let mut list = self.others.records(alloc)?;
        self.base.push_records(&mut list)?;
        Ok(list)
    }

    /// What a journal has to say.
    pub fn changes(&self, alloc: Global) -> Result<Vec<IndexRecord>, NoMemory>
        ensures changes { IfOk result (λ list.
            list.items ≡ filter_map spec.change_in (values_of self.now)) }
        ensures table { spec.IsTable self.now }
    {
        // The base is a table, as its counts ensure.
        let _counts = self.base.counts();
        let mut list = self.others.changes(alloc)?;
        self.base.push_changes(&mut list)?;
        Ok(list)
    }

    /// Takes the unseen records out, and the slots that hold no record then.
    pub fn keep_seen(&mut self)
        ensures slots { self.new ≡ spec.rewritten spec.seen_only self.old }
    {
        self.others.keep_seen();
        self.base.keep_seen();
    }

    /// Makes the records now those of the base, and takes out the slots that hold no record then.
    pub fn mark_written(&mut self)
        ensures slots { self.new ≡ spec.rewritten spec.written self.old }
    {
        self.others.mark_written();
        self.base.mark_written();
    }
}
