//! The records of the index in memory.

ghost use Rattle.std.specs.Prelude.{◌≡◌, [], IfOk, None, OnErr, OnOk, Some, length, sum_by, true};
ghost use Rattle.index_record.specs.Record.{size_kb as size_kb_of};
ghost use Rattle.record_list.specs.Change.{IsDiff, kept};
ghost use Rattle.record_list.specs.Lists.{HasNames, IsByName, record_at};
ghost use Rattle.record_list.specs.Stored.{AreClean, IsClean};
ghost use Rattle.index_map.specs.Slots.{used_in};

use crate::all_slots::AllSlots;
use crate::counts::Totals;
use crate::journal::Journal;
use crate::reading::seen_at;
use cache_base::{Name, NoMemory};
use index_record::{IndexRecord, Records, is_removed};
use record_list::by_name;
use std::alloc::Global;
use std::marker::Model;

/// The records now, each with a mark that says whether it was seen, and the base, which is the list of records in the
/// file `index`, if there is one.
#[derive(Drop)]
pub struct RecordMap {
    slots: AllSlots,
    has_base: bool,
    alloc: Global,
}

impl Model for RecordMap {
    ghost use Rattle.std.specs.Map.{values_of};
    ghost use Rattle.std.specs.Prelude.{◌≡◌, [], false};
    ghost use Rattle.index_map.specs.Known.{Known};
    ghost use Rattle.index_map.specs.Slots.{base_in, shown};

    ghost Value = { Known };

    ghost view = { λ m. shown m.slots m.has_base };

    ghost invariant = { λ m. m.has_base ≡ false → base_in (values_of m.slots) ≡ [] };
}

impl RecordMap {
    ghost use Rattle.index_map.specs.Known as spec;

    /// A map without records and without a base, which takes no memory.
    pub fn new(alloc: Global) -> RecordMap
        ensures { result ≡ spec.no_records }
    {
        RecordMap {
            slots: AllSlots::new(alloc),
            has_base: false,
            alloc,
        }
    }

    /// The map of the records of a base, all of them seen or none. They stay in their memory, where they are sorted by
    /// name.
    pub fn with_base(alloc: Global, base: Records, seen: bool) -> Result<RecordMap, NoMemory>
        requires names { HasNames base }
        requires plain { spec.ArePlain base }
        ensures { IfOk result (spec.BeginsOver base base seen) }
    {
        RecordMap::begun(alloc, base, seen, Journal::new(alloc))
    }

    // The map of the records of a base, with places for the names of a journal at which nothing is known yet.
    fn begun(
        alloc: Global,
        base: Records,
        seen: bool,
        journal: Journal,
    ) -> Result<RecordMap, NoMemory>
        requires names { HasNames base }
        requires plain { spec.ArePlain base }
        requires unused { used_in journal ≡ [] }
        ensures { IfOk result (spec.BeginsOver base base seen) }
    {
        Ok(RecordMap {
            slots: AllSlots::over(alloc, base, seen, journal)?,
            has_base: true,
            alloc,
        })
    }

    /// The map of the records of a base after the changes of a journal, all of them seen, over this base.
    pub fn with_journal(
        alloc: Global,
        base: Records,
        changes: &Records,
    ) -> Result<RecordMap, NoMemory>
        requires base_names { HasNames base }
        requires plain { spec.ArePlain base }
        requires names { HasNames changes.now }
        requires clean { AreClean changes.now }
        ensures { IfOk result (spec.BeginsAfter base changes.now) }
    {
        let journal = Journal::over(alloc, changes)?;
        let mut map = RecordMap::begun(alloc, base, true, journal)?;
        map.apply(changes.as_slice())?;
        Ok(map)
    }

    // Makes the changes of a journal.
    fn apply(&mut self, changes: &[IndexRecord]) -> Result<(), NoMemory>
        requires names { HasNames changes.now }
        requires clean { AreClean changes.now }
        ensures { OnOk result (spec.Applies changes.now self.old self.new) }
    {
        for change in changes {
            self.apply_one(change)?;
        }
        Ok(())
    }

    // Makes one change of a journal.
    fn apply_one(&mut self, change: &IndexRecord) -> Result<(), NoMemory>
        requires { IsClean change.now }
        ensures { OnOk result (spec.Sets self.old self.new change.now.name (kept change.now)) }
    {
        if is_removed(change) {
            self.remove(&change.name);
            return Ok(());
        }
        self.set(*change)
    }

    /// Puts a record, in place of the one of its name if there is one, and marks it as seen. After `NoMemory` the map
    /// is as before.
    pub fn set(&mut self, r: IndexRecord) -> Result<(), NoMemory>
        requires { spec.IsPlain r }
        ensures ok { OnOk result (spec.Sets self.old self.new r.name (Some r)) }
        ensures err { OnErr result (self.new ≡ self.old) }
    {
        self.slots.put(&r)
    }

    /// Takes the record of a name out, if there is one, and marks the name as seen.
    pub fn remove(&mut self, name: &Name)
        ensures { spec.Sets self.old self.new name.now None }
    {
        self.slots.remove(name);
    }

    /// The record of a name, if it was seen.
    pub fn get(&self, name: &Name) -> Option<IndexRecord>
        ensures record { result ≡ record_at self.now.seen name.now }
        ensures known { spec.IsKnown self.now }
    {
        seen_at(&self.slots, name)
    }

    /// Takes every record out that was not seen.
    pub fn drop_unseen(&mut self)
        ensures { self.new ≡ record self.old { records = self.old.seen } }
    {
        self.slots.keep_seen();
    }

    /// The number of records now, and the sum of the sizes of their files. They are kept, and not counted again.
    pub fn totals(&self) -> Totals
        ensures count { result.count ≡ length self.now.records }
        ensures kilobytes { result.kilobytes ≡ sum_by size_kb_of self.now.records }
        ensures known { spec.IsKnown self.now }
    {
        let counts = self.slots.counts();
        Totals {
            count: counts.records,
            kilobytes: counts.kilobytes,
        }
    }

    /// The number of names whose record now differs from the base's, where a name may have none. Without a base, the
    /// number of records now.
    pub fn changed(&self) -> u64
        ensures count { result ≡ spec.changed self.now.base self.now.records }
        ensures known { spec.IsKnown self.now }
    {
        self.slots.counts().changed
    }

    /// Whether there is a base.
    pub fn has_base(&self) -> bool
        ensures { result ≡ self.now.has_base }
    {
        self.has_base
    }

    /// Makes the records now the base, as when the file `index` was written.
    pub fn mark_written(&mut self)
        ensures { self.new ≡ record self.old { base = self.old.records; has_base = true } }
    {
        self.slots.mark_written();
        self.has_base = true;
    }

    /// The records now, in name order.
    pub fn records(&self) -> Result<Records, NoMemory>
        ensures by_name { IfOk result (IsByName self.now.records) }
        ensures known { spec.IsKnown self.now }
    {
        Ok(by_name(self.slots.records(self.alloc)?))
    }

    /// The records now, in no fixed order: for a caller that sorts them in another order.
    pub fn unordered(&self) -> Result<Records, NoMemory>
        ensures records { IfOk result (λ records. records ≡ self.now.records) }
        ensures known { spec.IsKnown self.now }
    {
        Ok(Records::from_vec(self.slots.records(self.alloc)?))
    }

    /// What a journal has to say: in name order, for each name whose record now differs from the base's, the record
    /// now, or a removed record where there is none.
    pub fn diff(&self) -> Result<Records, NoMemory>
        ensures diff { IfOk result (IsDiff self.now.base self.now.records) }
        ensures clean { IfOk result AreClean }
        ensures count { IfOk result (λ records.
            length records ≡ spec.changed self.now.base self.now.records) }
        ensures known { spec.IsKnown self.now }
    {
        Ok(by_name(self.slots.changes(self.alloc)?))
    }
}
