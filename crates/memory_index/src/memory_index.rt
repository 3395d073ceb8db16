//! The records of the entries in memory, and the update of the index.

ghost use Rattle.std.specs.Prelude.{◌≡◌, [], IfOk, IsTrue, None, OnErr, OnOk, Some, drop, false, length, take};
ghost use Rattle.disk_theory.specs.Account.{Looks, ending};
ghost use Rattle.index_map.specs.Known.{IsPlain, SameBase};
ghost use Rattle.index_theory.specs.Ever.{Entries, entries_on};
ghost use Rattle.index_update.specs.Rest.{name_bytes};
ghost use Rattle.index_update.specs.Slices.{LooksAtNames};
ghost use Rattle.index_update.specs.Tells.{TellsSeen};
ghost use Rattle.memory_index.specs.Forgetting.{Forgets};
ghost use Rattle.memory_index.specs.Records.{EndsWith, SetsRecord, StepsUpdate, TakenOff, TellsAtEnd, TellsOf};

use cache_base::{Name, NoMemory};
use disk_theory::{Disk, DiskFault};
use index_map::RecordMap;
use index_record::IndexRecord;
use index_update::Update;
use std::alloc::Global;

/// The records, and the update with the names that it has still to read.
#[derive(Drop)]
pub struct MemoryIndex {
    /// The records, and those of the file `index` that stands.
    pub map: RecordMap,
    /// The names whose files are still to be read.
    pub update: Update,
}

impl MemoryIndex {
    /// Sets the record of an entry that was written. Its file need not be read any more.
    pub fn set(&mut self, r: IndexRecord) -> Result<(), NoMemory>
        requires { IsPlain r }
        ensures { OnOk result (SetsRecord r.name (Some r) self.old self.new) }
    {
        self.map.set(r)?;
        self.take_off(&r.name);
        Ok(())
    }

    /// Takes out the record of a name under which no entry stands any more. Its file need not be read any more.
    pub fn remove(&mut self, name: &Name)
        ensures { SetsRecord name.now None self.old self.new }
    {
        self.map.remove(name);
        self.take_off(name);
    }

    // Takes a name off the rest whose record is set. Where it was the last, the update has ended.
    fn take_off(&mut self, name: &Name)
        ensures { TakenOff name.now self.old.map self.old.update self.new }
    {
        let ended = self.update.ended();
        self.update.seen(name);
        if !ended {
            self.drop_unseen_at_end();
        }
    }

    /// Where no name is left to read, takes the records out that were not seen.
    pub fn drop_unseen_at_end(&mut self)
        ensures rest { self.new.update ≡ self.old.update }
        ensures base { SameBase self.old.map self.new.map }
        ensures seen { self.new.map.seen ≡ self.old.map.seen }
        ensures tells { (es : Entries) → let rest = name_bytes self.old.update in
            TellsSeen es self.old.map rest → TellsOf es self.new }
    {
        if self.update.ended() {
            self.map.drop_unseen();
        }
    }

    /// Takes the records of these names out.
    pub fn forget(&mut self, names: &[Name])
        ensures rest { self.new.update ≡ self.old.update }
        ensures forgets { Forgets names.now self.old.map self.new.map }
    {
        for name in names {
            self.map.remove(name);
        }
    }

    /// Reads the files of the first n names that are left. Where that fails the names are left as they were, and the
    /// records that were read are right, and stay.
    pub fn step<D: Disk>(&mut self, disk: &mut D, n: u32) -> Result<(), DiskFault>
        ensures rest { OnOk result (self.new.update ≡ drop n self.old.update) }
        ensures base { SameBase self.old.map self.new.map }
        ensures left { OnErr result (self.new.update ≡ self.old.update) }
        ensures steps { let es = entries_on (D.state disk.old) in
            OnOk result (IsTrue D.tells → StepsUpdate n es self.old self.new) }
        ensures tells { let es = entries_on (D.state disk.old) in
            IsTrue D.tells → TellsOf es self.old → TellsOf es self.new }
        ensures looks { let names = length (take n self.old.update) in
            LooksAtNames D.Disk (ending result) names disk.old disk.new }
    {
        if self.update.ended() {
            return Ok(());
        }
        self.update.step(disk, n, &mut self.map)?;
        Ok(())
    }

    /// Reads the files of all names that are left.
    pub fn finish<D: Disk>(&mut self, disk: &mut D) -> Result<(), DiskFault>
        ensures rest { OnOk result (self.new.update ≡ []) }
        ensures base { SameBase self.old.map self.new.map }
        ensures records { let es = entries_on (D.state disk.old) in
            OnOk result (IsTrue D.tells → EndsWith es self.old self.new.map.records) }
        ensures tells { let es = entries_on (D.state disk.old) in
            OnOk result (IsTrue D.tells → TellsOf es self.old → TellsOf es self.new) }
        ensures looks { let names = length self.old.update in
            LooksAtNames D.Disk (ending result) names disk.old disk.new }
    {
        if self.update.ended() {
            return Ok(());
        }
        self.update.finish(disk, &mut self.map)
    }

    /// Reads the files of all names that are left, as `finish` does, and gives the update that has ended so. The
    /// names are left as they were, so that the caller may look at more: where that fails, the records that were read
    /// are right, and stay.
    pub fn finish_apart<D: Disk>(&mut self, disk: &mut D) -> Result<Update, DiskFault>
        ensures ended { IfOk result (λ update. update ≡ []) }
        ensures rest { self.new.update ≡ self.old.update }
        ensures base { SameBase self.old.map self.new.map }
        ensures records { let es = entries_on (D.state disk.old) in
            OnOk result (IsTrue D.tells → EndsWith es self.old self.new.map.records) }
        ensures tells { let es = entries_on (D.state disk.old) in
            OnOk result (IsTrue D.tells → TellsOf es self.old → TellsAtEnd es self.new.map) }
        ensures stays { let es = entries_on (D.state disk.old) in
            IsTrue D.tells → TellsOf es self.old → TellsOf es self.new }
        ensures looks { let names = length self.old.update in
            LooksAtNames D.Disk (ending result) names disk.old disk.new }
    {
        let mut update = self.update.copy()?;
        if update.ended() {
            return Ok(update);
        }
        update.finish(disk, &mut self.map)?;
        Ok(update)
    }
}

/// Reads the files of all entries, apart from what is in memory.
pub fn scan<D: Disk>(alloc: Global, disk: &mut D) -> Result<MemoryIndex, DiskFault>
    ensures rest { IfOk result (λ index. index.update ≡ []) }
    ensures no_base { IfOk result (λ index. index.map.has_base ≡ false) }
    ensures tells { let es = entries_on (D.state disk.old) in
        IfOk result (λ index. IsTrue D.tells → TellsOf es index) }
    ensures looks { Looks D.Disk (ending result) disk.old disk.new }
{
    let mut index = MemoryIndex {
        map: RecordMap::new(alloc),
        update: Update::begin(alloc, disk)?,
    };
    index.finish(disk)?;
    Ok(index)
}
