//! Clears the entries of an origin, so that no crash brings one of them back.

ghost use Rattle.std.specs.BTreeSet.{contains};
ghost use Rattle.std.specs.Prelude.{◌≡◌, ◌≢◌, ◌||◌, Err, Some, false, true, IfOk, IsTrue, Ok, OnOk, filter, length, map};
ghost use Rattle.cache_base.specs.Names.{AreSorted, has_name as has_name_of, name_cmp};
ghost use Rattle.cache_base.specs.declared.name.Name.{Name as AName};
ghost use Rattle.cache_store.specs.Answering.{SaysNothing};
ghost use Rattle.cache_store.specs.AtClear.{ClearsAt, ClearsInOrder};
ghost use Rattle.cache_store.specs.Clearing.{AreCleared, ClearsByRecords, HasNoMark, HoldsNames, LeavesUncleared, is_used_or_stands, is_user_or_among};
ghost use Rattle.cache_store.specs.Evicting.{DoomsAll};
ghost use Rattle.cache_store.specs.Faulting.{is_refusal, of_handles};
ghost use Rattle.cache_store.specs.Faults.{ending, of_disk};
ghost use Rattle.cache_store.specs.IndexCalls.{ReadsEntriesOf};
ghost use Rattle.cache_store.specs.StoppedClearing.{ClearsUnderMark};
ghost use Rattle.cache_store.specs.Syncs.{clearing_syncs};
ghost use Rattle.cache_theory.specs.Command.Command.{ClearOrigin};
ghost use Rattle.cache_theory.specs.Covers.{joined_names};
ghost use Rattle.context_clear.specs.Covered.{covers_record};
ghost use Rattle.disk_theory.specs.Account.{Accounts, Ending, FailsInChange, Looks, LooksAtNoEntry, OnlyChanges, ending as disk_ending, no_sync};
ghost use Rattle.disk_theory.specs.Sound.{IsQuiet};
ghost use Rattle.disk_theory.specs.Told.{Told};
ghost use Rattle.entry_key.specs.Tags.{value_hash};
ghost use Rattle.file_handles.specs.Cache.{cache};
ghost use Rattle.file_handles.specs.Dooming.{LeavesMark, TakesInOrder};
ghost use Rattle.handle_table.specs.HeldChunks.{SameChunks};
ghost use Rattle.file_handles.specs.Kept.{kept};
ghost use Rattle.index_map.specs.Known.{SameBase};
ghost use Rattle.index_theory.specs.Leaves.{LeavesBeside, LeavesIndex};

use crate::StoreFault;
use crate::look_faults::look_fault;
use crate::store::Store;
use cache_base::{Name, Names, NoMemory, SLOTS, has_name, listed, name_set};
use cache_replies::Answered;
use context_clear::{covers, end as end_clearing, store as store_mark};
use disk_theory::{Disk, DiskFault};
use entry_key::hash_of_origin;
use file_handles::{HandleFault, Handles};
use index_record::IndexRecord;
use std::alloc::Global;
use std::collections::BTreeSet;

// The number under which the mark is written: no entry in use has it, since those have one for each slot at most.
const MARK_NUMBER: u32 = SLOTS as u32;

// The names of the records that a clearing of the origin takes.
fn covered_names(alloc: Global, records: &[IndexRecord], origin: u64) -> Result<Names, NoMemory>
    ensures { IfOk result (λ names.
        names ≡ map (λ r. r.name) (filter (covers_record origin) records.now)) }
{
    let mut names = Names::new(alloc);
    for r in records {
        if covers(r, origin) {
            names.push(r.name)?;
        }
    }
    Ok(names)
}

// Adds names to a set.
fn add_all(set: &mut BTreeSet<Name>, names: &[Name]) -> Result<(), NoMemory>
    ensures { OnOk result ((q : AName) → contains name_cmp set.new q
        ≡ (contains name_cmp set.old q || has_name_of names.now q)) }
{
    for name in names {
        set.insert(*name)?;
    }
    Ok(())
}

// The names of both lists in their order, each once.
fn joined(alloc: Global, first: &[Name], second: &[Name]) -> Result<Names, NoMemory>
    ensures names { IfOk result (λ names. names
        ≡ joined_names (map (λ n. n.0) first.now) (map (λ n. n.0) second.now)) }
    ensures sorted { IfOk result AreSorted }
{
    let mut set = name_set(alloc, first)?;
    add_all(&mut set, second)?;
    listed(alloc, set)
}

// Whether an entry in use has the name, or it is among rising ones.
fn is_held(handles: &Handles, rising: &[Name], name: &Name) -> bool
    requires { AreSorted rising.now }
    ensures { result ≡ is_user_or_among (kept handles.now) rising.now name.now }
{
    handles.users(name) != 0 || has_name(rising, name)
}

// Those of the names that an entry in use has, or that are among rising ones, in their order.
fn held_among(
    alloc: Global,
    handles: &Handles,
    names: &[Name],
    rising: &[Name],
) -> Result<Names, NoMemory>
    requires { AreSorted rising.now }
    ensures { IfOk result (λ list. list
        ≡ filter (is_user_or_among (kept handles.now) rising.now) names.now) }
{
    let mut list = Names::with_room(alloc, names.len())?;
    for name in names {
        if is_held(handles, rising, name) {
            list.push(*name)?;
        }
    }
    Ok(list)
}

// Those of the names that an entry in use has, or under which a file stands, in their order.
fn held<D: Disk>(
    alloc: Global,
    disk: &mut D,
    handles: &Handles,
    names: &[Name],
) -> Result<Names, DiskFault>
    ensures held { let is = is_used_or_stands (kept handles.now) (D.state disk.old) in
        IfOk result (λ list. IsTrue D.tells → list ≡ filter is names.now) }
    ensures looks { Looks D.Disk (disk_ending result) disk.old disk.new }
    ensures no_entry { LooksAtNoEntry D.Disk disk.old disk.new }
{
    let mut entries = Names::new(alloc);
    disk.entries(&mut entries)?;
    Ok(held_among(alloc, handles, names, entries.as_slice())?)
}

// The fault of the disk for one of the handles, which is no refusal.
fn disk_fault(fault: HandleFault) -> DiskFault
    requires { is_refusal fault ≡ false }
    ensures { of_disk result ≡ of_handles fault }
{
    match fault {
        HandleFault::Read => DiskFault::Failed,
        HandleFault::Disk => DiskFault::Failed,
        HandleFault::Memory => DiskFault::Memory,
        HandleFault::Refused(_) => unreachable!(),
    }
}

// Dooms what stands under each of these names, one after the other.
fn doom_names<D: Disk>(handles: &mut Handles, disk: &mut D, names: &[Name]) -> Result<(), DiskFault>
    requires told { IsTrue D.tells → HoldsNames (cache D.Disk handles.old disk.old) names.now }
    ensures dooms { let at = cache D.Disk in IsTrue D.tells →
        DoomsAll names.now result (at handles.old disk.old) (at handles.new disk.new) }
    ensures chunks { SameChunks (kept handles.old) (kept handles.new) }
    ensures mark { OnOk result (Told D.Disk LeavesMark disk.old disk.new) }
    ensures takes { Told D.Disk (TakesInOrder names.now) disk.old disk.new }
    ensures index { Told D.Disk LeavesBeside disk.old disk.new }
    ensures disk { OnlyChanges D.Disk (disk_ending result) no_sync disk.old disk.new }
{
    for name in names {
        match handles.doom_name(disk, name) {
            Ok(_) => {}
            Err(fault) => return Err(disk_fault(fault)),
        }
    }
    Ok(())
}

impl Store {
    ghost use Rattle.cache_store.specs.Faulting.{StaysAs};
    ghost use Rattle.cache_store.specs.Open.{IsOpen};
    ghost use Rattle.cache_store.specs.Performing.{AchievesWhatIsDone, HadEffect};
    ghost use Rattle.cache_store.specs.Session.{session};

    // The names that a clearing of the origin with this hash takes, by the records and the entries in use.
    fn names_to_clear(&self, alloc: Global, origin: u64) -> Result<Names, NoMemory>
        ensures { IfOk result (AreCleared self.now.index.map (kept self.now.handles) origin) }
    {
        let in_use = self.handles.open_of(alloc, origin)?;
        let records = self.index.map.records()?;
        let there = covered_names(alloc, records.as_slice(), origin)?;
        joined(alloc, in_use.as_slice(), there.as_slice())
    }

    /// Ends the update, and dooms the entries of the origin with this hash that are not pinned, those in use and
    /// those that have a record; tells how many names they had. The names are gathered and the folder is listed
    /// before anything is changed. From before the first entry goes until all are gone and synced the mark of the
    /// origin stands on the disk. They go in the order of their names.
    pub(crate) fn clear_origin<D: Disk>(
        &mut self,
        alloc: Global,
        disk: &mut D,
        origin: u64,
    ) -> Result<u64, StoreFault>
        requires calm { self.old.faulting ≡ false }
        requires told { IsTrue D.tells → IsOpen (session D.Disk self.old disk.old) }
        ensures does { let at = session D.Disk in IsTrue D.tells →
            ClearsByRecords origin result (at self.old disk.old) (at self.new disk.new) }
        ensures clears { OnOk result (IsTrue D.tells →
            LeavesUncleared (session D.Disk self.old disk.old) origin self.new.index.map) }
        ensures stopped { IsTrue D.tells →
            ClearsUnderMark origin (session D.Disk self.old disk.old) (D.state disk.new) }
        ensures ordered { Told D.Disk (ClearsInOrder origin) disk.old disk.new }
        ensures at_clear { Told D.Disk (ClearsAt (Some origin)) disk.old disk.new }
        ensures base { OnOk result (SameBase self.old.index.map self.new.index.map) }
        ensures index { Told D.Disk LeavesIndex disk.old disk.new }
        ensures quiet { OnOk result (IsTrue D.tells → IsQuiet (D.state disk.new)) }
        ensures unmarked { OnOk result (IsTrue D.tells → HasNoMark (D.state disk.new)) }
        ensures chunks { SameChunks (kept self.old.handles) (kept self.new.handles) }
        ensures no_sink { result ≢ Err StoreFault.Sink }
        ensures held { self.new.reply.held ≡ self.old.reply.held }
        ensures names { ReadsEntriesOf D.Disk (length self.old.index.update) disk.old disk.new }
        ensures faulted { self.new.faulting ≡ true → result ≡ Err StoreFault.Disk }
        ensures looked { self.new.faulting ≡ true →
            Looks D.Disk Ending.OneFailed disk.old disk.new }
        ensures stays { let at = session D.Disk in self.new.faulting ≡ true → IsTrue D.tells →
            StaysAs (at self.old disk.old) (at self.new disk.new) }
        ensures same_base { self.new.faulting ≡ true →
            SameBase self.old.index.map self.new.index.map }
        ensures change { self.new.faulting ≡ false → FailsInChange D.Disk (ending result) disk.new }
        ensures account { Accounts D.Disk (ending result) clearing_syncs disk.old disk.new }
    {
        let ended = match self.index.finish_apart(disk) {
            Ok(ended) => ended,
            Err(fault) => return Err(look_fault(fault, &mut self.faulting)),
        };
        let names = self.names_to_clear(alloc, origin)?;
        let there = match held(alloc, disk, &self.handles, names.as_slice()) {
            Ok(there) => there,
            Err(fault) => return Err(look_fault(fault, &mut self.faulting)),
        };
        // No look follows that could fail.
        self.index.update = ended;
        self.handles.leaves_number_free();
        store_mark(disk, origin, MARK_NUMBER)?;
        doom_names(&mut self.handles, disk, there.as_slice())?;
        end_clearing(disk)?;
        self.index.forget(names.as_slice());
        Ok(names.as_slice().len() as u64)
    }

    /// Clears the entries of an origin, as `clear_origin` does by its hash.
    pub(crate) fn clear<D: Disk>(
        &mut self,
        alloc: Global,
        disk: &mut D,
        origin: &[u8],
    ) -> Result<Answered, StoreFault>
        requires calm { self.old.faulting ≡ false }
        requires told { IsTrue D.tells → IsOpen (session D.Disk self.old disk.old) }
        ensures does { let at = session D.Disk in IsTrue D.tells →
            AchievesWhatIsDone (ClearOrigin origin.now) result
            (at self.old disk.old) (at self.new disk.new) }
        ensures clears { HadEffect result → IsTrue D.tells →
            LeavesUncleared (session D.Disk self.old disk.old)
            (value_hash origin.now) self.new.index.map }
        ensures stopped { IsTrue D.tells →
            ClearsUnderMark (value_hash origin.now)
            (session D.Disk self.old disk.old) (D.state disk.new) }
        ensures ordered { Told D.Disk (ClearsInOrder (value_hash origin.now)) disk.old disk.new }
        ensures at_clear { Told D.Disk (ClearsAt (Some (value_hash origin.now)))
            disk.old disk.new }
        ensures base { HadEffect result → SameBase self.old.index.map self.new.index.map }
        ensures index { Told D.Disk LeavesIndex disk.old disk.new }
        ensures quiet { OnOk result (IsTrue D.tells → IsQuiet (D.state disk.new)) }
        ensures unmarked { OnOk result (IsTrue D.tells → HasNoMark (D.state disk.new)) }
        ensures chunks { SameChunks (kept self.old.handles) (kept self.new.handles) }
        ensures unsaid { SaysNothing (ClearOrigin origin.now) result self.old.reply self.new.reply }
        ensures names { ReadsEntriesOf D.Disk (length self.old.index.update) disk.old disk.new }
        ensures faulted { self.new.faulting ≡ true → result ≡ Err StoreFault.Disk }
        ensures looked { self.new.faulting ≡ true →
            Looks D.Disk Ending.OneFailed disk.old disk.new }
        ensures stays { let at = session D.Disk in self.new.faulting ≡ true → IsTrue D.tells →
            StaysAs (at self.old disk.old) (at self.new disk.new) }
        ensures same_base { self.new.faulting ≡ true →
            SameBase self.old.index.map self.new.index.map }
        ensures change { self.new.faulting ≡ false → FailsInChange D.Disk (ending result) disk.new }
        ensures account { Accounts D.Disk (ending result) clearing_syncs disk.old disk.new }
    {
        let names = self.clear_origin(alloc, disk, hash_of_origin(origin))?;
        Ok(Answered::Cleared(names))
    }
}
