//! Evicts entries, so that all take at most so many KB.

ghost use Rattle.std.specs.Prelude.{◌≡◌, [], Err, false, true, IfOk, IsTrue, filter, length};
ghost use Rattle.cache_base.specs.Names.{AreSorted, has_name as has_name_of};
ghost use Rattle.cache_store.specs.Answering.{IsStillToSay};
ghost use Rattle.cache_store.specs.Evicting.{ArePicked, AreUnused, AreVictims, DoomsAll, HoldsFiles, LeavesOthers, LooksBeforeChanges, has_file};
ghost use Rattle.cache_store.specs.Faults.{AccountsForSink, ending};
ghost use Rattle.cache_store.specs.IndexCalls.{ReadsEntriesOf};
ghost use Rattle.cache_replies.specs.Said.{saying};
ghost use Rattle.cache_replies.specs.Saying.{TakesMore};
ghost use Rattle.cache_theory.specs.Command.Command.{Evict};
ghost use Rattle.disk_theory.specs.Account.{Accounts, Ending, Looks, LooksAtNoEntry, ending as disk_ending, no_sync};
ghost use Rattle.disk_theory.specs.Told.{Told};
ghost use Rattle.file_handles.specs.Cache.{cache};
ghost use Rattle.file_handles.specs.Dooming.{TakesEntries};
ghost use Rattle.file_handles.specs.Kept.{kept};
ghost use Rattle.file_handles.specs.Removing.{FailsInRemoval};
ghost use Rattle.index_map.specs.Known.{SameBase};
ghost use Rattle.handle_table.specs.HeldChunks.{SameChunks};
ghost use Rattle.file_handles.specs.Unsynced.{SyncsNothing};
ghost use Rattle.index_theory.specs.Leaves.{LeavesBeside, LeavesIndex};

use crate::StoreFault;
use crate::look_faults::look_fault;
use crate::store::Store;
use cache_base::{Name, Names, NoMemory, has_name};
use cache_io::Sink;
use cache_replies::{Answered, say_listing};
use disk_theory::{Disk, DiskFault};
use evictor::victims_of;
use file_handles::Handles;
use std::alloc::Global;

// Those of the names that are among rising ones, in their order.
fn common(alloc: Global, names: &[Name], rising: &[Name]) -> Result<Names, NoMemory>
    requires { AreSorted rising.now }
    ensures { IfOk result (λ list.
        list ≡ filter (has_name_of rising.now) names.now) }
{
    let mut list = Names::with_room(alloc, names.len())?;
    for name in names {
        if has_name(rising, name) {
            list.push(*name)?;
        }
    }
    Ok(list)
}

// Those of the names under which a file stands, in their order. The folder is listed once, unless there are no names.
fn standing<D: Disk>(alloc: Global, disk: &mut D, names: &[Name]) -> Result<Names, DiskFault>
    ensures picked { IfOk result (ArePicked names.now) }
    ensures stand { let s = D.state disk.old in
        IfOk result (λ list. IsTrue D.tells → list ≡ filter (has_file s) names.now) }
    ensures looks { Looks D.Disk (disk_ending result) disk.old disk.new }
    ensures no_entry { LooksAtNoEntry D.Disk disk.old disk.new }
{
    let mut entries = Names::new(alloc);
    if names.is_empty() {
        return Ok(entries);
    }
    disk.entries(&mut entries)?;
    Ok(common(alloc, names, entries.as_slice())?)
}

// Removes the files of these names, one after the other.
fn remove_files<D: Disk>(
    handles: &mut Handles,
    disk: &mut D,
    names: &[Name],
) -> Result<(), DiskFault>
    requires unused { AreUnused (kept handles.old) names.now }
    requires told { IsTrue D.tells → HoldsFiles (cache D.Disk handles.old disk.old) names.now }
    ensures dooms { let at = cache D.Disk in IsTrue D.tells →
        DoomsAll names.now result (at handles.old disk.old) (at handles.new disk.new) }
    ensures takes { Told D.Disk TakesEntries disk.old disk.new }
    ensures kept { kept handles.new ≡ kept handles.old }
    ensures index { Told D.Disk LeavesBeside disk.old disk.new }
    ensures account { Accounts D.Disk (disk_ending result) no_sync disk.old disk.new }
    ensures change { FailsInRemoval D.Disk (disk_ending result) disk.new }
    ensures unsynced { Told D.Disk SyncsNothing disk.old disk.new }
    ensures no_entry { LooksAtNoEntry D.Disk disk.old disk.new }
{
    for name in names {
        handles.evict(disk, name)?;
    }
    Ok(())
}

impl Store {
    ghost use Rattle.cache_store.specs.Faulting.{StaysAs};
    ghost use Rattle.cache_store.specs.Open.{IsOpen};
    ghost use Rattle.cache_store.specs.Performing.{DoesWhatIsDone, HadEffect};
    ghost use Rattle.cache_store.specs.Session.{session};

    // The names that have to go by the records, so that all entries take at most so many KB, in the order of eviction.
    fn names_to_evict(&self, alloc: Global, kb: u32) -> Result<Names, NoMemory>
        ensures { IfOk result (AreVictims self.now.index.map (kept self.now.handles) kb) }
    {
        let records = self.index.map.unordered()?;
        let in_use = self.handles.open_names(alloc)?;
        victims_of(alloc, records, &in_use, u64::from(kb))
    }

    /// Ends the update, removes the entries that have to go by their records, so that all take at most so many KB,
    /// and says their names, in the order of eviction. A record whose file does not stand goes as well. The folder is
    /// listed, and the names are gathered, before the first file is removed.
    pub(crate) fn evict<D: Disk, K: Sink>(
        &mut self,
        alloc: Global,
        disk: &mut D,
        kb: u32,
        sink: &mut K,
    ) -> Result<Answered, StoreFault>
        requires empty { self.old.reply.held ≡ [] }
        requires calm { self.old.faulting ≡ false }
        requires told { IsTrue D.tells → IsOpen (session D.Disk self.old disk.old) }
        ensures does { let at = session D.Disk in IsTrue D.tells →
            DoesWhatIsDone (Evict kb) result (at self.old disk.old) (at self.new disk.new)
            (K.taken sink.old) (saying K.Sink self.new.reply sink.new) }
        ensures grows { TakesMore (K.taken sink.old) (K.taken sink.new) }
        ensures evicts { HadEffect result → IsTrue D.tells →
            LeavesOthers (session D.Disk self.old disk.old) kb self.new.index.map }
        ensures base { HadEffect result → SameBase self.old.index.map self.new.index.map }
        ensures index { Told D.Disk LeavesBeside disk.old disk.new }
        ensures takes { Told D.Disk TakesEntries disk.old disk.new }
        ensures unsynced { Told D.Disk SyncsNothing disk.old disk.new }
        ensures chunks { SameChunks (kept self.old.handles) (kept self.new.handles) }
        ensures unsaid { IsStillToSay (Evict kb) result sink.old sink.new self.new.reply }
        ensures all { IfOk result (λ a. a ≡ Answered.All) }
        ensures names { ReadsEntriesOf D.Disk (length self.old.index.update) disk.old disk.new }
        ensures looks_first { LooksBeforeChanges D.Disk (ending result) disk.old disk.new }
        ensures faulted { self.new.faulting ≡ true → result ≡ Err StoreFault.Disk }
        ensures looked { self.new.faulting ≡ true →
            Looks D.Disk Ending.OneFailed disk.old disk.new }
        ensures stays { let at = session D.Disk in self.new.faulting ≡ true → IsTrue D.tells →
            StaysAs (at self.old disk.old) (at self.new disk.new) }
        ensures same_base { self.new.faulting ≡ true →
            SameBase self.old.index.map self.new.index.map }
        ensures silent { self.new.faulting ≡ true →
            (sink.new ≡ sink.old) × (self.new.reply.held ≡ []) }
        ensures change { self.new.faulting ≡ false →
            FailsInRemoval D.Disk (ending result) disk.new }
        ensures account { Accounts D.Disk (ending result) no_sync disk.old disk.new }
        ensures sink { AccountsForSink K.Sink result sink.old sink.new }
    {
        let ended = match self.index.finish_apart(disk) {
            Ok(ended) => ended,
            Err(fault) => return Err(look_fault(fault, &mut self.faulting)),
        };
        let names = self.names_to_evict(alloc, kb)?;
        let files = match standing(alloc, disk, names.as_slice()) {
            Ok(files) => files,
            Err(fault) => return Err(look_fault(fault, &mut self.faulting)),
        };
        // No look follows that could fail.
        self.index.update = ended;
        remove_files(&mut self.handles, disk, files.as_slice())?;
        self.index.forget(names.as_slice());
        say_listing(alloc, b"evicted", names.as_slice(), &mut self.reply, sink)?;
        Ok(Answered::All)
    }
}
