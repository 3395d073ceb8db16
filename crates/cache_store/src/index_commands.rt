//! Performs the commands that use the index.

ghost use Rattle.std.specs.Prelude.{◌≡◌, ◌↔◌, [], Err, false, true, IfOk, IsTrue, Ok, OnOk, length, take};
ghost use Rattle.cache_store.specs.AtClear.{KeepsAtClear};
ghost use Rattle.cache_replies.specs.Answers.{HasOutcome};
ghost use Rattle.cache_store.specs.Answering.{IsStillToSay, SaysNothing};
ghost use Rattle.cache_store.specs.Faults.{AccountsForSink, ending};
ghost use Rattle.cache_store.specs.IndexCalls.{Flushes, IsFresh, IsWritten, ReadsEntriesOf, Rebuilds};
ghost use Rattle.cache_store.specs.InUse.{SparesIndex};
ghost use Rattle.cache_store.specs.Kept.{HoldsIndex};
ghost use Rattle.cache_replies.specs.Said.{saying};
ghost use Rattle.cache_replies.specs.Saying.{TakesMore};
ghost use Rattle.cache_theory.specs.Command.Command.{Flush, ListRecords, Rebuild, StepUpdate};
ghost use Rattle.memory_index.specs.Records.{EndsWith, StepsUpdate};
ghost use Rattle.cache_store.specs.Syncs.{writing_syncs};
ghost use Rattle.index_theory.specs.Ever.{entries_on};
ghost use Rattle.disk_theory.specs.Account.{Accounts, Ending, FailsInChange, Looks, OnlyChanges, ending as disk_ending, one_sync};
ghost use Rattle.disk_theory.specs.Sound.{IsQuiet};
ghost use Rattle.disk_theory.specs.Told.{Told};
ghost use Rattle.index_theory.specs.Apart.{IsApart};
ghost use Rattle.index_theory.specs.Leaves.{LeavesIndex};
ghost use Rattle.index_map.specs.Known.{SameBase};
ghost use Rattle.index_theory.specs.Unclean.{IsUnclean};
ghost use Rattle.startup_read.specs.Refreshing.{Refreshes};
ghost use Rattle.startup_read.specs.Spares.{SparesEntries};

use crate::StoreFault;
use crate::index_answers::state_of;
use crate::look_faults::look_fault;
use crate::store::Store;
use cache_base::Moment;
use cache_io::Sink;
use cache_replies::{Answered, say_listing};
use disk_theory::{Disk, DiskFault};
use memory_index::{MemoryIndex, scan};
use startup_read::{refresh_index, write_index};
use std::alloc::Global;

// Where the update has ended, writes the index if that is due.
fn refresh<D: Disk>(
    alloc: Global,
    disk: &mut D,
    index: &mut MemoryIndex,
    now: Moment,
) -> Result<(), DiskFault>
    // The index in memory.
    ensures update { index.new.update ≡ index.old.update }
    ensures records { index.new.map.records ≡ index.old.map.records }
    ensures seen { index.new.map.seen ≡ index.old.map.seen }
    ensures fresh { OnOk result (index.new.update ≡ [] → IsFresh index.new.map) }
    ensures same { SparesIndex Flush index.old → index.new ≡ index.old }

    // The disk.
    ensures written { index.old.update ≡ [] →
        OnOk result (Told D.Disk (Refreshes index.old.map now) disk.old disk.new) }
    ensures unwritten { SparesIndex Flush index.old → Told D.Disk (λ s t. t ≡ s) disk.old disk.new }
    ensures holds { let was = index.old.map in let map = index.new.map in
        OnOk result (Told D.Disk (λ s t. HoldsIndex s was → HoldsIndex t map) disk.old disk.new) }
    ensures entries { Told D.Disk (λ s t. IsApart s → SparesEntries s t) disk.old disk.new }
    ensures unclean { Told D.Disk (λ s t. IsApart s → IsUnclean s → IsUnclean t) disk.old disk.new }
    ensures disk { OnlyChanges D.Disk (disk_ending result) one_sync disk.old disk.new }
{
    if index.update.ended() {
        refresh_index(alloc, disk, &mut index.map, now)
    } else {
        Ok(())
    }
}

impl Store {
    ghost use Rattle.cache_store.specs.Open.{IsOpen};
    ghost use Rattle.cache_store.specs.Faulting.{StaysAs};
    ghost use Rattle.cache_store.specs.Performing.{AchievesFor, DoesWhatIsDone};
    ghost use Rattle.handle_table.specs.HeldChunks.{SameChunks};
    ghost use Rattle.file_handles.specs.Kept.{kept};
    ghost use Rattle.cache_store.specs.Session.{open_of, session};

    /// Ends the update, and says the records of all entries in name order.
    pub(crate) fn say_list<D: Disk, K: Sink>(
        &mut self,
        alloc: Global,
        disk: &mut D,
        sink: &mut K,
    ) -> Result<Answered, StoreFault>
        requires empty { self.old.reply.held ≡ [] }
        requires calm { self.old.faulting ≡ false }
        requires told { IsTrue D.tells → IsOpen (session D.Disk self.old disk.old) }
        ensures does { let at = session D.Disk in IsTrue D.tells →
            DoesWhatIsDone ListRecords result (at self.old disk.old) (at self.new disk.new)
            (K.taken sink.old) (saying K.Sink self.new.reply sink.new) }
        ensures grows { TakesMore (K.taken sink.old) (K.taken sink.new) }
        ensures base { SameBase self.old.index.map self.new.index.map }
        ensures ended { OnOk result (IsTrue D.tells → (self.new.index.update ≡ [])
            × EndsWith (entries_on (D.state disk.old)) self.old.index
            self.new.index.map.records) }
        ensures chunks { SameChunks (kept self.old.handles) (kept self.new.handles) }
        ensures unsaid { IsStillToSay ListRecords result sink.old sink.new self.new.reply }
        ensures all { IfOk result (λ a. a ≡ Answered.All) }
        ensures faulted { (self.new.faulting ≡ true) ↔ (result ≡ Err StoreFault.Disk) }
        ensures stays { let at = session D.Disk in self.new.faulting ≡ true → IsTrue D.tells →
            StaysAs (at self.old disk.old) (at self.new disk.new) }
        ensures silent { self.new.faulting ≡ true →
            (sink.new ≡ sink.old) × (self.new.reply.held ≡ []) }
        ensures looks { Looks D.Disk (ending result) disk.old disk.new }
        ensures names { ReadsEntriesOf D.Disk (length self.old.index.update) disk.old disk.new }
        ensures sink { AccountsForSink K.Sink result sink.old sink.new }
    {
        let ended = match self.index.finish_apart(disk) {
            Ok(ended) => ended,
            Err(fault) => return Err(look_fault(fault, &mut self.faulting)),
        };
        self.index.update = ended;
        let records = self.index.map.records()?;
        say_listing(alloc, b"records", records.as_slice(), &mut self.reply, sink)?;
        Ok(Answered::All)
    }

    /// Lets the update read the files of n names more.
    pub(crate) fn step<D: Disk>(&mut self, disk: &mut D, n: u32) -> Result<Answered, StoreFault>
        requires calm { self.old.faulting ≡ false }
        requires told { IsTrue D.tells → IsOpen (session D.Disk self.old disk.old) }
        ensures does { let at = session D.Disk in IsTrue D.tells →
            AchievesFor (StepUpdate n) result (at self.old disk.old) (at self.new disk.new) }
        ensures base { SameBase self.old.index.map self.new.index.map }
        ensures chunks { SameChunks (kept self.old.handles) (kept self.new.handles) }
        ensures unsaid { SaysNothing (StepUpdate n) result self.old.reply self.new.reply }
        ensures faulted { (self.new.faulting ≡ true) ↔ (result ≡ Err StoreFault.Disk) }
        ensures stays { let at = session D.Disk in self.new.faulting ≡ true → IsTrue D.tells →
            StaysAs (at self.old disk.old) (at self.new disk.new) }
        ensures looks { Looks D.Disk (ending result) disk.old disk.new }
        ensures names { let names = length (take n self.old.index.update) in
            ReadsEntriesOf D.Disk names disk.old disk.new }
        ensures steps { let es = entries_on (D.state disk.old) in OnOk result (IsTrue D.tells →
            StepsUpdate n es self.old.index self.new.index) }
    {
        match self.index.step(disk, n) {
            Ok(()) => Ok(state_of(&self.index)),
            Err(fault) => Err(look_fault(fault, &mut self.faulting)),
        }
    }

    /// Syncs the disk. Where the update has ended and no index was written yet, or too many records differ from it, the
    /// index is written before.
    pub(crate) fn flush<D: Disk>(
        &mut self,
        alloc: Global,
        disk: &mut D,
    ) -> Result<Answered, StoreFault>
        requires told { IsTrue D.tells → IsOpen (session D.Disk self.old disk.old) }
        ensures does { let at = session D.Disk in IsTrue D.tells →
            AchievesFor Flush result (at self.old disk.old) (at self.new disk.new) }
        ensures chunks { SameChunks (kept self.old.handles) (kept self.new.handles) }
        ensures unsaid { SaysNothing Flush result self.old.reply self.new.reply }
        ensures done { IfOk result (λ a. a ≡ Answered.Done) }
        ensures fresh { OnOk result (self.new.index.update ≡ [] → IsFresh self.new.index.map) }
        ensures flushes { OnOk result
            (Told D.Disk (Flushes self.old.index self.old.moment) disk.old disk.new) }
        ensures same { SparesIndex Flush self.old.index → self.new.index ≡ self.old.index }
        ensures index { SparesIndex Flush self.old.index →
            Told D.Disk LeavesIndex disk.old disk.new }
        ensures quiet { OnOk result (IsTrue D.tells → IsQuiet (D.state disk.new)) }
        ensures unclean { IsTrue D.tells → IsUnclean (D.state disk.new) }
        ensures at_clear { Told D.Disk KeepsAtClear disk.old disk.new }
        ensures calm { self.new.faulting ≡ self.old.faulting }
        ensures disk { OnlyChanges D.Disk (ending result) writing_syncs disk.old disk.new }
    {
        refresh(alloc, disk, &mut self.index, self.moment)?;
        disk.sync()?;
        Ok(Answered::Done)
    }

    /// Reads the files of all entries anew, and writes the index with their records. A read that fails changes nothing.
    pub(crate) fn rebuild<D: Disk>(
        &mut self,
        alloc: Global,
        disk: &mut D,
    ) -> Result<Answered, StoreFault>
        requires calm { self.old.faulting ≡ false }
        requires told { IsTrue D.tells → IsOpen (session D.Disk self.old disk.old) }
        ensures does { let at = session D.Disk in IsTrue D.tells →
            AchievesFor Rebuild result (at self.old disk.old) (at self.new disk.new) }
        ensures outcome { IfOk result (HasOutcome Rebuild) }
        ensures chunks { SameChunks (kept self.old.handles) (kept self.new.handles) }
        ensures unsaid { SaysNothing Rebuild result self.old.reply self.new.reply }
        ensures written { OnOk result (IsWritten self.new.index.map) }
        ensures rebuilds { OnOk result
            (Told D.Disk (Rebuilds self.new.index.map self.old.moment) disk.old disk.new) }
        ensures quiet { OnOk result (IsTrue D.tells → IsQuiet (D.state disk.new)) }
        ensures unclean { IsTrue D.tells → IsUnclean (D.state disk.new) }
        ensures at_clear { Told D.Disk KeepsAtClear disk.old disk.new }
        ensures faulted { self.new.faulting ≡ true → result ≡ Err StoreFault.Disk }
        ensures looked { self.new.faulting ≡ true →
            Looks D.Disk Ending.OneFailed disk.old disk.new }
        ensures stays { self.new.faulting ≡ true → open_of self.new ≡ open_of self.old }
        ensures change { self.new.faulting ≡ false → FailsInChange D.Disk (ending result) disk.new }
        ensures account { Accounts D.Disk (ending result) writing_syncs disk.old disk.new }
    {
        self.index = match scan(alloc, disk) {
            Ok(index) => index,
            Err(fault) => return Err(look_fault(fault, &mut self.faulting)),
        };
        write_index(alloc, disk, &mut self.index.map, self.moment)?;
        disk.sync()?;
        Ok(Answered::Rebuilt(self.index.map.totals().count))
    }
}
