//! Opens the cache, and closes it.

ghost use Rattle.std.specs.Prelude.{◌≡◌, ◌≢◌, [], IfOk, IsTrue, OnOk, Err};
ghost use Rattle.disk_theory.specs.Account.{Ending, LeavesEntriesUnread, OnlyChanges, one_sync};
ghost use Rattle.disk_theory.specs.Sound.{IsQuiet};
ghost use Rattle.disk_theory.specs.State.{standing};
ghost use Rattle.disk_theory.specs.Told.{Told};
ghost use Rattle.cache_store.specs.AtClear.{KeepsAtClear};
ghost use Rattle.index_theory.specs.AtClear.{KeepsClear};
ghost use Rattle.index_theory.specs.Leaves.{LeavesIndex};

use crate::StoreFault;
use crate::opening::begin_index;
use cache_base::Moment;
use cache_replies::Pending;
use disk_theory::Disk;
use doom_area::clear;
use file_handles::Handles;
use memory_index::MemoryIndex;
use startup_read::close_index;
use std::alloc::Global;

/// A cache that is open. It is closed by `close`; after a fault of the disk, or once memory ran out, it may only be
/// dropped.
#[derive(Drop)]
pub struct Store {
    pub(crate) handles: Handles,
    pub(crate) moment: Moment,
    pub(crate) index: MemoryIndex,
    // What of the reply is not out yet.
    pub(crate) reply: Pending,
    // A look at the disk failed before anything of the last reply was said.
    pub(crate) faulting: bool,
    alloc: Global,
}

impl Store {
    ghost use Rattle.cache_store.specs.Faults.{ending};
    ghost use Rattle.cache_store.specs.InUse.{ClosesInUse, ClosesWhole, OpensInUse};
    ghost use Rattle.cache_store.specs.Open.{BeginsOn, Closes, ClosesHonestly, ClosesSafely, FailsInOpening, HasShelf, IsBehindOpening, IsOpen, KeepsFound, Opens, OpensHonestly, OpensInOrder, OpensSafely};
    ghost use Rattle.cache_store.specs.Session.{is_faulting, open_of, session};
    ghost use Rattle.cache_store.specs.Syncs.{syncs_of_closing};

    /// Opens the cache at this moment: the files of doomed entries that an earlier run left are removed, the index is
    /// opened, and what stands is synced. That counts as a flush. Where the index is not trusted, the names of all
    /// entries are listed, and their files are read later. No entry is looked at.
    pub fn open<D: Disk>(alloc: Global, disk: &mut D, now: Moment) -> Result<Store, StoreFault>
        // What the store stands for.
        ensures opens { IfOk result (λ store. IsTrue D.tells →
            Opens now (D.state disk.old) (session D.Disk store disk.new)) }
        ensures open { IfOk result (λ store. IsTrue D.tells →
            IsOpen (session D.Disk store disk.new)) }
        ensures shelf { IsTrue D.tells → HasShelf (D.state disk.old) }
        ensures based { IfOk result (λ store. IsTrue D.tells →
            OpensInUse (D.state disk.old) (open_of store).index.map (D.state disk.new)) }
        ensures begins { IfOk result (λ store. IsTrue D.tells →
            BeginsOn (standing (D.state disk.old)) (open_of store).index.map) }
        ensures ordered { OnOk result (Told D.Disk OpensInOrder disk.old disk.new) }

        // What a crash leaves, at every exit.
        ensures safe { Told D.Disk (OpensSafely now) disk.old disk.new }
        ensures reopens { Told D.Disk KeepsFound disk.old disk.new }
        ensures honest { Told D.Disk OpensHonestly disk.old disk.new }
        ensures at_clear { Told D.Disk (λ s t. IsQuiet s → KeepsClear s t) disk.old disk.new }

        // Calls and faults.
        ensures no_sink { result ≢ Err StoreFault.Sink }
        ensures disk { LeavesEntriesUnread D.Disk (ending result) one_sync disk.old disk.new }
        ensures behind { OnOk result (IsTrue D.tells →
            IsBehindOpening (D.state disk.old) (D.state disk.new) (D.counts disk.new)) }
        ensures fails { ending result ≡ Ending.OneFailed → IsTrue D.tells → FailsInOpening
            (D.state disk.old) (D.state disk.new) (D.counts disk.old) (D.counts disk.new) }
    {
        let handles = Handles::new(alloc)?;
        let reply = Pending::new(alloc)?;
        clear(alloc, disk)?;
        let index = begin_index(alloc, disk)?;
        Ok(Store {
            handles,
            moment: now,
            index,
            reply,
            faulting: false,
            alloc,
        })
    }

    /// Whether the last command ended in a look at the disk that failed before anything of its reply was out. It has
    /// had no effect then, and the store is as it was.
    pub fn faulting(&self) -> bool
        ensures { result ≡ is_faulting self.now }
    {
        self.faulting
    }

    /// Closes the cache: all slots are given up, what is not finished and what is doomed leaves no file, and the
    /// index is closed. Nothing is pending on the disk then, and where the update has ended the next opening trusts
    /// the index.
    pub fn close<D: Disk>(self, disk: &mut D) -> Result<(), StoreFault>
        requires told { IsTrue D.tells → IsOpen (session D.Disk self disk.old) }
        // What stands then.
        ensures closes { IsTrue D.tells →
            Closes result (session D.Disk self disk.old) (D.state disk.new) }
        ensures quiet { OnOk result (IsTrue D.tells → IsQuiet (D.state disk.new)) }
        ensures journal { OnOk result
            (Told D.Disk (ClosesInUse (open_of self).index) disk.old disk.new) }

        // The changes, in their order. Before the update has ended the files of the index are left alone, at every
        // exit, and after the removal of doomed files all is synced. Afterwards the index that is written, if any, has
        // all records and the moment of this store.
        ensures spares { (open_of self).index.update ≢ [] →
            Told D.Disk LeavesIndex disk.old disk.new }
        ensures whole { let was = open_of self in
            OnOk result (Told D.Disk (ClosesWhole was.index was.moment) disk.old disk.new) }

        // What a crash leaves, at every exit.
        ensures crash { IsTrue D.tells →
            ClosesSafely (session D.Disk self disk.old) (D.state disk.new) }
        ensures honest { IsTrue D.tells →
            ClosesHonestly result (session D.Disk self disk.old) (D.state disk.new) }
        ensures at_clear { Told D.Disk KeepsAtClear disk.old disk.new }

        // Calls and faults. No entry is looked at, and where the disk failed it was in a change or a sync.
        ensures no_sink { result ≢ Err StoreFault.Sink }
        ensures disk { let most = syncs_of_closing (open_of self).index.update in
            OnlyChanges D.Disk (ending result) most disk.old disk.new }
    {
        let Store {
            handles,
            moment,
            index,
            alloc,
            ..
        } = self;
        let MemoryIndex { mut map, update } = index;
        let closed = handles.close_all(disk);
        closed?;
        close_index(alloc, disk, &mut map, moment, update.ended())?;
        Ok(())
    }
}
