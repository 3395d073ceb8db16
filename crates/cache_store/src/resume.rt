//! Does what is left of a clearing that was stopped.

ghost use Rattle.std.specs.Prelude.{◌≡◌, false, IfOk, IfSome, IsSome, IsTrue, None};
ghost use Rattle.cache_store.specs.Answering.{SaysNothing};
ghost use Rattle.cache_store.specs.AtClear.{ClearsAt, ClearsInOrder};
ghost use Rattle.cache_store.specs.Clearing.{HasNoMark, LeavesResumed};
ghost use Rattle.cache_store.specs.Faulting.{LooksFirst};
ghost use Rattle.cache_store.specs.Faults.{ending};
ghost use Rattle.cache_store.specs.IndexCalls.{ReadsEntriesOf, LooksOnceAt, names_resumed};
ghost use Rattle.cache_store.specs.StoppedClearing.{ClearsUnderMark};
ghost use Rattle.cache_store.specs.Syncs.{clearing_syncs};
ghost use Rattle.cache_theory.specs.Command.Command.{Resume};
ghost use Rattle.context_clear.specs.Mark.{mark_of};
ghost use Rattle.disk_theory.specs.Account.{Accounts};
ghost use Rattle.disk_theory.specs.Sound.{IsQuiet};
ghost use Rattle.disk_theory.specs.State.{standing};
ghost use Rattle.disk_theory.specs.Told.{Told};
ghost use Rattle.disk_theory.specs.declared.place.Place.TheVariants.{Clear};
ghost use Rattle.handle_table.specs.HeldChunks.{SameChunks};
ghost use Rattle.file_handles.specs.Kept.{kept};
ghost use Rattle.index_map.specs.Known.{SameBase};
ghost use Rattle.index_theory.specs.Leaves.{LeavesIndex};

use crate::StoreFault;
use crate::store::Store;
use cache_replies::Answered;
use context_clear::{end as end_clearing, stored};
use disk_theory::{Disk, Place};
use std::alloc::Global;

impl Store {
    ghost use Rattle.cache_store.specs.Open.{IsOpen};
    ghost use Rattle.cache_store.specs.Performing.{AchievesWhatIsDone, HadEffect};
    ghost use Rattle.cache_store.specs.Session.{session};

    /// Where the mark of an origin stands, its entries are cleared once more. Another file in its place is removed.
    /// Where none stands, this is one look at the disk. No look is answered by `fault`.
    pub(crate) fn resume<D: Disk>(
        &mut self,
        alloc: Global,
        disk: &mut D,
    ) -> Result<Answered, StoreFault>
        requires calm { self.old.faulting ≡ false }
        requires told { IsTrue D.tells → IsOpen (session D.Disk self.old disk.old) }
        ensures does { let at = session D.Disk in IsTrue D.tells →
            AchievesWhatIsDone Resume result (at self.old disk.old) (at self.new disk.new) }
        ensures resumes { HadEffect result → IsTrue D.tells →
            let mark = mark_of (standing (D.state disk.old) Clear) in
            LeavesResumed mark (session D.Disk self.old disk.old) self.new.index }
        ensures synced { HadEffect result → IsTrue D.tells →
            IsSome (mark_of (standing (D.state disk.old) Clear)) → IsQuiet (D.state disk.new) }
        ensures stopped { let mark = mark_of (standing (D.state disk.old) Clear) in
            IfSome mark (λ origin. IsTrue D.tells →
            ClearsUnderMark origin (session D.Disk self.old disk.old) (D.state disk.new)) }
        ensures ordered { let mark = mark_of (standing (D.state disk.old) Clear) in
            IfSome mark (λ origin. Told D.Disk (ClearsInOrder origin) disk.old disk.new) }
        ensures at_clear { let mark = mark_of (standing (D.state disk.old) Clear) in
            Told D.Disk (ClearsAt mark) disk.old disk.new }
        ensures base { HadEffect result → SameBase self.old.index.map self.new.index.map }
        ensures index { Told D.Disk LeavesIndex disk.old disk.new }
        ensures unmarked { HadEffect result → IsTrue D.tells → HasNoMark (D.state disk.new) }
        ensures chunks { SameChunks (kept self.old.handles) (kept self.new.handles) }
        ensures unsaid { SaysNothing Resume result self.old.reply self.new.reply }
        ensures answer { IfOk result (λ a. a ≡ Answered.Resumed) }
        ensures names { let mark = mark_of (standing (D.state disk.old) Clear) in
            ReadsEntriesOf D.Disk (names_resumed mark self.old.index.update) disk.old disk.new }
        ensures once { IsTrue D.tells → standing (D.state disk.old) Clear ≡ None →
            LooksOnceAt D.Disk Clear disk.old disk.new }
        ensures looks_first { LooksFirst D.Disk (ending result) disk.old disk.new }
        ensures ends { self.new.faulting ≡ false }
        ensures account { Accounts D.Disk (ending result) clearing_syncs disk.old disk.new }
    {
        if disk.size(&Place::Clear)?.is_none() {
            return Ok(Answered::Resumed);
        }
        match stored(disk)? {
            Some(origin) => {
                let cleared = self.clear_origin(alloc, disk, origin);
                self.faulting = false;
                cleared?;
                Ok(Answered::Resumed)
            }
            None => {
                end_clearing(disk)?;
                Ok(Answered::Resumed)
            }
        }
    }
}
