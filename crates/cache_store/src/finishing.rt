//! Finishes an entry with metadata that are given.

ghost use Rattle.std.specs.Prelude.{◌≡◌, ◌<◌, IfOk, IsTrue};
ghost use Rattle.cache_base.specs.declared.limits.TheConstants.{SLOTS};
ghost use Rattle.cache_store.specs.Answering.{SaysNothing};
ghost use Rattle.cache_store.specs.Faults.{ending};
ghost use Rattle.cache_store.specs.Performing.{HadEffect};
ghost use Rattle.cache_replies.specs.Printed.{IsPlainAnswer};
ghost use Rattle.cache_theory.specs.Command.Command.{FinishAs};
ghost use Rattle.disk_theory.specs.Account.{OnlyChanges};
ghost use Rattle.disk_theory.specs.Told.{Told};
ghost use Rattle.handle_table.specs.HeldChunks.{SameChunks};
ghost use Rattle.file_handles.specs.Finishing.{finish_syncs};
ghost use Rattle.handle_table.specs.Kept.{object_in};
ghost use Rattle.file_handles.specs.Kept.{kept};
ghost use Rattle.index_map.specs.Known.{SameBase};
ghost use Rattle.index_theory.specs.Leaves.{LeavesBeside};

use crate::StoreFault;
use crate::learn::learn_of;
use crate::store::Store;
use cache_replies::Answered;
use disk_theory::Disk;
use entry_parts::{Elements, Header};
use std::alloc::Global;

impl Store {
    ghost use Rattle.cache_store.specs.Open.{IsOpen};
    ghost use Rattle.cache_store.specs.Performing.{AchievesFor};
    ghost use Rattle.cache_store.specs.Session.{session};

    /// Finishes the entry of a slot with this header and a copy of these elements.
    pub(crate) fn finish_as<D: Disk>(
        &mut self,
        alloc: Global,
        disk: &mut D,
        slot: u8,
        header: Header,
        elements: &Elements,
    ) -> Result<Answered, StoreFault>
        requires slot { slot < SLOTS }
        requires told { IsTrue D.tells → IsOpen (session D.Disk self.old disk.old) }
        ensures does { let at = session D.Disk in IsTrue D.tells →
            AchievesFor (FinishAs slot header elements.now) result
            (at self.old disk.old) (at self.new disk.new) }
        ensures plain { IfOk result IsPlainAnswer }
        ensures base { HadEffect result → SameBase self.old.index.map self.new.index.map }
        ensures chunks { SameChunks (kept self.old.handles) (kept self.new.handles) }
        ensures unsaid { SaysNothing (FinishAs slot header elements.now) result
            self.old.reply self.new.reply }
        ensures calm { self.new.faulting ≡ self.old.faulting }
        ensures index { Told D.Disk LeavesBeside disk.old disk.new }
        ensures disk { let most = finish_syncs (object_in (kept self.old.handles) slot) in
            OnlyChanges D.Disk (ending result) most disk.old disk.new }
    {
        let elements = elements.copy(alloc)?;
        let answer = self.handles.finish_as(alloc, disk, slot, header, elements);
        learn_of(&mut self.index, answer)
    }
}
