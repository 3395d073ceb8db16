//! Counts a use of the entry of a slot.

ghost use Rattle.std.specs.Prelude.{◌≡◌, ◌<◌, IfErr, IfOk, IsSomeAnd, IsTrue, OnOk, ◌≢◌, ◌≤◌, ◌+◌};
ghost use Rattle.cache_base.specs.declared.limits.TheConstants.{SLOTS};
ghost use Rattle.cache_theory.specs.Command.Command.{UseEntry};
ghost use Rattle.disk_theory.specs.Account.{no_sync};
ghost use Rattle.disk_theory.specs.Told.{Told};
ghost use Rattle.file_handles.specs.Answers.{done_or};
ghost use Rattle.file_handles.specs.Effects.{HasEffectAt, IsPlainEffect};
ghost use Rattle.file_handles.specs.Unsynced.{SyncsNothing};
ghost use Rattle.file_handles.specs.Promises.{ChangesFiles, KeepsHandles};

use crate::change::Change;
use crate::{Effect, HandleFault, Handles};
use cache_base::Moment;
use cache_theory::Refusal;
use disk_theory::Disk;
use std::alloc::Global;

impl Handles {
    ghost use Rattle.file_handles.specs.Cache.{cache};
    ghost use Rattle.file_handles.specs.Carries.{CarriesOutAt};
    ghost use Rattle.handle_table.specs.Kept.{object_at as object_kept_at};
    ghost use Rattle.file_handles.specs.Kept.{kept};
    ghost use Rattle.handle_table.specs.Refuses.{ChecksNoSlot, HasAt, Passes, Refuses};
    ghost use Rattle.file_handles.specs.Stands.{RepresentsSome};

    // The place of the object of a slot.
    fn place_of(&self, slot: u8) -> Result<usize, Refusal>
        requires { slot < SLOTS }
        ensures refused { IfErr result (λ r. Refuses (kept self.now) (UseEntry slot) r) }
        ensures no_slot { ChecksNoSlot (kept self.now) slot result }
        ensures passes { OnOk result (Passes (kept self.now) (UseEntry slot)) }
        ensures object { IfOk result (λ place.
            IsSomeAnd (object_kept_at (kept self.now) place) (HasAt (kept self.now) slot place)) }
    {
        let used = self.table.live_use(slot)?;
        Ok(used.place)
    }

    /// Counts one more use of the entry of a slot at this moment, and gives it the frecency that follows. The
    /// metadata of a finished entry are rewritten.
    pub fn use_entry<D: Disk>(
        &mut self,
        alloc: Global,
        disk: &mut D,
        slot: u8,
        now: Moment,
    ) -> Result<Effect, HandleFault>
        requires slot { slot < SLOTS }
        requires told { IsTrue D.tells → RepresentsSome (cache D.Disk self.old disk.old) }
        ensures carried { let at = cache D.Disk in IsTrue D.tells →
            CarriesOutAt now (UseEntry slot) (done_or result)
            (at self.old disk.old) (at self.new disk.new) }
        ensures effect { IfOk result (HasEffectAt now (kept self.old) (UseEntry slot)) }
        ensures plain { IfOk result IsPlainEffect }
        ensures handles { KeepsHandles slot result (kept self.old) (kept self.new) }
        ensures files { ChangesFiles D.Disk no_sync result disk.old disk.new }
        ensures unsynced { Told D.Disk SyncsNothing disk.old disk.new }
        ensures calls { OnOk result (IsTrue D.tells →
            (D.counts disk.new).calls ≤ (D.counts disk.old).calls + 1) }
    {
        let place = self.place_of(slot)?;
        self.change_at(alloc, disk, place, Change::Use { now })
    }
}
