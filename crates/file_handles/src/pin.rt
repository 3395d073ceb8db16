//! Pins the entry of a slot, so that neither an eviction nor a clearing takes it, or unpins it.

ghost use Rattle.std.specs.Prelude.{◌≡◌, ◌≢◌, ◌<◌, Bool, IfErr, IfOk, IsSomeAnd, IsTrue, OnOk, ◌≤◌, ◌+◌};
ghost use Rattle.cache_base.specs.declared.limits.TheConstants.{SLOTS};
ghost use Rattle.disk_theory.specs.Account.{no_sync};
ghost use Rattle.disk_theory.specs.Told.{Told};
ghost use Rattle.file_handles.specs.Answers.{done_or};
ghost use Rattle.file_handles.specs.Effects.{HasEffect, IsPlainEffect};
ghost use Rattle.file_handles.specs.Setting.{pin_command};
ghost use Rattle.file_handles.specs.Unsynced.{SyncsNothing};
ghost use Rattle.file_handles.specs.Promises.{ChangesFiles, KeepsHandles};

use crate::change::Change;
use crate::{Effect, HandleFault, Handles};
use cache_theory::Refusal;
use disk_theory::Disk;
use std::alloc::Global;

impl Handles {
    ghost use Rattle.file_handles.specs.Cache.{cache};
    ghost use Rattle.file_handles.specs.Carries.{CarriesOut};
    ghost use Rattle.handle_table.specs.Kept.{object_at as object_kept_at};
    ghost use Rattle.file_handles.specs.Kept.{kept};
    ghost use Rattle.handle_table.specs.Refuses.{ChecksNoSlot, HasAt, Passes, Refuses};
    ghost use Rattle.file_handles.specs.Stands.{RepresentsSome};

    // The place of the object that a slot writes.
    fn written_place(&self, slot: u8) -> Result<usize, Refusal>
        requires { slot < SLOTS }
        ensures refused { IfErr result (λ r. (pinned : Bool) →
            Refuses (kept self.now) (pin_command pinned slot) r) }
        ensures no_slot { ChecksNoSlot (kept self.now) slot result }
        ensures passes { OnOk result ((pinned : Bool) →
            Passes (kept self.now) (pin_command pinned slot)) }
        ensures object { IfOk result (λ place.
            IsSomeAnd (object_kept_at (kept self.now) place) (HasAt (kept self.now) slot place)) }
    {
        let used = self.table.writing(slot)?;
        Ok(used.place)
    }

    /// Pins the entry of a slot that writes it, or unpins it. Neither an eviction nor a clearing takes one that is
    /// pinned. The metadata of a finished entry are rewritten.
    pub fn set_pin<D: Disk>(
        &mut self,
        alloc: Global,
        disk: &mut D,
        slot: u8,
        pinned: bool,
    ) -> Result<Effect, HandleFault>
        requires slot { slot < SLOTS }
        requires told { IsTrue D.tells → RepresentsSome (cache D.Disk self.old disk.old) }
        ensures carried { let at = cache D.Disk in IsTrue D.tells →
            CarriesOut (pin_command pinned slot) (done_or result)
            (at self.old disk.old) (at self.new disk.new) }
        ensures effect { IfOk result (HasEffect (kept self.old) (pin_command pinned slot)) }
        ensures plain { IfOk result IsPlainEffect }
        ensures handles { KeepsHandles slot result (kept self.old) (kept self.new) }
        ensures files { ChangesFiles D.Disk no_sync result disk.old disk.new }
        ensures unsynced { Told D.Disk SyncsNothing disk.old disk.new }
        ensures calls { OnOk result (IsTrue D.tells →
            (D.counts disk.new).calls ≤ (D.counts disk.old).calls + 1) }
    {
        let place = self.written_place(slot)?;
        self.change_at(alloc, disk, place, Change::Pin { pinned })
    }
}
