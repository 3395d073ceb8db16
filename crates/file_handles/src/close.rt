//! Closes a slot, and all slots at the end.

ghost use Rattle.std.specs.Prelude.{◌≡◌, ◌<◌, ◌&&◌, IfOk, IsSome, IsTrue, None, OnOk, Some, false, option_map, ◌≢◌, Err, ◌+◌, ◌≤◌, IfSome};
ghost use Rattle.cache_base.specs.declared.limits.TheConstants.{SLOTS};
ghost use Rattle.cache_theory.specs.Command.Command.{Close};
ghost use Rattle.disk_theory.specs.Account.{OnlyChanges, ending as disk_ending, no_sync};
ghost use Rattle.disk_theory.specs.Calls.{if_done};
ghost use Rattle.disk_theory.specs.State.{standing};
ghost use Rattle.disk_theory.specs.Told.{Told};
ghost use Rattle.doom_area.specs.DoomArea.{RemovesDoomed};
ghost use Rattle.file_handles.specs.Answers.{OnRefused, done_or, ending};
ghost use Rattle.file_handles.specs.Closing.{is_some_draft, let_go_by};
ghost use Rattle.file_handles.specs.Effects.{HasEffect, IsPlainEffect};
ghost use Rattle.file_handles.specs.Finishing.{finish_calls};
ghost use Rattle.handle_table.specs.Held.{object_place};
ghost use Rattle.file_handles.specs.Unsynced.{SyncsNothing};
ghost use Rattle.index_theory.specs.Leaves.{LeavesBeside};
ghost use Rattle.file_handles.specs.Promises.{ChangesFiles};

use crate::{Effect, HandleFault, Handles};
use disk_theory::{Disk, DiskFault};
use doom_area::release;
use handle_table::{Entry, Object, Use};
use std::alloc::Global;

// Removes the file of an object that no slot uses any more, if it stands aside.
fn let_go<D: Disk>(disk: &mut D, object: &Object) -> Result<(), DiskFault>
    requires { IsTrue D.tells → IsSome (standing (D.state disk.old) (object_place object.now)) }
    ensures state { Told D.Disk (λ s t. t ≡ if_done result (let_go_by object.now s) s)
        disk.old disk.new }
    ensures calls { IsTrue D.tells → (D.counts disk.new).calls ≤ (D.counts disk.old).calls + 1 }
    ensures disk { OnlyChanges D.Disk (disk_ending result) no_sync disk.old disk.new }
{
    match object.aside {
        Some(number) => release(disk, number),
        None => Ok(()),
    }
}

impl Handles {
    ghost use Rattle.file_handles.specs.Cache.{cache};
    ghost use Rattle.file_handles.specs.Carries.{CarriesOut};
    ghost use Rattle.file_handles.specs.Closing.{ClosesAll, ClosesChunks, FinishesFirst, GivesUp, MayGiveUp, chunks_left, close_syncs, writes_draft};
    ghost use Rattle.handle_table.specs.HeldChunks.{SameChunks};
    ghost use Rattle.handle_table.specs.Kept.{number_at, object_at as object_kept_at, object_in, use_at};
    ghost use Rattle.file_handles.specs.Kept.{kept};
    ghost use Rattle.file_handles.specs.Refuses.{TellsNoSlot};
    ghost use Rattle.file_handles.specs.Stands.{RepresentsSome};

    // Whether the use is a writer's, of a draft.
    fn is_finished_by(&self, used: Use) -> bool
        requires { IsSome (object_kept_at (kept self.now) used.place) }
        ensures { result ≡ (used.writes
            && is_some_draft (object_kept_at (kept self.now) used.place)) }
    {
        used.writes && matches!(self.table.object_at(used.place).entry, Entry::Draft(_))
    }

    // Finishes the entry of a slot that writes it, if it is not finished, before the slot is given up.
    fn finish_first<D: Disk>(
        &mut self,
        alloc: Global,
        disk: &mut D,
        slot: u8,
        used: Use,
    ) -> Result<Effect, HandleFault>
        requires slot { slot < SLOTS }
        requires used { use_at (kept self.old) slot ≡ Some used }
        requires in_place { IsSome (object_kept_at (kept self.old) used.place) }
        requires told { IsTrue D.tells → RepresentsSome (cache D.Disk self.old disk.old) }
        ensures finishes { let at = cache D.Disk in IsTrue D.tells →
            FinishesFirst slot result (at self.old disk.old) (at self.new disk.new) }
        ensures there { OnOk result (IsTrue D.tells →
            MayGiveUp slot used.place (cache D.Disk self.new disk.new)) }
        ensures effect { IfOk result (HasEffect (kept self.old) (Close slot)) }
        ensures plain { IfOk result IsPlainEffect }
        ensures chunks { SameChunks (kept self.old) (kept self.new) }
        ensures slots { (kept self.new).slots ≡ (kept self.old).slots }
        ensures numbered { OnOk result
            (number_at (kept self.new) used.place ≡ number_at (kept self.old) used.place) }
        ensures refused { OnRefused result (λ _. ⊥) }
        ensures no_read { result ≢ Err HandleFault.Read }
        ensures same { writes_draft (kept self.old) slot ≡ false → disk.new ≡ disk.old }
        ensures calls { OnOk result (IsTrue D.tells →
            IfSome (object_kept_at (kept self.old) used.place) (λ x. (D.counts disk.new).calls
            ≤ (D.counts disk.old).calls + finish_calls x)) }
        ensures index { Told D.Disk LeavesBeside disk.old disk.new }
        ensures disk { let most = close_syncs (kept self.old) slot in
            OnlyChanges D.Disk (ending result) most disk.old disk.new }
    {
        if self.is_finished_by(used) {
            self.finish_at(alloc, disk, used.place, None)
        } else {
            Ok(Effect::Same)
        }
    }

    // Gives up a slot that has this place, and the object there if no other slot uses it.
    fn give_up<D: Disk>(&mut self, disk: &mut D, slot: u8, place: usize) -> Result<(), DiskFault>
        requires slot { slot < SLOTS }
        requires place { place < SLOTS }
        requires used { option_map (λ u. u.place) (use_at (kept self.old) slot) ≡ Some place }
        requires there { IsSome (object_kept_at (kept self.old) place) }
        requires told { IsTrue D.tells → MayGiveUp slot place (cache D.Disk self.old disk.old) }
        ensures gives_up { let at = cache D.Disk in IsTrue D.tells →
            GivesUp slot result (at self.old disk.old) (at self.new disk.new) }
        ensures given_up { use_at (kept self.new) slot ≡ None }
        ensures chunks { (kept self.new).chunks ≡ chunks_left (kept self.old) slot place }
        ensures unsynced { Told D.Disk SyncsNothing disk.old disk.new }
        ensures index { Told D.Disk LeavesBeside disk.old disk.new }
        ensures calls { IsTrue D.tells →
            (D.counts disk.new).calls ≤ (D.counts disk.old).calls + 1 }
        ensures disk { OnlyChanges D.Disk (disk_ending result) no_sync disk.old disk.new }
    {
        self.table.has_rows();
        let Some(object) = self.table.leave(slot, place) else {
            return Ok(());
        };
        let_go(disk, &object)
    }

    /// Closes a slot. If it writes an entry that is not finished, the entry is finished first. The file of a doomed
    /// entry is removed with its last slot.
    pub fn close<D: Disk>(
        &mut self,
        alloc: Global,
        disk: &mut D,
        slot: u8,
    ) -> Result<Effect, HandleFault>
        requires slot { slot < SLOTS }
        requires told { IsTrue D.tells → RepresentsSome (cache D.Disk self.old disk.old) }
        ensures carried { let at = cache D.Disk in IsTrue D.tells →
            CarriesOut (Close slot) (done_or result) (at self.old disk.old) (at self.new disk.new) }
        ensures effect { IfOk result (HasEffect (kept self.old) (Close slot)) }
        ensures plain { IfOk result IsPlainEffect }
        ensures chunks { ClosesChunks slot result (kept self.old) (kept self.new) }
        ensures no_slot { TellsNoSlot (kept self.old) slot result }
        ensures files { ChangesFiles D.Disk (close_syncs (kept self.old) slot) result disk.old
            disk.new }
        ensures no_read { result ≢ Err HandleFault.Read }
        ensures unsynced { writes_draft (kept self.old) slot ≡ false →
            Told D.Disk SyncsNothing disk.old disk.new }
        ensures calls { OnOk result (IsTrue D.tells →
            IfSome (object_in (kept self.old) slot) (λ x. (D.counts disk.new).calls
            ≤ (D.counts disk.old).calls + finish_calls x + 1)) }
    {
        let used = self.table.live_use(slot)?;
        let effect = self.finish_first(alloc, disk, slot, used)?;
        self.give_up(disk, slot, used.place)?;
        Ok(effect)
    }

    /// Closes all slots. The files that stand aside, those of doomed entries and of such that are not finished, are
    /// removed.
    pub fn close_all<D: Disk>(self, disk: &mut D) -> Result<(), DiskFault>
        requires told { IsTrue D.tells → RepresentsSome (cache D.Disk self disk.old) }
        ensures closes { IsTrue D.tells →
            ClosesAll result (cache D.Disk self disk.old) (D.state disk.new) }
        ensures removes { Told D.Disk RemovesDoomed disk.old disk.new }
        ensures index { Told D.Disk LeavesBeside disk.old disk.new }
        ensures disk { OnlyChanges D.Disk (disk_ending result) no_sync disk.old disk.new }
    {
        for object in &self.table.rows.objects {
            if let Some(object) = object {
                let_go(disk, object)?;
            }
        }
        Ok(())
    }
}
