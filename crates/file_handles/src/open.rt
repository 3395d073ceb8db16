//! Opens the entry of a key, which a slot reads.

ghost use Rattle.std.specs.Prelude.{ℕ, ◌≡◌, ◌≢◌, ◌<◌, Err, IsSome, IsTrue, None};
ghost use Rattle.cache_base.specs.declared.limits.TheConstants.{SLOTS};
ghost use Rattle.cache_theory.specs.Command.Command.{OpenKey};
ghost use Rattle.cache_theory.specs.Machine.{Machine, used_by};
ghost use Rattle.cache_theory.specs.Proper.{IsProper};
ghost use Rattle.disk_theory.specs.Account.{Looks};
ghost use Rattle.file_handles.specs.Answers.{OnRead, done_or, ending};
ghost use Rattle.handle_table.specs.Seats.{IsLow};

use crate::find::load;
use crate::{HandleFault, Handles};
use cache_theory::Refusal;
use disk_theory::Disk;
use entry_key::may_write;
use entry_name::name_of;
use handle_table::{Entry, Object};
use std::alloc::Global;

impl Handles {
    ghost use Rattle.file_handles.specs.Cache.{cache};
    ghost use Rattle.file_handles.specs.Carries.{CarriesOut};
    ghost use Rattle.file_handles.specs.Joining.{AddsTo};
    ghost use Rattle.handle_table.specs.HeldChunks.{SameChunks};
    ghost use Rattle.handle_table.specs.Kept.{use_at};
    ghost use Rattle.file_handles.specs.Kept.{kept};
    ghost use Rattle.handle_table.specs.Standing.{HandlesStand};
    ghost use Rattle.file_handles.specs.Stands.{RepresentsSome};

    /// Puts a new object at the first free place, for a slot that is free.
    pub(crate) fn add(&mut self, slot: u8, object: Object, writes: bool) -> Result<(), HandleFault>
        requires slot { slot < SLOTS }
        requires free { use_at (kept self.old) slot ≡ None }
        requires numbered { object.number ≡ (kept self.old).made }
        requires low { IsLow object.aside }
        ensures adds { AddsTo slot object writes result (kept self.old) (kept self.new) }
        ensures chunks { SameChunks (kept self.old) (kept self.new) }
    {
        self.table.add(slot, object, writes)?;
        Ok(())
    }

    /// Opens the entry of a key, which the slot reads. An entry that is in use is shared as it is; otherwise every
    /// chunk of its file is checked against its hash.
    pub fn open<D: Disk>(
        &mut self,
        alloc: Global,
        disk: &mut D,
        slot: u8,
        key: &[u8],
    ) -> Result<(), HandleFault>
        requires slot { slot < SLOTS }
        requires told { IsTrue D.tells → RepresentsSome (cache D.Disk self.old disk.old) }
        ensures carried { let at = cache D.Disk in IsTrue D.tells →
            CarriesOut (OpenKey slot key.now) (done_or result)
            (at self.old disk.old) (at self.new disk.new) }
        ensures chunks { SameChunks (kept self.old) (kept self.new) }
        ensures read { OnRead result (kept self.new ≡ kept self.old) }
        ensures no_change { result ≢ Err HandleFault.Disk }
        ensures in_use { (m : Machine) (number : ℕ → ℕ) → IsProper m →
            HandlesStand (kept self.old) m number → IsSome (used_by m key.now) →
            disk.new ≡ disk.old }
        ensures no_memory { (m : Machine) (number : ℕ → ℕ) → IsProper m →
            HandlesStand (kept self.old) m number → IsSome (used_by m key.now) →
            result ≢ Err HandleFault.Memory }
        ensures looks { Looks D.Disk (ending result) disk.old disk.new }
    {
        self.table.has_rows();
        if self.table.use_of(slot).is_ok() {
            return Err(HandleFault::Refused(Refusal::SlotTaken));
        }
        if !may_write(key) {
            return Err(HandleFault::Refused(Refusal::BadKey));
        }
        let name = name_of(key);
        if let Some(place) = self.table.used_by(&name, key) {
            self.table.join(slot, place, false);
            return Ok(());
        }
        let meta = load(alloc, disk, key, &name, &mut self.chunk)?;
        let object = Object {
            number: self.table.made,
            name,
            doomed: false,
            aside: None,
            entry: Entry::Finished(meta),
        };
        self.add(slot, object, false)
    }
}
