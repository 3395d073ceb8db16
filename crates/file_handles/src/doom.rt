//! Dooms an entry: it loses its name, and its file is removed or moved among the doomed.

ghost use Rattle.std.specs.Prelude.{◌≡◌, ◌≢◌, ◌<◌, ℕ, Err, false, IfOk, IsSome, IsTrue, None, Ok, OnOk, Some, is_some, length};
ghost use Rattle.cache_base.specs.declared.limits.TheConstants.{SLOTS};
ghost use Rattle.cache_theory.specs.Command.Command.{Doom};
ghost use Rattle.cache_theory.specs.Machine.{Machine};
ghost use Rattle.disk_theory.specs.Account.{Looks, OnlyChanges, ending as disk_ending, no_sync};
ghost use Rattle.disk_theory.specs.Told.{Told};
ghost use Rattle.entry_name.specs.EntryName.{file_name};
ghost use Rattle.file_handles.specs.Answers.{OnRefused, done_or, ending};
ghost use Rattle.disk_theory.specs.State.{State, standing};
ghost use Rattle.disk_theory.specs.declared.place.Place.TheVariants.{Doomed as DoomedAt, Entry as EntryAt};
ghost use Rattle.handle_table.specs.Aside.{number_in};
ghost use Rattle.file_handles.specs.Dooming.{IsUnfinishedFor, SetsAside, TakesEntry, TakesFirstFree};
ghost use Rattle.file_handles.specs.Effects.{HasEffect, IsPlainEffect};
ghost use Rattle.handle_table.specs.Seats.{IsLow};
ghost use Rattle.file_handles.specs.Promises.{DoomsAside, LooksThenChanges};

use crate::find::read_metadata;
use crate::{Effect, HandleFault, Handles};
use cache_base::Name;
use cache_theory::Refusal;
use disk_theory::{Disk, DiskFault, Place};
use doom_area::doom as move_to_doomed;
use entry_key::may_write;
use entry_name::name_of;
use handle_table::{Label, doomed_numbers};
use std::alloc::Global;

// The number under which the file of an entry stands aside. It is moved there, if it stands under its name.
fn set_aside<D: Disk>(
    disk: &mut D,
    name: &Name,
    aside: Option<u32>,
    in_use: &[u32],
) -> Result<u32, DiskFault>
    requires few { length in_use.now < SLOTS }
    requires told { IsTrue D.tells → aside ≡ None →
        IsSome (standing (D.state disk.old) (EntryAt name.now)) }
    ensures moves { Told D.Disk (SetsAside name.now aside in_use.now result) disk.old disk.new }
    ensures stays { (number : ℕ) → aside ≡ Some number →
        (result ≡ Ok number) × (disk.new ≡ disk.old) }
    ensures takes { Told D.Disk (TakesEntry name.now) disk.old disk.new }
    ensures low { IsLow aside → IfOk result (λ number. number < SLOTS) }
    ensures disk { OnlyChanges D.Disk (disk_ending result) no_sync disk.old disk.new }
{
    match aside {
        Some(number) => Ok(number),
        None => move_to_doomed(disk, name, in_use),
    }
}

impl Handles {
    ghost use Rattle.file_handles.specs.Cache.{cache, cache_at};
    ghost use Rattle.file_handles.specs.Carries.{CarriesOut};
    ghost use Rattle.file_handles.specs.Dooming.{DoomsUnder, EndsOn};
    ghost use Rattle.handle_table.specs.HeldChunks.{SameChunks};
    ghost use Rattle.handle_table.specs.Kept.{object_at as object_kept_at};
    ghost use Rattle.file_handles.specs.Kept.{kept};
    ghost use Rattle.handle_table.specs.Finding.{used_place, user_place};
    ghost use Rattle.file_handles.specs.Stands.{Represents, RepresentsSome};
    ghost use Rattle.handle_table.specs.Users.{users_of};

    // Dooms the undoomed object in use of a name, which is at this place. Its file moves among the doomed, where it
    // does not stand there.
    fn doom_at<D: Disk>(
        &mut self,
        disk: &mut D,
        place: usize,
        name: &Name,
    ) -> Result<(), HandleFault>
        requires place { place < SLOTS }
        requires user { user_place (kept self.old) name.now ≡ Some place }
        requires told { IsTrue D.tells → RepresentsSome (cache D.Disk self.old disk.old) }
        ensures dooms { let at = cache D.Disk in IsTrue D.tells →
            DoomsUnder name.now.0 result (at self.old disk.old) (at self.new disk.new) }
        ensures aside { DoomsAside D.Disk name.now result (kept self.old) (kept self.new) disk.old
            disk.new }
    {
        let (label, entry) = self.table.take_apart(place);
        // Those of the other objects, so fewer than the table has rows.
        let doomed = doomed_numbers(&self.table.rows.objects);
        let moved_to = set_aside(disk, name, label.aside, &doomed.numbers[..doomed.count])?;
        let label = Label {
            doomed: true,
            aside: Some(moved_to),
            ..label
        };
        self.table.put_entry(place, label, entry);
        Ok(())
    }

    /// Dooms the undoomed object in use of a name, if there is one.
    pub(crate) fn doom_user<D: Disk>(
        &mut self,
        disk: &mut D,
        name: &Name,
    ) -> Result<bool, HandleFault>
        requires told { IsTrue D.tells → RepresentsSome (cache D.Disk self.old disk.old) }
        ensures dooms { let at = cache D.Disk in
            IsTrue D.tells → user_place (kept self.old) name.now ≢ None →
            DoomsUnder name.now.0 result (at self.old disk.old) (at self.new disk.new) }
        ensures aside { DoomsAside D.Disk name.now result (kept self.old) (kept self.new) disk.old
            disk.new }
        ensures none { user_place (kept self.old) name.now ≡ None → (result ≡ Ok false)
            × ((disk.new ≡ disk.old) × (kept self.new ≡ kept self.old)) }
        ensures some { IfOk result (λ doomed.
            doomed ≡ is_some (user_place (kept self.old) name.now)) }
    {
        match self.table.user(name) {
            Some(place) => {
                self.doom_at(disk, place, name)?;
                Ok(true)
            }
            None => Ok(false),
        }
    }

    /// No file of an entry in use stands aside under the number `SLOTS`: theirs are less.
    pub fn leaves_number_free(&self)
        ensures { (s : State) (m : Machine) → Represents (cache_at (kept self.now) s) m →
            standing s (DoomedAt SLOTS) ≡ None }
    {}

    /// Dooms what stands under a name. Its file moves among the doomed where a slot has it, and otherwise is removed. The
    /// file of an entry that is not finished stands among the doomed already, and keeps its number there.
    pub fn doom_name<D: Disk>(&mut self, disk: &mut D, name: &Name) -> Result<Effect, HandleFault>
        requires told { IsTrue D.tells → RepresentsSome (cache D.Disk self.old disk.old)
            × (users_of (kept self.old) name.now ≡ 0 →
            IsSome (standing (D.state disk.old) (EntryAt name.now))) }
        ensures dooms { let at = cache D.Disk in IsTrue D.tells →
            DoomsUnder name.now.0 result (at self.old disk.old) (at self.new disk.new) }
        ensures effect { IfOk result (λ e. e ≡ Effect.Gone name.now) }
        ensures aside { DoomsAside D.Disk name.now result (kept self.old) (kept self.new) disk.old
            disk.new }
    {
        if self.doom_user(disk, name)? {
            return Ok(Effect::Gone(*name));
        }
        disk.remove(&Place::Entry(*name))?;
        Ok(Effect::Gone(*name))
    }

    // The name of a key, if an entry of it is in use or its file stands.
    fn may_doom<D: Disk>(
        &self,
        alloc: Global,
        disk: &mut D,
        key: &[u8],
    ) -> Result<Name, HandleFault>
        ensures refuses { OnRefused result (λ r. IsTrue D.tells →
            EndsOn (cache D.Disk self.now disk.old) (Doom key.now) (Some r)) }
        ensures named { IfOk result (λ name. name.0 ≡ file_name key.now) }
        ensures passes { OnOk result (IsTrue D.tells →
            EndsOn (cache D.Disk self.now disk.old) (Doom key.now) None) }
        ensures in_use { (place : ℕ) →
            used_place (kept self.now) (record { 0 = file_name key.now }) key.now ≡ Some place →
            disk.new ≡ disk.old }
        ensures no_change { result ≢ Err HandleFault.Disk }
        ensures looks { Looks D.Disk (ending result) disk.old disk.new }
    {
        if !may_write(key) {
            return Err(HandleFault::Refused(Refusal::BadKey));
        }
        let name = name_of(key);
        if self.table.used_by(&name, key).is_some() {
            return Ok(name);
        }
        read_metadata(alloc, disk, key, &name)?;
        Ok(name)
    }

    /// Dooms the entry of a key. Its file moves among the doomed where a slot has it, and otherwise is removed. That of an
    /// entry that is not finished stands there already, so that no call is made.
    pub fn doom<D: Disk>(
        &mut self,
        alloc: Global,
        disk: &mut D,
        key: &[u8],
    ) -> Result<Effect, HandleFault>
        requires told { IsTrue D.tells → RepresentsSome (cache D.Disk self.old disk.old) }
        ensures carried { let at = cache D.Disk in IsTrue D.tells →
            CarriesOut (Doom key.now) (done_or result)
            (at self.old disk.old) (at self.new disk.new) }
        ensures effect { IfOk result (HasEffect (kept self.old) (Doom key.now)) }
        ensures plain { IfOk result IsPlainEffect }
        ensures numbered { Told D.Disk TakesFirstFree disk.old disk.new }
        ensures unmoved { (place number : ℕ) →
            IsUnfinishedFor (kept self.old) key.now place number →
            (disk.new ≡ disk.old)
            × (number_in (object_kept_at (kept self.new) place) ≡ Some number) }
        ensures takes { Told D.Disk (TakesEntry (record { 0 = file_name key.now }))
            disk.old disk.new }
        ensures chunks { SameChunks (kept self.old) (kept self.new) }
        ensures unchanged { OnRefused result (λ _. Told D.Disk (λ s t. t ≡ s) disk.old disk.new) }
        ensures looks { LooksThenChanges D.Disk result (kept self.old) (kept self.new) disk.old
            disk.new }
    {
        let name = self.may_doom(alloc, disk, key)?;
        self.doom_name(disk, &name)
    }
}
