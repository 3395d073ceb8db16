//! Makes a new entry, which a slot writes.

ghost use Rattle.std.specs.Prelude.{◌≡◌, ◌≢◌, ◌<◌, Err, false, true, IfOk, IsTrue, OnOk, Some, is_some};
ghost use Rattle.cache_base.specs.declared.limits.TheConstants.{SLOTS};
ghost use Rattle.cache_theory.specs.Command.Command.{Create};
ghost use Rattle.cache_theory.specs.Step.{fresh};
ghost use Rattle.disk_theory.specs.Account.{Accounts, Ending, FailsInChange, Looks, OnlyChanges, no_sync};
ghost use Rattle.disk_theory.specs.State.{standing};
ghost use Rattle.disk_theory.specs.Told.{Told};
ghost use Rattle.disk_theory.specs.declared.place.Place.TheVariants.{Doomed as DoomedAt, Entry as EntryAt};
ghost use Rattle.entry_key.specs.Writing.{may_write as may_write_of};
ghost use Rattle.entry_name.specs.EntryName.{file_name};
ghost use Rattle.file_handles.specs.Answers.{OnRead, OnRefused, done_or, ending};
ghost use Rattle.file_handles.specs.Creating.{MayHaveMade, MayHaveRemoved};
ghost use Rattle.file_handles.specs.Dooming.{TakesFirstFree};
ghost use Rattle.file_handles.specs.Effects.{HasEffect, IsPlainEffect};
ghost use Rattle.handle_table.specs.Held.{IsHeldAs};
ghost use Rattle.file_handles.specs.Promises.{LooksThenChanges};

use crate::fault::look_fault;
use crate::{Effect, HandleFault, Handles};
use cache_base::{Bytes, Moment, Name};
use cache_theory::Refusal;
use disk_theory::{Disk, Place};
use entry_file::begin;
use entry_key::may_write;
use entry_name::name_of;
use entry_parts::{Elements, Header};
use handle_table::{Draft, Entry, Object};
use std::alloc::Global;

// A new draft of a key with this number and name, and its file, which is new and empty and has this number among the
// doomed.
fn drafted<D: Disk>(
    alloc: Global,
    disk: &mut D,
    number: u64,
    name: Name,
    aside: u32,
    key: &[u8],
    now: Moment,
) -> Result<Object, HandleFault>
    requires good { may_write_of key.now ≡ true }
    requires named { name.0 ≡ file_name key.now }
    ensures draft { IfOk result (λ object. (object.number ≡ number)
        × ((object.aside ≡ Some aside) × IsHeldAs object (fresh now key.now))) }
    ensures state { Told D.Disk (MayHaveMade (DoomedAt aside) result) disk.old disk.new }
    ensures refused { OnRefused result (λ _. ⊥) }
    ensures no_read { result ≢ Err HandleFault.Read }
    ensures disk { OnlyChanges D.Disk (ending result) no_sync disk.old disk.new }
{
    let bytes = Bytes::from_slice(alloc, key)?;
    let body = begin(alloc, disk, &Place::Doomed(aside))?;
    let draft = Draft {
        body,
        header: Header::fresh(now, key.len() as u32),
        key: bytes,
        elements: Elements::new(alloc),
    };
    Ok(Object {
        number,
        name,
        doomed: false,
        aside: Some(aside),
        entry: Entry::Draft(draft),
    })
}

// Whether a file stands under a name.
fn is_there<D: Disk>(disk: &mut D, name: &Name) -> Result<bool, HandleFault>
    ensures there { IfOk result (λ there. IsTrue D.tells →
        there ≡ is_some (standing (D.state disk.old) (EntryAt name.now))) }
    ensures refused { OnRefused result (λ _. ⊥) }
    ensures no_change { result ≢ Err HandleFault.Disk }
    ensures looks { Looks D.Disk (ending result) disk.old disk.new }
{
    match disk.size(&Place::Entry(*name)) {
        Ok(size) => Ok(size.is_some()),
        Err(fault) => Err(look_fault(fault)),
    }
}

// Removes the file of a name, if there is one.
fn remove_file<D: Disk>(disk: &mut D, name: &Name) -> Result<(), HandleFault>
    ensures state { Told D.Disk (MayHaveRemoved (EntryAt name.now) result) disk.old disk.new }
    ensures refused { OnRefused result (λ _. ⊥) }
    ensures read { OnRead result (Looks D.Disk Ending.OneFailed disk.old disk.new) }
    ensures account { Accounts D.Disk (ending result) no_sync disk.old disk.new }
    ensures change { result ≡ Err HandleFault.Disk → FailsInChange D.Disk (ending result) disk.new }
{
    if !is_there(disk, name)? {
        return Ok(());
    }
    disk.remove(&Place::Entry(*name))?;
    Ok(())
}

impl Handles {
    ghost use Rattle.file_handles.specs.Cache.{cache};
    ghost use Rattle.file_handles.specs.Carries.{CarriesOutAt};
    ghost use Rattle.file_handles.specs.Dooming.{DoomsUnder};
    ghost use Rattle.handle_table.specs.HeldChunks.{SameChunks};
    ghost use Rattle.file_handles.specs.Kept.{kept};
    ghost use Rattle.file_handles.specs.Stands.{RepresentsSome};

    // Dooms what stands under a name: the undoomed object in use, or else the file that is there.
    fn doom_there<D: Disk>(&mut self, disk: &mut D, name: &Name) -> Result<(), HandleFault>
        requires told { IsTrue D.tells → RepresentsSome (cache D.Disk self.old disk.old) }
        ensures dooms { let at = cache D.Disk in IsTrue D.tells →
            DoomsUnder name.now.0 result (at self.old disk.old) (at self.new disk.new) }
        ensures numbered { Told D.Disk TakesFirstFree disk.old disk.new }
        ensures slots { (kept self.new).slots ≡ (kept self.old).slots }
        ensures chunks { SameChunks (kept self.old) (kept self.new) }
        ensures refused { OnRefused result (λ _. ⊥) }
        ensures looks { LooksThenChanges D.Disk result (kept self.old) (kept self.new) disk.old
            disk.new }
    {
        if self.doom_user(disk, name)? {
            return Ok(());
        }
        remove_file(disk, name)?;
        Ok(())
    }

    /// Makes a new entry of a key at this moment, which the slot writes. What stood under the name is doomed.
    pub fn create<D: Disk>(
        &mut self,
        alloc: Global,
        disk: &mut D,
        slot: u8,
        key: &[u8],
        now: Moment,
    ) -> Result<Effect, HandleFault>
        requires slot { slot < SLOTS }
        requires told { IsTrue D.tells → RepresentsSome (cache D.Disk self.old disk.old) }
        ensures carried { let at = cache D.Disk in IsTrue D.tells →
            CarriesOutAt now (Create slot key.now) (done_or result)
            (at self.old disk.old) (at self.new disk.new) }
        ensures effect { IfOk result (HasEffect (kept self.old) (Create slot key.now)) }
        ensures plain { IfOk result IsPlainEffect }
        ensures bad_key { may_write_of key.now ≡ false → OnOk result ⊥ }
        ensures numbered { Told D.Disk TakesFirstFree disk.old disk.new }
        ensures chunks { SameChunks (kept self.old) (kept self.new) }
        ensures unchanged { OnRefused result (λ _. disk.new ≡ disk.old) }
        ensures looks { LooksThenChanges D.Disk result (kept self.old) (kept self.new) disk.old
            disk.new }
    {
        if self.table.use_of(slot).is_ok() {
            return Err(HandleFault::Refused(Refusal::SlotTaken));
        }
        if !may_write(key) {
            return Err(HandleFault::Refused(Refusal::BadKey));
        }
        let name = name_of(key);
        self.doom_there(disk, &name)?;
        self.table.has_rows();
        let aside = self.table.free_number(slot);
        let object = drafted(alloc, disk, self.table.made, name, aside, key, now)?;
        self.add(slot, object, true)?;
        Ok(Effect::Gone(name))
    }
}
