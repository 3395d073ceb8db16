//! Appends to the body of the entry in a slot.

ghost use Rattle.std.specs.Prelude.{ℕ, List, ◌≡◌, ◌+◌, ◌<◌, IfErr, IfOk, IfSome, IsSomeAnd, IsTrue, OnOk, length, Ok, ◌≢◌, Err};
ghost use Rattle.cache_base.specs.declared.limits.TheConstants.{CHUNK, SLOTS};
ghost use Rattle.cache_theory.specs.Command.Command.{Append};
ghost use Rattle.cache_theory.specs.Machine.{Machine};
ghost use Rattle.disk_theory.specs.Account.{OnlyChanges, no_sync};
ghost use Rattle.disk_theory.specs.Told.{Told};
ghost use Rattle.file_handles.specs.Answers.{OnRefused, done_or, ending};
ghost use Rattle.file_handles.specs.Growing.{AnswersInChunk, FitsInChunk, grow_fault};
ghost use Rattle.handle_table.specs.Held.{rest_in};
ghost use Rattle.file_handles.specs.Unsynced.{SyncsNothing};
ghost use Rattle.file_handles.specs.Promises.{ChangesFiles, KeepsHandles};

use crate::{HandleFault, Handles};
use cache_base::BODY_MAX;
use cache_theory::Refusal;
use disk_theory::Disk;
use handle_table::{Draft, Entry};

// The first reason why so many bytes may not be appended to an entry, if there is one.
fn may_grow(entry: &Entry, more: usize) -> Result<(), Refusal>
    ensures { result ≡ grow_fault entry.now more }
{
    let Entry::Draft(draft) = entry else {
        return Err(Refusal::Finished);
    };
    let len = draft.body.len() as usize;
    if len > BODY_MAX || more > BODY_MAX - len {
        return Err(Refusal::TooLarge);
    }
    Ok(())
}

impl Handles {
    ghost use Rattle.file_handles.specs.Cache.{cache};
    ghost use Rattle.file_handles.specs.Carries.{CarriesOut};
    ghost use Rattle.file_handles.specs.Changes.{ChangesThere, IsFiledAt, appended};
    ghost use Rattle.handle_table.specs.HeldChunks.{SameChunks};
    ghost use Rattle.handle_table.specs.Kept.{object_at as object_kept_at};
    ghost use Rattle.file_handles.specs.Kept.{kept};
    ghost use Rattle.handle_table.specs.Refuses.{ChecksNoSlot, Passes, Refuses, UsesObject};
    ghost use Rattle.handle_table.specs.Standing.{HandlesStand};
    ghost use Rattle.file_handles.specs.Stands.{RepresentsSome};

    // The place of the draft to which a slot may append so many bytes.
    fn may_append(&self, slot: u8, more: usize) -> Result<usize, Refusal>
        requires { slot < SLOTS }
        ensures refused { IfErr result (λ r. (bytes : List ℕ) → length bytes ≡ more →
            Refuses (kept self.now) (Append slot bytes) r) }
        ensures no_slot { ChecksNoSlot (kept self.now) slot result }
        ensures passes { OnOk result ((bytes : List ℕ) → length bytes ≡ more →
            Passes (kept self.now) (Append slot bytes)) }
        ensures object { IfOk result (λ place.
            UsesObject (kept self.now) slot place (λ x. grow_fault x.entry more ≡ Ok tt)) }
    {
        let used = self.table.writing(slot)?;
        let object = self.table.object_at(used.place);
        may_grow(&object.entry, more)?;
        Ok(used.place)
    }

    // Appends bytes to the body of the draft at a place.
    fn append_at<D: Disk>(
        &mut self,
        disk: &mut D,
        place: usize,
        b: &[u8],
    ) -> Result<(), HandleFault>
        requires place { place < SLOTS }
        requires limit { IsSomeAnd (object_kept_at (kept self.old) place)
            (λ x. grow_fault x.entry (length b.now) ≡ Ok tt) }
        requires told { IsTrue D.tells → IsFiledAt (cache D.Disk self.old disk.old) place }
        ensures changes { let at = cache D.Disk in IsTrue D.tells →
            ChangesThere place (appended b.now) result
            (at self.old disk.old) (at self.new disk.new) }
        ensures within { IfSome (object_kept_at (kept self.old) place)
            (λ x. length (rest_in x.entry) + length b.now < CHUNK →
            (result ≡ Ok tt) × (disk.new ≡ disk.old)) }
        ensures chunks { SameChunks (kept self.old) (kept self.new) }
        ensures refused { OnRefused result (λ _. ⊥) }
        ensures no_read { result ≢ Err HandleFault.Read }
        ensures disk { OnlyChanges D.Disk (ending result) no_sync disk.old disk.new }
    {
        let (label, entry) = self.table.take_apart(place);
        let file = label.file_place();
        let Entry::Draft(draft) = entry else {
            unreachable!();
        };
        let Draft {
            body,
            header,
            key,
            elements,
        } = draft;
        let mut body = body;
        body.append(disk, &file, b)?;
        let entry = Entry::Draft(Draft {
            body,
            header,
            key,
            elements,
        });
        self.table.put_entry(place, label, entry);
        Ok(())
    }

    /// Appends bytes to the body of the entry in a slot. A chunk is written as soon as it is full; no other call of the
    /// disk is made.
    #[tactic(auto, using(crate::proofs::Refused::faulted_same))]
    pub fn append<D: Disk>(&mut self, disk: &mut D, slot: u8, b: &[u8]) -> Result<(), HandleFault>
        requires slot { slot < SLOTS }
        requires told { IsTrue D.tells → RepresentsSome (cache D.Disk self.old disk.old) }
        ensures carried { let at = cache D.Disk in IsTrue D.tells →
            CarriesOut (Append slot b.now) (done_or result)
            (at self.old disk.old) (at self.new disk.new) }
        ensures within { (m : Machine) (number : ℕ → ℕ) → HandlesStand (kept self.old) m number →
            FitsInChunk m slot b.now → disk.new ≡ disk.old }
        ensures within_reply { AnswersInChunk (kept self.old) slot b.now result }
        ensures handles { KeepsHandles slot result (kept self.old) (kept self.new) }
        ensures files { ChangesFiles D.Disk no_sync result disk.old disk.new }
        ensures unsynced { Told D.Disk SyncsNothing disk.old disk.new }
    {
        let place = self.may_append(slot, b.len())?;
        self.append_at(disk, place, b)
    }
}
