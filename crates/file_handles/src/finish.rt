//! Finishes the entry of a slot, with its own header and elements or with given ones: its file becomes whole.

ghost use Rattle.std.specs.Prelude.{◌≡◌, ◌≢◌, ◌<◌, ◌≤◌, Err, IfErr, IfOk, IfSome, IsSome, IsSomeAnd, IsTrue, None, OnOk, length, ◌+◌, if◌then◌else◌};
ghost use Rattle.cache_base.specs.declared.limits.TheConstants.{KEY_MAX, SLOTS};
ghost use Rattle.disk_theory.specs.Account.{OnlyChanges, ending as disk_ending, no_sync, one_sync};
ghost use Rattle.disk_theory.specs.State.{standing};
ghost use Rattle.disk_theory.specs.Told.{Told};
ghost use Rattle.entry_metadata.specs.Meta.{meta_of};
ghost use Rattle.entry_parts.specs.declared.header.TheConstants.{VERSION};
ghost use Rattle.file_handles.specs.Answers.{OnRefused, ending};
ghost use Rattle.file_handles.specs.Effects.{IsLearntOf, IsPlainEffect, file_len as file_len_of, learnt_of_held};
ghost use Rattle.file_handles.specs.Finishing.{AreParts, completed_by, finish_calls, finish_command, finish_fault as finish_fault_of, finish_syncs, parts_by as parts_by_of};
ghost use Rattle.handle_table.specs.Held.{place_of};
ghost use Rattle.file_handles.specs.Publishing.{MayPublish};
ghost use Rattle.handle_table.specs.Seats.{IsLow};
ghost use Rattle.file_handles.specs.Promises.{FinishesEntry};

use crate::elements::has_small_block;
use crate::{Effect, HandleFault, Handles};
use cache_base::{Bytes, Name};
use cache_theory::Refusal;
use disk_theory::{Disk, DiskFault, Place};
use entry_metadata::{Meta, block_len};
use entry_parts::{Elements, Header, VERSION, parts_fit};
use handle_table::{Draft, Entry, Label, Parts};
use index_record::of_meta;
use std::alloc::Global;

// The length of the file with these metadata.
fn file_len(meta: &Meta) -> u64
    ensures { result ≡ file_len_of (meta_of meta.now) }
{
    u64::from(meta.offset) + block_len(meta) as u64 + 4
}

/// What an index must learn of an entry that was written: the record of its file, if it is finished and not doomed.
pub(crate) fn learnt_of(name: &Name, doomed: bool, entry: &Entry) -> Effect
    ensures held { result ≡ learnt_of_held name.now doomed entry.now }
    ensures plain { IsPlainEffect result }
{
    if doomed {
        return Effect::Same;
    }
    match entry {
        Entry::Draft(_) => Effect::Same,
        Entry::Finished(meta) => Effect::Wrote(of_meta(name, meta, file_len(meta))),
    }
}

// The file of an entry that was finished gets its name, unless the entry is doomed, once all is on the
// disk. Gives the number where it stands aside from then on.
fn publish<D: Disk>(
    disk: &mut D,
    name: &Name,
    doomed: bool,
    aside: Option<u32>,
) -> Result<Option<u32>, DiskFault>
    requires { IsTrue D.tells → IsSome (standing (D.state disk.old) (place_of name.now aside)) }
    ensures state { Told D.Disk (MayPublish name.now doomed aside result) disk.old disk.new }
    ensures low { IsLow aside → IfOk result IsLow }
    ensures calls { IsTrue D.tells → (D.counts disk.new).calls
        ≤ (D.counts disk.old).calls + (if doomed then 0 else 2) }
    ensures disk { let most = if doomed then no_sync else one_sync in
        OnlyChanges D.Disk (disk_ending result) most disk.old disk.new }
{
    if doomed {
        return Ok(aside);
    }
    let Some(number) = aside else {
        return Ok(None);
    };
    disk.sync()?;
    disk.rename(&Place::Doomed(number), &Place::Entry(*name))?;
    Ok(None)
}

// The first reason why an entry may not be finished with the parts that are given, or else with its own, if there is
// one.
fn finish_fault(entry: &Entry, given: &Option<Parts>) -> Option<Refusal>
    ensures { result ≡ finish_fault_of entry.now given.now }
{
    let Entry::Draft(_) = entry else {
        return Some(Refusal::Finished);
    };
    let Some(parts) = given else {
        return None;
    };
    if has_small_block(entry, parts.elements.len()) {
        None
    } else {
        Some(Refusal::TooLarge)
    }
}

// The parts that are written after a body of this key: those that are given, in version 3 of the format and with the
// key's length, or else its own.
fn parts_by(given: Option<Parts>, key: &Bytes, own: Parts) -> Parts
    requires short { length key.now ≤ KEY_MAX }
    requires version { own.header.version ≡ VERSION }
    requires key_size { own.header.key_size ≡ length key.now }
    ensures parts { result ≡ parts_by_of given key.now own }
    ensures version { result.header.version ≡ VERSION }
    ensures key_size { result.header.key_size ≡ length key.now }
{
    let Some(parts) = given else {
        return own;
    };
    let Parts { header, elements } = parts;
    Parts {
        header: Header {
            version: VERSION,
            key_size: key.as_slice().len() as u32,
            ..header
        },
        elements,
    }
}

impl Handles {
    ghost use Rattle.file_handles.specs.Cache.{cache};
    ghost use Rattle.file_handles.specs.Changes.{IsFiledAt};
    ghost use Rattle.file_handles.specs.Publishing.{CompletesThere};
    ghost use Rattle.handle_table.specs.HeldChunks.{SameChunks};
    ghost use Rattle.handle_table.specs.Kept.{number_at, object_at as object_kept_at};
    ghost use Rattle.file_handles.specs.Kept.{kept};
    ghost use Rattle.handle_table.specs.Refuses.{ChecksNoSlot, Passes, Refuses, UsesObject};
    ghost use Rattle.file_handles.specs.Stands.{RepresentsSome};

    // The place of the draft that a slot may finish with the parts that are given, or else with its own.
    fn may_finish(&self, slot: u8, given: &Option<Parts>) -> Result<usize, Refusal>
        requires { slot < SLOTS }
        ensures refused { IfErr result (λ r.
            Refuses (kept self.now) (finish_command given.now slot) r) }
        ensures no_slot { ChecksNoSlot (kept self.now) slot result }
        ensures passes { OnOk result (Passes (kept self.now) (finish_command given.now slot)) }
        ensures object { IfOk result (λ place.
            UsesObject (kept self.now) slot place (λ x. finish_fault_of x.entry given.now ≡ None)) }
    {
        let used = self.table.writing(slot)?;
        match finish_fault(&self.table.object_at(used.place).entry, given) {
            Some(refusal) => Err(refusal),
            None => Ok(used.place),
        }
    }

    /// Finishes the draft at a place with the parts that are given, or else with its own. Its file becomes whole by one
    /// call of the disk, is synced and gets its name.
    pub(crate) fn finish_at<D: Disk>(
        &mut self,
        alloc: Global,
        disk: &mut D,
        place: usize,
        given: Option<Parts>,
    ) -> Result<Effect, HandleFault>
        requires place { place < SLOTS }
        requires draft { IsSomeAnd (object_kept_at (kept self.old) place)
            (λ x. finish_fault_of x.entry given ≡ None) }
        requires told { IsTrue D.tells → IsFiledAt (cache D.Disk self.old disk.old) place }
        ensures changes { let at = cache D.Disk in IsTrue D.tells →
            CompletesThere place (completed_by given) result
            (at self.old disk.old) (at self.new disk.new) }
        ensures effect { IfOk result
            (IsLearntOf (completed_by given) (object_kept_at (kept self.old) place)) }
        ensures plain { IfOk result IsPlainEffect }
        ensures chunks { SameChunks (kept self.old) (kept self.new) }
        ensures slots { (kept self.new).slots ≡ (kept self.old).slots }
        ensures numbered { OnOk result
            (number_at (kept self.new) place ≡ number_at (kept self.old) place) }
        ensures refused { OnRefused result (λ _. ⊥) }
        ensures no_read { result ≢ Err HandleFault.Read }
        ensures calls { OnOk result (IsTrue D.tells →
            IfSome (object_kept_at (kept self.old) place) (λ x. (D.counts disk.new).calls
            ≤ (D.counts disk.old).calls + finish_calls x)) }
        ensures disk { let most = finish_syncs (object_kept_at (kept self.old) place) in
            OnlyChanges D.Disk (ending result) most disk.old disk.new }
    {
        let (label, entry) = self.table.take_apart(place);
        let file = label.file_place();
        let Entry::Draft(draft) = entry else {
            unreachable!();
        };
        let Draft {
            body,
            header,
            key,
            elements,
        } = draft;
        let parts = parts_by(given, &key, Parts { header, elements });
        let Parts { header, elements } = parts;
        let meta = body.finish(alloc, disk, &file, header, key, elements)?;
        let aside = publish(disk, &label.name, label.doomed, label.aside)?;
        let entry = Entry::Finished(meta);
        let effect = learnt_of(&label.name, label.doomed, &entry);
        self.table.put_entry(place, Label { aside, ..label }, entry);
        Ok(effect)
    }

    // Finishes the entry of a slot with the parts that are given, or else with its own.
    #[tactic(auto, using(crate::proofs::Refused::faulted_index, crate::proofs::Refused::faulted_same, crate::proofs::Refused::refused_same))]
    fn finish_by<D: Disk>(
        &mut self,
        alloc: Global,
        disk: &mut D,
        slot: u8,
        given: Option<Parts>,
    ) -> Result<Effect, HandleFault>
        requires slot { slot < SLOTS }
        requires parts { IfSome given AreParts }
        requires told { IsTrue D.tells → RepresentsSome (cache D.Disk self.old disk.old) }
        ensures finishes { FinishesEntry D.Disk given slot result (kept self.old) (kept self.new)
            disk.old disk.new }
    {
        let place = self.may_finish(slot, &given)?;
        self.finish_at(alloc, disk, place, given)
    }

    /// Finishes the entry of a slot. Its file becomes whole, and gets its name when it is on the disk.
    pub fn finish<D: Disk>(
        &mut self,
        alloc: Global,
        disk: &mut D,
        slot: u8,
    ) -> Result<Effect, HandleFault>
        requires slot { slot < SLOTS }
        requires told { IsTrue D.tells → RepresentsSome (cache D.Disk self.old disk.old) }
        ensures finishes { FinishesEntry D.Disk None slot result (kept self.old) (kept self.new)
            disk.old disk.new }
    {
        self.finish_by(alloc, disk, slot, None)
    }

    /// Finishes the entry of a slot with this header and these elements in place of its own. The header is written with
    /// version 3 and the length of the entry's key. Its file becomes whole, and gets its name when it is on the disk.
    pub fn finish_as<D: Disk>(
        &mut self,
        alloc: Global,
        disk: &mut D,
        slot: u8,
        header: Header,
        elements: Elements,
    ) -> Result<Effect, HandleFault>
        requires slot { slot < SLOTS }
        requires told { IsTrue D.tells → RepresentsSome (cache D.Disk self.old disk.old) }
        ensures finishes { FinishesEntry D.Disk
            (Some (record { header = header; elements = elements })) slot result (kept self.old)
            (kept self.new) disk.old disk.new }
    {
        parts_fit(header, &elements);
        self.finish_by(alloc, disk, slot, Some(Parts { header, elements }))
    }
}
