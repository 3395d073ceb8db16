//! Puts alternative data after the body of the entry in a slot.

ghost use Rattle.std.specs.Prelude.{◌≡◌, ◌≢◌, ◌+◌, ◌<◌, ◌≤◌, ◌⊎◌, Err, IfErr, IfOk, IfSome, IsSomeAnd, IsTrue, None, OnOk, codes, decimal, length};
ghost use Rattle.alt_data.specs.AltData.{is_kind as is_kind_of};
ghost use Rattle.cache_base.specs.Limits.{chunks as chunks_of};
ghost use Rattle.cache_base.specs.declared.limits.TheConstants.{BODY_MAX, ELEMENTS_MAX, SLOTS};
ghost use Rattle.cache_theory.specs.Checks.{with_alt_data};
ghost use Rattle.cache_theory.specs.Command.Command.{PutAlt};
ghost use Rattle.chunk_store.specs.Prefixes.{HasChunks, HasChunksWith};
ghost use Rattle.disk_theory.specs.Account.{Looks, OnlyChanges, no_sync};
ghost use Rattle.disk_theory.specs.Prefixes.{KeepsPrefix};
ghost use Rattle.disk_theory.specs.State.{standing};
ghost use Rattle.disk_theory.specs.Told.{Told};
ghost use Rattle.entry_parts.specs.Elements.{element, elements_bytes};
ghost use Rattle.file_handles.specs.Answers.{OnRefused, done_or, ending};
ghost use Rattle.file_handles.specs.Effects.{HasEffect, IsLearntOf, IsPlainEffect};
ghost use Rattle.handle_table.specs.Held.{body_len_in, object_place};
ghost use Rattle.file_handles.specs.PuttingAlt.{are_small_with, put_fault as put_fault_of, with_alt_at};
ghost use Rattle.file_handles.specs.Promises.{DropsOwnChunks, LooksThenChanges, MakesTwoCalls};

use crate::change::{Change, changed_elements};
use crate::fault::look_fault;
use crate::finish::learnt_of;
use crate::{Effect, HandleFault, Handles};
use alt_data::{ALT_DATA, alt_value, grown_hashes};
use cache_base::{BLOCK_MAX, BODY_MAX, ELEMENTS_MAX, Hashes, NoMemory};
use cache_theory::Refusal;
use disk_theory::{Disk, Place};
use entry_file::grow_body;
use entry_metadata::{Meta, block_len_of};
use handle_table::Entry;
use std::alloc::Global;

// How many digits a number has. So the checks need no memory for the element's value.
fn digit_count(n: u32) -> usize
    ensures { result ≡ length (decimal n) }
{
    let mut rest = n;
    let mut count = 1;
    while rest >= 10 {
        rest /= 10;
        count += 1;
    }
    count
}

// Whether data may be of this kind.
fn is_kind(kind: &[u8]) -> bool
    ensures { result ≡ is_kind_of kind.now }
{
    !kind.is_empty() && !kind.contains(&0)
}

// The length of the elements once they tell of data of this kind.
fn len_with(meta: &Meta, kind: &[u8]) -> usize
    requires none { element (codes "alt-data") meta.now.elements ≡ None }
    requires short { length kind.now ≤ ELEMENTS_MAX }
    ensures { result ≡ length (elements_bytes
        (with_alt_at meta.now.offset kind.now meta.now.elements)) }
{
    let value = 2 + digit_count(meta.offset) + 1 + kind.len();
    meta.elements.len() + ALT_DATA.len() + value + 2
}

// Whether the elements that tell of data of this kind are small, and so is the block of the longer body.
fn has_room(meta: &Meta, kind: &[u8], len: usize) -> bool
    requires none { element (codes "alt-data") meta.now.elements ≡ None }
    requires limit { meta.now.offset + len ≤ BODY_MAX }
    ensures { result ≡ are_small_with (with_alt_at meta.now.offset kind.now meta.now.elements)
        meta.now.key (meta.now.offset + len) }
{
    if kind.len() > ELEMENTS_MAX {
        return false;
    }
    let elements = len_with(meta, kind);
    if elements > ELEMENTS_MAX {
        return false;
    }
    let body = meta.offset + len as u32;
    block_len_of(body, meta.key.as_slice().len(), elements) <= BLOCK_MAX
}

// The first reason why data of this kind and length may not be put after the body of the entry, if there is one.
fn put_fault(entry: &Entry, kind: &[u8], len: usize) -> Option<Refusal>
    ensures { result ≡ put_fault_of entry.now kind.now len }
{
    let Entry::Finished(meta) = entry else {
        return Some(Refusal::Unfinished);
    };
    if meta.elements.get(ALT_DATA).is_some() {
        return Some(Refusal::HasAlt);
    }
    if !is_kind(kind) {
        return Some(Refusal::BadElement);
    }
    let offset = meta.offset as usize;
    if offset > BODY_MAX || len > BODY_MAX - offset {
        return Some(Refusal::TooLarge);
    }
    if !has_room(meta, kind, len) {
        return Some(Refusal::TooLarge);
    }
    None
}

// The hashes of the body of a file with the data after it. A look that fails changes nothing.
fn hashes_with<D: Disk>(
    alloc: Global,
    disk: &mut D,
    file: &Place,
    meta: &Meta,
    alt: &[u8],
) -> Result<Hashes, HandleFault>
    requires limit { meta.now.offset + length alt.now ≤ BODY_MAX }
    requires told { IsTrue D.tells
        → HasChunks (standing (D.state disk.old) file.now) meta.now.offset meta.now.hashes }
    ensures hashes { IfOk result (λ hashes. IsTrue D.tells
        → HasChunksWith (standing (D.state disk.old) file.now) meta.now.offset alt.now hashes) }
    ensures len { IfOk result (λ hashes.
        length hashes ≡ chunks_of (meta.now.offset + length alt.now)) }
    ensures refused { OnRefused result (λ _. ⊥) }
    ensures no_change { result ≢ Err HandleFault.Disk }
    ensures calls { IsTrue D.tells → (D.counts disk.new).calls ≤ (D.counts disk.old).calls + 1 }
    ensures looks { Looks D.Disk (ending result) disk.old disk.new }
{
    match grown_hashes(alloc, disk, file, meta.offset, &meta.hashes, alt) {
        Ok(hashes) => Ok(hashes),
        Err(fault) => Err(look_fault(fault)),
    }
}

// The metadata of the longer body, whose chunks have these hashes.
fn grown_meta(
    alloc: Global,
    meta: Meta,
    kind: &[u8],
    len: usize,
    hashes: Hashes,
) -> Result<Meta, NoMemory>
    requires may { put_fault_of (Entry.Finished meta) kind.now len ≡ None }
    requires hashes { length hashes ≡ chunks_of (meta.offset + len) }
    ensures header { IfOk result (λ after. after.header ≡ meta.header) }
    ensures key { IfOk result (λ after. after.key ≡ meta.key) }
    ensures elements { IfOk result (λ after.
        after.elements ≡ with_alt_at meta.offset kind.now meta.elements) }
    ensures hashes { IfOk result (λ after. after.hashes ≡ hashes) }
    ensures offset { IfOk result (λ after. after.offset ≡ meta.offset + len) }
{
    let value = alt_value(alloc, meta.offset, kind)?;
    let Meta {
        header,
        key,
        elements,
        offset,
        ..
    } = meta;
    let told = Change::Set {
        name: ALT_DATA,
        value: value.as_slice(),
    };
    let elements = changed_elements(elements, told)?;
    Ok(Meta {
        header,
        key,
        elements,
        hashes,
        offset: offset + len as u32,
    })
}

impl Handles {
    ghost use Rattle.file_handles.specs.Cache.{cache};
    ghost use Rattle.file_handles.specs.Carries.{CarriesOut};
    ghost use Rattle.file_handles.specs.Changes.{IsFiledAt, with_version};
    ghost use Rattle.file_handles.specs.Closing.{without_object};
    ghost use Rattle.handle_table.specs.HeldChunks.{SameChunks};
    ghost use Rattle.handle_table.specs.Kept.{number_at, object_at as object_kept_at};
    ghost use Rattle.file_handles.specs.Kept.{kept};
    ghost use Rattle.file_handles.specs.PuttingAlt.{AreAsMany, AreHashesWith, KeepsMainBody, MayPut, PutsAlt, PutsThere};
    ghost use Rattle.handle_table.specs.Refuses.{ChecksNoSlot, Passes, Refuses, UsesObject};
    ghost use Rattle.file_handles.specs.Refuses.{TellsNoSlot};
    ghost use Rattle.file_handles.specs.Stands.{RepresentsSome};

    // The place of the entry after whose body a slot may put the data.
    fn may_put_alt(&self, slot: u8, kind: &[u8], alt: &[u8]) -> Result<usize, Refusal>
        requires { slot < SLOTS }
        ensures refused { IfErr result (λ r.
            Refuses (kept self.now) (PutAlt slot kind.now alt.now) r) }
        ensures no_slot { ChecksNoSlot (kept self.now) slot result }
        ensures passes { OnOk result (Passes (kept self.now) (PutAlt slot kind.now alt.now)) }
        ensures object { IfOk result (λ place.
            UsesObject (kept self.now) slot place (MayPut kind.now (length alt.now))) }
    {
        let used = self.table.writing(slot)?;
        let object = self.table.object_at(used.place);
        match put_fault(&object.entry, kind, alt.len()) {
            Some(refusal) => Err(refusal),
            None => Ok(used.place),
        }
    }

    // The hashes of the body of the entry at a place with the data after it.
    fn hashes_at<D: Disk>(
        &self,
        alloc: Global,
        disk: &mut D,
        place: usize,
        kind: &[u8],
        alt: &[u8],
    ) -> Result<Hashes, HandleFault>
        requires place { place < SLOTS }
        requires may { IsSomeAnd (object_kept_at (kept self.now) place)
            (MayPut kind.now (length alt.now)) }
        requires told { IsTrue D.tells → IsFiledAt (cache D.Disk self.now disk.old) place }
        ensures hashes { IfOk result (λ hashes. IsTrue D.tells →
            IfSome (object_kept_at (kept self.now) place)
            (AreHashesWith (D.state disk.old) alt.now hashes)) }
        ensures len { IfOk result (λ hashes. IfSome (object_kept_at (kept self.now) place)
            (AreAsMany hashes (length alt.now))) }
        ensures refused { OnRefused result (λ _. ⊥) }
        ensures no_change { result ≢ Err HandleFault.Disk }
        ensures calls { IsTrue D.tells →
            (D.counts disk.new).calls ≤ (D.counts disk.old).calls + 1 }
        ensures looks { Looks D.Disk (ending result) disk.old disk.new }
    {
        let object = self.table.object_at(place);
        let Entry::Finished(meta) = &object.entry else {
            unreachable!();
        };
        let file = object.file_place();
        hashes_with(alloc, disk, &file, meta, alt)
    }

    // Puts the data after the body of the entry at a place, where the longer body has these hashes. Its chunks are
    // forgotten before the write, since the last one may become longer.
    fn put_at<D: Disk>(
        &mut self,
        alloc: Global,
        disk: &mut D,
        place: usize,
        kind: &[u8],
        alt: &[u8],
        hashes: Hashes,
    ) -> Result<Effect, HandleFault>
        requires place { place < SLOTS }
        requires may { IsSomeAnd (object_kept_at (kept self.old) place)
            (MayPut kind.now (length alt.now)) }
        requires len { IfSome (object_kept_at (kept self.old) place)
            (AreAsMany hashes (length alt.now)) }
        requires told { IsTrue D.tells → IsFiledAt (cache D.Disk self.old disk.old) place }
        requires hashes { IsTrue D.tells → IfSome (object_kept_at (kept self.old) place)
            (AreHashesWith (D.state disk.old) alt.now hashes) }
        ensures changes { let at = cache D.Disk in IsTrue D.tells →
            PutsThere place kind.now alt.now result (at self.old disk.old) (at self.new disk.new) }
        ensures prefix { IsTrue D.tells → IfSome (object_kept_at (kept self.old) place) (λ x.
            KeepsPrefix (object_place x) (body_len_in x.entry)
            (D.state disk.old) (D.state disk.new)) }
        ensures effect { IfOk result (IsLearntOf (with_version (with_alt_data kind.now alt.now))
            (object_kept_at (kept self.old) place)) }
        ensures plain { IfOk result IsPlainEffect }
        ensures chunks { OnOk result ((kept self.new).chunks
            ≡ without_object (number_at (kept self.old) place) (kept self.old).chunks) }
        ensures some_chunks { SameChunks (kept self.old) (kept self.new) ⊎ ((kept self.new).chunks
            ≡ without_object (number_at (kept self.old) place) (kept self.old).chunks) }
        ensures refused { OnRefused result (λ _. ⊥) }
        ensures no_read { result ≢ Err HandleFault.Read }
        ensures calls { OnOk result (IsTrue D.tells →
            (D.counts disk.new).calls ≤ (D.counts disk.old).calls + 1) }
        ensures disk { OnlyChanges D.Disk (ending result) no_sync disk.old disk.new }
    {
        let (label, entry) = self.table.take_apart(place);
        let file = label.file_place();
        let Entry::Finished(old) = entry else {
            unreachable!();
        };
        let meta = grown_meta(alloc, old, kind, alt.len(), hashes)?;
        self.table.chunks.forget(label.number);
        grow_body(alloc, disk, &file, &meta, alt)?;
        let entry = Entry::Finished(meta);
        let effect = learnt_of(&label.name, label.doomed, &entry);
        self.table.put_entry(place, label, entry);
        Ok(effect)
    }

    /// Puts alternative data of a kind after the body of a finished entry, such as compiled code for a script
    /// (`CacheFile::OpenAlternativeOutputStream` of Firefox). The element `alt-data` then says where they begin. The
    /// data and the new metadata are written by one call of the disk, at the end of the body: it reaches nothing
    /// before that. The last chunk of the body is read first, for its new hash, unless it is a whole one. The slot
    /// must be a writer's. The command is refused where an element `alt-data` is there already, where the kind is
    /// empty or has a zero byte, and where the body, the elements or the metadata block would be too large.
    pub fn put_alt<D: Disk>(
        &mut self,
        alloc: Global,
        disk: &mut D,
        slot: u8,
        kind: &[u8],
        alt: &[u8],
    ) -> Result<Effect, HandleFault>
        requires slot { slot < SLOTS }
        requires told { IsTrue D.tells → RepresentsSome (cache D.Disk self.old disk.old) }
        ensures carried { let at = cache D.Disk in IsTrue D.tells →
            CarriesOut (PutAlt slot kind.now alt.now) (done_or result)
            (at self.old disk.old) (at self.new disk.new) }
        ensures effect { IfOk result (HasEffect (kept self.old) (PutAlt slot kind.now alt.now)) }
        ensures plain { IfOk result IsPlainEffect }

        // What was put is told of, and the main body is in every image what it was.
        ensures put { OnOk result
            (Told D.Disk (PutsAlt (kept self.old) slot kind.now alt.now) disk.old disk.new) }
        ensures main { Told D.Disk (KeepsMainBody (kept self.old) slot) disk.old disk.new }

        // The chunks of this entry alone are dropped, and only where the data are put.
        ensures chunks { DropsOwnChunks slot result (kept self.old) (kept self.new) }
        ensures no_slot { TellsNoSlot (kept self.old) slot result }
        ensures unchanged { OnRefused result (λ _. disk.new ≡ disk.old) }
        ensures looks { LooksThenChanges D.Disk result (kept self.old) (kept self.new) disk.old
            disk.new }
        ensures calls { MakesTwoCalls D.Disk result disk.old disk.new }
    {
        let place = self.may_put_alt(slot, kind, alt)?;
        let hashes = self.hashes_at(alloc, disk, place, kind, alt)?;
        self.put_at(alloc, disk, place, kind, alt, hashes)
    }
}
