//! Reads and changes the elements of an entry in use.

ghost use Rattle.std.specs.Prelude.{ℕ, List, None, Some, ◌+◌, ◌≡◌, ◌<◌, ◌≤◌, IfErr, IfNone, IfOk, IfSome, IsSome, IsSomeAnd, IsTrue, OnOk, length, option_map, ◌≢◌, Err};
ghost use Rattle.cache_base.specs.Limits.{chunks as chunks_of};
ghost use Rattle.cache_base.specs.declared.limits.TheConstants.{BLOCK_MAX, ELEMENTS_MAX, SLOTS};
ghost use Rattle.cache_theory.specs.Command.Command.{ElementOf, SetElement, UnsetElement};
ghost use Rattle.cache_theory.specs.Command.Reply.{Refused};
ghost use Rattle.cache_theory.specs.Step.{element_reply};
ghost use Rattle.disk_theory.specs.Account.{no_sync};
ghost use Rattle.disk_theory.specs.Told.{Told};
ghost use Rattle.entry_metadata.specs.Metadata.{block_length};
ghost use Rattle.entry_parts.specs.Elements.{elements_bytes};
ghost use Rattle.entry_parts.specs.Setting.{has_zero as has_zero_in, set_fault, with_element};
ghost use Rattle.file_handles.specs.Answers.{done_or, done_or_none};
ghost use Rattle.file_handles.specs.Effects.{HasEffect, IsPlainEffect};
ghost use Rattle.handle_table.specs.Held.{body_len_in, elements_in, key_in};
ghost use Rattle.file_handles.specs.Setting.{HasRoom, are_small, has_small_block as has_small_block_of, small_len};
ghost use Rattle.file_handles.specs.Unsynced.{SyncsNothing};
ghost use Rattle.file_handles.specs.Promises.{ChangesFiles, KeepsHandles};

use crate::change::Change;
use crate::{Effect, HandleFault, Handles};
use cache_base::{BLOCK_MAX, ELEMENTS_MAX};
use cache_theory::Refusal;
use disk_theory::Disk;
use entry_metadata::block_len_of;
use entry_parts::Elements;
use handle_table::Entry;
use std::alloc::Global;

// Whether a zero byte is among them.
fn has_zero(b: &[u8]) -> bool
    ensures { result ≡ has_zero_in b.now }
{
    b.contains(&0)
}

// The length of the elements without the first of the name, if there is one.
fn len_without(elements: &Elements, name: &[u8]) -> usize
    ensures { (value : List ℕ) → length (elements_bytes (with_element name.now value elements.now))
        ≡ result + length name.now + length value + 2 }
{
    match elements.get(name) {
        Some(old) => elements.len() - old.len() - name.len() - 2,
        None => elements.len(),
    }
}

// The length of the elements with this one set, if it is at most `ELEMENTS_MAX`.
fn len_with(elements: &Elements, name: &[u8], value: &[u8]) -> Option<usize>
    ensures { result ≡ small_len
        (length (elements_bytes (with_element name.now value.now elements.now))) }
{
    let kept = len_without(elements, name);
    if kept > ELEMENTS_MAX || name.len() > ELEMENTS_MAX || value.len() > ELEMENTS_MAX {
        return None;
    }
    let len = kept + name.len() + value.len() + 2;
    if len <= ELEMENTS_MAX { Some(len) } else { None }
}

// The length of the block of an entry with so many bytes of elements.
fn block_with(entry: &Entry, elements: usize) -> usize
    requires { elements ≤ BLOCK_MAX }
    ensures { result ≡ block_length
        (chunks_of (body_len_in entry.now)) (length (key_in entry.now)) elements }
{
    let (body, key) = match entry {
        Entry::Draft(draft) => (draft.body.len(), draft.key.as_slice().len()),
        Entry::Finished(meta) => (meta.offset, meta.key.as_slice().len()),
    };
    block_len_of(body, key, elements)
}

/// Whether the block of an entry with so many bytes of elements is not too large.
pub(crate) fn has_small_block(entry: &Entry, elements: usize) -> bool
    ensures { result ≡ has_small_block_of entry.now elements }
{
    if elements > BLOCK_MAX {
        return false;
    }
    block_with(entry, elements) <= BLOCK_MAX
}

// Whether the entry has room for its elements with this one set.
fn may_have(entry: &Entry, elements: &Elements, name: &[u8], value: &[u8]) -> bool
    ensures { result ≡ are_small entry.now (with_element name.now value.now elements.now) }
{
    match len_with(elements, name, value) {
        Some(len) => has_small_block(entry, len),
        None => false,
    }
}

impl Handles {
    ghost use Rattle.file_handles.specs.Cache.{cache};
    ghost use Rattle.file_handles.specs.Carries.{Answers, CarriesOut};
    ghost use Rattle.handle_table.specs.Kept.{object_at as object_kept_at, object_in};
    ghost use Rattle.file_handles.specs.Kept.{kept};
    ghost use Rattle.handle_table.specs.Refuses.{ChecksNoSlot, HasAt, HasNoObject, Passes, Refuses, UsesObject};
    ghost use Rattle.file_handles.specs.Stands.{RepresentsSome};

    // The place of the object whose elements a slot may change.
    fn may_change(&self, slot: u8) -> Result<usize, Refusal>
        requires { slot < SLOTS }
        ensures refused { IfErr result (λ r. (name : List ℕ) →
            Refuses (kept self.now) (UnsetElement slot name) r) }
        ensures refused_set { IfErr result (λ r. (name value : List ℕ) →
            Refuses (kept self.now) (SetElement slot name value) r) }
        ensures no_slot { ChecksNoSlot (kept self.now) slot result }
        ensures passes { OnOk result ((name : List ℕ) →
            Passes (kept self.now) (UnsetElement slot name)) }
        ensures object { IfOk result (λ place.
            IsSomeAnd (object_kept_at (kept self.now) place) (HasAt (kept self.now) slot place)) }
    {
        let used = self.table.live_use(slot)?;
        match self.table.object_at(used.place).entry {
            Entry::Draft(_) if !used.writes => Err(Refusal::NotWriter),
            _ => Ok(used.place),
        }
    }

    // The place of the object whose element a slot may set.
    fn may_set(&self, slot: u8, name: &[u8], value: &[u8]) -> Result<usize, Refusal>
        requires { slot < SLOTS }
        ensures refused { IfErr result (λ r.
            Refuses (kept self.now) (SetElement slot name.now value.now) r) }
        ensures no_slot { ChecksNoSlot (kept self.now) slot result }
        ensures passes { OnOk result (Passes (kept self.now) (SetElement slot name.now value.now)) }
        ensures object { IfOk result (λ place. UsesObject (kept self.now) slot place
            (λ x. HasRoom x.entry (with_element name.now value.now (elements_in x.entry)))) }
        ensures settable { IfOk result (λ place. IfSome (object_kept_at (kept self.now) place)
            (λ x. set_fault name.now value.now (elements_in x.entry) ≡ None)) }
    {
        let place = self.may_change(slot)?;
        if name.is_empty() || has_zero(name) || has_zero(value) {
            return Err(Refusal::BadElement);
        }
        let object = self.table.object_at(place);
        if may_have(&object.entry, object.elements(), name, value) {
            Ok(place)
        } else {
            Err(Refusal::TooLarge)
        }
    }

    /// Sets the value of the first element of the name, or adds the element at the end. The metadata of a finished
    /// entry are rewritten.
    pub fn set_element<D: Disk>(
        &mut self,
        alloc: Global,
        disk: &mut D,
        slot: u8,
        name: &[u8],
        value: &[u8],
    ) -> Result<Effect, HandleFault>
        requires slot { slot < SLOTS }
        requires told { IsTrue D.tells → RepresentsSome (cache D.Disk self.old disk.old) }
        ensures carried { let at = cache D.Disk in IsTrue D.tells →
            CarriesOut (SetElement slot name.now value.now) (done_or result)
            (at self.old disk.old) (at self.new disk.new) }
        ensures effect { IfOk result
            (HasEffect (kept self.old) (SetElement slot name.now value.now)) }
        ensures plain { IfOk result IsPlainEffect }
        ensures handles { KeepsHandles slot result (kept self.old) (kept self.new) }
        ensures files { ChangesFiles D.Disk no_sync result disk.old disk.new }
        ensures unsynced { Told D.Disk SyncsNothing disk.old disk.new }
        ensures calls { OnOk result (IsTrue D.tells →
            (D.counts disk.new).calls ≤ (D.counts disk.old).calls + 1) }
    {
        let place = self.may_set(slot, name, value)?;
        self.change_at(alloc, disk, place, Change::Set { name, value })
    }

    /// Removes the first element of the name, or answers none if there is none. The metadata of a finished entry are
    /// rewritten.
    pub fn unset_element<D: Disk>(
        &mut self,
        alloc: Global,
        disk: &mut D,
        slot: u8,
        name: &[u8],
    ) -> Result<Option<Effect>, HandleFault>
        requires slot { slot < SLOTS }
        requires told { IsTrue D.tells → RepresentsSome (cache D.Disk self.old disk.old) }
        ensures carried { let at = cache D.Disk in IsTrue D.tells →
            CarriesOut (UnsetElement slot name.now) (done_or_none result)
            (at self.old disk.old) (at self.new disk.new) }
        ensures effect { IfOk result (λ some.
            IfSome some (HasEffect (kept self.old) (UnsetElement slot name.now))) }
        ensures plain { IfOk result (λ some. IfSome some IsPlainEffect) }
        ensures handles { KeepsHandles slot result (kept self.old) (kept self.new) }
        ensures files { ChangesFiles D.Disk no_sync result disk.old disk.new }
        ensures none_there { IfOk result (λ effect. IfNone effect (disk.new ≡ disk.old)) }
        ensures unsynced { Told D.Disk SyncsNothing disk.old disk.new }
        ensures calls { OnOk result (IsTrue D.tells →
            (D.counts disk.new).calls ≤ (D.counts disk.old).calls + 1) }
    {
        let place = self.may_change(slot)?;
        if self.table.object_at(place).elements().get(name).is_none() {
            return Ok(None);
        }
        let effect = self.change_at(alloc, disk, place, Change::Remove { name })?;
        Ok(Some(effect))
    }

    /// The value of the first element of the name, or none. It takes no memory.
    pub fn element(&self, slot: u8, name: &[u8]) -> Result<Option<&[u8]>, Refusal>
        requires { slot < SLOTS }
        ensures found { IfOk result (λ value. Answers (kept self.now) (ElementOf slot name.now)
            (element_reply (option_map (λ bytes. bytes.now) value))) }
        ensures refused { IfErr result (λ r.
            Answers (kept self.now) (ElementOf slot name.now) (Refused r)) }
        ensures no_object { IfErr result (HasNoObject (kept self.now) slot) }
        ensures object { OnOk result (IsSome (object_in (kept self.now) slot)) }
    {
        let used = self.table.live_use(slot)?;
        let object = self.table.object_at(used.place);
        Ok(object.elements().get(name))
    }
}
