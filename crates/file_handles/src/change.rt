//! Changes what is held of an entry: its elements, its counts by one more use, or whether it is pinned.

ghost use Rattle.std.specs.Prelude.{◌*◌, ◌+◌, ◌/◌, ◌≡◌, ◌<◌, ◌≤◌, IfOk, IfSome, IsSomeAnd, IsTrue, length, true, ◌≢◌, Err, OnOk};
ghost use Rattle.cache_base.specs.declared.limits.TheConstants.{ELEMENTS_MAX, SLOTS};
ghost use Rattle.disk_theory.specs.Account.{OnlyChanges, no_sync};
ghost use Rattle.entry_parts.specs.Elements.{elements_bytes};
ghost use Rattle.entry_parts.specs.declared.fault.PartsFault;
ghost use Rattle.index_record.specs.Filling.{bit_if};
ghost use Rattle.file_handles.specs.Answers.{OnRefused, ending};
ghost use Rattle.file_handles.specs.Effects.{IsLearntOf, IsPlainEffect};
ghost use Rattle.handle_table.specs.Held.{elements_in, is_draft};
ghost use Rattle.file_handles.specs.Setting.{HasRoom, MaySet, changed_by, header_by, with_change};

use crate::finish::learnt_of;
use crate::{Effect, HandleFault, Handles};
use cache_base::{Moment, NoMemory};
use disk_theory::Disk;
use entry_file::rewrite_meta;
use entry_metadata::Meta;
use entry_parts::{Elements, Header, PartsFault};
use frecency::next as next_frecency;
use handle_table::{Draft, Entry};
use std::alloc::Global;

/// A change of an entry: of its elements, one more use at a moment, or that it is pinned from now on or no longer.
#[derive(Clone, Copy)]
pub(crate) enum Change<'a> {
    Set { name: &'a [u8], value: &'a [u8] },
    Remove { name: &'a [u8] },
    Use { now: Moment },
    Pin { pinned: bool },
}

// The flags with the pinned bit, which is bit 0, set or not.
fn pinned_flags(flags: u32, pinned: bool) -> u32
    ensures { result ≡ flags / 2 * 2 + bit_if pinned 0 }
{
    let others = flags / 2 * 2;
    if pinned { others + 1 } else { others }
}

// The header after the change.
fn changed_header(header: Header, change: Change<'_>) -> Header
    ensures header { result ≡ header_by change.entry header }
    ensures version { result.version ≡ header.version }
    ensures key_size { result.key_size ≡ header.key_size }
{
    match change {
        Change::Use { now } => header.used(now, next_frecency(header.frecency, now)),
        Change::Pin { pinned } => Header {
            flags: pinned_flags(header.flags, pinned),
            ..header
        },
        Change::Set { .. } => header,
        Change::Remove { .. } => header,
    }
}

// What the only fault of an element that may be set becomes.
fn out_of_memory(_fault: PartsFault) -> NoMemory
    requires { _fault ≡ PartsFault.Memory }
{
    NoMemory
}

/// The elements after the change.
pub(crate) fn changed_elements(elements: Elements, change: Change<'_>) -> Result<Elements, NoMemory>
    requires { MaySet change elements }
    ensures { IfOk result (λ after. after ≡ changed_by change.entry elements) }
{
    let mut elements = elements;
    match change {
        Change::Set { name, value } => {
            if let Err(fault) = elements.set(name, value) {
                return Err(out_of_memory(fault));
            }
        }
        Change::Remove { name } => {
            elements.remove(name);
        }
        Change::Use { .. } => {}
        Change::Pin { .. } => {}
    }
    Ok(elements)
}

// The draft after the change.
fn changed_draft(draft: Draft, change: Change<'_>) -> Result<Draft, NoMemory>
    requires room { length (elements_bytes (changed_by change draft.elements)) ≤ ELEMENTS_MAX }
    requires settable { MaySet change draft.elements }
    ensures header { IfOk result (λ after. after.header ≡ header_by change.entry draft.header) }
    ensures elements { IfOk result (λ after.
        after.elements ≡ changed_by change.entry draft.elements) }
    ensures others { IfOk result (λ after. (after.body ≡ draft.body) × (after.key ≡ draft.key)) }
{
    let Draft {
        body,
        header,
        key,
        elements,
    } = draft;
    let header = changed_header(header, change);
    let elements = changed_elements(elements, change)?;
    Ok(Draft {
        body,
        header,
        key,
        elements,
    })
}

// The metadata after the change.
fn changed_meta(meta: Meta, change: Change<'_>) -> Result<Meta, NoMemory>
    requires room { HasRoom (Entry.Finished meta) (changed_by change meta.elements) }
    requires settable { MaySet change meta.elements }
    ensures header { IfOk result (λ after. after.header ≡ header_by change.entry meta.header) }
    ensures elements { IfOk result (λ after.
        after.elements ≡ changed_by change.entry meta.elements) }
    ensures others { IfOk result (λ after. (after.key ≡ meta.key)
        × ((after.hashes ≡ meta.hashes) × (after.offset ≡ meta.offset))) }
{
    let Meta {
        header,
        key,
        elements,
        hashes,
        offset,
    } = meta;
    let header = changed_header(header, change);
    let elements = changed_elements(elements, change)?;
    Ok(Meta {
        header,
        key,
        elements,
        hashes,
        offset,
    })
}

impl Handles {
    ghost use Rattle.file_handles.specs.Cache.{cache};
    ghost use Rattle.file_handles.specs.Changes.{ChangesThere, IsFiledAt, with_version};
    ghost use Rattle.handle_table.specs.HeldChunks.{SameChunks};
    ghost use Rattle.handle_table.specs.Kept.{object_at as object_kept_at};
    ghost use Rattle.file_handles.specs.Kept.{kept};

    /// Makes a change of the object at a place. The metadata of a finished entry are rewritten.
    pub(crate) fn change_at<D: Disk>(
        &mut self,
        alloc: Global,
        disk: &mut D,
        place: usize,
        change: Change<'_>,
    ) -> Result<Effect, HandleFault>
        requires place { place < SLOTS }
        requires room { IsSomeAnd (object_kept_at (kept self.old) place)
            (λ x. HasRoom x.entry (changed_by change (elements_in x.entry))) }
        requires settable { IfSome (object_kept_at (kept self.old) place)
            (λ x. MaySet change (elements_in x.entry)) }
        requires told { IsTrue D.tells → IsFiledAt (cache D.Disk self.old disk.old) place }
        ensures changes { let at = cache D.Disk in IsTrue D.tells →
            ChangesThere place (with_version (with_change change.entry)) result
            (at self.old disk.old) (at self.new disk.new) }
        ensures quiet { IsTrue D.tells → IfSome (object_kept_at (kept self.old) place)
            (λ x. is_draft x.entry ≡ true → D.state disk.new ≡ D.state disk.old) }
        ensures effect { IfOk result (IsLearntOf
            (with_version (with_change change.entry)) (object_kept_at (kept self.old) place)) }
        ensures plain { IfOk result IsPlainEffect }
        ensures chunks { SameChunks (kept self.old) (kept self.new) }
        ensures refused { OnRefused result (λ _. ⊥) }
        ensures no_read { result ≢ Err HandleFault.Read }
        ensures calls { OnOk result (IsTrue D.tells →
            (D.counts disk.new).calls ≤ (D.counts disk.old).calls + 1) }
        ensures disk { OnlyChanges D.Disk (ending result) no_sync disk.old disk.new }
    {
        let (label, entry) = self.table.take_apart(place);
        let file = label.file_place();
        let entry = match entry {
            Entry::Draft(draft) => Entry::Draft(changed_draft(draft, change)?),
            Entry::Finished(meta) => {
                let meta = changed_meta(meta, change)?;
                rewrite_meta(alloc, disk, &file, &meta)?;
                Entry::Finished(meta)
            }
        };
        let effect = learnt_of(&label.name, label.doomed, &entry);
        self.table.put_entry(place, label, entry);
        Ok(effect)
    }
}
