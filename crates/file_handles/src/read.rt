//! Reads the body of the entry in a slot.

ghost use Rattle.std.specs.Prelude.{ℕ, ◌%◌, ◌≡◌, ◌≢◌, ◌<◌, ◌≤◌, Err, IfErr, IfOk, IfSome, IsSome, IsTrue, None, Ok, OnErr, OnOk, length, take, drop};
ghost use Rattle.std.specs.Borrow.{sem};
ghost use Rattle.cache_base.specs.Limits.{chunk_size, chunks};
ghost use Rattle.cache_base.specs.declared.limits.TheConstants.{SLOTS};
ghost use Rattle.cache_theory.specs.Command.Command.{ReadPart};
ghost use Rattle.chunk_cache.specs.Cached.{bytes_of, looked_at};
ghost use Rattle.chunk_store.specs.Chunks.{chunk as chunk_of};
ghost use Rattle.disk_theory.specs.Account.{Looks};
ghost use Rattle.disk_theory.specs.State.{standing};
ghost use Rattle.file_handles.specs.Answers.{OnRead, OnRefused, ending};
ghost use Rattle.file_handles.specs.Reading.{ForBody, ForBodyHeld, HasReadOrNot, HoldsAsBefore, IsPartHeld, IsStoredChunk, LosesNone, SameButChunks, part_of_body, rest_part};

use crate::fault::look_fault;
use crate::{HandleFault, Handles};
use cache_base::{Bytes, CHUNK};
use cache_theory::Refusal;
use chunk_store::read_chunk_into;
use disk_theory::{Disk, Place};
use handle_table::Object;
use std::alloc::Global;

/// A chunk of a body that is on the disk.
#[derive(Clone, Copy)]
pub(crate) struct StoredChunk {
    /// The number of its object.
    pub(crate) number: u64,
    pub(crate) index: u32,
    /// The file that begins with so many bytes of the body.
    pub(crate) file: Place,
    pub(crate) stored: u32,
}

// The slice from an index on, up to so many bytes.
fn part(b: &[u8], from: usize, len: u64) -> &[u8]
    ensures { result.now ≡ take len (drop from b.now) }
{
    let rest = &b[from.min(b.len())..];
    if len < rest.len() as u64 {
        &rest[..len as usize]
    } else {
        rest
    }
}

// A part of what of an object's body is not on the disk.
fn unwritten_part(object: &Object, from: u64, len: u64) -> &[u8]
    ensures { result.now ≡ rest_part object.now.entry from len }
{
    if len == 0 || from >= u64::from(object.body_len()) {
        return &[];
    }
    part(object.rest(), (from % CHUNK as u64) as usize, len)
}

// Reads a chunk over the bytes, by one call of the disk.
fn read_over<D: Disk>(
    disk: &mut D,
    chunk: &StoredChunk,
    bytes: &mut Bytes,
) -> Result<(), HandleFault>
    requires { chunk.now.index < chunks chunk.now.stored }
    ensures chunk { OnOk result (IsTrue D.tells →
        IfSome (standing (D.state disk.old) chunk.now.file) (λ file.
        chunk.now.stored ≤ length file →
        bytes.new ≡ chunk_of (take chunk.now.stored file) chunk.now.index)) }
    ensures refused { OnRefused result (λ _. ⊥) }
    ensures no_change { result ≢ Err HandleFault.Disk }
    ensures looks { Looks D.Disk (ending result) disk.old disk.new }
{
    let len = CHUNK.min(chunk.stored as usize - chunk.index as usize * CHUNK);
    bytes.set_len(len)?;
    match read_chunk_into(
        disk,
        &chunk.file,
        chunk.stored,
        chunk.index,
        bytes.as_mut_slice(),
    ) {
        Ok(()) => Ok(()),
        Err(fault) => Err(look_fault(fault)),
    }
}

impl Handles {
    ghost use Rattle.file_handles.specs.Cache.{cache};
    ghost use Rattle.handle_table.specs.HeldChunks.{MayLoseLast, PutsFirst};
    ghost use Rattle.handle_table.specs.Kept.{object_at as object_kept_at, object_in};
    ghost use Rattle.file_handles.specs.Kept.{kept};
    ghost use Rattle.file_handles.specs.Reading.{HasChunkOf};
    ghost use Rattle.handle_table.specs.declared.object.Object.{Object};
    ghost use Rattle.handle_table.specs.Refuses.{HasNoObject, Passes, Refuses};
    ghost use Rattle.file_handles.specs.Resting.{RestsWith};
    ghost use Rattle.file_handles.specs.Stands.{RepresentsSome};

    /// The length of the body of the entry in a slot. It takes no memory.
    pub fn body_len(&self, slot: u8) -> Result<u32, Refusal>
        requires { slot < SLOTS }
        ensures len { IfOk result (λ len.
            ForBodyHeld (kept self.now) slot (λ body. len ≡ length body)) }
        ensures refused { IfErr result (λ r. (from len : ℕ) →
            Refuses (kept self.now) (ReadPart slot from len) r) }
        ensures no_object { IfErr result (HasNoObject (kept self.now) slot) }
        ensures object { OnOk result (IsSome (object_in (kept self.now) slot)) }
        ensures passes { OnOk result ((from len : ℕ) →
            Passes (kept self.now) (ReadPart slot from len)) }
    {
        let user = self.table.live_use(slot)?;
        Ok(self.table.object_at(user.place).body_len())
    }

    /// At most `len` bytes of the body of the entry in a slot, from an offset up to the end of its chunk or of the
    /// body. There are none exactly where `len` is 0 or the offset is at or after the end of the body. The chunks
    /// that were read last are held, and a chunk that is held is not read again; what a writer has not written yet is
    /// lent as it is.
    pub fn read_part<D: Disk>(
        &mut self,
        alloc: Global,
        disk: &mut D,
        slot: u8,
        from: u64,
        len: u64,
    ) -> Result<&[u8], HandleFault>
        requires slot { slot < SLOTS }
        requires told { IsTrue D.tells → RepresentsSome (cache D.Disk self.old disk.old) }
        ensures part { IfOk result (λ part. IsTrue D.tells →
            ForBody (cache D.Disk self.old disk.old) slot
            (λ body. part.now ≡ part_of_body body from len)) }
        ensures refused { OnRefused result (Refuses (kept self.old) (ReadPart slot from len)) }
        ensures no_object { OnRefused result (HasNoObject (kept self.old) slot) }
        ensures object { OnOk result (IsSome (object_in (kept self.old) slot)) }
        ensures passes { OnOk result (Passes (kept self.old) (ReadPart slot from len)) }
        // Once the part is given back.
        ensures* read { let before = cache D.Disk self.old disk.old in sem 𝓛
            (RestsWith self.entry (HasReadOrNot (IsTrue D.tells) slot from len result before)) }
        ensures held { IsPartHeld (kept self.old) slot from len →
            (disk.new ≡ disk.old) × (result ≢ Err HandleFault.Read) }
        ensures no_change { result ≢ Err HandleFault.Disk }
        ensures looks { Looks D.Disk (ending result) disk.old disk.new }
    {
        let used = self.table.live_use(slot)?;
        match self.chunk_of_part(used.place, from, len) {
            Some(chunk) => {
                self.hold(alloc, disk, &chunk)?;
                Ok(self.lend_chunk(&chunk, from, len))
            }
            None => Ok(self.lend_rest(used.place, from, len)),
        }
    }

    // The chunk of a part of the body of the object at a place, if the part has bytes that are on the disk.
    fn chunk_of_part(&self, place: usize, from: u64, len: u64) -> Option<StoredChunk>
        requires place { place < SLOTS }
        requires there { IsSome (object_kept_at (kept self.now) place) }
        ensures chunk { IfSome (object_kept_at (kept self.now) place)
            (λ x. HasChunkOf x from len result) }
        ensures index { IfSome result (λ c. c.index < chunks c.stored) }
    {
        let object = self.table.object_at(place);
        let stored = object.body_len() - object.rest().len() as u32;
        if len == 0 || from >= u64::from(stored) {
            return None;
        }
        Some(StoredChunk {
            number: object.number,
            index: (from / CHUNK as u64) as u32,
            file: object.file_place(),
            stored,
        })
    }

    // Makes a chunk the most recent of those that are held. It is read by one call of the disk where it was not held.
    fn hold<D: Disk>(
        &mut self,
        alloc: Global,
        disk: &mut D,
        chunk: &StoredChunk,
    ) -> Result<(), HandleFault>
        requires { chunk.now.index < chunks chunk.now.stored }
        ensures put { OnOk result (PutsFirst chunk.now.number chunk.now.index
            (kept self.old).chunks (kept self.new).chunks) }
        ensures failed { OnErr result (MayLoseLast (kept self.old).chunks (kept self.new).chunks) }
        ensures found { OnOk result
            (IsSome (bytes_of chunk.now.number chunk.now.index (kept self.new).chunks)) }
        ensures same { SameButChunks (kept self.old) (kept self.new) }
        ensures holds { (place : ℕ) (x : Object) (from len : ℕ) → IsTrue D.tells →
            object_kept_at (kept self.old) place ≡ Some x → IsStoredChunk x from len chunk.now →
            HoldsAsBefore (cache D.Disk self.old disk.old) (kept self.new) }
        ensures held { IsSome (bytes_of chunk.now.number chunk.now.index (kept self.old).chunks) →
            (result ≡ Ok tt) × ((disk.new ≡ disk.old) × LosesNone (kept self.old) (kept self.new)) }
        ensures refused { OnRefused result (λ _. ⊥) }
        ensures read { OnRead result (kept self.new ≡ kept self.old) }
        ensures no_change { result ≢ Err HandleFault.Disk }
        ensures looks { Looks D.Disk (ending result) disk.old disk.new }
    {
        if self.table.chunks.look(chunk.number, chunk.index).is_some() {
            return Ok(());
        }
        // A chunk goes only once the new one is there, and its memory is used again for the next.
        let mut bytes = match self.spare.take() {
            Some(bytes) => bytes,
            None => Bytes::new(alloc),
        };
        read_over(disk, chunk, &mut bytes)?;
        self.spare = self.table.chunks.evict();
        self.table.chunks.keep(chunk.number, chunk.index, bytes)?;
        Ok(())
    }

    // A part of a chunk that is held.
    fn lend_chunk(&mut self, chunk: &StoredChunk, from: u64, len: u64) -> &[u8]
        requires { IsSome (bytes_of chunk.now.number chunk.now.index (kept self.old).chunks) }
        ensures part { IfSome (bytes_of chunk.now.number chunk.now.index (kept self.old).chunks)
            (λ bytes. result.now ≡ take len (drop (from % chunk_size) bytes)) }
        ensures* looked { sem 𝓛 (RestsWith self.entry (λ k.
            k ≡ record (kept self.old) {
              chunks = looked_at chunk.now.number chunk.now.index (kept self.old).chunks;
            })) }
    {
        let bytes = self.table.lend(chunk.number, chunk.index);
        part(bytes, (from % CHUNK as u64) as usize, len)
    }

    // A part of what of the body of the object at a place is not on the disk.
    fn lend_rest(&self, place: usize, from: u64, len: u64) -> &[u8]
        requires place { place < SLOTS }
        requires there { IsSome (object_kept_at (kept self.now) place) }
        ensures { IfSome (object_kept_at (kept self.now) place)
            (λ x. result.now ≡ rest_part x.entry from len) }
    {
        unwritten_part(self.table.object_at(place), from, len)
    }
}
