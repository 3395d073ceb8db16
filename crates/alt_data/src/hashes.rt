//! The chunk hashes of a body that grows.

ghost use Rattle.std.specs.Prelude.{◌≡◌, ◌≤◌, ◌<◌, ◌+◌, ◌++◌, ◌%◌, length, IfOk, OnOk, IsTrue};
ghost use Rattle.cache_base.specs.Limits.{chunks as chunks_of};
ghost use Rattle.cache_base.specs.declared.limits.TheConstants.{BODY_MAX, CHUNK};
ghost use Rattle.chunk_store.specs.Chunks.{chunk_hashes};
ghost use Rattle.chunk_store.specs.Prefixes.{HasChunks, HasChunksWith};
ghost use Rattle.disk_theory.specs.Account.{Looks, ending};
ghost use Rattle.disk_theory.specs.State.{standing};

use cache_base::{Buffer, CHUNK, Hashes, NoMemory};
use chunk_store::{chunk_hash, read_chunk};
use disk_theory::{Disk, DiskFault, Place};
use std::alloc::Global;

// These hashes, as a list that may grow.
fn list_of(alloc: Global, hashes: &[u16]) -> Result<Hashes, NoMemory>
    ensures { IfOk result (λ list. list ≡ hashes.now) }
{
    Ok(Hashes::from_vec(Vec::from_slice(alloc, hashes)?))
}

// Adds the hashes of the chunks of a body.
fn push_hashes(hashes: &mut Hashes, body: &[u8]) -> Result<(), NoMemory>
    ensures { OnOk result (hashes.new ≡ hashes.old ++ chunk_hashes body.now) }
{
    let mut rest = body;
    while !rest.is_empty() {
        let (piece, after) = rest.split_at(CHUNK.min(rest.len()));
        hashes.push(chunk_hash(piece))?;
        rest = after;
    }
    Ok(())
}

// Adds the hashes of a body that begins with the part of a chunk that the buffer holds.
fn push_joined(hashes: &mut Hashes, part: &mut Buffer, more: &[u8]) -> Result<(), NoMemory>
    requires some { 0 < length part.old }
    requires short { length part.old < CHUNK }
    ensures { OnOk result (hashes.new ≡ hashes.old ++ chunk_hashes (part.old ++ more.now)) }
{
    let room = CHUNK - part.as_slice().len();
    let (first, rest) = more.split_at(room.min(more.len()));
    part.extend(first);
    hashes.push(chunk_hash(part.as_slice()))?;
    push_hashes(hashes, rest)
}

/// The chunk hashes of the body of `offset` bytes that the file begins with, followed by `alt`. Of the file only the
/// last chunk of the body is read, by one call of the disk, and nothing where that chunk is a whole one. No more than
/// one chunk is held.
pub fn grown_hashes<D: Disk>(
    alloc: Global,
    disk: &mut D,
    place: &Place,
    offset: u32,
    old: &Hashes,
    alt: &[u8],
) -> Result<Hashes, DiskFault>
    requires hashes { length old.now ≡ chunks_of offset }
    requires limit { offset + length alt.now ≤ BODY_MAX }
    requires told { IsTrue D.tells
        → HasChunks (standing (D.state disk.old) place.now) offset old.now }
    ensures hashes { IfOk result (λ hashes. IsTrue D.tells
        → HasChunksWith (standing (D.state disk.old) place.now) offset alt.now hashes) }
    ensures len { IfOk result (λ hashes. length hashes ≡ chunks_of (offset + length alt.now)) }
    ensures whole { offset % CHUNK ≡ 0 → disk.new ≡ disk.old }
    ensures calls { IsTrue D.tells → (D.counts disk.new).calls ≤ (D.counts disk.old).calls + 1 }
    ensures looks { Looks D.Disk (ending result) disk.old disk.new }
{
    let whole = offset as usize / CHUNK;
    let mut hashes = list_of(alloc, &old.as_slice()[..whole])?;
    if whole * CHUNK == offset as usize {
        push_hashes(&mut hashes, alt)?;
        return Ok(hashes);
    }
    let mut part = Buffer::new(alloc)?;
    read_chunk(disk, place, offset, whole as u32, &mut part)?;
    push_joined(&mut hashes, &mut part, alt)?;
    Ok(hashes)
}
