//! Reading an entry's file without its body.

ghost use Rattle.std.specs.Prelude.{◌≡◌, ◌≤◌, ◌<◌, ◌+◌, ◌-◌, ◌^◌, ℕ, List, IfOk, IfErr, OnOk, IfSome, IsTrue, Some, drop, length, slice_range};
ghost use Rattle.std.specs.Option.{option_map};
ghost use Rattle.cache_base.specs.Bytes.{AreBytes};
ghost use Rattle.cache_base.specs.declared.limits.TheConstants.{BLOCK_MAX};
ghost use Rattle.disk_theory.specs.Account.{Looks, ending};
ghost use Rattle.disk_theory.specs.State.{standing};
ghost use Rattle.entry_file.specs.EntryFile.{block_in, offset_in, unfit_of};
ghost use Rattle.entry_file.specs.Damages.{HasMeta};
ghost use Rattle.entry_file.specs.EntryRead.{IfFits, Joins, ReadsAs};
ghost use Rattle.entry_file.specs.BlockRead.{BlockReadsAs};
ghost use Rattle.disk_theory.specs.Calls.{HoldsPart};
ghost use Rattle.entry_file.specs.Looks.{LooksAtMost, meta_looks};
ghost use Rattle.entry_file.specs.Tail.{HoldsBlock, IsTail};
ghost use Rattle.entry_metadata.specs.Metadata.{Spells};

use crate::{EntryRead, Unfit};
use cache_base::{BLOCK_MAX, Name, bytes_fit};
use disk_theory::{Disk, DiskFault, Place};
use entry_metadata::MetaFault;
use entry_name::name_of;
use std::alloc::Global;

// So many of a file's last bytes are read at once. Most blocks lie within them.
const TAIL_MAX: usize = 1024;

// The failing check that a fault of a block names; that memory ran out names none.
fn unfit(fault: MetaFault) -> Option<Unfit>
    ensures { result ≡ unfit_of fault }
{
    match fault {
        MetaFault::Short => Some(Unfit::Short),
        MetaFault::TooBig => Some(Unfit::TooBig),
        MetaFault::Version => Some(Unfit::Version),
        MetaFault::KeyEnd => Some(Unfit::KeyEnd),
        MetaFault::Hash => Some(Unfit::Hash),
        MetaFault::KeyForm => Some(Unfit::KeyForm),
        MetaFault::Elements => Some(Unfit::Elements),
        MetaFault::Memory => None,
    }
}

// What a file of `size` bytes reads as whose block is this, by the checks of the block and of the name.
fn read_of_block(
    alloc: Global,
    block: &[u8],
    offset: u32,
    name: &Name,
    size: u64,
) -> Result<EntryRead, DiskFault>
    requires { offset < 2 ^ 32 - 1 }
    ensures reads { IfOk result (BlockReadsAs name.now.0 block.now offset size) }
    ensures spelled { IfOk result (λ read. IfFits read (Spells block.now offset)) }
    ensures memory { IfErr result (λ fault. fault ≡ DiskFault.Memory) }
{
    match entry_metadata::parse(alloc, block, offset) {
        Ok(meta) => {
            if name_of(meta.key.as_slice()) == *name {
                Ok(EntryRead::Fits { meta, size })
            } else {
                Ok(EntryRead::Unfit(Unfit::WrongName))
            }
        }
        Err(fault) => match unfit(fault) {
            Some(check) => Ok(EntryRead::Unfit(check)),
            None => Err(DiskFault::Memory),
        },
    }
}

// The number in the last four of these bytes.
fn last_offset(tail: &[u8]) -> u32
    requires { 4 ≤ length tail.now }
    ensures offset { result ≡ offset_in tail.now }
    ensures bytes { AreBytes (drop (length tail.now - 4) tail.now) }
{
    let bytes = &tail[tail.len() - 4..];
    bytes_fit(bytes);
    u32::from_be_bytes([bytes[0], bytes[1], bytes[2], bytes[3]])
}

// The bytes of the file from `from` on, of which it has so many.
fn part_at<D: Disk>(
    alloc: Global,
    disk: &mut D,
    place: &Place,
    from: u64,
    len: usize,
) -> Result<Vec<u8>, DiskFault>
    requires { IsTrue D.tells → HoldsPart (standing (D.state disk.old) place.now) from len }
    ensures bytes { IfOk result (λ part. IsTrue D.tells →
        IfSome (standing (D.state disk.old) place.now) (λ content.
        part.items ≡ slice_range content from (from + len))) }
    ensures long { IfOk result (λ part. length part.items ≡ len) }
    ensures calls { IsTrue D.tells → LooksAtMost 1 (D.counts disk.old) (D.counts disk.new) }
    ensures looks { Looks D.Disk (ending result) disk.old disk.new }
{
    let mut part = vec![in alloc; 0u8; len]?;
    disk.read(place, from, &mut part)?;
    Ok(part)
}

// The last bytes of a file of `size` bytes, as many as one look takes.
fn last_bytes<D: Disk>(
    alloc: Global,
    disk: &mut D,
    place: &Place,
    size: u64,
) -> Result<Vec<u8>, DiskFault>
    requires long { 4 ≤ size }
    requires told { IsTrue D.tells →
        Some size ≡ option_map length (standing (D.state disk.old) place.now) }
    ensures long { IfOk result (λ tail. 4 ≤ length tail.items) }
    ensures tail { IfOk result (λ tail. IsTrue D.tells →
        IfSome (standing (D.state disk.old) place.now) (IsTail tail.items)) }
    ensures calls { IsTrue D.tells → LooksAtMost 1 (D.counts disk.old) (D.counts disk.new) }
    ensures looks { Looks D.Disk (ending result) disk.old disk.new }
{
    let len = size.min(TAIL_MAX as u64) as usize;
    part_at(alloc, disk, place, size - len as u64, len)
}

// The bytes at the end of a file, and the offset that its last four are.
struct Tail {
    bytes: Vec<u8>,
    offset: u32,
}

fn read_tail<D: Disk>(
    alloc: Global,
    disk: &mut D,
    place: &Place,
    size: u64,
) -> Result<Tail, DiskFault>
    requires long { 4 ≤ size }
    requires told { IsTrue D.tells →
        Some size ≡ option_map length (standing (D.state disk.old) place.now) }
    ensures long { IfOk result (λ tail. 4 ≤ length tail.bytes.items) }
    ensures tail { IfOk result (λ tail. IsTrue D.tells →
        IfSome (standing (D.state disk.old) place.now) (IsTail tail.bytes.items)) }
    ensures offset { IfOk result (λ tail. IsTrue D.tells →
        IfSome (standing (D.state disk.old) place.now) (λ content.
        tail.offset ≡ offset_in content)) }
    ensures bytes { OnOk result (IsTrue D.tells → IfSome (standing (D.state disk.old) place.now)
        (λ content. AreBytes (drop (length content - 4) content))) }
    ensures calls { IsTrue D.tells → LooksAtMost 1 (D.counts disk.old) (D.counts disk.new) }
    ensures looks { Looks D.Disk (ending result) disk.old disk.new }
{
    let bytes = last_bytes(alloc, disk, place, size)?;
    let offset = last_offset(bytes.as_slice());
    Ok(Tail { bytes, offset })
}

// The bytes of the file from `from` up to its last four: of its tail, or read anew where they begin before that.
fn block_at<D: Disk>(
    alloc: Global,
    disk: &mut D,
    place: &Place,
    tail: &[u8],
    from: u64,
    len: usize,
) -> Result<Vec<u8>, DiskFault>
    requires long { 4 ≤ length tail.now }
    requires told { IsTrue D.tells →
        HoldsBlock (standing (D.state disk.old) place.now) tail.now from len }
    ensures bytes { IfOk result (λ block. IsTrue D.tells →
        IfSome (standing (D.state disk.old) place.now) (λ content.
        block.items ≡ slice_range content from (from + len))) }
    ensures calls { IsTrue D.tells → LooksAtMost 1 (D.counts disk.old) (D.counts disk.new) }
    ensures looks { Looks D.Disk (ending result) disk.old disk.new }
{
    let end = tail.len() - 4;
    if len > end {
        return part_at(alloc, disk, place, from, len);
    }
    Ok(Vec::from_slice(alloc, &tail[end - len..end])?)
}

// What stands at a place with a file of `size` bytes.
fn read_sized<D: Disk>(
    alloc: Global,
    disk: &mut D,
    place: &Place,
    name: &Name,
    size: u64,
) -> Result<EntryRead, DiskFault>
    requires { IsTrue D.tells →
        Some size ≡ option_map length (standing (D.state disk.old) place.now) }
    ensures reads { IfOk result (λ read. IsTrue D.tells →
        ReadsAs name.now.0 (standing (D.state disk.old) place.now) read) }
    ensures has_meta { IfOk result (λ read. IsTrue D.tells →
        IfFits read (HasMeta (standing (D.state disk.old) place.now))) }
    ensures join { IfOk result (λ read. IsTrue D.tells →
        IfFits read (Joins name.now.0 (standing (D.state disk.old) place.now))) }
    ensures large { IsTrue D.tells → (content : List ℕ)
        → standing (D.state disk.old) place.now ≡ Some content
        → BLOCK_MAX < length (block_in content)
        → LooksAtMost 1 (D.counts disk.old) (D.counts disk.new) }
    ensures calls { IsTrue D.tells → LooksAtMost 2 (D.counts disk.old) (D.counts disk.new) }
    ensures looks { Looks D.Disk (ending result) disk.old disk.new }
{
    if size < 4 {
        return Ok(EntryRead::Unfit(Unfit::Short));
    }
    let Tail { bytes, offset } = read_tail(alloc, disk, place, size)?;
    let end = size - 4;
    let from = u64::from(offset);
    if offset == u32::MAX || from > end {
        return Ok(EntryRead::Unfit(Unfit::Short));
    }
    let len = (end - from) as usize;
    if len > BLOCK_MAX {
        return Ok(EntryRead::Unfit(Unfit::TooBig));
    }
    let block = block_at(alloc, disk, place, bytes.as_slice(), from, len)?;
    read_of_block(alloc, block.as_slice(), offset, name, size)
}

/// What stands at the place, as the file of an entry of this name. Of the file its last 1,024 bytes are read, and its
/// block where that is longer and has at most `BLOCK_MAX` bytes. Bytes that the disk does not give, though its size promised them,
/// count as zeros.
pub fn read_meta<D: Disk>(
    alloc: Global,
    disk: &mut D,
    place: &Place,
    name: &Name,
) -> Result<EntryRead, DiskFault>
    ensures reads { IfOk result (λ read. IsTrue D.tells →
        ReadsAs name.now.0 (standing (D.state disk.old) place.now) read) }
    ensures has_meta { IfOk result (λ read. IsTrue D.tells →
        IfFits read (HasMeta (standing (D.state disk.old) place.now))) }
    ensures join { IfOk result (λ read. IsTrue D.tells →
        IfFits read (Joins name.now.0 (standing (D.state disk.old) place.now))) }

    // Of a block that is too large nothing is read: two looks are enough, at the file's size and at its last bytes.
    ensures large { IsTrue D.tells → (content : List ℕ)
        → standing (D.state disk.old) place.now ≡ Some content
        → BLOCK_MAX < length (block_in content)
        → LooksAtMost 2 (D.counts disk.old) (D.counts disk.new) }
    ensures calls { IsTrue D.tells →
        (D.counts disk.new).calls ≤ (D.counts disk.old).calls + meta_looks }
    ensures entry_reads { IsTrue D.tells →
        (D.counts disk.new).entry_reads ≤ (D.counts disk.old).entry_reads + meta_looks }
    ensures looks { Looks D.Disk (ending result) disk.old disk.new }
{
    match disk.size(place)? {
        None => Ok(EntryRead::Absent),
        Some(size) => read_sized(alloc, disk, place, name, size),
    }
}
