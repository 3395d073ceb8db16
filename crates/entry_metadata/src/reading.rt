//! Reading a metadata block.

ghost use Rattle.std.specs.Prelude.{◌≡◌, ◌≤◌, ◌<◌, ◌-◌, ◌^◌, IfOk, IfErr, OnOk, None, length, map};
ghost use Rattle.std.specs.List.{range_with_len};
ghost use Rattle.cache_base.specs.Bytes.{be16_at};
ghost use Rattle.entry_metadata.specs.Checks.{IsFirstFault, block_fault, hash_place, header_place, meta_in};
ghost use Rattle.entry_metadata.specs.Meta.{meta_of};
ghost use Rattle.entry_metadata.specs.Metadata.{Meta as Said, Spells};
ghost use Rattle.entry_metadata.specs.declared.fault.MetaFault.TheVariants.{Memory};

use crate::checks::{check, hash_count, header_len};
use crate::{Meta, MetaFault};
use cache_base::{Bytes, Hashes, NoMemory, u16_at};
use entry_parts::{Elements, Header, VERSION};
use std::alloc::Global;

fn hashes_in(alloc: Global, block: &[u8], count: usize) -> Result<Hashes, NoMemory>
    requires { header_place count ≤ length block.now }
    ensures { IfOk result (λ hashes.
        hashes ≡ map (λ i. be16_at block.now (hash_place i)) (range_with_len 0 count)) }
{
    let mut hashes = Hashes::new(alloc);
    for i in 0..count {
        hashes.push(u16_at(block, 4 + 2 * i))?;
    }
    Ok(hashes)
}

fn read_all(alloc: Global, block: &[u8], offset: u32) -> Result<Meta, MetaFault>
    requires { offset < 2 ^ 32 - 1 }
    ensures passes { OnOk result (block_fault block.now offset ≡ None) }
    ensures says { IfOk result (λ meta. meta_of meta ≡ meta_in block.now offset) }
    ensures fault { IfErr result (IsFirstFault block.now offset) }
{
    let header = check(block, offset)?;
    let count = hash_count(offset);
    let key_place = 4 + 2 * count + header_len(header.version);
    let key_end = key_place + header.key_size as usize;
    let elements = Elements::parse(alloc, &block[key_end + 1..])?;
    let hashes = hashes_in(alloc, block, count)?;
    let key = Bytes::from_slice(alloc, &block[key_place..key_end])?;
    Ok(Meta {
        header: Header {
            version: VERSION,
            ..header
        },
        key,
        elements,
        hashes,
        offset,
    })
}

/// What the metadata block of a body of `offset` bytes says, or the first failing check of the block. The block has
/// version 1, 2 or 3, and what it says has version 3. An offset of 2^32 - 1 stands in the file of an unfinished
/// entry, which has no block.
pub fn parse(alloc: Global, block: &[u8], offset: u32) -> Result<Meta, MetaFault>
    requires { offset < 2 ^ 32 - 1 }
    // What is read is what the block spells.
    ensures spelled { IfOk result (λ meta. Spells block.now offset (meta_of meta)) }
    // A block that spells anything is refused only where memory ran out.
    ensures refused { (said : Said) → Spells block.now offset said →
        IfErr result (λ f. f ≡ Memory) }
    ensures fault { IfErr result (IsFirstFault block.now offset) }
{
    read_all(alloc, block, offset)
}
