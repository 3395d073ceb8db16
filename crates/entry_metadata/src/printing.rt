//! Printing a metadata block.

ghost use Rattle.std.specs.Prelude.{◌≡◌, ◌<◌, ◌^◌, ◌++◌, ◌∷◌, IfOk, OnOk, flat_map, length};
ghost use Rattle.cache_base.specs.Bytes.{be16, be32};
ghost use Rattle.cache_base.specs.Limits.{chunks as chunks_of};
ghost use Rattle.entry_metadata.specs.Fields.{FieldsFit};
ghost use Rattle.entry_metadata.specs.Meta.{meta_of};
ghost use Rattle.entry_metadata.specs.Metadata.{IsMeta, block_bytes, block_length, block_rest};
ghost use Rattle.jenkins_hash.specs.Hash.{hash_of};

use crate::Meta;
use crate::checks::hash_count;
use cache_base::{Bytes, NoMemory};
use std::alloc::Global;

fn push_hashes(out: &mut Bytes, hashes: &[u16]) -> Result<(), NoMemory>
    ensures { OnOk result (out.new ≡ out.old ++ flat_map be16 hashes.now) }
{
    for hash in hashes {
        out.extend(&hash.to_be_bytes())?;
    }
    Ok(())
}

// What stands in slices of these types fits two bytes, and one.
fn fields_fit(hashes: &[u16], key: &[u8], elements: &[u8])
    ensures { FieldsFit hashes.now key.now elements.now }
{}

fn joined(
    alloc: Global,
    hashes: &[u16],
    header: &[u8; 32],
    key: &[u8],
    elements: &[u8],
) -> Result<Bytes, NoMemory>
    ensures { IfOk result (λ out.
        out ≡ flat_map be16 hashes.now ++ (header.now ++ (key.now ++ 0 ∷ elements.now))) }
{
    let mut out = Bytes::new(alloc);
    push_hashes(&mut out, hashes)?;
    out.extend(header)?;
    out.extend(key)?;
    out.push(0)?;
    out.extend(elements)?;
    Ok(out)
}

// The block past its hash.
fn past_hash(alloc: Global, meta: &Meta) -> Result<Bytes, NoMemory>
    ensures meta { IsMeta (meta_of meta.now) }
    ensures bytes { IfOk result (λ rest. rest ≡ block_rest (meta_of meta.now)) }
{
    let hashes = meta.hashes.as_slice();
    let header = meta.header.write();
    let key = meta.key.as_slice();
    let elements = meta.elements.print();
    fields_fit(hashes, key, elements);
    joined(alloc, hashes, &header, key, elements)
}

fn with_ends(alloc: Global, rest: &[u8], offset: u32) -> Result<Bytes, NoMemory>
    ensures { IfOk result (λ out. out ≡ (be32 (hash_of rest.now) ++ rest.now) ++ be32 offset) }
{
    let mut out = Bytes::new(alloc);
    out.extend(&jenkins_hash::hash(rest).to_be_bytes())?;
    out.extend(rest)?;
    out.extend(&offset.to_be_bytes())?;
    Ok(out)
}

/// The block of version 3, and after it the final offset in four bytes. Fails only where memory ran out.
pub fn print(alloc: Global, meta: &Meta) -> Result<Bytes, NoMemory>
    ensures meta { IsMeta (meta_of meta.now) }
    ensures bytes { IfOk result (λ out.
        out ≡ block_bytes (meta_of meta.now) ++ be32 meta.now.offset) }
{
    let rest = past_hash(alloc, meta)?;
    with_ends(alloc, rest.as_slice(), meta.offset)
}

/// The number of bytes of a block as it is printed, without the final offset: that of a body of so many bytes, with so
/// many bytes of a key and of elements.
pub fn block_len_of(body: u32, key: usize, elements: usize) -> usize
    requires { block_length (chunks_of body) key elements < 2 ^ 64 }
    ensures { result ≡ block_length (chunks_of body) key elements }
{
    4 + 2 * hash_count(body) + 32 + key + 1 + elements
}

/// The number of bytes of the block as it is printed, without the final offset.
pub fn block_len(meta: &Meta) -> usize
    ensures { result ≡ length (block_bytes (meta_of meta.now)) }
{
    let key = meta.key.as_slice().len();
    block_len_of(meta.offset, key, meta.elements.len())
}
