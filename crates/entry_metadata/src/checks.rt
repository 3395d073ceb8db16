//! The checks of a block before that of its elements.

ghost use Rattle.std.specs.Prelude.{◌≡◌, ◌≤◌, ◌<◌, ◌+◌, ◌-◌, ◌^◌, IfOk, IfErr, length, drop};
ghost use Rattle.cache_base.specs.Bytes.{be32_at};
ghost use Rattle.cache_base.specs.Limits.{chunks as chunks_of};
ghost use Rattle.entry_metadata.specs.Checks.{IsFirstFault, block_max as block_max_of, header_len as header_len_of, is_version as there_is, stored_header};
ghost use Rattle.entry_metadata.specs.Passed.{Passed};
ghost use Rattle.entry_parts.specs.Header.{header_in, short_header_in};

use crate::MetaFault;
use cache_base::{BLOCK_MAX, chunks, u32_at};
use entry_parts::{Header, VERSION};

/// The number of hashes in the block of a body of `offset` bytes.
pub(crate) fn hash_count(offset: u32) -> usize
    ensures { result ≡ chunks_of offset }
{
    chunks(u64::from(offset)) as usize
}

/// The number of bytes of a header of this version.
#[tactic(auto, unfolding(crate::specs::Checks::header_len))]
pub(crate) fn header_len(version: u32) -> usize
    ensures number { result ≡ header_len_of version }
    ensures most { result ≤ 32 }
{
    if version == 1 { 28 } else { 32 }
}

// The most bytes that a block of this version has.
#[tactic(auto, unfolding(crate::specs::Checks::block_max))]
fn block_max(version: u32) -> usize
    ensures { result ≡ block_max_of version }
{
    if version == 1 {
        BLOCK_MAX - 4
    } else {
        BLOCK_MAX
    }
}

#[tactic(auto, unfolding(crate::specs::Checks::is_version))]
fn is_version(version: u32) -> bool
    ensures { result ≡ there_is version }
{
    1 <= version && version <= VERSION
}

fn full_header_at(b: &[u8], at: usize) -> Header
    requires { at + 32 ≤ length b.now }
    ensures { result ≡ header_in (drop at b.now) }
{
    let mut bytes = [0; 32];
    bytes.copy_from_slice(&b[at..at + 32]);
    Header::read(&bytes)
}

fn short_header_at(b: &[u8], at: usize) -> Header
    requires { at + 28 ≤ length b.now }
    ensures { result ≡ short_header_in (drop at b.now) }
{
    let mut bytes = [0; 28];
    bytes.copy_from_slice(&b[at..at + 28]);
    Header::read_short(&bytes)
}

// The header of a block of this version.
fn header_at(b: &[u8], at: usize, version: u32) -> Header
    requires version { version ≡ be32_at b.now at }
    requires long { at + header_len_of version ≤ length b.now }
    ensures { result ≡ stored_header (drop at b.now) }
{
    if version == 1 {
        short_header_at(b, at)
    } else {
        full_header_at(b, at)
    }
}

/// The header of a block that passes all checks before that of its elements, or the first of them that fails. It has
/// the version that it has in the block.
pub(crate) fn check(block: &[u8], offset: u32) -> Result<Header, MetaFault>
    requires { offset < 2 ^ 32 - 1 }
    ensures passed { IfOk result (Passed block.now offset) }
    ensures fault { IfErr result (IsFirstFault block.now offset) }
{
    let header_place = 4 + 2 * hash_count(offset);
    if block.len() < header_place + 29 {
        return Err(MetaFault::Short);
    }
    let version = u32_at(block, header_place);
    if block.len() > block_max(version) {
        return Err(MetaFault::TooBig);
    }
    if !is_version(version) {
        return Err(MetaFault::Version);
    }
    let key_place = header_place + header_len(version);
    if block.len() < key_place + 1 {
        return Err(MetaFault::KeyEnd);
    }
    let header = header_at(block, header_place, version);
    let key_end = key_place + header.key_size as usize;
    if key_end >= block.len() {
        return Err(MetaFault::KeyEnd);
    }
    if block[key_end] != 0 {
        return Err(MetaFault::KeyEnd);
    }
    if u32_at(block, 0) != jenkins_hash::hash(&block[4..]) {
        return Err(MetaFault::Hash);
    }
    if entry_key::parse(&block[key_place..key_end]).is_err() {
        return Err(MetaFault::KeyForm);
    }
    Ok(header)
}
