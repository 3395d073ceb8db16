//! What a metadata block says.

ghost use Rattle.std.specs.Prelude.{◌≡◌, ◌≤◌, ◌<◌, ◌-◌, ◌^◌, length, true};
ghost use Rattle.cache_base.specs.Limits.{chunks};
ghost use Rattle.cache_base.specs.declared.limits.TheConstants.{BLOCK_MAX};
ghost use Rattle.entry_key.specs.Walk.{read_key, reads};
ghost use Rattle.entry_metadata.specs.Metadata.{block_length};
ghost use Rattle.entry_parts.specs.Elements.{elements_bytes};
ghost use Rattle.entry_parts.specs.declared.header.TheConstants.{VERSION};

use cache_base::{Bytes, Hashes};
use entry_parts::{Elements, Header};

/// What the metadata block of a body of `offset` bytes says.
#[derive(Drop)]
pub struct Meta {
    /// The header, of version 3 and with the key's size.
    pub header: Header,
    /// The key, which has the grammar of keys.
    pub key: Bytes,
    /// The elements.
    pub elements: Elements,
    /// The hash of each chunk of the body.
    pub hashes: Hashes,
    /// The bytes of the body, and so where the block begins.
    pub offset: u32,
    pub ghost version: { header.version ≡ VERSION },
    pub ghost key_size: { header.key_size ≡ length key },
    pub ghost grammar: { reads (read_key key) ≡ true },
    pub ghost hash_count: { length hashes ≡ chunks offset },
    pub ghost finished: { offset < 2 ^ 32 - 1 },
    pub ghost small: { block_length (length hashes) (length key) (length (elements_bytes elements))
        ≤ BLOCK_MAX },
}
