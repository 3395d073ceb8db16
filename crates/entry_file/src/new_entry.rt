//! An entry that is being written.

ghost use Rattle.std.specs.Prelude.{◌≡◌, ◌≤◌, ◌<◌, ◌+◌, ◌*◌, length};
ghost use Rattle.cache_base.specs.declared.limits.TheConstants.{BODY_MAX, CHUNK};

use crate::chunk_hashes::ChunkHashes;
use cache_base::{Buffer, CHUNK};

/// An entry whose body comes in pieces. Its whole chunks are on the disk, each written as soon as it was full, with the
/// stop tail after the last; the bytes after them are held here. It may be dropped at any time, and is to be dropped
/// after a call that failed: the file at its place is then no entry.
#[derive(Drop)]
pub struct NewEntry {
    // The bytes after the last whole chunk.
    pub(crate) rest: Buffer,
    // The hash of each whole chunk, with room for those to come.
    pub(crate) hashes: ChunkHashes,
    ghost short: { length rest < CHUNK },
    ghost bounded: { length hashes * CHUNK + length rest ≤ BODY_MAX },
}

impl NewEntry {
    ghost use Rattle.entry_file.specs.NewEntry.{grown_len};
    ghost use Rattle.entry_file.specs.Held.{held};

    /// The number of bytes of the body so far. It takes no memory.
    pub fn len(&self) -> u32
        ensures { result ≡ grown_len (held self.now) }
    {
        (self.hashes.as_slice().len() * CHUNK + self.rest.as_slice().len()) as u32
    }

    /// The bytes that are not yet on the disk. It takes no memory.
    pub fn rest(&self) -> &[u8]
        ensures { result.now ≡ (held self.now).rest }
    {
        self.rest.as_slice()
    }
}
