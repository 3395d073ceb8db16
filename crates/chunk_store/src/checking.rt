//! Chunks against their stored hashes.

ghost use Rattle.std.specs.Prelude.{◌≡◌};
ghost use Rattle.chunk_store.specs.Checking.{answer_to};
ghost use Rattle.chunk_store.specs.Chunks.{chunk_hash_of};

use jenkins_hash::hash16;

/// Whether a chunk has its stored hash.
#[derive(Clone, Copy, Debug, PartialEq, Eq)]
pub enum ChunkAnswer {
    /// It has.
    Fits,
    /// It has another one.
    Differs {
        /// The hash that the metadata have of it.
        stored: u16,
        /// The hash of its bytes.
        found: u16,
    },
}

/// The hash that the metadata have of a chunk with these bytes: the lower 16 bits of their hash.
pub fn chunk_hash(b: &[u8]) -> u16
    ensures { result ≡ chunk_hash_of b.now }
{
    hash16(b)
}

/// Holds the stored hash of a chunk against the hash of its bytes. It takes no memory.
pub fn check_chunk(stored: u16, b: &[u8]) -> ChunkAnswer
    ensures { result ≡ answer_to stored b.now }
{
    let found = chunk_hash(b);
    if found == stored {
        ChunkAnswer::Fits
    } else {
        ChunkAnswer::Differs { stored, found }
    }
}
