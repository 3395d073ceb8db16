//! The hashes of the chunks of a body that is being written.

ghost use Rattle.std.specs.Prelude.{◌≡◌, ◌<◌, ◌≤◌, ◌++◌, ◌∷◌, [], List, ℕ, IfOk, length, vec_capacity};
ghost use Rattle.entry_file.specs.declared.chunk_hashes.TheConstants.{CHUNKS_MAX};

use cache_base::{BODY_MAX, CHUNK, Hashes, NoMemory};
use std::alloc::Global;
use std::marker::Model;

/// The chunks of the longest body.
pub(crate) const CHUNKS_MAX: usize = BODY_MAX / CHUNK;

/// A list with room for the hash of each chunk of the longest body. All its memory is taken when it is made, so that no
/// later call fails.
#[derive(Drop)]
pub(crate) struct ChunkHashes {
    hashes: Vec<u16>,
}

impl Model for ChunkHashes {
    ghost Value = { List ℕ };

    ghost view = { λ s. s.hashes.items };

    ghost invariant = { λ s. CHUNKS_MAX ≤ vec_capacity s.hashes };
}

impl ChunkHashes {
    /// The empty list. Fails only when it runs out of memory.
    pub(crate) fn new(alloc: Global) -> Result<ChunkHashes, NoMemory>
        ensures { IfOk result (λ hashes. hashes ≡ []) }
    {
        let hashes = Vec::with_capacity(alloc, CHUNKS_MAX)?;
        Ok(ChunkHashes { hashes })
    }

    /// Lends the hashes.
    pub(crate) fn as_slice(&self) -> &[u16]
        ensures { result.now ≡ self.now }
    {
        self.hashes.as_slice()
    }

    /// Adds a hash at the end.
    pub(crate) fn push(&mut self, hash: u16)
        requires { length self.old < CHUNKS_MAX }
        ensures { self.new ≡ self.old ++ hash ∷ [] }
    {
        self.hashes.push_reserved(hash);
    }

    /// The hashes as a list that may grow further.
    pub(crate) fn into_hashes(self) -> Hashes
        ensures { result ≡ self }
    {
        Hashes::from_vec(self.hashes)
    }
}
