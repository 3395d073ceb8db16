//! The chunks of bodies that are held.

ghost use Rattle.std.specs.Prelude.{◌≡◌, IsSome, Some};
ghost use Rattle.std.specs.Borrow.{sem};
ghost use Rattle.chunk_cache.specs.Cached.{bytes_of, looked_at};

use crate::HandleTable;

impl HandleTable {
    ghost use Rattle.handle_table.specs.Kept.{kept_in};
    ghost use Rattle.handle_table.specs.Resting.{TableRests};

    /// Lends the bytes of a chunk that is held, of the object of this number, and makes it the most recent. It takes no
    /// memory.
    pub fn lend(&mut self, number: u64, index: u32) -> &[u8]
        requires { IsSome (bytes_of number index (kept_in self.old).chunks) }
        ensures bytes { bytes_of number index (kept_in self.old).chunks ≡ Some result.now }
        ensures* looked { sem 𝓛 (TableRests self.entry (λ k.
            k ≡ record (kept_in self.old) {
              chunks = looked_at number index (kept_in self.old).chunks;
            })) }
    {
        match self.chunks.look(number, index) {
            Some(bytes) => bytes,
            None => unreachable!(),
        }
    }
}
