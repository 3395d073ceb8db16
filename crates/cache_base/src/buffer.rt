//! A buffer for one chunk of a body.

ghost use Rattle.std.specs.Prelude.{◌≡◌, ℕ, ◌<◌, ◌≤◌, ◌-◌, ◌+◌, List, [], ◌∷◌, ◌++◌, length, take, replicate, IfOk, vec_len, vec_capacity};
ghost use Rattle.std.specs.Borrow.{sem};
ghost use Rattle.cache_base.specs.declared.limits.TheConstants.{BUFFER_MAX};

use crate::NoMemory;
use crate::limits::BUFFER_MAX;
use std::alloc::Global;
use std::marker::Model;

/// A list of at most `BUFFER_MAX` bytes: room for one chunk, and for the four bytes of the stop tail that is written
/// after the chunks of an unfinished entry. All its memory is taken when it is made, so that no later call fails.
#[derive(Drop)]
pub struct Buffer {
    room: Vec<u8>,
}

impl Model for Buffer {
    ghost Value = { List ℕ };

    ghost view = { λ s. s.room.items };

    ghost invariant = { λ s. (vec_len s.room ≤ BUFFER_MAX) × (BUFFER_MAX ≤ vec_capacity s.room) };
}

impl Buffer {
    ghost use Rattle.cache_base.specs.Buffer.{LendsBytes};

    /// The empty list. Fails only where memory ran out.
    pub fn new(alloc: Global) -> Result<Buffer, NoMemory>
        ensures { IfOk result (λ buffer. buffer ≡ []) }
    {
        let room = Vec::with_capacity(alloc, BUFFER_MAX)?;
        Ok(Buffer { room })
    }

    /// Adds a byte at the end.
    pub fn push(&mut self, x: u8)
        requires { length self.old < BUFFER_MAX }
        ensures { self.new ≡ self.old ++ x ∷ [] }
    {
        self.room.push_reserved(x);
    }

    /// Adds bytes at the end.
    pub fn extend(&mut self, b: &[u8])
        requires { length self.old + length b.now ≤ BUFFER_MAX }
        ensures { self.new ≡ self.old ++ b.now }
    {
        self.room.extend_from_slice(b).unwrap();
    }

    /// Cuts the list to `n` bytes, or fills it up to `n` with zero bytes: after a cut and a filling up, no byte that
    /// was cut comes back.
    pub fn set_len(&mut self, n: usize)
        requires { n ≤ BUFFER_MAX }
        ensures { self.new ≡ take n self.old ++ replicate (n - length self.old) 0 }
    {
        self.room.resize(n, 0).unwrap();
    }

    /// Lends the bytes.
    pub fn as_slice(&self) -> &[u8]
        ensures bytes { result.now ≡ self.now }
        ensures room { length self.now ≤ BUFFER_MAX }
    {
        self.room.as_slice()
    }

    /// Lends the bytes to be written in place, as by a read from a file: call `set_len` first.
    pub fn as_mut_slice(&mut self) -> &mut [u8]
        ensures* writes_back { sem 𝓛 (LendsBytes self.entry result) }
        ensures value { result.now ≡ self.old }
    {
        self.room.as_mut_slice()
    }
}
