//! Small lists that contracts see as lists.

ghost use Rattle.std.specs.Prelude.{◌≡◌, ◌↔◌, List, [], ◌∷◌, ◌++◌, IfOk, OnOk, OnErr, Any, IsTrue, decimal};

use crate::Name;
use std::alloc::{AllocError, AllocFailed, Global};
use std::marker::Model;

/// Memory ran out.
#[derive(Clone, Copy, Debug, PartialEq, Eq)]
pub struct NoMemory;

impl From<AllocError> for NoMemory {
    fn from(_: AllocError) -> Self {
        NoMemory
    }
}

impl<T: Drop> From<AllocFailed<T>> for NoMemory {
    fn from(_: AllocFailed<T>) -> Self {
        NoMemory
    }
}

/// A list that grows at its end. It keeps the allocator that it was made with.
#[derive(Drop)]
pub struct Items<T> {
    items: Vec<T>,
}

impl<T> Model for Items<T> {
    ghost Value = { List T };

    ghost view = { λ s. s.items.items };
}

impl<T: Drop> Items<T> {
    /// The empty list, which takes no memory.
    pub fn new(alloc: Global) -> Self
        ensures { result ≡ [] }
    {
        Items {
            items: Vec::new(alloc),
        }
    }

    /// The empty list, with room for so many items. Fails only where memory ran out.
    pub fn with_room(alloc: Global, items: usize) -> Result<Self, NoMemory>
        ensures { IfOk result (λ list. list ≡ []) }
    {
        Ok(Items {
            items: Vec::with_capacity(alloc, items)?,
        })
    }

    /// The list of a vector's items, in the vector's memory.
    pub fn from_vec(items: Vec<T>) -> Self
        ensures { result ≡ items.items }
    {
        Items { items }
    }

    /// The items as a vector, in the same memory.
    pub fn into_vec(self) -> Vec<T>
        ensures { result.items ≡ self }
    {
        self.items
    }

    /// Lends the items.
    pub fn as_slice(&self) -> &[T]
        ensures { result.now ≡ self.now }
    {
        self.items.as_slice()
    }

    /// Adds an item at the end, or leaves the list as it was.
    pub fn push(&mut self, x: T) -> Result<(), NoMemory>
        ensures ok { OnOk result (self.new ≡ self.old ++ x ∷ []) }
        ensures err { OnErr result (self.new ≡ self.old) }
    {
        self.items.push(x)?;
        Ok(())
    }

    /// Makes the list empty. It keeps its memory.
    pub fn clear(&mut self)
        ensures { self.new ≡ [] }
    {
        self.items.clear();
    }
}

/// Bytes.
pub type Bytes = Items<u8>;

/// The 16-bit hashes of chunks.
pub type Hashes = Items<u16>;

/// Names of entries.
pub type Names = Items<Name>;

/// Numbers, as those of doomed files or of calls.
pub type Numbers = Items<u32>;

impl Items<u8> {
    ghost use Rattle.std.specs.Prelude.{length, replicate, take, ◌-◌};
    ghost use Rattle.std.specs.Borrow.{sem};
    ghost use Rattle.cache_base.specs.Items.{LendsItems};

    /// The list of a slice's bytes, in memory of its own. Fails only where memory ran out.
    pub fn from_slice(alloc: Global, b: &[u8]) -> Result<Self, NoMemory>
        ensures { IfOk result (λ bytes. bytes ≡ b.now) }
    {
        Ok(Items {
            items: Vec::from_slice(alloc, b)?,
        })
    }

    /// Adds bytes at the end, or leaves the list as it was.
    pub fn extend(&mut self, b: &[u8]) -> Result<(), NoMemory>
        ensures ok { OnOk result (self.new ≡ self.old ++ b.now) }
        ensures err { OnErr result (self.new ≡ self.old) }
    {
        self.items.extend_from_slice(b)?;
        Ok(())
    }

    /// Adds a number in decimal at the end, or leaves the list as it was.
    pub fn extend_decimal(&mut self, alloc: Global, n: u64) -> Result<(), NoMemory>
        ensures ok { OnOk result (self.new ≡ self.old ++ decimal n) }
        ensures err { OnErr result (self.new ≡ self.old) }
    {
        let digits = n.to_string(alloc)?;
        self.extend(digits.as_bytes())
    }

    /// Cuts the list to `n` bytes, or fills it up to `n` with zero bytes, or leaves it as it was.
    pub fn set_len(&mut self, n: usize) -> Result<(), NoMemory>
        ensures ok { OnOk result (self.new ≡ take n self.old ++ replicate (n - length self.old) 0) }
        ensures err { OnErr result (self.new ≡ self.old) }
    {
        self.items.resize(n, 0)?;
        Ok(())
    }

    /// Lends the bytes to be written in place, as by a read from a file: call `set_len` first.
    pub fn as_mut_slice(&mut self) -> &mut [u8]
        ensures* writes_back { sem 𝓛 (LendsItems self.entry result) }
        ensures value { result.now ≡ self.old }
    {
        self.items.as_mut_slice()
    }
}

impl Items<u32> {
    /// Whether the number is in the list.
    pub fn has(&self, number: u64) -> bool
        ensures { IsTrue result ↔ Any (λ one. one ≡ number) self.now }
    {
        self.items.iter().any(|one| u64::from(*one) == number)
    }
}
