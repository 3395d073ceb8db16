//! The bytes that a reader holds of a source.

ghost use Rattle.std.specs.Prelude.{◌≡◌, ◌≢◌, ◌≤◌, ◌<◌, ◌+◌, ◌-◌, ◌^◌, [], length, take, drop, slice_range, vec_len, Err, IfOk, OnOk, OnErr, IsErrOf, IsOk, Ok};
ghost use Rattle.std.specs.Io.KnownBytes.{Consumes, IsAtEnd, Keeps};
ghost use Rattle.cache_base.specs.Causes.{HasCause};
ghost use Rattle.cache_io.specs.declared.window.ReadFault.TheVariants.{Memory, Source as FromSource};

use crate::{Source, SourceFault, read_after};
use cache_base::NoMemory;
use std::alloc::Global;

/// Why no more bytes came.
#[derive(Clone, Copy, Debug, PartialEq, Eq)]
pub enum ReadFault {
    /// The source failed.
    Source,
    /// Memory ran out.
    Memory,
}

impl From<NoMemory> for ReadFault {
    ghost from_gives = { λ _ e. e ≡ Memory };

    fn from(_: NoMemory) -> Self {
        ReadFault::Memory
    }
}

impl From<SourceFault> for ReadFault {
    ghost from_gives = { λ _ e. e ≡ FromSource };

    fn from(_: SourceFault) -> Self {
        ReadFault::Source
    }
}

/// A list of bytes, at most so many, that grows at its end by reads, and is cut at its beginning. It begins with the
/// room that it is given, and takes the rest at once where that is full. The bytes are moved to the beginning of the
/// room only where there is no room after them.
#[derive(Drop)]
pub struct Window {
    room: Vec<u8>,
    most: usize,
    start: usize,
    end: usize,
    ghost ordered: { start ≤ end },
    ghost within: { end ≤ vec_len room },
    ghost whole: { vec_len room ≤ most },
}

impl Window {
    ghost use Rattle.cache_io.specs.Window.{items, most_of, Grew, HasMemory};

    /// No bytes, of at most so many, and no memory.
    pub fn new(alloc: Global, most: usize) -> Window
        ensures items { items result ≡ [] }
        ensures most { most_of result ≡ most }
    {
        Window {
            room: Vec::new(alloc),
            most,
            start: 0,
            end: 0,
        }
    }

    /// No bytes, of at most so many, and all the memory for them, so that no later call runs out of it. Past the first
    /// of them it is touched only where those are full.
    pub fn with_memory(alloc: Global, first: usize, most: usize) -> Result<Window, NoMemory>
        requires { first ≤ most }
        ensures items { IfOk result (λ window. items window ≡ []) }
        ensures most { IfOk result (λ window. most_of window ≡ most) }
        ensures memory { IfOk result HasMemory }
    {
        let mut room = Vec::with_capacity(alloc, most)?;
        room.resize(first, 0)?;
        Ok(Window {
            room,
            most,
            start: 0,
            end: 0,
        })
    }

    /// Lends the bytes.
    pub fn as_slice(&self) -> &[u8]
        ensures { result.now ≡ items self.now }
    {
        &self.room[self.start..self.end]
    }

    /// Cuts the first bytes off.
    pub fn skip(&mut self, count: usize)
        requires { count ≤ length (items self.old) }
        ensures items { items self.new ≡ drop count (items self.old) }
        ensures most { most_of self.new ≡ most_of self.old }
        ensures memory { HasMemory self.old → HasMemory self.new }
    {
        self.start += count;
    }

    // All the room is used from now on.
    fn widen(&mut self) -> Result<(), NoMemory>
        requires { vec_len self.old.room < self.old.most }
        ensures items { items self.new ≡ items self.old }
        ensures room { OnOk result (self.new.end < vec_len self.new.room) }
        ensures most { self.new.most ≡ self.old.most }
        ensures memory { HasMemory self.old → HasMemory self.new }
        ensures enough { HasMemory self.old → IsOk result }
    {
        self.room.resize(self.most, 0)?;
        Ok(())
    }

    // Makes room after the bytes, where there is none.
    fn make_room(&mut self) -> Result<(), NoMemory>
        requires { length (items self.old) < self.old.most }
        ensures items { items self.new ≡ items self.old }
        ensures room { OnOk result (self.new.end < vec_len self.new.room) }
        ensures most { self.new.most ≡ self.old.most }
        ensures memory { HasMemory self.old → HasMemory self.new }
        ensures enough { HasMemory self.old → IsOk result }
    {
        if self.end < self.room.len() {
            return Ok(());
        }
        if self.start == 0 {
            return self.widen();
        }
        let (start, end) = (self.start, self.end);
        self.room.as_mut_slice().copy_within(start..end, 0);
        self.start = 0;
        self.end = end - start;
        Ok(())
    }

    /// Reads as many bytes as the source gives and the room takes, and tells how many. None are read only at the end. A
    /// read that fails leaves the bytes that are held.
    pub fn fill<S: Source>(&mut self, source: &mut S) -> Result<usize, ReadFault>
        requires { length (items self.old) < most_of self.old }
        ensures grew { Grew (items self.old) (items self.new)
            (S.left source.old) (S.left source.new) }
        ensures count { IfOk result (λ n. length (items self.new) ≡ length (items self.old) + n) }
        ensures ended { result ≡ Ok 0 → IsAtEnd (S.left source.new) }
        ensures same { OnErr result (items self.new ≡ items self.old) }
        ensures most { most_of self.new ≡ most_of self.old }
        ensures memory { HasMemory self.old → HasMemory self.new }
        ensures enough { HasMemory self.old → result ≢ Err Memory }
        ensures cause { HasCause (IsErrOf result FromSource)
            (S.faults source.old) (S.faults source.new) }
    {
        self.make_room()?;
        let end = self.end;
        let n = read_after(source, self.room.as_mut_slice(), end)?;
        self.end = end + n;
        Ok(n)
    }
}
