// A file in memory.

ghost use Rattle.std.specs.Prelude.{◌≡◌, ◌≤◌, ◌<◌, ◌+◌, ◌^◌, ◌↔◌, ◌++◌, IsTrue, IsSome, OnErr, IfOk, OnOk, [], length as len_of, take, drop, slice_index, vec_len, vec_capacity};
ghost use Rattle.std.proofs.Props.{props};
ghost use Rattle.cache_base.specs.Bytes.{AreBytes};
ghost use Rattle.disk_theory.specs.State.{content};
ghost use Rattle.disk_theory.specs.Image.{shortest as shortest_of, longest as longest_of};
ghost use Rattle.disk_model.specs.MemWrite.{history, newest_first, write_of, synced_in, least_end, Patches, IsPatched};

use cache_base::bytes_fit;
use std::alloc::{AllocError, Global};

/// A write at an offset.
#[derive(Drop)]
pub(crate) enum MemWrite {
    /// The file then ends after these bytes.
    AtEnd(u64, Vec<u8>),
    /// The file keeps its length.
    Inside(u64, Vec<u8>),
}

/// A file: what it holds now, what was synced where that may differ, and the writes since, the oldest first.
#[derive(Drop)]
pub(crate) struct MemFile {
    pub current: Vec<u8>,
    pub synced: Option<Vec<u8>>,
    pub writes: Vec<MemWrite>,
    // The least and the greatest length since the sync.
    pub shortest: usize,
    pub longest: usize,
    // The least offset of a write at the end, or the greatest number where there is none.
    pub least_from: u64,
    ghost are_bytes: { AreBytes current.items } by { Prim.hlevel props },
    ghost is_current: { current.items
        ≡ content (history (synced_in current.items synced) writes.items) },
    ghost is_shortest: { shortest ≡ shortest_of (synced_in current.items synced)
        (history (synced_in current.items synced) writes.items).writes },
    ghost is_longest: { longest ≡ longest_of (synced_in current.items synced)
        (history (synced_in current.items synced) writes.items).writes },
    ghost is_least: { least_from
        ≡ least_end (history (synced_in current.items synced) writes.items).writes },
}

impl MemWrite {
    // Whether it is a write inside the file that reaches this position.
    fn patches(&self, at: usize) -> bool
        ensures { IsTrue result ↔ Patches at (write_of self.now) }
    {
        match self {
            MemWrite::AtEnd(_, _) => false,
            MemWrite::Inside(from, bytes) => *from <= at as u64
                && at as u64 - *from < bytes.len() as u64,
        }
    }
}

// Puts the bytes in the place of those at the offset.
fn overwrite(buf: &mut [u8], from: usize, bytes: &[u8])
    requires { from + len_of bytes.now ≤ len_of buf.old }
    ensures { buf.new ≡ take from buf.old ++ bytes.now ++ drop (from + len_of bytes.now) buf.old }
{
    buf[from..from + bytes.len()].copy_from_slice(bytes);
}

impl MemFile {
    ghost use Rattle.disk_theory.specs.State.{empty_file, add_write};
    ghost use Rattle.disk_theory.specs.State.Write.{End, Patch};
    ghost use Rattle.disk_theory.specs.Image.{IsReached, MayHold};
    ghost use Rattle.disk_model.specs.MemFile.{file_of, at_rest};

    /// An empty file, with nothing pending.
    pub fn new(alloc: Global) -> MemFile
        ensures { file_of result ≡ empty_file }
    {
        MemFile {
            current: Vec::new(alloc),
            synced: None,
            writes: Vec::new(alloc),
            shortest: 0,
            longest: 0,
            least_from: u64::MAX,
        }
    }

    /// A file with these bytes and nothing pending.
    pub fn synced(alloc: Global, bytes: &[u8]) -> Result<MemFile, AllocError>
        ensures { IfOk result (λ file. file_of file ≡ record { synced = bytes.now; writes = [] }) }
    {
        let current = bytes.to_vec(alloc)?;
        let len = current.len();
        Ok(MemFile {
            current,
            synced: None,
            writes: Vec::new(alloc),
            shortest: len,
            longest: len,
            least_from: u64::MAX,
        })
    }

    // Makes room for a write and for so many bytes more, and keeps a copy of what was synced.
    fn prepare(&mut self, alloc: Global, more: usize) -> Result<(), AllocError>
        ensures same { file_of self.new ≡ file_of self.old }
        ensures current { self.new.current.items ≡ self.old.current.items }
        ensures kept { OnOk result (IsSome self.new.synced) }
        ensures write { OnOk result (vec_len self.new.writes < vec_capacity self.new.writes) }
        ensures bytes { OnOk result
            (vec_len self.new.current + more ≤ vec_capacity self.new.current) }
    {
        if self.synced.is_none() {
            self.synced = Some(self.current.to_vec(alloc)?);
        }
        self.writes.reserve(1)?;
        self.current.reserve(more)
    }

    /// The file then ends after these bytes.
    pub fn write_end(&mut self, alloc: Global, from: usize, bytes: &[u8]) -> Result<(), AllocError>
        requires { from ≤ len_of (content (file_of self.old)) }
        ensures ok { OnOk result
            (file_of self.new ≡ add_write (End from bytes.now) (file_of self.old)) }
        ensures err { OnErr result (file_of self.new ≡ file_of self.old) }
    {
        let kept = bytes.to_vec(alloc)?;
        self.prepare(alloc, bytes.len())?;
        self.current.truncate(from);
        self.current.extend_from_slice(bytes).unwrap();
        bytes_fit(&self.current);
        self.writes
            .push_reserved(MemWrite::AtEnd(from as u64, kept));
        self.shortest = self.shortest.min(self.current.len());
        self.longest = self.longest.max(self.current.len());
        self.least_from = self.least_from.min(from as u64);
        Ok(())
    }

    /// Writes the bytes inside the file, whose length stays.
    pub fn patch(&mut self, alloc: Global, from: usize, bytes: &[u8]) -> Result<(), AllocError>
        requires { from + len_of bytes.now ≤ len_of (content (file_of self.old)) }
        ensures ok { OnOk result
            (file_of self.new ≡ add_write (Patch from bytes.now) (file_of self.old)) }
        ensures err { OnErr result (file_of self.new ≡ file_of self.old) }
    {
        let kept = bytes.to_vec(alloc)?;
        self.prepare(alloc, 0)?;
        overwrite(&mut self.current, from, bytes);
        bytes_fit(&self.current);
        self.writes
            .push_reserved(MemWrite::Inside(from as u64, kept));
        self.shortest = self.shortest.min(self.current.len());
        self.longest = self.longest.max(self.current.len());
        Ok(())
    }

    /// What it holds now is synced.
    pub fn settle(&mut self)
        ensures { file_of self.new ≡ at_rest (file_of self.old) }
    {
        self.synced = None;
        self.writes.clear();
        self.shortest = self.current.len();
        self.longest = self.current.len();
        self.least_from = u64::MAX;
    }

    /// What was synced.
    pub fn synced_bytes(&self) -> &[u8]
        ensures { result.now ≡ (file_of self.now).synced }
    {
        match &self.synced {
            None => &self.current,
            Some(bytes) => bytes,
        }
    }

    /// Whether a crash may leave the file with this content.
    pub fn may_hold(&self, content: &[u8]) -> bool
        ensures { IsTrue result ↔ MayHold (file_of self.now) content.now }
    {
        if content.len() < self.shortest || self.longest < content.len() {
            return false;
        }
        let synced = self.synced_bytes();
        for (at, byte) in content.iter().enumerate() {
            if *byte != byte_at(synced, at) && !self.is_reached(at) {
                return false;
            }
        }
        true
    }

    // Whether a write since the sync reached this position.
    fn is_reached(&self, at: usize) -> bool
        requires { at < 2 ^ 63 }
        ensures { IsTrue result ↔ IsReached at (file_of self.now).writes }
    {
        if self.least_from <= at as u64 {
            return true;
        }
        is_patched(&self.writes, at)
    }
}

// Whether a write inside the file reached this position.
fn is_patched(writes: &[MemWrite], at: usize) -> bool
    ensures { IsTrue result ↔ IsPatched at (newest_first writes.now) }
{
    for write in writes {
        if write.patches(at) {
            return true;
        }
    }
    false
}

// The byte at a position, or 0 past the end.
fn byte_at(bytes: &[u8], at: usize) -> u8
    ensures { result ≡ slice_index bytes.now at }
{
    if at < bytes.len() { bytes[at] } else { 0 }
}
