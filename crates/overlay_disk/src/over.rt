//! What is known of a place in memory, and files that have changed.

ghost use Rattle.std.specs.Prelude.{◌≡◌, ◌⊎◌, ◌<◌, ◌≤◌, ◌+◌, ◌-◌, ◌^◌, ◌++◌, [], IfOk, IsErrOf, IsTrue, OnErr, OnOk, drop, length, min, take};
ghost use Rattle.cache_base.specs.Causes.{Rose};
ghost use Rattle.disk_theory.specs.Image.{Files};
ghost use Rattle.disk_theory.specs.State.{standing, written};
ghost use Rattle.disk_theory.specs.State.Write.{End, Patch};
ghost use Rattle.overlay_disk.specs.OnlySeen.{IsOnlySeen};

use crate::read_only::ReadOnly;
use disk_theory::{Disk, DiskFault, Place};
use std::alloc::Global;

/// What stands at a place.
#[derive(Drop)]
pub(crate) enum Over {
    /// What stands there below.
    Below,
    /// No file.
    Gone,
    /// This one.
    File(OverFile),
}

/// A file whose beginning is that of a file below, and of which the rest is held in memory.
#[derive(Drop)]
pub(crate) struct OverFile {
    /// Where its beginning stands below.
    pub(crate) from: Place,
    /// So many bytes of what stands there, or all where they are fewer.
    pub(crate) kept: u64,
    /// What comes after them.
    pub(crate) tail: Vec<u8>,
}

// Fills the buffer's beginning with the bytes from an offset on, and tells how many that are.
fn copy_part(bytes: &[u8], from: u64, buf: &mut [u8]) -> usize
    ensures len { result ≡ length (take (length buf.old) (drop from bytes.now)) }
    ensures bytes { buf.new ≡ take (length buf.old) (drop from bytes.now) ++ drop result buf.old }
{
    if from >= bytes.len() as u64 {
        return 0;
    }
    let rest = &bytes[from as usize..];
    if rest.len() < buf.len() {
        buf[..rest.len()].copy_from_slice(rest);
        rest.len()
    } else {
        buf.copy_from_slice(&rest[..buf.len()]);
        buf.len()
    }
}

// Puts the bytes in the place of those at the offset.
fn overwrite(buf: &mut [u8], at: usize, bytes: &[u8])
    requires { at + length bytes.now ≤ length buf.old }
    ensures { buf.new ≡ written (Patch at bytes.now) buf.old }
{
    buf[at..at + bytes.len()].copy_from_slice(bytes);
}

// Fills the buffer from the place `at` on with the beginning of the bytes, and tells where they end.
fn copy_after(bytes: &[u8], at: usize, buf: &mut [u8]) -> usize
    requires { at ≤ length buf.old }
    ensures len { result ≡ at + length (take (length buf.old - at) bytes.now) }
    ensures bytes { buf.new
        ≡ take at buf.old ++ take (length buf.old - at) bytes.now ++ drop result buf.old }
{
    let room = buf.len() - at;
    if bytes.len() < room {
        overwrite(buf, at, bytes);
        at + bytes.len()
    } else {
        overwrite(buf, at, &bytes[..room]);
        buf.len()
    }
}

// The least of a number and of a length.
fn least(number: u64, len: usize) -> usize
    ensures { result ≡ min number len }
{
    if number < len as u64 {
        number as usize
    } else {
        len
    }
}

impl OverFile {
    ghost use Rattle.overlay_disk.specs.Seen.{beginning, content_over, held};

    /// An empty file at the place.
    pub(crate) fn empty(alloc: Global, place: &Place) -> Self
        ensures { (files : Files) → content_over files result ≡ [] }
    {
        OverFile::below(alloc, place, 0)
    }

    /// The file of so many bytes that stands below at the place.
    pub(crate) fn below(alloc: Global, place: &Place, len: u64) -> Self
        ensures { (files : Files) → content_over files result ≡ take len (held (files place.now)) }
    {
        OverFile {
            from: *place,
            kept: len,
            tail: Vec::new(alloc),
        }
    }

    // So many bytes of it stand below.
    fn start<D: Disk + Drop>(&self, below: &mut ReadOnly<D>) -> Result<u64, DiskFault>
        ensures len { IfOk result (λ n. IsTrue D.tells →
            n ≡ length (beginning (standing (D.state below.old.disk)) self.now)) }
        ensures most { IfOk result (λ n. n ≤ self.now.kept) }
        ensures later { D.faults below.old.disk ≤ D.faults below.new.disk }
        ensures fault { IsErrOf result DiskFault.Failed →
            Rose (D.faults below.old.disk) (D.faults below.new.disk) }
        ensures seen { IsOnlySeen D.Disk below.old.disk below.new.disk }
    {
        if self.kept == 0 {
            return Ok(0);
        }
        match below.size(&self.from)? {
            Some(len) if len < self.kept => Ok(len),
            Some(_) => Ok(self.kept),
            None => Ok(0),
        }
    }

    /// Its length.
    pub(crate) fn size<D: Disk + Drop>(&self, below: &mut ReadOnly<D>) -> Result<u64, DiskFault>
        ensures len { IfOk result (λ n. IsTrue D.tells →
            n ≡ length (content_over (standing (D.state below.old.disk)) self.now)) }
        ensures later { D.faults below.old.disk ≤ D.faults below.new.disk }
        ensures fault { IsErrOf result DiskFault.Failed →
            Rose (D.faults below.old.disk) (D.faults below.new.disk)
            ⊎ (IsTrue D.tells →
            2 ^ 64 ≤ length (content_over (standing (D.state below.old.disk)) self.now)) }
        ensures seen { IsOnlySeen D.Disk below.old.disk below.new.disk }
    {
        let start = self.start(below)?;
        start
            .checked_add(self.tail.len() as u64)
            .ok_or(DiskFault::Failed)
    }

    /// Fills the buffer's beginning from the offset on, as far as the file goes, and tells how many bytes that are.
    pub(crate) fn read<D: Disk + Drop>(
        &self,
        below: &mut ReadOnly<D>,
        from: u64,
        buf: &mut [u8],
    ) -> Result<usize, DiskFault>
        ensures len { IfOk result (λ n. n ≤ length buf.old) }
        ensures bytes { IfOk result (λ n. IsTrue D.tells →
            let content = content_over (standing (D.state below.old.disk)) self.now in
            let part = take (length buf.old) (drop from content) in
            (n ≡ length part) × (buf.new ≡ part ++ drop n buf.old)) }
        ensures later { D.faults below.old.disk ≤ D.faults below.new.disk }
        ensures fault { IsErrOf result DiskFault.Failed →
            Rose (D.faults below.old.disk) (D.faults below.new.disk) }
        ensures seen { IsOnlySeen D.Disk below.old.disk below.new.disk }
    {
        let start = self.start(below)?;
        if from >= start {
            return Ok(copy_part(&self.tail, from - start, buf));
        }
        let first = least(start - from, buf.len());
        let found = below.read(&self.from, from, &mut buf[..first])?;
        if found < first {
            return Ok(found);
        }
        Ok(copy_after(&self.tail, first, buf))
    }

    /// The file then ends after the bytes, which are written at the offset. Where it fails the file is as it was.
    pub(crate) fn write_end<D: Disk + Drop>(
        &mut self,
        alloc: Global,
        below: &mut ReadOnly<D>,
        from: u64,
        bytes: &[u8],
    ) -> Result<(), DiskFault>
        ensures ok { OnOk result (IsTrue D.tells →
            let files = standing (D.state below.old.disk) in
            content_over files self.new
            ≡ written (End from bytes.now) (content_over files self.old)) }
        ensures err { OnErr result ((files : Files) →
            content_over files self.new ≡ content_over files self.old) }
        ensures later { D.faults below.old.disk ≤ D.faults below.new.disk }
        ensures fault { IsErrOf result DiskFault.Failed →
            Rose (D.faults below.old.disk) (D.faults below.new.disk)
            ⊎ (IsTrue D.tells → length (content_over (standing (D.state below.old.disk)) self.old)
            < from) }
        ensures seen { IsOnlySeen D.Disk below.old.disk below.new.disk }
    {
        let start = self.start(below)?;
        if from <= start {
            self.tail = bytes.to_vec(alloc)?;
            self.kept = from;
            return Ok(());
        }
        let at = from - start;
        if at > self.tail.len() as u64 {
            return Err(DiskFault::Failed);
        }
        self.tail.reserve(bytes.len())?;
        self.tail.truncate(at as usize);
        self.tail.extend_from_slice(bytes)?;
        Ok(())
    }

    /// Writes the bytes at the offset inside the file, whose length stays. Where it fails the file is as it was.
    pub(crate) fn patch<D: Disk + Drop>(
        &mut self,
        alloc: Global,
        below: &mut ReadOnly<D>,
        from: u64,
        bytes: &[u8],
    ) -> Result<(), DiskFault>
        requires { from ≤ 2 ^ 40 }
        ensures ok { OnOk result (IsTrue D.tells →
            let files = standing (D.state below.old.disk) in
            content_over files self.new
            ≡ written (Patch from bytes.now) (content_over files self.old)) }
        ensures err { OnErr result ((files : Files) →
            content_over files self.new ≡ content_over files self.old) }
        ensures later { D.faults below.old.disk ≤ D.faults below.new.disk }
        ensures fault { IsErrOf result DiskFault.Failed →
            Rose (D.faults below.old.disk) (D.faults below.new.disk)
            ⊎ (IsTrue D.tells → length (content_over (standing (D.state below.old.disk)) self.old)
            < from + length bytes.now) }
        ensures seen { IsOnlySeen D.Disk below.old.disk below.new.disk }
    {
        let start = self.start(below)?;
        let end = from + bytes.len() as u64;
        if end.saturating_sub(start) > self.tail.len() as u64 {
            return Err(DiskFault::Failed);
        }
        if from < start {
            self.copy_up(alloc, below, from, start)?;
            overwrite(&mut self.tail, 0, bytes);
        } else {
            overwrite(&mut self.tail, (from - start) as usize, bytes);
        }
        Ok(())
    }

    // Takes what lies below from the offset on into memory.
    fn copy_up<D: Disk + Drop>(
        &mut self,
        alloc: Global,
        below: &mut ReadOnly<D>,
        from: u64,
        start: u64,
    ) -> Result<(), DiskFault>
        requires inside { from ≤ start }
        requires told { IsTrue D.tells →
            start ≡ length (beginning (standing (D.state below.old.disk)) self.old) }
        ensures len { OnOk result
            (length self.new.tail.items ≡ (start - from) + length self.old.tail.items) }
        ensures kept { OnOk result (self.new.kept ≡ from) }
        ensures stays { OnOk result (self.new.from ≡ self.old.from) }
        ensures content { OnOk result (IsTrue D.tells →
            let files = standing (D.state below.old.disk) in
            content_over files self.new ≡ content_over files self.old) }
        ensures start { OnOk result (IsTrue D.tells →
            length (beginning (standing (D.state below.old.disk)) self.new) ≡ from) }
        ensures err { OnErr result (self.new ≡ self.old) }
        ensures later { D.faults below.old.disk ≤ D.faults below.new.disk }
        ensures fault { IsErrOf result DiskFault.Failed →
            Rose (D.faults below.old.disk) (D.faults below.new.disk) ⊎ (IsTrue D.tells → ⊥) }
        ensures seen { IsOnlySeen D.Disk below.old.disk below.new.disk }
    {
        let len = (start - from) as usize;
        let mut tail = vec![in alloc; 0u8; len]?;
        let found = below.read(&self.from, from, &mut tail)?;
        if found < len {
            return Err(DiskFault::Failed);
        }
        tail.extend_from_slice(&self.tail)?;
        self.tail = tail;
        self.kept = from;
        Ok(())
    }
}
