//! Runs of the program over a disk in memory.

ghost use Rattle.std.specs.Prelude.{◌<◌};

use crate::texts::{bytes, one_number, words_of};
use cache_base::{Bytes, Status};
use cache_io::{MemSink, MemSource};
use cache_tool::run;
use disk_model::MemDisk;
use disk_theory::Disk;
use std::alloc::Global;
use std::test::Fail;

/// How many calls come before the first command where no index stands: the opening lists the doomed files, looks for
/// the three files of the index, syncs, and lists the entries; and then there is a look for the mark of a clearing.
pub const OPENING: u32 = 7;

/// How a run ends. This is the one call of the program by its tests: a proof reads its whole contract at each.
pub fn call<D: Disk>(
    alloc: Global,
    disk: &mut D,
    words: &[String],
    source: &mut MemSource,
    sink: &mut MemSink,
) -> Status {
    run(alloc, words, source, sink, disk)
}

// The words of a line over a source and a sink: the status, and what is printed.
fn ends_between<D: Disk>(
    alloc: Global,
    disk: &mut D,
    line: &str,
    source: &mut MemSource,
    sink: &mut MemSink,
) -> Result<(Status, Bytes), Fail> {
    let words = words_of(alloc, line)?;
    let status = call(alloc, disk, &words, source, sink);
    Ok((status, bytes(alloc, sink.bytes())?))
}

/// The words of a line over these bytes: the status, and what is printed. Fails only where memory ran out for these.
pub fn ends<D: Disk>(
    alloc: Global,
    disk: &mut D,
    line: &str,
    input: &[u8],
) -> Result<(Status, Bytes), Fail> {
    let mut source = MemSource::new(alloc, bytes(alloc, input)?);
    let mut sink = MemSink::new(alloc);
    ends_between(alloc, disk, line, &mut source, &mut sink)
}

/// The same where the sink's call of this number fails.
pub fn ends_cut(
    alloc: Global,
    disk: &mut MemDisk,
    line: &str,
    input: &[u8],
    number: u32,
) -> Result<(Status, Bytes), Fail> {
    let mut source = MemSource::new(alloc, bytes(alloc, input)?);
    let mut sink = MemSink::with_plan(alloc, one_number(alloc, number)?);
    ends_between(alloc, disk, line, &mut source, &mut sink)
}

/// The same where the source's call of this number fails, and each gives no more than a piece.
pub fn ends_starved(
    alloc: Global,
    disk: &mut MemDisk,
    line: &str,
    input: &[u8],
    number: u32,
    piece: usize,
) -> Result<(Status, Bytes), Fail>
    requires { 0 < piece }
{
    let plan = one_number(alloc, number)?;
    let mut source = MemSource::with_plan(bytes(alloc, input)?, plan, piece);
    let mut sink = MemSink::new(alloc);
    ends_between(alloc, disk, line, &mut source, &mut sink)
}

// Whether the words end with the disk where its call of that number fails: with it and without a word, or with the line
// that tells of a failed look, and the closing after it.
fn fails_on(
    alloc: Global,
    disk: &mut MemDisk,
    line: &str,
    input: &[u8],
    number: u32,
) -> Result<bool, Fail> {
    disk.fail_at(one_number(alloc, number)?);
    let (status, printed) = ends(alloc, disk, line, input)?;
    let ends_there = printed.as_slice().is_empty() && disk.calls() == u64::from(number);
    let is_told = printed.as_slice() == b"fault\n".as_slice() && disk.calls() > u64::from(number);
    Ok(status == Status::Disk && (ends_there || is_told))
}

/// Whether the words end with the disk where its call of that number fails: with it and without a word, or with the
/// line that tells of a failed look, and the closing after it. The disk is used up.
pub fn fails_at(
    alloc: Global,
    disk: MemDisk,
    line: &str,
    input: &[u8],
    number: u32,
) -> Result<bool, Fail> {
    let mut disk = disk;
    fails_on(alloc, &mut disk, line, input, number)
}
