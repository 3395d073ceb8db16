//! A look at the disk that fails: the command is answered by the line `fault`, and all is as it was.

use super::*;
use cache_io::{MemSink, MemSource};
use std::test::Fail;

// Eight commands of which each has the same reply, whichever of the others is left out.
const COMMANDS: [&[u8]; 8] = [
    b"get :https://example.com/\n",
    b"has :https://example.org/\n",
    b"list\n",
    b"get :https://example.com/\n",
    b"verify\n",
    b"get a:x\n",
    b"evict 1000000\n",
    b"flush\n",
];

const LINE: &[u8] = b"fault\n";

// The script of the first commands.
fn script_of(alloc: Global, count: usize) -> Result<Bytes, Fail> {
    let mut script = Bytes::new(alloc);
    for index in 0..COMMANDS.len() {
        if index < count {
            script.extend(COMMANDS[index])?;
        }
    }
    Ok(script)
}

// The replies to the first commands, where nothing fails.
fn replies_of(alloc: Global, count: usize) -> Result<Bytes, Fail> {
    let mut disk = disk_with(alloc, KEY, FILE)?;
    let (_, printed) = ends(
        alloc,
        &mut disk,
        "1000 run",
        script_of(alloc, count)?.as_slice(),
    )?;
    Ok(printed)
}

// Whether the text has all replies, but for one in whose place the line is.
fn has_one_fault(alloc: Global, clean: &[u8], text: &[u8]) -> Result<bool, Fail> {
    for index in 0..COMMANDS.len() {
        let mut due = replies_of(alloc, index)?;
        due.extend(LINE)?;
        let after = replies_of(alloc, index + 1)?;
        if let Some(rest) = clean.get(after.as_slice().len()..) {
            due.extend(rest)?;
        }
        if due.as_slice() == text {
            return Ok(true);
        }
    }
    Ok(false)
}

// Where the disk's call of this number fails alone: the line stands for one reply, or the run ended there.
fn is_told(alloc: Global, clean: &[u8], number: u32) -> Result<bool, Fail> {
    let mut disk = disk_with(alloc, KEY, FILE)?;
    disk.fail_at(one_number(alloc, number)?);
    let script = script_of(alloc, COMMANDS.len())?;
    let (status, text) = ends(alloc, &mut disk, "1000 run", script.as_slice())?;
    match status {
        Status::Done => has_one_fault(alloc, clean, text.as_slice()),
        Status::Disk => Ok(clean.starts_with(text.as_slice()) && disk.calls() == u64::from(number)),
        _ => Ok(false),
    }
}

fn calls_of_all(alloc: Global) -> Result<u64, Fail> {
    let mut disk = disk_with(alloc, KEY, FILE)?;
    let script = script_of(alloc, COMMANDS.len())?;
    ends(alloc, &mut disk, "1000 run", script.as_slice())?;
    Ok(disk.calls())
}

// No call that fails is hidden.
#[test]
fn each_failing_call_is_told_once(rt: HostRuntime) -> Result<(), Fail> {
    let clean = replies_of(rt.alloc(), COMMANDS.len())?;
    let calls = calls_of_all(rt.alloc())?;
    for number in 1..200u32 {
        if u64::from(number) > calls {
            break;
        }
        let told = is_told(rt.alloc(), clean.as_slice(), number)?;
        assert!(rt; told, "at call {number}");
    }
    Ok(())
}

// The status where a look fails in `get`, and the sink in the line that tells it.
fn ends_in_the_line(alloc: Global, line: &str, input: &[u8]) -> Result<Status, Fail> {
    let mut disk = disk_with(alloc, KEY, FILE)?;
    disk.fail_at(one_number(alloc, OPENING + 1)?);
    let mut source = MemSource::new(alloc, bytes(alloc, input)?);
    let mut sink = MemSink::with_plan(alloc, one_number(alloc, 1)?);
    let words = words_of(alloc, line)?;
    Ok(call(alloc, &mut disk, &words, &mut source, &mut sink))
}

// A script ends with the sink there, and words of one command with the disk, which failed first.
#[test]
fn a_failing_sink_cuts_the_line(rt: HostRuntime) -> Result<(), Fail> {
    let script = ends_in_the_line(rt.alloc(), "1000 run", b"get :https://example.com/\n")?;
    assert!(rt; script == Status::Sink);
    let one = ends_in_the_line(rt.alloc(), GET, b"")?;
    assert!(rt; one == Status::Disk);
    Ok(())
}

const PUTS: [&str; 5] = [
    "1000 put :a",
    "1000 put :b",
    "1000 put :c",
    "1000 put :d",
    "1000 put :e",
];

// A disk on which five entries were put.
fn five_puts(alloc: Global) -> Result<MemDisk, Fail> {
    let mut disk = MemDisk::new(alloc);
    for index in 0..PUTS.len() {
        ends(alloc, &mut disk, PUTS[index], b"hello")?;
    }
    Ok(disk)
}

// The same entries, and no index: the update has their five names to read.
fn five_entries(alloc: Global, made: &MemDisk) -> Result<MemDisk, Fail> {
    let mut disk = MemDisk::new(alloc);
    copy_file(alloc, made, &mut disk, place_of(":a"))?;
    copy_file(alloc, made, &mut disk, place_of(":b"))?;
    copy_file(alloc, made, &mut disk, place_of(":c"))?;
    copy_file(alloc, made, &mut disk, place_of(":d"))?;
    copy_file(alloc, made, &mut disk, place_of(":e"))?;
    Ok(disk)
}

// What a check and the state print where the disk's call of this number fails.
fn checks_over(alloc: Global, made: &MemDisk, number: u32) -> Result<(Status, Bytes), Fail> {
    let mut disk = five_entries(alloc, made)?;
    disk.fail_at(one_number(alloc, number)?);
    ends(alloc, &mut disk, "1000 run", b"verify\nstate\n")
}

// A check that ends in a failed look leaves the update with all its names, however many it has read.
#[test]
fn a_failed_check_leaves_the_update(rt: HostRuntime) -> Result<(), Fail> {
    let made = five_puts(rt.alloc())?;
    let mut told = 0usize;
    for number in OPENING + 1..OPENING + 60 {
        let (status, text) = checks_over(rt.alloc(), &made, number)?;
        if text.as_slice().starts_with(LINE) {
            told = told.wrapping_add(1);
            assert!(rt; status == Status::Done, "at call {number}");
            assert!(rt;
                text.as_slice() == b"fault\nupdating 5\n".as_slice(),
                "at call {number}"
            );
        }
    }
    assert!(rt; told > 5);
    Ok(())
}

// Words and a script for a body of two chunks, and what is printed before it.
type Printing<'a> = (&'a str, &'a [u8], &'a [u8]);

const TWO_CHUNKS: [Printing<'static>; 2] = [
    (GET, b"", HEAD_OF_TWO_CHUNKS),
    (
        "1000 run",
        b"open 1 :https://example.com/\nread 1 0 262145\nflush\n",
        b"ok\ndata 262145\n",
    ),
];

// The look at the second chunk that is printed, by its number among the calls: the size, the last bytes and both chunks
// come before, and the first chunk once more.
const SECOND_CHUNK: u32 = OPENING + 6;

// Whether the run ends there, with all out up to the first chunk.
fn ends_after_a_chunk(alloc: Global, file: &[u8], printing: &Printing<'_>) -> Result<bool, Fail> {
    let (line, input, before) = *printing;
    let text = repeated(alloc, before, b'a', 262_144, b"")?;
    let mut disk = disk_with(alloc, KEY, file)?;
    disk.fail_at(one_number(alloc, SECOND_CHUNK)?);
    let row: Row<'_> = (line, input, Status::Disk, text.as_slice());
    Ok(comes_so(alloc, &mut disk, &row)? && disk.calls() == u64::from(SECOND_CHUNK))
}

// A look that fails where a part of the reply is out ends the run. No call follows, and the reply is not taken back.
#[test]
fn a_reply_stops_at_the_second_chunk(rt: HostRuntime) -> Result<(), Fail> {
    let file = file_of_two_chunks(rt.alloc())?;
    for index in 0..TWO_CHUNKS.len() {
        let so = ends_after_a_chunk(rt.alloc(), file.as_slice(), &TWO_CHUNKS[index])?;
        assert!(rt; so, "row {index}");
    }
    Ok(())
}

// The first chunk of a `read` cannot be read, and then it can.
const READ_AGAIN: &[u8] = b"open 1 :https://example.com/\nread 1 0 262145\nread 1 262143 2\n";

fn is_read_again(alloc: Global, file: &[u8]) -> Result<bool, Fail> {
    let mut disk = disk_with(alloc, KEY, file)?;
    disk.fail_at(one_number(alloc, OPENING + 5)?);
    let text = b"ok\nfault\ndata 2\nab\n";
    comes_so(
        alloc,
        &mut disk,
        &("1000 run", READ_AGAIN, Status::Done, text),
    )
}

// A look that fails at the first chunk of a `read` is answered by the line, and nothing else of the reply is out.
#[test]
fn a_read_that_fails_is_read_again(rt: HostRuntime) -> Result<(), Fail> {
    let file = file_of_two_chunks(rt.alloc())?;
    assert!(rt; is_read_again(rt.alloc(), file.as_slice())?);
    Ok(())
}
