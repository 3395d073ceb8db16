//! Which chunks a reply reads, and where it ends when one cannot be read.

use super::*;
use std::test::Fail;

// Words over the entry of a chunk and a byte with the element `1;262144,x`, and how many calls follow the opening up
// to the reply: the size, the last bytes and both chunks, and each chunk that is printed.
const PRINTING: [(&str, u32); 3] = [
    ("1000 get :x", 6),
    ("1000 getalt :x", 5),
    ("1000 main :x", 5),
];

// A disk with the entry of a chunk and a byte, and an element `alt-data`, as this sets it.
fn disk_of_a_chunk(alloc: Global, set: &[u8]) -> Result<MemDisk, Fail> {
    let head = b"create 0 :x\nappend 0 262145\n";
    let mut script = repeated(alloc, head, b'm', 262_144, b"d\n")?;
    script.extend(set)?;
    script.extend(b"close 0\n")?;
    let mut disk = MemDisk::new(alloc);
    ends(alloc, &mut disk, "1000 run", script.as_slice())?;
    disk_with(alloc, ":x", file_of(alloc, &disk, ":x")?.as_slice())
}

// The number of the last call at which the reply is not whole.
fn looks_of(alloc: Global, made: &MemDisk, line: &str) -> Result<u32, Fail> {
    let (_, due) = ends_on_copy(alloc, made, line, 0)?;
    let mut last = 0;
    for number in OPENING + 1..OPENING + 20 {
        let (_, text) = ends_on_copy(alloc, made, line, number)?;
        if text.as_slice() != due.as_slice() {
            last = number.wrapping_sub(OPENING);
        }
    }
    Ok(last)
}

// How the words end over a copy of the entry, where the call of this number fails.
fn ends_on_copy(
    alloc: Global,
    made: &MemDisk,
    line: &str,
    number: u32,
) -> Result<(Status, Bytes), Fail> {
    let mut disk = MemDisk::new(alloc);
    copy_file(alloc, made, &mut disk, place_of(":x"))?;
    disk.fail_at(one_number(alloc, number)?);
    ends(alloc, &mut disk, line, b"")
}

// Of the chunks only those are read again of which something is printed.
#[test]
fn a_chunk_that_is_not_printed_is_read_once(rt: HostRuntime) -> Result<(), Fail> {
    let made = disk_of_a_chunk(rt.alloc(), b"set 0 10 alt-data\n1;262144,x\n")?;
    for index in 0..PRINTING.len() {
        let (line, calls) = PRINTING[index];
        let last = looks_of(rt.alloc(), &made, line)?;
        assert!(rt; last == calls, "row {index}: {last}");
    }
    Ok(())
}

// Words over the entry where its element is `1;0,x` or has no such form, and what is printed before the first chunk.
const TWO_CHUNKS: [(&str, &[u8], &[u8]); 2] = [
    (
        "1000 getalt :x",
        b"set 0 5 alt-data\n1;0,x\n",
        b"alt 262145 x\n",
    ),
    ("1000 main :x", b"set 0 1 alt-data\n?\n", b"main 262145\n"),
];

// Whether the run ends where the second chunk that is printed cannot be read, with all out up to the first one.
fn ends_after_a_chunk(alloc: Global, row: &(&str, &[u8], &[u8])) -> Result<bool, Fail> {
    let (line, set, before) = *row;
    let made = disk_of_a_chunk(alloc, set)?;
    let (status, text) = ends_on_copy(alloc, &made, line, OPENING + 6)?;
    let due = repeated(alloc, before, b'm', 262_144, b"")?;
    Ok(status == Status::Disk && text.as_slice() == due.as_slice())
}

#[test]
fn a_reply_with_data_stops_at_the_second_chunk(rt: HostRuntime) -> Result<(), Fail> {
    for index in 0..TWO_CHUNKS.len() {
        assert!(rt;
            ends_after_a_chunk(rt.alloc(), &TWO_CHUNKS[index])?,
            "row {index}"
        );
    }
    Ok(())
}
