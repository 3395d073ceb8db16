// What a `read` costs, and what it gives where an entry is written anew.

use super::*;
use std::test::Fail;

fn add_head(alloc: Global, script: &mut Bytes, len: usize) -> Result<(), NoMemory> {
    script.extend(b"create 0 :x\nappend 0 ")?;
    script.extend_decimal(alloc, len as u64)?;
    script.push(b'\n')
}

fn add_body(script: &mut Bytes, byte: u8, len: usize) -> Result<(), NoMemory> {
    for _ in 0..len {
        script.push(byte)?;
    }
    Ok(())
}

// Adds what makes an entry of so many bytes in slot 0, opens it in slot 1 and goes on like this.
fn add_entry(
    alloc: Global,
    script: &mut Bytes,
    byte: u8,
    len: usize,
    rest: &[u8],
) -> Result<(), NoMemory> {
    add_head(alloc, script, len)?;
    add_body(script, byte, len)?;
    script.extend(b"\nclose 0\nopen 1 :x\n")?;
    script.extend(rest)
}

// How many calls the script makes, and whether this is what it prints at the end.
fn costs_on(
    alloc: Global,
    disk: &mut MemDisk,
    script: &[u8],
    text: &[u8],
) -> Result<(u64, bool), Fail> {
    let (status, printed) = ends(alloc, disk, "1000 run", script)?;
    let so = status == Status::Done && printed.as_slice().ends_with(text);
    Ok((disk.calls(), so))
}

// The same of an empty disk, where an entry of two chunks is made first.
fn costs(alloc: Global, rest: &[u8], text: &[u8]) -> Result<(u64, bool), Fail> {
    let mut script = Bytes::new(alloc);
    add_entry(alloc, &mut script, b'a', 262_145, rest)?;
    let mut disk = MemDisk::new(alloc);
    costs_on(alloc, &mut disk, script.as_slice(), text)
}

const ONE: (&[u8], &[u8]) = (b"read 1 0 4\n", b"ok\ndata 4\naaaa\n");

const TWO: (&[u8], &[u8]) = (b"read 1 0 4\nread 1 0 4\n", b"data 4\naaaa\ndata 4\naaaa\n");

const MORE: (&[u8], &[u8]) = (
    b"read 1 0 4\nread 1 262144 9\nread 1 9 1\n",
    b"data 4\naaaa\ndata 1\na\ndata 1\na\n",
);

#[test]
fn a_chunk_is_read_once(rt: HostRuntime) -> Result<(), Fail> {
    let (one, is_one) = costs(rt.alloc(), ONE.0, ONE.1)?;
    let (two, is_two) = costs(rt.alloc(), TWO.0, TWO.1)?;
    let (more, is_more) = costs(rt.alloc(), MORE.0, MORE.1)?;
    assert!(rt; is_one && is_two && is_more);
    assert!(rt;
        two == one && more.checked_sub(1) == Some(one),
        "{one}, {two}, {more} calls"
    );
    Ok(())
}

// Two entries of one name: the first is doomed while a reader has it open.
fn add_both(alloc: Global, script: &mut Bytes) -> Result<(), NoMemory> {
    let first = b"open 3 :x\nread 3 262142 4\ndoom :x\nclose 1\n";
    add_entry(alloc, script, b'a', 524_288, first)?;
    let then = b"read 1 262142 4\nread 3 262142 4\nread 1 0 1\n";
    add_entry(alloc, script, b'b', 524_288, then)
}

const BOTH: &[u8] = b"ok\nok\nok\nok\nok\ndata 4\naaaa\n\
    ok\nok\nok\nok\nok\nok\ndata 4\nbbbb\ndata 4\naaaa\ndata 1\nb\n";

fn prints_both(alloc: Global, script: &[u8]) -> Result<bool, Fail> {
    let mut disk = MemDisk::new(alloc);
    comes_so(alloc, &mut disk, &("1000 run", script, Status::Done, BOTH))
}

// The reader of a doomed entry reads its chunks, and one of the new entry the others.
#[test]
fn chunks_of_a_doomed_entry_are_its_own(rt: HostRuntime) -> Result<(), Fail> {
    let mut script = Bytes::new(rt.alloc());
    add_both(rt.alloc(), &mut script)?;
    assert!(rt; prints_both(rt.alloc(), script.as_slice())?);
    Ok(())
}
