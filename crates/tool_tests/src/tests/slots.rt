//! All 64 slots in use at once: writers and readers, of entries that are doomed and of such that are not.

use super::*;
use cache_base::Names;
use disk_theory::Disk;
use std::test::Fail;

// A script, and its replies by the table of commands.
#[derive(Drop)]
struct Talk {
    script: Bytes,
    replies: Bytes,
}

// Commands, in which `@` stands for the number of a slot, and the replies to them.
type Lines<'a> = (&'a [u8], &'a [u8]);

// By its number a slot has a new entry, one that stands, or one of both that is doomed then. The key is the number.
const FILLED: [Lines<'static>; 4] = [
    (b"create @ :@\n", b"ok\n"),
    (b"open @ :@\n", b"ok\n"),
    (b"create @ :@\ndoom :@\n", b"ok\nok\n"),
    (b"open @ :@\ndoom :@\n", b"ok\nok\n"),
];

const NO_LINES: Lines<'static> = (b"", b"");

const MADE: Lines<'static> = (b"create @ :@\nappend @ 3\nold\nclose @\n", b"ok\nok\nok\n");

// The entries that stand before.
const STANDING: [Lines<'static>; 4] = [NO_LINES, MADE, NO_LINES, MADE];

const WRITER: Lines<'static> = (
    b"append @ 3\nnew\nread @ 0 9\nset @ 1 n\nv\nelement @ n\n",
    b"ok\ndata 3\nnew\nok\nvalue 1\nv\n",
);

const READER: Lines<'static> = (
    b"append @ 3\nnew\nread @ 0 9\nset @ 1 n\nv\nelement @ n\n",
    b"not writer\ndata 3\nold\nok\nvalue 1\nv\n",
);

const WORKED: [Lines<'static>; 4] = [WRITER, READER, WRITER, READER];

const CLOSED: [Lines<'static>; 4] = [(b"close @\n", b"ok\n"); 4];

const GONE: Lines<'static> = (b"get :@\nread @ 0 9\n", b"absent\nno slot\n");

// What is left of each.
const LEFT: [Lines<'static>; 4] = [
    (
        b"get :@\nread @ 0 9\n",
        b"found 1 1000 1000 1000 4294967295 0 4 3\nn\0v\0\nnew\nno slot\n",
    ),
    (
        b"get :@\nread @ 0 9\n",
        b"found 1 1000 1000 1000 4294967295 0 4 3\nn\0v\0\nold\nno slot\n",
    ),
    GONE,
    GONE,
];

// Adds the lines for a slot.
fn add_lines(
    alloc: Global,
    talk: &mut Talk,
    lines: &Lines<'_>,
    slot: usize,
) -> Result<(), NoMemory> {
    let (commands, replies) = *lines;
    for byte in commands {
        if *byte == b'@' {
            talk.script.extend_decimal(alloc, slot as u64)?;
        } else {
            talk.script.push(*byte)?;
        }
    }
    talk.replies.extend(replies)
}

// Adds the lines for all slots, each so many after the last.
fn add_all(
    alloc: Global,
    talk: &mut Talk,
    lines: &[Lines<'_>; 4],
    step: usize,
) -> Result<(), NoMemory> {
    for turn in 0..64usize {
        let slot = turn.wrapping_mul(step) % 64;
        add_lines(alloc, talk, &lines[slot % 4], slot)?;
    }
    Ok(())
}

fn no_talk(alloc: Global) -> Talk {
    Talk {
        script: Bytes::new(alloc),
        replies: Bytes::new(alloc),
    }
}

// Whether the script ends so, with its replies.
fn is_talked(alloc: Global, disk: &mut MemDisk, talk: &Talk, status: Status) -> Result<bool, Fail> {
    let row: Row<'_> = (
        "1000 run",
        talk.script.as_slice(),
        status,
        talk.replies.as_slice(),
    );
    comes_so(alloc, disk, &row)
}

// Makes the entries that stand before.
fn make_standing(alloc: Global, disk: &mut MemDisk) -> Result<bool, Fail> {
    let mut talk = no_talk(alloc);
    add_all(alloc, &mut talk, &STANDING, 1)?;
    is_talked(alloc, disk, &talk, Status::Done)
}

// All slots are filled, worked in and closed in different orders.
fn talk_of_all(alloc: Global) -> Result<Talk, NoMemory> {
    let mut talk = no_talk(alloc);
    add_all(alloc, &mut talk, &FILLED, 1)?;
    talk.script.extend(b"create 7 :x\nopen 62 :1\n")?;
    talk.replies.extend(b"slot taken\nslot taken\n")?;
    add_all(alloc, &mut talk, &WORKED, 27)?;
    add_all(alloc, &mut talk, &CLOSED, 37)?;
    add_all(alloc, &mut talk, &LEFT, 1)?;
    Ok(talk)
}

// All slots are filled, and one more is asked for. Half of them took two commands.
fn talk_of_one_more(alloc: Global) -> Result<Talk, NoMemory> {
    let mut talk = no_talk(alloc);
    add_all(alloc, &mut talk, &FILLED, 1)?;
    talk.script.extend(b"create 64 :x\n")?;
    talk.replies.extend(b"script 97\n")?;
    Ok(talk)
}

// Whether a file stands under the key of a slot exactly where one is due, and no doomed file.
fn are_left(alloc: Global, disk: &MemDisk, due: &[bool; 4]) -> Result<bool, Fail> {
    for slot in 0..64usize {
        let key = format!(in alloc; ":{slot}")?;
        if disk.file(&place_of(&key)).is_some() != due[slot % 4] {
            return Ok(false);
        }
        if disk.file(&Place::Doomed(slot as u32)).is_some() {
            return Ok(false);
        }
    }
    Ok(true)
}

// How many entries stand.
fn count_of<D: Disk>(alloc: Global, disk: &mut D) -> Option<usize> {
    let mut names = Names::new(alloc);
    match disk.entries(&mut names) {
        Ok(()) => Some(names.as_slice().len()),
        Err(_) => None,
    }
}

// Whether so many entries stand then, and just those that are due.
fn leaves(
    alloc: Global,
    disk: &mut MemDisk,
    talk: &Talk,
    status: Status,
    due: &[bool; 4],
    count: usize,
) -> Result<bool, Fail> {
    Ok(
        make_standing(alloc, disk)?
            && is_talked(alloc, disk, talk, status)?
            && are_left(alloc, disk, due)?
            && count_of(alloc, disk) == Some(count),
    )
}

#[test]
fn all_slots_are_worked_in(rt: HostRuntime) -> Result<(), Fail> {
    let talk = talk_of_all(rt.alloc())?;
    let mut disk = MemDisk::new(rt.alloc());
    let due = [true, true, false, false];
    assert!(rt; leaves(rt.alloc(), &mut disk, &talk, Status::Done, &due, 32)?);
    Ok(())
}

// With the bad command the session is closed: new entries were not finished, and go.
#[test]
fn no_slot_is_beyond_the_last(rt: HostRuntime) -> Result<(), Fail> {
    let talk = talk_of_one_more(rt.alloc())?;
    let mut disk = MemDisk::new(rt.alloc());
    let due = [false, true, false, false];
    assert!(rt; leaves(rt.alloc(), &mut disk, &talk, Status::Script, &due, 16)?);
    Ok(())
}
