//! The dump of all entries.

ghost use Rattle.disk_model.specs.MemDisk.{state_in};
ghost use Rattle.disk_theory.specs.Sound.{IsQuiet};

use super::*;
use std::test::Fail;

pub(super) const DUMP: &str = "1001 dump";

pub(super) const DUMP_HEAD: &[u8] = b"C2DUMP01";

pub(super) const EMPTY: &[u8] = b"C2DUMP01\0";

// The dump of the entry that `1000 put :x` makes of `hello`.
pub(super) const OTHER: &[u8] = b"C2DUMP01\x01\0\0\0\x02:x\0\0\0\x05hello\0\0\0\x29\
    \xdd\xc2\xd3\x62\x39\x9e\
    \0\0\0\x03\0\0\0\x01\0\0\x03\xe8\0\0\x03\xe8\0\0\x03\xe8\xff\xff\xff\xff\0\0\0\x02\0\0\0\0\
    :x\0\0";

const PUT_OTHER: Row<'static> = ("1000 put :x", b"hello", Status::Done, b"ok\n");

const OF_NOTHING: [Row<'static>; 3] = [
    ("1000 dump", b"", Status::Done, EMPTY),
    ("1000 dump", b"unread", Status::Done, EMPTY),
    ("1000 list", b"", Status::Done, b"records 0\n"),
];

#[test]
fn the_dump_of_nothing_has_nine_bytes(rt: HostRuntime) -> Result<(), Fail> {
    assert!(rt; EMPTY.len() == 9 && DUMPED.len() == 108);
    assert!(rt; rows_turn(rt.alloc(), KEY, None, &OF_NOTHING, None)?);
    Ok(())
}

const OF_ONE: [Row<'static>; 4] = [
    (DUMP, b"", Status::Done, DUMPED),
    ("1001 verify", b"", Status::Done, b"findings 0\n"),
    (GET, b"", Status::Done, FOUND),
    (DUMP, b"", Status::Done, DUMPED),
];

// A file of each version is dumped as one of the third, and stays as it is.
#[test]
fn old_files_are_dumped_as_new_ones(rt: HostRuntime) -> Result<(), Fail> {
    for file in [FILE, FIRST, SECOND] {
        assert!(rt; rows_turn(rt.alloc(), KEY, Some(file), &OF_ONE, Some(file))?);
    }
    Ok(())
}

// Three entries: one that is pinned and has an element, and one of an origin, whose name begins with BC. Those of the
// others begin with A4 and B9.
const THREE: Row<'static> = (
    "1000 run",
    b"create 0 O^a,:c\nappend 0 5\nthird\nclose 0\ncreate 0 :b\nappend 0 6\nsecond\nclose 0\n\
    create 0 :a\nset 0 1 n\nv\npin 0\nclose 0\n",
    Status::Done,
    b"ok\nok\nok\nok\nok\nok\nok\nok\nok\nok\n",
);

pub(super) const OF_THREE: &[u8] = b"C2DUMP01\
    \x01\0\0\0\x02:a\0\0\0\0\0\0\0\x2b\xf2\x21\xa5\x74\
    \0\0\0\x03\0\0\0\x01\0\0\x03\xe8\0\0\x03\xe8\0\0\x03\xe8\xff\xff\xff\xff\0\0\0\x02\0\0\0\x01:a\0n\0v\0\
    \x01\0\0\0\x02:b\0\0\0\x06second\0\0\0\x29\xf1\x2f\xa2\xc2\x41\xa0\
    \0\0\0\x03\0\0\0\x01\0\0\x03\xe8\0\0\x03\xe8\0\0\x03\xe8\xff\xff\xff\xff\0\0\0\x02\0\0\0\0:b\0\
    \x01\0\0\0\x06O^a,:c\0\0\0\x05third\0\0\0\x2d\xd5\x84\xc2\xb1\xe2\x46\
    \0\0\0\x03\0\0\0\x01\0\0\x03\xe8\0\0\x03\xe8\0\0\x03\xe8\xff\xff\xff\xff\0\0\0\x06\0\0\0\0O^a,:c\0\0";

// What a `list` prints of them: the pin is bit 26 of the flags.
pub(super) const THREE_RECORDS: &[u8] = b"records 3\n\
    A4839EDBF020B8C1AC398FA119979FC5384F52D4 1000 DA39A3EE5E6B4B0D 65535 65535 0 84000001\n\
    B93CCEFA28585E0321E57BD439D521347671FFF9 1000 DA39A3EE5E6B4B0D 65535 65535 0 80000001\n\
    BC2C5695945A6CED9C96DFCEBB21BA33684991DD 1000 F87FB192D2661A8C 65535 65535 0 80000001\n";

const BY_NAME: [Row<'static>; 4] = [
    THREE,
    (DUMP, b"", Status::Done, OF_THREE),
    ("1001 list", b"", Status::Done, THREE_RECORDS),
    (DUMP, b"", Status::Done, OF_THREE),
];

// Items come by the names of their entries, each with its header and its elements.
#[test]
fn entries_are_dumped_by_name(rt: HostRuntime) -> Result<(), Fail> {
    assert!(rt; rows_turn(rt.alloc(), KEY, None, &BY_NAME, None)?);
    Ok(())
}

// The file of `hello` under the key of a colon, `x`, a newline and `y`: it fits, and may not be written.
const WITH_NEWLINE: &[u8] = b"hello\xf1\x64\xf3\x76\x39\x9e\
    \0\0\0\x03\0\0\0\x01\0\0\x03\xe8\0\0\x03\xe8\0\0\x03\xe8\xff\xff\xff\xff\0\0\0\x04\0\0\0\0\
    :x\ny\0\0\0\0\x05";

// Keys, and files at their places that are left out: a damaged body, the file of another key, one that was cut,
// an unfinished one, one without bytes, and one whose key may not be written.
const LEFT_OUT: [(&str, &[u8]); 6] = [
    (KEY, DAMAGED),
    (":other", FILE),
    (KEY, b"hello\x06\xab\x5e\x9a\x39\x9e"),
    (KEY, b"hello\xff\xff\xff\xff"),
    (KEY, b""),
    (":x\ny", WITH_NEWLINE),
];

const OF_OTHER: [Row<'static>; 2] = [PUT_OTHER, (DUMP, b"", Status::Done, OTHER)];

// What is left out stays as it is, and what stands beside it is dumped.
#[test]
fn what_is_not_whole_is_left_out(rt: HostRuntime) -> Result<(), Fail> {
    for index in 0..LEFT_OUT.len() {
        let (key, file) = LEFT_OUT[index];
        let so = rows_turn(rt.alloc(), key, Some(file), &OF_OTHER, Some(file))?;
        assert!(rt; so, "row {index}");
    }
    Ok(())
}

// What stands around the body of a chunk of `a` and a `b`.
const BEFORE_TWO_CHUNKS: &[u8] = b"C2DUMP01\x01\0\0\0\x15:https://example.com/\0\x04\0\x01";

const AFTER_TWO_CHUNKS: &[u8] = b"b\0\0\0\x3e\x21\x08\xef\x7b\x0d\x4b\xa5\x97\
    \0\0\0\x03\0\0\0\x01\0\0\x03\xe8\0\0\x03\xe8\0\0\x03\xe8\xff\xff\xff\xff\0\0\0\x15\0\0\0\0\
    :https://example.com/\0\0";

pub(super) fn dump_of_two_chunks(alloc: Global) -> Result<Bytes, Fail> {
    repeated(alloc, BEFORE_TWO_CHUNKS, b'a', 262_144, AFTER_TWO_CHUNKS)
}

#[test]
fn each_chunk_of_a_body_is_dumped(rt: HostRuntime) -> Result<(), Fail> {
    let file = file_of_two_chunks(rt.alloc())?;
    let dump = dump_of_two_chunks(rt.alloc())?;
    let mut disk = disk_with(rt.alloc(), KEY, file.as_slice())?;
    assert!(rt;
        comes_so(
            rt.alloc(),
            &mut disk,
            &(DUMP, b"", Status::Done, dump.as_slice())
        )?
    );
    assert!(rt; holds(&disk, KEY, Some(file.as_slice())));
    Ok(())
}

// How a dump ends where the sink's call of this number fails, and what it has printed.
fn cut_at(alloc: Global, file: &[u8], number: u32) -> Result<(Status, Bytes), Fail> {
    let mut disk = disk_with(alloc, KEY, file)?;
    let ended = ends_cut(alloc, &mut disk, DUMP, b"", number)?;
    if holds(&disk, KEY, Some(file)) {
        Ok(ended)
    } else {
        Err(Fail::from("the entry was changed"))
    }
}

// Whether this is a part of a dump that a reader sees to be cut.
fn is_cut(dump: &[u8], text: &[u8]) -> bool {
    dump.starts_with(text) && text.len() < dump.len()
}

// The head goes out by itself. Wherever the sink fails, the dump is cut.
#[test]
fn a_failing_sink_cuts_the_dump(rt: HostRuntime) -> Result<(), Fail> {
    let file = file_of_two_chunks(rt.alloc())?;
    let dump = dump_of_two_chunks(rt.alloc())?;
    let mut cuts = 0usize;
    for number in 1..20u32 {
        let (status, text) = cut_at(rt.alloc(), file.as_slice(), number)?;
        if status == Status::Done {
            assert!(rt; text.as_slice() == dump.as_slice());
            break;
        }
        assert!(rt;
            status == Status::Sink && is_cut(dump.as_slice(), text.as_slice()),
            "at {number}"
        );
        assert!(rt; number != 1 || text.as_slice().is_empty());
        assert!(rt; number != 2 || text.as_slice() == DUMP_HEAD);
        cuts = cuts.wrapping_add(1);
    }
    assert!(rt; cuts > 2 && cuts < 19, "{cuts}");
    Ok(())
}

// How a run ends whose call of the disk fails: with nothing printed, with the line `fault` and the closing after it,
// with a dump that is cut, or with a whole one, which is out before the closing. Or no call of this number is made.
#[derive(Clone, Copy, PartialEq, Eq)]
enum Ending {
    Silent,
    Told,
    Cut,
    Whole,
    Unmet,
}

fn ending_of(dump: &[u8], status: Status, text: &[u8], is_last: bool) -> Option<Ending> {
    match status {
        Status::Done if text == dump => Some(Ending::Unmet),
        Status::Disk if text == b"fault\n".as_slice() && !is_last => Some(Ending::Told),
        Status::Disk if !is_last => None,
        Status::Disk if text.is_empty() => Some(Ending::Silent),
        Status::Disk if text == dump => Some(Ending::Whole),
        Status::Disk if text.starts_with(DUMP_HEAD) && is_cut(dump, text) => Some(Ending::Cut),
        _ => None,
    }
}

// A disk with a file of two chunks, a damaged one and one that does not fit, and no index.
fn three_files(alloc: Global, file: &[u8]) -> Result<MemDisk, Fail> {
    let mut disk = MemDisk::new(alloc);
    put_three(alloc, &mut disk, file)?;
    Ok(disk)
}

fn put_three(alloc: Global, disk: &mut MemDisk, file: &[u8]) -> Result<(), NoMemory>
    requires { IsQuiet (state_in disk.old) }
{
    put_file(alloc, disk, place_of(KEY), file)?;
    put_file(alloc, disk, place_of(":other"), FILE)?;
    put_file(alloc, disk, place_of(":none"), b"")
}

// How the run ends whose call of this number fails alone. The next one prints the whole dump.
fn ending_at(alloc: Global, file: &[u8], dump: &[u8], number: u32) -> Result<Option<Ending>, Fail> {
    let mut disk = three_files(alloc, file)?;
    disk.fail_at(one_number(alloc, number)?);
    let (status, text) = ends(alloc, &mut disk, DUMP, b"")?;
    let is_last = disk.calls() == u64::from(number);
    let ending = ending_of(dump, status, text.as_slice(), is_last);
    let goes_on = ending == Some(Ending::Unmet)
        || comes_so(alloc, &mut disk, &(DUMP, b"", Status::Done, dump))?;
    if goes_on && holds(&disk, KEY, Some(file)) {
        Ok(ending)
    } else {
        Ok(None)
    }
}

// How many endings of each kind there are, one after the other in this order.
fn endings(alloc: Global, file: &[u8], dump: &[u8]) -> Result<[u32; 4], Fail> {
    let mut counts = [0u32; 4];
    let mut kind = 0usize;
    for number in 1..100u32 {
        let due = match ending_at(alloc, file, dump, number)? {
            Some(Ending::Silent) => 0usize,
            Some(Ending::Told) => 1,
            Some(Ending::Cut) => 2,
            Some(Ending::Whole) => 3,
            Some(Ending::Unmet) => return Ok(counts),
            None => return Err(Fail::from("another ending")),
        };
        if due < kind {
            return Err(Fail::from("another order"));
        }
        kind = due;
        if let Some(count) = counts.get_mut(due) {
            *count = count.wrapping_add(1);
        }
    }
    Err(Fail::from("no end"))
}

// Before the command no line is printed. Then come the looks of the update and the one at the folder, which are told;
// and then those at each entry, which cut the dump.
#[test]
fn each_failing_call_ends_the_dump(rt: HostRuntime) -> Result<(), Fail> {
    let file = file_of_two_chunks(rt.alloc())?;
    let dump = dump_of_two_chunks(rt.alloc())?;
    let [silent, told, cut, whole] = endings(rt.alloc(), file.as_slice(), dump.as_slice())?;
    assert!(rt; silent == OPENING, "{silent} are silent");
    assert!(rt;
        told > 3 && cut > 5 && whole > 3,
        "{told} are told, {cut} cut, {whole} whole"
    );
    Ok(())
}

const MALFORMED: [Row<'static>; 6] = [
    ("1001 dump x", b"", Status::Words, b""),
    ("1001 dump ", b"", Status::Words, b""),
    ("1001 Dump", b"", Status::Words, b""),
    ("x dump", b"", Status::Words, b""),
    ("dump", b"", Status::Words, b""),
    (
        "1001 run",
        b"state\ndump\n",
        Status::Script,
        b"ready\nscript 2\n",
    ),
];

// It is no command of a script.
#[test]
fn a_dump_is_a_verb_alone(rt: HostRuntime) -> Result<(), Fail> {
    assert!(rt; rows_turn(rt.alloc(), KEY, None, &MALFORMED, None)?);
    Ok(())
}

// The mark of no origin.
const MARK: &[u8] = b"\xda\x39\xa3\xee\x5e\x6b\x4b\x0d\xed\xdc\xe9\x58";

fn resumes(alloc: Global, disk: &mut MemDisk) -> Result<bool, Fail>
    requires { IsQuiet (state_in disk.old) }
{
    put_file(alloc, disk, place_of(KEY), FILE)?;
    put_file(alloc, disk, Place::Clear, MARK)?;
    let so = comes_so(alloc, disk, &(DUMP, b"", Status::Done, EMPTY))?;
    Ok(so && holds(disk, KEY, None) && disk.file(&Place::Clear).is_none())
}

// What a clearing has left goes first.
#[test]
fn a_dump_comes_after_a_clearing(rt: HostRuntime) -> Result<(), Fail> {
    let mut disk = MemDisk::new(rt.alloc());
    assert!(rt; resumes(rt.alloc(), &mut disk)?);
    Ok(())
}
