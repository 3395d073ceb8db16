//! The entries of a dump, stored.

ghost use Rattle.disk_model.specs.MemDisk.{state_in};
ghost use Rattle.disk_theory.specs.Sound.{IsQuiet};

use super::dump::{DUMP, EMPTY, OF_THREE, OTHER, THREE_RECORDS, dump_of_two_chunks};
use super::*;
use std::test::Fail;

const LOAD: &str = "2000 load";

const LOADED_ONE: &[u8] = b"loaded 1\n";

const BAD_FIRST: &[u8] = b"bad dump 1\n";

const BAD_SECOND: &[u8] = b"bad dump 2\n";

const OF_ONE: [Row<'static>; 6] = [
    (LOAD, DUMPED, Status::Done, LOADED_ONE),
    ("2001 get :https://example.com/", b"", Status::Done, FOUND),
    (
        "2001 list",
        b"",
        Status::Done,
        b"records 1\n68BC13FA477009A295E32BF01651A14CAB377A5C 1000 DA39A3EE5E6B4B0D 65535 65535 0 80000001\n",
    ),
    ("2001 verify", b"", Status::Done, b"findings 0\n"),
    (DUMP, b"", Status::Done, DUMPED),
    (LOAD, EMPTY, Status::Done, b"loaded 0\n"),
];

// The moment of the run has no part in the entry. What stood under the key is replaced, whatever its version.
#[test]
fn a_dump_is_loaded(rt: HostRuntime) -> Result<(), Fail> {
    assert!(rt; rows_turn(rt.alloc(), KEY, None, &OF_ONE, Some(FILE))?);
    for file in [USED, FIRST, DAMAGED, b"hello".as_slice()] {
        assert!(rt; rows_turn(rt.alloc(), KEY, Some(file), &OF_ONE, Some(FILE))?);
    }
    Ok(())
}

const OF_ALL: [Row<'static>; 5] = [
    (LOAD, OF_THREE, Status::Done, b"loaded 3\n"),
    ("2001 list", b"", Status::Done, THREE_RECORDS),
    (DUMP, b"", Status::Done, OF_THREE),
    (LOAD, OF_THREE, Status::Done, b"loaded 3\n"),
    (DUMP, b"", Status::Done, OF_THREE),
];

// Each item has a header and elements of its own, and its entry is pinned where they say so.
#[test]
fn all_items_are_loaded(rt: HostRuntime) -> Result<(), Fail> {
    assert!(rt; rows_turn(rt.alloc(), KEY, None, &OF_ALL, None)?);
    Ok(())
}

// Whether a dump goes back to the same bytes.
fn goes_back(alloc: Global, dump: &[u8], file: &[u8]) -> Result<bool, Fail> {
    let rows: [Row<'_>; 2] = [
        (LOAD, dump, Status::Done, LOADED_ONE),
        (DUMP, b"", Status::Done, dump),
    ];
    rows_turn(alloc, KEY, None, &rows, Some(file))
}

#[test]
fn a_body_of_two_chunks_is_loaded(rt: HostRuntime) -> Result<(), Fail> {
    let file = file_of_two_chunks(rt.alloc())?;
    let dump = dump_of_two_chunks(rt.alloc())?;
    assert!(rt; goes_back(rt.alloc(), dump.as_slice(), file.as_slice())?);
    Ok(())
}

// An item with an element of 200,000 times `v`, which no `set` takes.
const BEFORE_VALUE: &[u8] = b"C2DUMP01\x01\0\0\0\x02:x\0\0\0\0\0\x03\x0d\x6a\xd2\x0f\x0f\x81\
    \0\0\0\x03\0\0\0\x01\0\0\x03\xe8\0\0\x03\xe8\0\0\x03\xe8\xff\xff\xff\xff\0\0\0\x02\0\0\0\0\
    :x\0e\0";

#[test]
fn long_elements_are_loaded(rt: HostRuntime) -> Result<(), Fail> {
    let dump = repeated(rt.alloc(), BEFORE_VALUE, b'v', 200_000, b"\0\0")?;
    let mut disk = MemDisk::new(rt.alloc());
    let rows: [Row<'_>; 2] = [
        (LOAD, dump.as_slice(), Status::Done, LOADED_ONE),
        (DUMP, b"", Status::Done, dump.as_slice()),
    ];
    assert!(rt; rows_so(rt.alloc(), &mut disk, &rows)? == 2);
    Ok(())
}

// The items of the keys `KEY` and `:x`, in the order of their names.
fn first_item() -> &'static [u8] {
    &DUMPED[8..107]
}

fn second_item() -> &'static [u8] {
    &OTHER[8..69]
}

// A dump of these items.
fn dump_of(alloc: Global, first: &[u8], second: &[u8]) -> Result<Bytes, Fail> {
    let mut dump = bytes(alloc, b"C2DUMP01")?;
    dump.extend(first)?;
    dump.extend(second)?;
    dump.push(0)?;
    Ok(dump)
}

// The bytes with another one in a place.
fn changed(alloc: Global, all: &[u8], place: usize, byte: u8) -> Result<Bytes, Fail> {
    let mut list = Bytes::new(alloc);
    for index in 0..all.len() {
        list.push(if index == place { byte } else { all[index] })?;
    }
    Ok(list)
}

// Items whose keys may not be written: with a newline, without a colon after a tag, with a zero byte, without a
// colon, and without a byte. Their hashes are right.
const BAD_KEYS: [&[u8]; 5] = [
    b"\x01\0\0\0\x04:x\ny\0\0\0\0\0\0\0\x29\x37\x6b\xa7\xb4\
    \0\0\0\x03\0\0\0\x01\0\0\x03\xe8\0\0\x03\xe8\0\0\x03\xe8\xff\xff\xff\xff\0\0\0\x04\0\0\0\0:x\ny\0",
    b"\x01\0\0\0\x03a:x\0\0\0\0\0\0\0\x28\x81\x49\x61\x2d\
    \0\0\0\x03\0\0\0\x01\0\0\x03\xe8\0\0\x03\xe8\0\0\x03\xe8\xff\xff\xff\xff\0\0\0\x03\0\0\0\0a:x\0",
    b"\x01\0\0\0\x03:x\0\0\0\0\0\0\0\0\x28\xd3\x73\x80\xb1\
    \0\0\0\x03\0\0\0\x01\0\0\x03\xe8\0\0\x03\xe8\0\0\x03\xe8\xff\xff\xff\xff\0\0\0\x03\0\0\0\0:x\0\0",
    b"\x01\0\0\0\x01x\0\0\0\0\0\0\0\x26\xe9\xea\xf7\x23\
    \0\0\0\x03\0\0\0\x01\0\0\x03\xe8\0\0\x03\xe8\0\0\x03\xe8\xff\xff\xff\xff\0\0\0\x01\0\0\0\0x\0",
    b"\x01\0\0\0\0\0\0\0\0\0\0\0\x25\x0e\x4c\x72\x61\
    \0\0\0\x03\0\0\0\x01\0\0\x03\xe8\0\0\x03\xe8\0\0\x03\xe8\xff\xff\xff\xff\0\0\0\0\0\0\0\0\0",
];

// The item of `KEY` with the block that its file has in version 2.
const OLD_ITEM: &[u8] =
    b"\x01\0\0\0\x15:https://example.com/\0\0\0\x05hello\0\0\0\x3c\x29\xd6\x32\xf8\x39\x9e\
    \0\0\0\x02\0\0\0\x01\0\0\x03\xe8\0\0\x03\xe8\0\0\x03\xe8\xff\xff\xff\xff\0\0\0\x15\0\0\0\0:https://example.com/\0";

// A disk with an entry of each key, both of them other ones than those of the dumps.
fn two_others(alloc: Global) -> Result<MemDisk, Fail> {
    let mut disk = disk_with(alloc, KEY, USED)?;
    ends(alloc, &mut disk, "1500 put :x", b"old")?;
    Ok(disk)
}

// What a `get` prints of the second key: as it was, as it is loaded, or nothing.
const OLD_OTHER: &[u8] = b"found 1 1500 1500 1500 4294967295 0 0 3\n\nold\n";

const NEW_OTHER: &[u8] = b"found 1 1000 1000 1000 4294967295 0 0 5\n\nhello\n";

// Whether these bytes are loaded so, and then this stands under the first key, and this is printed of the second.
// Nothing stands under another name.
fn leaves(
    alloc: Global,
    input: &[u8],
    status: Status,
    line: &[u8],
    first: Option<&[u8]>,
    second: &[u8],
) -> Result<bool, Fail> {
    let mut disk = two_others(alloc)?;
    let so = comes_so(alloc, &mut disk, &(LOAD, input, status, line))?;
    let (_, found) = ends(alloc, &mut disk, "2001 get :x", b"")?;
    let (_, listed) = ends(alloc, &mut disk, "2001 rebuild", b"")?;
    let due = match (first.is_some(), second == ABSENT) {
        (false, true) => b"rebuilt 0\n".as_slice(),
        (true, false) => b"rebuilt 2\n".as_slice(),
        _ => b"rebuilt 1\n".as_slice(),
    };
    Ok(so && holds(&disk, KEY, first) && found.as_slice() == second && listed.as_slice() == due)
}

#[test]
fn both_items_are_loaded(rt: HostRuntime) -> Result<(), Fail> {
    let both = dump_of(rt.alloc(), first_item(), second_item())?;
    let so = leaves(
        rt.alloc(),
        both.as_slice(),
        Status::Done,
        b"loaded 2\n",
        Some(FILE),
        NEW_OTHER,
    )?;
    assert!(rt; so);
    Ok(())
}

// What comes before the bad item is loaded, and what stood under the key of one that is bad after its key is gone.
#[test]
fn an_item_is_bad(rt: HostRuntime) -> Result<(), Fail> {
    let alloc = rt.alloc();
    let bad = Status::Script;
    let damaged = changed(alloc, DUMPED, 38, b'j')?;
    assert!(rt; leaves(alloc, damaged.as_slice(), bad, BAD_FIRST, None, OLD_OTHER)?);
    assert!(rt;
        leaves(
            alloc,
            &DUMPED[..107],
            bad,
            BAD_SECOND,
            Some(FILE),
            OLD_OTHER
        )?
    );
    let more = dump_of(alloc, first_item(), b"\0")?;
    assert!(rt;
        leaves(
            alloc,
            more.as_slice(),
            bad,
            BAD_SECOND,
            Some(FILE),
            OLD_OTHER
        )?
    );
    let other = changed(alloc, second_item(), 12, b'j')?;
    let second = dump_of(alloc, first_item(), other.as_slice())?;
    assert!(rt;
        leaves(
            alloc,
            second.as_slice(),
            bad,
            BAD_SECOND,
            Some(FILE),
            ABSENT
        )?
    );
    let old = dump_of(alloc, OLD_ITEM, b"")?;
    assert!(rt; leaves(alloc, old.as_slice(), bad, BAD_FIRST, None, OLD_OTHER)?);
    Ok(())
}

// Of an item that is bad in its key nothing was written, and nothing is gone.
#[test]
fn a_key_is_bad(rt: HostRuntime) -> Result<(), Fail> {
    let alloc = rt.alloc();
    let bad = Status::Script;
    for input in [b"".as_slice(), b"C2DUMP02\0", b"C2DUMP01", b"C2DUMP01\x02"] {
        assert!(rt; leaves(alloc, input, bad, BAD_FIRST, Some(USED), OLD_OTHER)?);
    }
    for key in BAD_KEYS {
        let dump = dump_of(alloc, key, b"")?;
        assert!(rt;
            leaves(
                alloc,
                dump.as_slice(),
                bad,
                BAD_FIRST,
                Some(USED),
                OLD_OTHER
            )?
        );
    }
    let swapped = dump_of(alloc, second_item(), first_item())?;
    assert!(rt;
        leaves(
            alloc,
            swapped.as_slice(),
            bad,
            BAD_SECOND,
            Some(USED),
            NEW_OTHER
        )?
    );
    let twice = dump_of(alloc, first_item(), first_item())?;
    assert!(rt;
        leaves(
            alloc,
            twice.as_slice(),
            bad,
            BAD_SECOND,
            Some(FILE),
            OLD_OTHER
        )?
    );
    Ok(())
}

// What stands under the key when so many bytes of its dump are read: what stood before, until its key is read, and then
// nothing, until its block is.
fn file_behind(len: usize) -> Option<&'static [u8]> {
    if len < 34 {
        Some(USED)
    } else if len < 107 {
        None
    } else {
        Some(FILE)
    }
}

#[test]
fn no_cut_is_loaded(rt: HostRuntime) -> Result<(), Fail> {
    for len in 0..108usize {
        let line = if len < 107 { BAD_FIRST } else { BAD_SECOND };
        let cut = DUMPED.get(..len).ok_or("too short")?;
        let so = leaves(
            rt.alloc(),
            cut,
            Status::Script,
            line,
            file_behind(len),
            OLD_OTHER,
        )?;
        assert!(rt; so, "{len} bytes");
    }
    Ok(())
}

// Whether a dump with this change of a byte is refused, and leaves no entry on an empty disk but that of a whole item
// before it.
fn is_refused(alloc: Global, place: usize, change: u8) -> Result<bool, Fail> {
    let byte = *DUMPED.get(place).ok_or("too short")?;
    let dump = changed(alloc, DUMPED, place, byte ^ change)?;
    let mut disk = MemDisk::new(alloc);
    let (line, left) = if place < 107 {
        (BAD_FIRST, EMPTY)
    } else {
        (BAD_SECOND, DUMPED)
    };
    let refused = comes_so(
        alloc,
        &mut disk,
        &(LOAD, dump.as_slice(), Status::Script, line),
    )?;
    Ok(refused && comes_so(alloc, &mut disk, &(DUMP, b"", Status::Done, left))?)
}

#[test]
fn no_changed_byte_is_loaded(rt: HostRuntime) -> Result<(), Fail> {
    for place in 0..108usize {
        for change in [1u8, 0x80, 0xFF] {
            let so = is_refused(rt.alloc(), place, change)?;
            assert!(rt; so, "byte {place}");
        }
    }
    Ok(())
}

// Whether the source fails at its read of this number, of one byte each, and what was whole by then stands.
fn starves(alloc: Global, number: u32) -> Result<bool, Fail> {
    let mut disk = two_others(alloc)?;
    let (status, printed) = ends_starved(alloc, &mut disk, LOAD, DUMPED, number, 1)?;
    let read = number.saturating_sub(1) as usize;
    Ok(
        status == Status::Source
            && printed.as_slice().is_empty()
            && holds(&disk, KEY, file_behind(read)),
    )
}

// A failure is not taken for the end, also not where the last byte was read.
#[test]
fn a_failing_source_leaves_whole_items(rt: HostRuntime) -> Result<(), Fail> {
    for number in 1..110u32 {
        assert!(rt; starves(rt.alloc(), number)?, "at read {number}");
    }
    Ok(())
}

// Whether the sink fails, and the entry stands.
fn is_cut(alloc: Global) -> Result<bool, Fail> {
    let mut disk = two_others(alloc)?;
    let (status, printed) = ends_cut(alloc, &mut disk, LOAD, DUMPED, 1)?;
    Ok(status == Status::Sink && printed.as_slice().is_empty() && holds(&disk, KEY, Some(FILE)))
}

#[test]
fn a_failing_sink_leaves_the_entries(rt: HostRuntime) -> Result<(), Fail> {
    assert!(rt; is_cut(rt.alloc())?);
    Ok(())
}

// How many calls of the disk a `load` of both items makes.
fn calls_of_load(alloc: Global, dump: &[u8]) -> Result<(u64, u64), Fail> {
    let mut disk = two_others(alloc)?;
    let before = disk.calls();
    ends(alloc, &mut disk, LOAD, dump)?;
    Ok((before, disk.calls()))
}

// Whether a `get` prints one of these texts, or that there is none.
fn is_whole(
    alloc: Global,
    disk: &mut MemDisk,
    line: &str,
    old: &[u8],
    new: &[u8],
) -> Result<bool, Fail> {
    let (_, found) = ends(alloc, disk, line, b"")?;
    let text = found.as_slice();
    Ok(text == old || text == new || text == ABSENT)
}

// Whether the run ends at the call of this number, which fails, and prints nothing, and each entry is whole or gone
// then.
fn ends_there(alloc: Global, dump: &[u8], number: u32) -> Result<bool, Fail> {
    let mut disk = two_others(alloc)?;
    disk.fail_at(one_number(alloc, number)?);
    let (status, printed) = ends(alloc, &mut disk, LOAD, dump)?;
    let is_last = disk.calls() == u64::from(number);
    let whole = is_whole(
        alloc,
        &mut disk,
        "2001 get :https://example.com/",
        FOUND_USED,
        FOUND,
    )? && is_whole(alloc, &mut disk, "2001 get :x", OLD_OTHER, NEW_OTHER)?;
    let goes_on = comes_so(alloc, &mut disk, &(LOAD, dump, Status::Done, b"loaded 2\n"))?;
    Ok(
        status == Status::Disk
            && printed.as_slice().is_empty()
            && is_last
            && whole
            && goes_on
            && holds(&disk, KEY, Some(FILE)),
    )
}

// Looks are no exception: no line `fault` is printed, and the cache is not closed.
#[test]
fn each_failing_call_ends_the_load(rt: HostRuntime) -> Result<(), Fail> {
    let dump = dump_of(rt.alloc(), first_item(), second_item())?;
    let (before, after) = calls_of_load(rt.alloc(), dump.as_slice())?;
    assert!(rt;
        before > 0 && after > before.saturating_add(20) && after < 200,
        "{before} and {after} calls"
    );
    for number in 1..200u32 {
        if before < u64::from(number) && u64::from(number) <= after {
            let so = ends_there(rt.alloc(), dump.as_slice(), number)?;
            assert!(rt; so, "at call {number}");
        }
    }
    Ok(())
}

const MALFORMED: [Row<'static>; 4] = [
    ("2000 load x", DUMPED, Status::Words, b""),
    ("2000 load ", DUMPED, Status::Words, b""),
    ("x load", DUMPED, Status::Words, b""),
    (
        "2000 run",
        b"state\nload\n",
        Status::Script,
        b"ready\nscript 2\n",
    ),
];

#[test]
fn a_load_is_a_verb_alone(rt: HostRuntime) -> Result<(), Fail> {
    assert!(rt; rows_turn(rt.alloc(), KEY, None, &MALFORMED, None)?);
    Ok(())
}

// The mark of no origin.
const MARK: &[u8] = b"\xda\x39\xa3\xee\x5e\x6b\x4b\x0d\xed\xdc\xe9\x58";

fn resumes(alloc: Global, disk: &mut MemDisk) -> Result<bool, Fail>
    requires { IsQuiet (state_in disk.old) }
{
    put_file(alloc, disk, place_of(":old"), b"")?;
    put_file(alloc, disk, place_of(KEY), USED)?;
    put_file(alloc, disk, Place::Clear, MARK)?;
    let other = dump_of(alloc, second_item(), b"")?;
    let so = comes_so(
        alloc,
        disk,
        &(LOAD, other.as_slice(), Status::Done, LOADED_ONE),
    )?;
    let dump = comes_so(alloc, disk, &(DUMP, b"", Status::Done, OTHER))?;
    Ok(so && dump && holds(disk, KEY, None) && disk.file(&Place::Clear).is_none())
}

// What a clearing has left goes first, and what is loaded stays.
#[test]
fn a_load_comes_after_a_clearing(rt: HostRuntime) -> Result<(), Fail> {
    let mut disk = MemDisk::new(rt.alloc());
    assert!(rt; resumes(rt.alloc(), &mut disk)?);
    Ok(())
}
