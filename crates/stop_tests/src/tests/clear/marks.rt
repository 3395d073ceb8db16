//! What stands at `clear`, and the run that finds it.

use super::*;
use std::test::Fail;

// A disk with what `THREE` makes, and these bytes at `clear`.
fn three_and(alloc: Global, made: &MemDisk, left: &[u8]) -> Result<MemDisk, Fail> {
    let mut disk = MemDisk::new(alloc);
    copy_index(alloc, made, &mut disk)?;
    copy_file(alloc, made, &mut disk, place_of("O^a,:https://x/1"))?;
    copy_file(alloc, made, &mut disk, place_of("O^a,:https://x/2"))?;
    copy_file(alloc, made, &mut disk, place_of(":https://x/3"))?;
    put_file(alloc, &mut disk, Place::Clear, left)?;
    Ok(disk)
}

// The dump of both entries that are not of the origin or are pinned.
const DUMP_OF_TWO: &[u8] = b"C2DUMP01\
    \x01\0\0\0\x0c:https://x/3\0\0\0\0\0\0\0\x31\xff\x23\xb0\xf5\
    \0\0\0\x03\0\0\0\x01\0\0\x03\xe8\0\0\x03\xe8\0\0\x03\xe8\xff\xff\xff\xff\0\0\0\x0c\0\0\0\0:https://x/3\0\
    \x01\0\0\0\x10O^a,:https://x/2\0\0\0\0\0\0\0\x35\xdb\x01\x34\x98\
    \0\0\0\x03\0\0\0\x01\0\0\x03\xe8\0\0\x03\xe8\0\0\x03\xe8\xff\xff\xff\xff\0\0\0\x10\0\0\0\x01O^a,:https://x/2\0\
    \0";

// Each verb, and scripts, of which the last two have a malformed command.
const AFTER_A_STOP: [Row<'static>; 18] = [
    ("1001 list", b"", Status::Done, LIST_OF_TWO),
    ("1001 put :new", b"hello", Status::Done, b"ok\n"),
    ("1001 get O^a,:https://x/1", b"", Status::No, ABSENT),
    ("1001 getalt O^a,:https://x/1", b"", Status::No, ABSENT),
    ("1001 main O^a,:https://x/1", b"", Status::No, ABSENT),
    ("1001 doom O^a,:https://x/1", b"", Status::No, ABSENT),
    ("1001 evict 9", b"", Status::Done, b"evicted 0\n"),
    ("1001 clear ^a", b"", Status::Done, b"cleared 0\n"),
    ("1001 flush", b"", Status::Done, b"ok\n"),
    ("1001 verify", b"", Status::Done, b"findings 0\n"),
    ("1001 rebuild", b"", Status::Done, b"rebuilt 2\n"),
    (
        "1001 fill 1 1",
        b"",
        Status::Done,
        b"made 1\nevicted 2\nfindings 0\nrecords 1\n",
    ),
    ("1001 dump", b"", Status::Done, DUMP_OF_TWO),
    ("1001 load", b"C2DUMP01\0", Status::Done, b"loaded 0\n"),
    ("1001 run", b"", Status::Done, b""),
    (
        "1001 run",
        b"has O^a,:https://x/1\nstep 1\n",
        Status::Done,
        b"no\nready\n",
    ),
    ("1001 run", b"fly\n", Status::Script, b"script 1\n"),
    (
        "1001 run",
        b"state\nresume\n",
        Status::Script,
        b"ready\nscript 2\n",
    ),
];

// Whether the row ends as it says where the mark stands, which is gone then, as is the entry that is not pinned.
fn resumes(alloc: Global, made: &MemDisk, row: &Row<'_>) -> Result<bool, Fail> {
    let mut disk = three_and(alloc, made, MARK)?;
    Ok(
        comes_so(alloc, &mut disk, row)?
            && disk.file(&Place::Clear).is_none()
            && disk.file(&Place::Doomed(64)).is_none()
            && holds(&disk, "O^a,:https://x/1", None)
            && disk.file(&place_of("O^a,:https://x/2")).is_some(),
    )
}

// Whatever a run is asked for, it does what is left of the clearing first. It prints nothing of that, and counts no
// command.
#[test]
fn every_run_resumes_a_clearing(rt: HostRuntime) -> Result<(), Fail> {
    let mut made = MemDisk::new(rt.alloc());
    comes_so(rt.alloc(), &mut made, &THREE)?;
    for index in 0..AFTER_A_STOP.len() {
        assert!(rt;
            resumes(rt.alloc(), &made, &AFTER_A_STOP[index])?,
            "row {index}"
        );
    }
    Ok(())
}

// What stands at `clear`: the mark of `^a` with another last byte, without its last byte and with a byte more, its
// origin's hash alone, no bytes, and the mark of the origin `^nobody`.
const LEFT_THERE: [&[u8]; 6] = [
    b"\xf8\x7f\xb1\x92\xd2\x66\x1a\x8c\xbf\x5c\x21\xfb",
    b"\xf8\x7f\xb1\x92\xd2\x66\x1a\x8c\xbf\x5c\x21",
    b"\xf8\x7f\xb1\x92\xd2\x66\x1a\x8c\xbf\x5c\x21\xfa\0",
    b"\xf8\x7f\xb1\x92\xd2\x66\x1a\x8c",
    b"",
    b"\x7a\x65\x3d\x54\x52\xa2\x4f\x80\xba\x12\xb6\xc1",
];

const LIST_OF_THREE: &[u8] = b"records 3\n\
    6749AB76E8BBFCAD3CA2D603090C90D5968C9A26 1000 DA39A3EE5E6B4B0D 65535 65535 0 80000001\n\
    BB7A999A49F7463180DC23AA3BD59FA9ED5548C6 1000 F87FB192D2661A8C 65535 65535 0 84000001\n\
    E4839EC0787A0E66CEBF560E1AAA48378D9D07CD 1000 F87FB192D2661A8C 65535 65535 0 80000001\n";

// Whether the same stands at the place on both disks.
fn is_same(one: &MemDisk, other: &MemDisk, place: Place) -> bool {
    match (one.file(&place), other.file(&place)) {
        (Some(left), Some(right)) => left == right,
        (None, None) => true,
        _ => false,
    }
}

// Whether a `list` takes the file away, prints all entries, and changes no other file.
fn only_it_goes(alloc: Global, made: &MemDisk, left: &[u8]) -> Result<bool, Fail> {
    let mut disk = three_and(alloc, made, left)?;
    let so = comes_so(
        alloc,
        &mut disk,
        &("1001 list", b"", Status::Done, LIST_OF_THREE),
    )?;
    Ok(
        so && disk.file(&Place::Clear).is_none()
            && disk.file(&Place::Doomed(64)).is_none()
            && is_same(made, &disk, place_of("O^a,:https://x/1"))
            && is_same(made, &disk, place_of("O^a,:https://x/2"))
            && is_same(made, &disk, place_of(":https://x/3"))
            && is_same(made, &disk, Place::Index)
            && is_same(made, &disk, Place::Log),
    )
}

// What is no mark goes, and so does the mark of an origin that no entry has.
#[test]
fn what_clears_nothing_goes_alone(rt: HostRuntime) -> Result<(), Fail> {
    let mut made = MemDisk::new(rt.alloc());
    comes_so(rt.alloc(), &mut made, &THREE)?;
    for index in 0..LEFT_THERE.len() {
        assert!(rt;
            only_it_goes(rt.alloc(), &made, LEFT_THERE[index])?,
            "row {index}"
        );
    }
    Ok(())
}

// Words, and what their source gives.
const LOOKING: [(&str, &[u8]); 4] = [
    ("1000 run", b"flush\n"),
    ("1000 put :x", b"hello"),
    ("1000 list", b""),
    ("1000 fill 1 1", b""),
];

// Whether the run ends where the look for the mark fails, and prints nothing.
fn ends_without_a_line(alloc: Global, line: &str, input: &[u8]) -> Result<bool, Fail> {
    let mut disk = disk_with(alloc, KEY, FILE)?;
    disk.fail_at(one_number(alloc, OPENING)?);
    let (status, text) = ends(alloc, &mut disk, line, input)?;
    let ends_there = disk.calls() == u64::from(OPENING);
    Ok(status == Status::Disk && text.as_slice().is_empty() && ends_there)
}

// No verb goes on where that cannot be looked for, and no line `fault` is printed.
#[test]
fn a_failed_look_for_the_mark_ends_the_run(rt: HostRuntime) -> Result<(), Fail> {
    for index in 0..LOOKING.len() {
        let (line, input) = LOOKING[index];
        assert!(rt;
            ends_without_a_line(rt.alloc(), line, input)?,
            "row {index}"
        );
    }
    Ok(())
}
