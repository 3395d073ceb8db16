//! What a clearing takes: entries in use, those of all slots, and what there are records of.

ghost use Rattle.disk_model.specs.MemDisk.{state_in};
ghost use Rattle.disk_theory.specs.Sound.{IsQuiet};

use super::*;
use std::test::Fail;

// A clearing beside a reader, a writer with a reader, a writer that has finished, and a writer of a pinned entry. A new
// entry of a cleared key is one like others.
const IN_USE: [Row<'static>; 4] = [
    (
        "1000 run",
        b"create 0 :a\nappend 0 3\nold\nclose 0\nopen 1 :a\ncreate 2 :b\nappend 2 3\nnew\nopen 3 :b\n\
        create 4 :c\nappend 4 3\nabc\nfinish 4\ncreate 6 :p\npin 6\nclear \nread 1 0 9\nappend 2 1\n!\nread 3 0 9\n\
        set 4 1 n\nv\npin 4\nfinish 2\npin 2\nget :a\nget :b\nget :c\nlist\ncreate 5 :b\nappend 5 1\nx\nclose 5\n\
        get :b\nclose 2\nget :b\nread 3 0 9\nclose 6\n",
        Status::Done,
        b"ok\nok\nok\nok\nok\nok\nok\nok\nok\nok\nok\nok\ncleared 3\ndata 3\nold\nok\ndata 4\nnew!\n\
        ok\nok\nok\nok\nabsent\nabsent\nabsent\nrecords 0\nok\nok\nok\n\
        found 1 1000 1000 1000 4294967295 0 0 1\n\nx\nok\n\
        found 1 1000 1000 1000 4294967295 0 0 1\n\nx\ndata 4\nnew!\nok\n",
    ),
    (
        "1000 list",
        b"",
        Status::Done,
        b"records 2\n2E50C4E62AE85030E6F7376F98BB1F8E452F9F49 1000 DA39A3EE5E6B4B0D 65535 65535 0 84000001\n\
        B93CCEFA28585E0321E57BD439D521347671FFF9 1000 DA39A3EE5E6B4B0D 65535 65535 0 80000001\n",
    ),
    ("1000 verify", b"", Status::Done, b"findings 0\n"),
    ("1000 clear ", b"", Status::Done, b"cleared 1\n"),
];

// What is in use is doomed: it is read and written on, and nothing of it comes back.
#[test]
fn entries_in_use_are_cleared(rt: HostRuntime) -> Result<(), Fail> {
    let so = rows_on_empty(rt.alloc(), &IN_USE)?;
    assert!(rt; so == IN_USE.len(), "row {so}");
    Ok(())
}

// Adds a line for each slot, whose key is its number.
fn add_lines(alloc: Global, script: &mut Bytes, word: &[u8], between: &[u8]) -> Result<(), Fail> {
    for slot in 0..64u64 {
        script.extend(word)?;
        script.extend_decimal(alloc, slot)?;
        if !between.is_empty() {
            script.extend(between)?;
            script.extend_decimal(alloc, slot)?;
        }
        script.extend(b"\n")?;
    }
    Ok(())
}

// Each slot writes an entry, all are cleared, and then each is closed.
fn clears_among_64(alloc: Global) -> Result<bool, Fail> {
    let mut script = Bytes::new(alloc);
    add_lines(alloc, &mut script, b"create ", b" :")?;
    script.extend(b"clear \n")?;
    add_lines(alloc, &mut script, b"close ", b"")?;
    script.extend(b"list\n")?;
    let mut due = Bytes::new(alloc);
    for _ in 0..64u64 {
        due.extend(b"ok\n")?;
    }
    let closed = bytes(alloc, due.as_slice())?;
    due.extend(b"cleared 64\n")?;
    due.extend(closed.as_slice())?;
    due.extend(b"records 0\n")?;
    let mut disk = MemDisk::new(alloc);
    let row: Row<'_> = ("1000 run", script.as_slice(), Status::Done, due.as_slice());
    comes_so(alloc, &mut disk, &row)
}

// The mark is written under a number that none of them has.
#[test]
fn all_slots_are_cleared(rt: HostRuntime) -> Result<(), Fail> {
    assert!(rt; clears_among_64(rt.alloc())?);
    Ok(())
}

const TWO_PUTS: [Row<'static>; 2] = [
    ("1000 put :a", b"", Status::Done, b"ok\n"),
    ("1000 put :b", b"", Status::Done, b"ok\n"),
];

const WITHOUT_FILES: [Row<'static>; 2] = [
    ("1000 clear ", b"", Status::Done, b"cleared 2\n"),
    ("1000 list", b"", Status::Done, b"records 0\n"),
];

// On a disk with the index of two entries, and the file of one of them.
fn goes_without_files(alloc: Global, full: &mut MemDisk, disk: &mut MemDisk) -> Result<bool, Fail>
    requires { IsQuiet (state_in disk.old) }
{
    let made = rows_so(alloc, full, &TWO_PUTS)?;
    copy_index(alloc, full, disk)?;
    copy_file(alloc, full, disk, place_of(":b"))?;
    Ok(made == 2 && rows_leave(alloc, disk, &WITHOUT_FILES, ":b", None)?)
}

// A record whose file does not stand goes as well, and counts.
#[test]
fn records_without_files_are_cleared(rt: HostRuntime) -> Result<(), Fail> {
    let mut full = MemDisk::new(rt.alloc());
    let mut disk = MemDisk::new(rt.alloc());
    assert!(rt; goes_without_files(rt.alloc(), &mut full, &mut disk)?);
    Ok(())
}

const ONE_PUT: [Row<'static>; 1] = [("1000 put :a", b"", Status::Done, b"ok\n")];

const OF_RECORDS: [Row<'static>; 5] = [
    ("1000 clear ", b"", Status::Done, b"cleared 1\n"),
    (
        "1000 get :b",
        b"",
        Status::Done,
        b"found 1 1000 1000 1000 4294967295 0 0 0\n\n\n",
    ),
    ("1000 rebuild", b"", Status::Done, b"rebuilt 1\n"),
    ("1000 clear ", b"", Status::Done, b"cleared 1\n"),
    ("1000 list", b"", Status::Done, b"records 0\n"),
];

// On a disk with the trusted index of one entry, and the files of two.
fn goes_by_records(
    alloc: Global,
    one: &mut MemDisk,
    two: &mut MemDisk,
    disk: &mut MemDisk,
) -> Result<bool, Fail>
    requires { IsQuiet (state_in disk.old) }
{
    let made = rows_so(alloc, one, &ONE_PUT)? == 1 && rows_so(alloc, two, &TWO_PUTS)? == 2;
    copy_index(alloc, one, disk)?;
    copy_file(alloc, one, disk, place_of(":a"))?;
    copy_file(alloc, two, disk, place_of(":b"))?;
    Ok(made && rows_leave(alloc, disk, &OF_RECORDS, ":b", None)?)
}

// What another program put beside a trusted index is not cleared before a `rebuild`.
#[test]
fn entries_without_records_stay(rt: HostRuntime) -> Result<(), Fail> {
    let mut one = MemDisk::new(rt.alloc());
    let mut two = MemDisk::new(rt.alloc());
    let mut disk = MemDisk::new(rt.alloc());
    assert!(rt; goes_by_records(rt.alloc(), &mut one, &mut two, &mut disk)?);
    Ok(())
}
