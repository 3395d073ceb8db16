ghost use Rattle.disk_model.specs.MemDisk.{state_in};
ghost use Rattle.disk_theory.specs.Sound.{IsQuiet};

use super::*;
use std::test::Fail;

const NOTHING: &[u8] = b"findings 0\n";

const DAMAGE: &[u8] = b"findings 1\n68BC13FA477009A295E32BF01651A14CAB377A5C damaged 0 399E 6DAA\n";

// `hello` ends in no offset.
const UNFIT: &[u8] = b"findings 1\n68BC13FA477009A295E32BF01651A14CAB377A5C unfit short\n";

const DIFFERS: &[u8] = b"findings 1\n68BC13FA477009A295E32BF01651A14CAB377A5C differs\n";

// The name of the key `:x` begins with E7B6.
const MISSING_AND_EXTRA: &[u8] = b"findings 2\n68BC13FA477009A295E32BF01651A14CAB377A5C missing\n\
    E7B6F5F662C0DAF32123F79D1EE97F4F2B56A961 extra\n";

const SOUND: [Row<'static>; 4] = [
    ("1000 verify", b"", Status::Done, NOTHING),
    (PUT, b"hello", Status::Done, b"ok\n"),
    ("1000 verify", b"", Status::Done, NOTHING),
    (
        "1000 run",
        b"create 0 :x\nverify\nclose 0\nverify\n",
        Status::Done,
        b"ok\nfindings 0\nok\nfindings 0\n",
    ),
];

// An entry that is being written is left out.
#[test]
fn a_sound_cache_has_no_findings(rt: HostRuntime) -> Result<(), Fail> {
    assert!(rt; rows_turn(rt.alloc(), KEY, None, &SOUND, Some(FILE))?);
    Ok(())
}

const FIND_DAMAGE: [Row<'static>; 3] = [
    ("1000 verify", b"", Status::No, DAMAGE),
    ("1000 verify", b"", Status::No, DAMAGE),
    ("1000 run", b"verify\n", Status::Done, DAMAGE),
];

const FIND_UNFIT: [Row<'static>; 1] = [("1000 verify", b"", Status::No, UNFIT)];

// A damaged chunk by the file itself, with no index and with one; a script goes on after it. And an unfit file.
#[test]
fn damaged_chunks_and_unfit_files_are_found(rt: HostRuntime) -> Result<(), Fail> {
    let damaged = Some(DAMAGED);
    assert!(rt; rows_turn(rt.alloc(), KEY, damaged, &FIND_DAMAGE, damaged)?);
    let unfit = Some(b"hello".as_slice());
    assert!(rt; rows_turn(rt.alloc(), KEY, unfit, &FIND_UNFIT, unfit)?);
    Ok(())
}

// Whether the rows come so where the other disk's index after this one stands, and the file of `hello` beside it.
fn come_beside(
    alloc: Global,
    other: &mut MemDisk,
    disk: &mut MemDisk,
    made: &Row<'_>,
    rows: &[Row<'_>],
) -> Result<bool, Fail>
    requires { IsQuiet (state_in disk.old) }
{
    let so = comes_so(alloc, other, made)?;
    copy_index(alloc, other, disk)?;
    put_file(alloc, disk, place_of(KEY), FILE)?;
    Ok(so && rows_leave(alloc, disk, rows, KEY, Some(FILE))?)
}

fn find_beside(alloc: Global, made: &Row<'_>, rows: &[Row<'_>]) -> Result<bool, Fail> {
    let mut other = MemDisk::new(alloc);
    let mut disk = MemDisk::new(alloc);
    come_beside(alloc, &mut other, &mut disk, made, rows)
}

const OF_ANOTHER_KEY: Row<'static> = ("1000 put :x", b"", Status::Done, b"ok\n");

const FIND_BOTH: [Row<'static>; 3] = [
    ("1000 verify", b"", Status::No, MISSING_AND_EXTRA),
    ("1000 rebuild", b"", Status::Done, b"rebuilt 1\n"),
    ("1000 verify", b"", Status::Done, NOTHING),
];

const OF_ANOTHER_MOMENT: Row<'static> = (
    "2000 put :https://example.com/",
    b"hello",
    Status::Done,
    b"ok\n",
);

const FIND_ANOTHER: [Row<'static>; 1] = [("2000 verify", b"", Status::No, DIFFERS)];

// By a trusted index a record has no file, and a file no record. Records that are read anew are those of the files.
// The record of an entry that was made at another moment is not that of its file.
#[test]
fn records_are_held_against_files(rt: HostRuntime) -> Result<(), Fail> {
    assert!(rt; find_beside(rt.alloc(), &OF_ANOTHER_KEY, &FIND_BOTH)?);
    assert!(rt; find_beside(rt.alloc(), &OF_ANOTHER_MOMENT, &FIND_ANOTHER)?);
    Ok(())
}
