ghost use Rattle.disk_model.specs.MemDisk.{state_in};
ghost use Rattle.disk_theory.specs.Sound.{IsQuiet};

use super::*;
use std::test::Fail;

const DOOM: &str = "1001 doom :https://example.com/";

const DOOM_TWICE: [Row<'static>; 6] = [
    (DOOM, b"", Status::Done, b"ok\n"),
    (DOOM, b"", Status::No, ABSENT),
    ("1001 doom x", b"", Status::No, b"bad key\n"),
    ("1002 evict 0", b"", Status::Done, b"evicted 0\n"),
    ("1003 flush", b"", Status::Done, b"ok\n"),
    ("1004 rebuild", b"", Status::Done, b"rebuilt 0\n"),
];

#[test]
fn a_doomed_entry_is_gone(rt: HostRuntime) -> Result<(), Fail> {
    assert!(rt; rows_turn(rt.alloc(), KEY, Some(FILE), &DOOM_TWICE, None)?);
    Ok(())
}

const NEITHER_FOUND_NOR_DOOMED: [Row<'static>; 2] = [
    (GET, b"", Status::No, ABSENT),
    (DOOM, b"", Status::No, ABSENT),
];

// A file that is no entry stands, and files of doomed entries that an earlier run left.
fn unfit_stays_and_doomed_go(alloc: Global, disk: &mut MemDisk) -> Result<bool, Fail>
    requires { IsQuiet (state_in disk.old) }
{
    put_file(alloc, disk, place_of(KEY), b"hello")?;
    put_file(alloc, disk, Place::Doomed(0), FILE)?;
    put_file(alloc, disk, Place::Doomed(4_294_967_295), b"")?;
    let stays = rows_leave(alloc, disk, &NEITHER_FOUND_NOR_DOOMED, KEY, Some(b"hello"))?;
    Ok(
        stays
            && disk.file(&Place::Doomed(0)).is_none()
            && disk.file(&Place::Doomed(4_294_967_295)).is_none(),
    )
}

// A file that fits under no name is no entry: it is neither found nor doomed, and it stays. Files of doomed entries
// that an earlier run left are removed.
#[test]
fn unfit_files_stay_and_doomed_files_go(rt: HostRuntime) -> Result<(), Fail> {
    let mut disk = MemDisk::new(rt.alloc());
    assert!(rt; unfit_stays_and_doomed_go(rt.alloc(), &mut disk)?);
    Ok(())
}

const COUNT: [Row<'static>; 4] = [
    ("1000 list", b"", Status::Done, b"records 0\n"),
    ("1000 rebuild", b"", Status::Done, b"rebuilt 0\n"),
    (PUT, b"hello", Status::Done, b"ok\n"),
    ("1000 rebuild", b"", Status::Done, b"rebuilt 1\n"),
];

#[test]
fn records_are_counted(rt: HostRuntime) -> Result<(), Fail> {
    assert!(rt; rows_turn(rt.alloc(), KEY, None, &COUNT, Some(FILE))?);
    Ok(())
}
