ghost use Rattle.disk_model.specs.MemDisk.{state_in};
ghost use Rattle.disk_theory.specs.Sound.{IsQuiet};

use super::*;
use std::test::Fail;

// The names of the keys `:a` to `:d` begin with A483, B93C, 5169 and 5F09.
const C_AND_D: &[u8] =
    b"evicted 2\n516957E653D8F6BE0EC7A766870297980290FAAC\n5F0910189E710862C8FDAFBB4CE8E4772640C917\n";

const ALL_BUT_A: &[u8] =
    b"evicted 3\n516957E653D8F6BE0EC7A766870297980290FAAC\n5F0910189E710862C8FDAFBB4CE8E4772640C917\n\
    B93CCEFA28585E0321E57BD439D521347671FFF9\n";

const A: &[u8] = b"evicted 1\nA4839EDBF020B8C1AC398FA119979FC5384F52D4\n";

const B: &[u8] = b"evicted 1\nB93CCEFA28585E0321E57BD439D521347671FFF9\n";

const NONE: &[u8] = b"evicted 0\n";

// Four empty entries of 1 KB each, made at the moments 0, 5, 3 and 5.
const FOUR_ENTRIES: [Row<'static>; 4] = [
    ("0 put :a", b"", Status::Done, b"ok\n"),
    ("5 put :b", b"", Status::Done, b"ok\n"),
    ("3 put :c", b"", Status::Done, b"ok\n"),
    ("5 put :d", b"", Status::Done, b"ok\n"),
];

const EVICT_BY_AND_BY: [Row<'static>; 7] = [
    ("1000 evict 4294967295", b"", Status::Done, NONE),
    ("1000 evict 4", b"", Status::Done, NONE),
    ("1000 evict 2", b"", Status::Done, C_AND_D),
    ("1000 evict 1", b"", Status::Done, B),
    ("1000 evict 0", b"", Status::Done, A),
    ("1000 evict 0", b"", Status::Done, NONE),
    ("1000 list", b"", Status::Done, b"records 0\n"),
];

fn go_by_and_by(alloc: Global, disk: &mut MemDisk) -> Result<bool, Fail> {
    let made = rows_so(alloc, disk, &FOUR_ENTRIES)?;
    Ok(made == 4 && rows_leave(alloc, disk, &EVICT_BY_AND_BY, ":a", None)?)
}

// By rising frecency, equal ones in name order, and frecency 0 last; no more than has to go.
#[test]
fn the_least_valuable_go_first(rt: HostRuntime) -> Result<(), Fail> {
    let mut disk = MemDisk::new(rt.alloc());
    assert!(rt; go_by_and_by(rt.alloc(), &mut disk)?);
    Ok(())
}

const EVICT_BESIDE_PINNED: [Row<'static>; 3] = [
    ("5 put :b", b"", Status::Done, b"ok\n"),
    ("1000 evict 1", b"", Status::Done, B),
    ("1000 evict 0", b"", Status::Done, NONE),
];

// A pinned entry stays whatever the limit, and its size counts.
#[test]
fn pinned_entries_stay(rt: HostRuntime) -> Result<(), Fail> {
    let pinned = Some(PINNED);
    assert!(rt; rows_turn(rt.alloc(), ":x", pinned, &EVICT_BESIDE_PINNED, pinned)?);
    Ok(())
}

const EVICT_WITHOUT_FILES: [Row<'static>; 2] = [
    ("1000 evict 1", b"", Status::Done, ALL_BUT_A),
    ("1000 evict 0", b"", Status::Done, A),
];

// On a disk with the index of the four entries, and the files of two of them.
fn go_without_files(alloc: Global, full: &mut MemDisk, disk: &mut MemDisk) -> Result<bool, Fail>
    requires { IsQuiet (state_in disk.old) }
{
    let made = rows_so(alloc, full, &FOUR_ENTRIES)?;
    copy_index(alloc, full, disk)?;
    copy_file(alloc, full, disk, place_of(":b"))?;
    copy_file(alloc, full, disk, place_of(":d"))?;
    Ok(made == 4 && rows_leave(alloc, disk, &EVICT_WITHOUT_FILES, ":b", None)?)
}

// A record whose file does not stand goes as well, and is named.
#[test]
fn records_without_files_go(rt: HostRuntime) -> Result<(), Fail> {
    let mut full = MemDisk::new(rt.alloc());
    let mut disk = MemDisk::new(rt.alloc());
    assert!(rt; go_without_files(rt.alloc(), &mut full, &mut disk)?);
    Ok(())
}
