//! Six entries, of which a clearing takes four.

ghost use Rattle.disk_model.specs.MemDisk.{state_in};
ghost use Rattle.disk_theory.specs.Sound.{IsQuiet};

use super::*;
use std::test::Fail;

// Six entries: four of the origin `^a`, one of it that is pinned, and one of no origin.
pub(super) const SIX: Row<'static> = (
    "1000 run",
    b"create 0 O^a,:1\nappend 0 3\nold\nclose 0\ncreate 0 O^a,:2\nappend 0 3\nold\nclose 0\n\
    create 0 O^a,:3\nappend 0 3\nold\nclose 0\ncreate 0 O^a,:4\nappend 0 3\nold\nclose 0\n\
    create 0 O^a,:p\npin 0\nclose 0\ncreate 0 :o\nclose 0\n",
    Status::Done,
    b"ok\nok\nok\nok\nok\nok\nok\nok\nok\nok\nok\nok\nok\nok\nok\nok\nok\n",
);

// The keys of the four in the order of their names, and their `get`s.
pub(super) const COVERED: [&str; 4] = ["O^a,:3", "O^a,:4", "O^a,:1", "O^a,:2"];

const GETS: [&str; 4] = [
    "1001 get O^a,:3",
    "1001 get O^a,:4",
    "1001 get O^a,:1",
    "1001 get O^a,:2",
];

const OLD: &[u8] = b"found 1 1000 1000 1000 4294967295 0 0 3\n\nold\n";

// What a clearing answers, and one where they are gone.
pub(super) const ALL_CLEARED: &[u8] = b"cleared 4\n";

pub(super) const NONE_CLEARED: &[u8] = b"cleared 0\n";

// What a `list` prints with all four, and with none of them.
pub(super) const LIST_OF_SIX: &[u8] = b"records 6\n\
    04C6287C0869189DFFCDED3FA5DF4DE5F25B5287 1000 F87FB192D2661A8C 65535 65535 0 80000001\n\
    1100F09CA3ED20B84AA16AF6C3D2EFA83059A176 1000 F87FB192D2661A8C 65535 65535 0 80000001\n\
    1A9CD37C0723E3174AFE0CAE7E4EC3092D006460 1000 F87FB192D2661A8C 65535 65535 0 80000001\n\
    247B836081D8C22400AD32FC4DFE5D5A121026E0 1000 DA39A3EE5E6B4B0D 65535 65535 0 80000001\n\
    930E4473C4C3B4CDC8D5B3B5053B40FE41D78F14 1000 F87FB192D2661A8C 65535 65535 0 80000001\n\
    F65E571F361C88F59343756F1F636E363935E6E8 1000 F87FB192D2661A8C 65535 65535 0 84000001\n";

pub(super) const LIST_OF_OTHERS: &[u8] = b"records 2\n\
    247B836081D8C22400AD32FC4DFE5D5A121026E0 1000 DA39A3EE5E6B4B0D 65535 65535 0 80000001\n\
    F65E571F361C88F59343756F1F636E363935E6E8 1000 F87FB192D2661A8C 65535 65535 0 84000001\n";

pub(super) const LIST: &str = "1001 list";

pub(super) const CLEAR: &str = "1001 clear ^a";

// Whether all of the four are found, or none of them, and both others.
pub(super) fn are_found(alloc: Global, disk: &mut MemDisk, is_all: bool) -> Result<bool, Fail> {
    let due = if is_all { OLD } else { ABSENT };
    for get in GETS {
        if !prints(alloc, disk, get, due)? {
            return Ok(false);
        }
    }
    let pinned = b"found 1 1000 1000 1000 4294967295 1 0 0\n\n\n";
    let other = b"found 1 1000 1000 1000 4294967295 0 0 0\n\n\n";
    Ok(
        prints(alloc, disk, "1001 get O^a,:p", pinned)?
            && prints(alloc, disk, "1001 get :o", other)?,
    )
}

// Copies the six entries.
fn copy_six(alloc: Global, made: &MemDisk, disk: &mut MemDisk) -> Result<(), NoMemory>
    requires { IsQuiet (state_in disk.old) }
    ensures { IsQuiet (state_in disk.new) }
{
    copy_file(alloc, made, disk, place_of("O^a,:1"))?;
    copy_file(alloc, made, disk, place_of("O^a,:2"))?;
    copy_file(alloc, made, disk, place_of("O^a,:3"))?;
    copy_file(alloc, made, disk, place_of("O^a,:4"))?;
    copy_file(alloc, made, disk, place_of("O^a,:p"))?;
    copy_file(alloc, made, disk, place_of(":o"))
}

// The six entries, and no index: the update has their files to read.
pub(super) fn six_entries(alloc: Global, made: &MemDisk) -> Result<MemDisk, Fail> {
    let mut disk = MemDisk::new(alloc);
    copy_six(alloc, made, &mut disk)?;
    Ok(disk)
}

// The six entries and the mark.
pub(super) fn six_and_mark(alloc: Global, made: &MemDisk) -> Result<MemDisk, Fail> {
    let mut disk = MemDisk::new(alloc);
    copy_six(alloc, made, &mut disk)?;
    put_file(alloc, &mut disk, Place::Clear, MARK)?;
    Ok(disk)
}

// The same with the index.
pub(super) fn six_mark_and_index(alloc: Global, made: &MemDisk) -> Result<MemDisk, Fail> {
    let mut disk = MemDisk::new(alloc);
    copy_index(alloc, made, &mut disk)?;
    copy_six(alloc, made, &mut disk)?;
    put_file(alloc, &mut disk, Place::Clear, MARK)?;
    Ok(disk)
}
