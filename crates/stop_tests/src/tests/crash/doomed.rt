//! Doomed entries, and what a doomed writer leaves.

use super::*;
use std::test::Fail;

const DOOM: &str = "1000 doom :https://example.com/";

// Whether the entry is doomed and synced, and an image has to be without it.
fn is_gone(alloc: Global, disk: &mut MemDisk) -> Result<bool, Fail> {
    Ok(
        comes_so(alloc, disk, &(DOOM, b"", Status::Done, b"ok\n"))?
            && is_image(alloc, disk, false, None)?
            && !is_image(alloc, disk, false, Some(FILE))?,
    )
}

// After the sync no image has the entry.
#[test]
fn a_doomed_entry_is_gone_after_the_sync(rt: HostRuntime) -> Result<(), Fail> {
    let mut disk = disk_with(rt.alloc(), KEY, FILE)?;
    assert!(rt; is_gone(rt.alloc(), &mut disk)?);
    Ok(())
}

// Whether an image has the entry, another one does not, and none has it damaged.
fn may_stay(alloc: Global, disk: &MemDisk) -> Result<bool, Fail> {
    Ok(
        disk.name_steps() > 0
            && image_prints(alloc, disk, true, Some(FILE), FOUND)?
            && image_prints(alloc, disk, false, None, ABSENT)?
            && !is_image(alloc, disk, true, Some(DAMAGED))?,
    )
}

// Before it an image may have the entry, whole, or not.
#[test]
fn a_doomed_entry_may_stay_until_the_sync(rt: HostRuntime) -> Result<(), Fail> {
    let disk = stopped_when(rt.alloc(), Some(FILE), DOOM, b"", b"ok\n")?;
    assert!(rt; may_stay(rt.alloc(), &disk)?);
    Ok(())
}

// Two writers of one key. The second dooms the entry of the first, which is finished before it. The `get` of
// another key is a call of the disk that changes nothing, so that a stop at it shows what stood before.
const TWO_WRITERS: &[u8] = b"create 0 :https://example.com/\nappend 0 3\nold\nflush\n\
    create 1 :https://example.com/\nappend 1 3\nnew\nget :https://example.com/\nflush\n\
    finish 0\nget :https://example.com/\nflush\nclose 1\nflush\nget :https://example.com/\n\
    read 0 0 9\nclose 0\nflush\nget :https://example.com/\n";

const WRITERS: [Row<'static>; 2] = [
    (
        "1000 run",
        TWO_WRITERS,
        Status::Done,
        b"ok\nok\nok\nok\nok\nunfinished\nok\nok\nunfinished\nok\nok\nok\n\
        found 1 1000 1000 1000 4294967295 0 0 3\n\nnew\ndata 3\nold\nok\nok\n\
        found 1 1000 1000 1000 4294967295 0 0 3\n\nnew\n",
    ),
    ("1000 verify", b"", Status::Done, b"findings 0\n"),
];

// The files of these bodies, made at the moment 1000.
const OLD_FILE: &[u8] = b"old\x53\x36\xf4\x12\xb9\x44\
    \0\0\0\x03\0\0\0\x01\0\0\x03\xe8\0\0\x03\xe8\0\0\x03\xe8\xff\xff\xff\xff\0\0\0\x15\0\0\0\0\
    :https://example.com/\0\0\0\0\x03";

const NEW_FILE: &[u8] = b"new\x62\x86\xbd\x4a\x27\x23\
    \0\0\0\x03\0\0\0\x01\0\0\x03\xe8\0\0\x03\xe8\0\0\x03\xe8\xff\xff\xff\xff\0\0\0\x15\0\0\0\0\
    :https://example.com/\0\0\0\0\x03";

// What is printed, and the files that then stand: of the entry, and of the first and the second writer aside.
type Stage<'a> = (
    &'a [u8],
    Option<&'a [u8]>,
    Option<&'a [u8]>,
    Option<&'a [u8]>,
);

const STAGES: [Stage<'static>; 5] = [
    (b"ok\nok\n", None, Some(b""), None),
    (
        b"ok\nok\nok\nok\nok\nunfinished\n",
        None,
        Some(b""),
        Some(b""),
    ),
    (
        b"ok\nok\nok\nok\nok\nunfinished\nok\nok\nunfinished\n",
        None,
        Some(OLD_FILE),
        Some(b""),
    ),
    (
        b"ok\nok\nok\nok\nok\nunfinished\nok\nok\nunfinished\nok\nok\n",
        Some(NEW_FILE),
        Some(OLD_FILE),
        None,
    ),
    (
        b"ok\nok\nok\nok\nok\nunfinished\nok\nok\nunfinished\nok\nok\nok\n\
            found 1 1000 1000 1000 4294967295 0 0 3\n\nnew\ndata 3\nold\nok\n",
        Some(NEW_FILE),
        None,
        None,
    ),
];

// Whether this file stands aside, or none does.
fn is_aside(disk: &MemDisk, number: u32, file: Option<&[u8]>) -> bool {
    match (disk.file(&Place::Doomed(number)), file) {
        (Some(found), Some(due)) => found == due,
        (None, None) => true,
        _ => false,
    }
}

// Whether just these files stand as soon as this is printed.
fn stage_stands(alloc: Global, stage: &Stage<'_>) -> Result<bool, Fail> {
    let (printed, entry, first, second) = *stage;
    let disk = stopped_when(alloc, None, "1000 run", TWO_WRITERS, printed)?;
    Ok(holds(&disk, KEY, entry) && is_aside(&disk, 0, first) && is_aside(&disk, 1, second))
}

// Of two writers at once the later one's entry is found. The earlier one's stays aside, also once it is
// finished, for as long as it has a slot.
#[test]
fn a_doomed_writer_leaves_its_entry_aside(rt: HostRuntime) -> Result<(), Fail> {
    assert!(rt; rows_turn(rt.alloc(), KEY, None, &WRITERS, Some(NEW_FILE))?);
    for index in 0..STAGES.len() {
        assert!(rt; stage_stands(rt.alloc(), &STAGES[index])?, "stage {index}");
    }
    Ok(())
}
