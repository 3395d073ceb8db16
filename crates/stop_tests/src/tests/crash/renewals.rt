//! An entry of version 1 that is used, or over which another is made.

use super::*;
use std::test::Fail;

// A script over the file of version 1, the file that it leaves, and what a `get` then prints.
#[derive(Clone, Copy)]
struct Renewal<'a> {
    script: &'a [u8],
    new: &'a [u8],
    text: &'a [u8],
}

const USE: &[u8] = b"open 0 :https://example.com/\nuse 0\nclose 0\n";

const USE_OF_OLD: Renewal<'static> = Renewal {
    script: USE,
    new: USED,
    text: FOUND_USED,
};

const CREATE: &[u8] = b"create 0 :https://example.com/\nappend 0 5\nworld\nclose 0\n";

// The file of that entry, made at the moment 1000, and what `get` prints of it.
const WORLD: &[u8] = b"world\xe5\x4f\x2c\xe8\xcc\x83\
    \0\0\0\x03\0\0\0\x01\0\0\x03\xe8\0\0\x03\xe8\0\0\x03\xe8\xff\xff\xff\xff\0\0\0\x15\0\0\0\0\
    :https://example.com/\0\0\0\0\x05";

const FOUND_WORLD: &[u8] = b"found 1 1000 1000 1000 4294967295 0 0 5\n\nworld\n";

const CREATE_OVER_OLD: Renewal<'static> = Renewal {
    script: CREATE,
    new: WORLD,
    text: FOUND_WORLD,
};

// Whether a `get` prints this, and `verify` then finds nothing.
fn agrees(alloc: Global, image: &mut MemDisk, text: &[u8]) -> Result<bool, Fail> {
    Ok(prints(alloc, image, GET, text)? && prints(alloc, image, "1000 verify", b"findings 0\n")?)
}

// The same where there is an image with this file.
fn image_agrees(
    alloc: Global,
    disk: &MemDisk,
    synced: bool,
    file: Option<&[u8]>,
    text: &[u8],
) -> Result<bool, Fail> {
    match image_of(alloc, disk, synced, &[(KEY, file)])? {
        Some(mut image) => agrees(alloc, &mut image, text),
        None => Ok(true),
    }
}

// The same of the old file, the new one and none.
fn images_agree(
    alloc: Global,
    disk: &MemDisk,
    synced: bool,
    renewal: &Renewal<'_>,
) -> Result<bool, Fail> {
    Ok(
        image_agrees(alloc, disk, synced, Some(FIRST), FOUND)?
            && image_agrees(alloc, disk, synced, Some(renewal.new), renewal.text)?
            && image_agrees(alloc, disk, synced, None, ABSENT)?,
    )
}

// Whether the images agree after a run that stops after so many calls; whether it stopped at all.
fn stop_agrees(alloc: Global, renewal: &Renewal<'_>, stop: u64) -> Result<(bool, bool), Fail> {
    let mut disk = disk_with(alloc, KEY, FIRST)?;
    disk.stop_after(stop);
    let (status, _) = ends(alloc, &mut disk, "1000 run", renewal.script)?;
    let agrees = images_agree(alloc, &disk, true, renewal)?
        && images_agree(alloc, &disk, false, renewal)?;
    Ok((status == Status::Disk, agrees))
}

// Whether the images agree after each stop, up to the first number of calls after which the run does not stop.
fn stops_agree(alloc: Global, renewal: &Renewal<'_>) -> Result<bool, Fail> {
    for stop in 0..100u64 {
        let (stops, agrees) = stop_agrees(alloc, renewal, stop)?;
        if !agrees {
            return Ok(false);
        }
        if !stops {
            return Ok(stop > u64::from(OPENING));
        }
    }
    Ok(false)
}

// An old entry that is used is found as it was or as version 3, and an index that is trusted agrees.
#[test]
fn each_stop_of_a_use_leaves_the_old_entry_or_the_new_one(rt: HostRuntime) -> Result<(), Fail> {
    assert!(rt; stops_agree(rt.alloc(), &USE_OF_OLD)?);
    Ok(())
}

// One over which another is made is found as it was, or the other is, whole, or none.
#[test]
fn each_stop_of_a_create_leaves_the_old_entry_or_the_new_one_or_none(
    rt: HostRuntime,
) -> Result<(), Fail> {
    assert!(rt; stops_agree(rt.alloc(), &CREATE_OVER_OLD)?);
    Ok(())
}

// Whether an image has the old entry, and another one the new.
fn may_be_used(alloc: Global, disk: &MemDisk) -> Result<bool, Fail> {
    Ok(
        image_prints(alloc, disk, true, Some(FIRST), FOUND)?
            && image_prints(alloc, disk, true, Some(USED), FOUND_USED)?,
    )
}

// Before the sync an image may have the old entry or the new one.
#[test]
fn a_used_entry_may_be_old_until_the_sync(rt: HostRuntime) -> Result<(), Fail> {
    let disk = stopped_when(rt.alloc(), Some(FIRST), "1000 run", USE, b"ok\nok\nok\n")?;
    assert!(rt; may_be_used(rt.alloc(), &disk)?);
    Ok(())
}

// Whether an image has the old entry, and another one has none.
fn may_be_removed(alloc: Global, disk: &MemDisk) -> Result<bool, Fail> {
    Ok(
        image_prints(alloc, disk, true, Some(FIRST), FOUND)?
            && image_prints(alloc, disk, false, None, ABSENT)?,
    )
}

// The same where the new entry is not finished.
#[test]
fn an_old_entry_may_stay_while_a_new_one_is_written(rt: HostRuntime) -> Result<(), Fail> {
    let disk = stopped_when(rt.alloc(), Some(FIRST), "1000 run", CREATE, b"ok\nok\n")?;
    assert!(rt; may_be_removed(rt.alloc(), &disk)?);
    Ok(())
}

const CREATED: [Row<'static>; 3] = [
    ("1000 run", CREATE, Status::Done, b"ok\nok\nok\n"),
    (GET, b"", Status::Done, FOUND_WORLD),
    ("1000 verify", b"", Status::Done, b"findings 0\n"),
];

#[test]
fn an_entry_that_is_made_over_an_old_one_is_new(rt: HostRuntime) -> Result<(), Fail> {
    assert!(rt; rows_turn(rt.alloc(), KEY, Some(FIRST), &CREATED, Some(WORLD))?);
    Ok(())
}
