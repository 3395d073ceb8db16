//! What is found at `clear` in each image of a disk that stopped while a mark was stored or removed.

use super::*;
use context_clear::{end, store};
use disk_theory::{Disk, DiskFault};

// A number that no entry uses.
const FREE: u32 = 64;

// Stores the mark of the origin of no bytes, after a look whether its number is free.
fn store_there<D: Disk>(disk: &mut D) -> Result<bool, DiskFault> {
    if disk.size(&Place::Doomed(FREE))?.is_some() {
        return Ok(false);
    }
    store(disk, NO_ORIGIN, FREE)?;
    Ok(true)
}

// Removes the file at `clear`, after a look whether one stands there.
fn end_there<D: Disk>(disk: &mut D) -> Result<bool, DiskFault> {
    if disk.size(&Place::Clear)?.is_none() {
        return Ok(false);
    }
    end(disk)?;
    Ok(true)
}

// What may stand at either place.
const CONTENTS: [Option<&'static [u8]>; 6] = [
    None,
    Some(MARK),
    Some(SOME_MARK),
    Some(SHORT),
    Some(b"\xda\x39\xa3\xee\0\0\0\0\0\0\0\0"),
    Some(b""),
];

fn add(
    alloc: Global,
    files: &mut Vec<(Place, Bytes)>,
    place: Place,
    content: Option<&[u8]>,
) -> Result<(), NoMemory> {
    if let Some(found) = content {
        let mut file = Bytes::new(alloc);
        file.extend(found)?;
        files.push((place, file))?;
    }
    Ok(())
}

// The image with the names after so many name steps and these contents at `clear` and at the number, if it is one.
fn image_of(
    alloc: Global,
    disk: &MemDisk,
    names: usize,
    clear: Option<&[u8]>,
    doomed: Option<&[u8]>,
) -> Result<Option<MemDisk>, NoMemory> {
    let mut files = Vec::new(alloc);
    add(alloc, &mut files, Place::Clear, clear)?;
    add(alloc, &mut files, Place::Doomed(FREE), doomed)?;
    Ok(disk.image(names, files).ok())
}

// What is found at `clear` in some image.
#[derive(Clone, Copy, PartialEq)]
struct Found {
    nothing: bool,
    mark: bool,
    some_mark: bool,
}

// What is found with one image more, or none where anything else stands there.
fn found_with(found: Found, image: &mut MemDisk) -> Option<Found> {
    match stored(image) {
        Ok(Some(NO_ORIGIN)) => Some(Found {
            mark: true,
            ..found
        }),
        Ok(Some(SOME_ORIGIN)) => Some(Found {
            some_mark: true,
            ..found
        }),
        Ok(None) if image.file(&Place::Clear).is_none() => Some(Found {
            nothing: true,
            ..found
        }),
        _ => None,
    }
}

// The same for one content at `clear` and each at the number.
fn found_at(
    alloc: Global,
    disk: &MemDisk,
    names: usize,
    clear: Option<&[u8]>,
    before: Option<Found>,
) -> Result<Option<Found>, NoMemory> {
    let mut all = before;
    for doomed in CONTENTS {
        if let Some(mut image) = image_of(alloc, disk, names, clear, doomed)? {
            all = match all {
                Some(found) => found_with(found, &mut image),
                None => None,
            };
        }
    }
    Ok(all)
}

// What is found in all images of a disk.
fn found_in(alloc: Global, disk: &MemDisk) -> Result<Option<Found>, NoMemory> {
    let mut all = Some(Found {
        nothing: false,
        mark: false,
        some_mark: false,
    });
    for names in 0..=disk.name_steps() {
        for clear in CONTENTS {
            all = found_at(alloc, disk, names, clear, all)?;
        }
    }
    Ok(all)
}

const NOTHING: Found = Found {
    nothing: true,
    mark: false,
    some_mark: false,
};

const THE_MARK: Found = Found {
    nothing: false,
    mark: true,
    some_mark: false,
};

const SOME: Found = Found {
    nothing: false,
    mark: false,
    some_mark: true,
};

const NOTHING_OR_THE_MARK: Found = Found {
    nothing: true,
    mark: true,
    some_mark: false,
};

const SOME_OR_THE_MARK: Found = Found {
    nothing: false,
    mark: true,
    some_mark: true,
};

// What stands at `clear`, and what is found there for a stop after 0, 1, 2 .. calls, of which the first is the look.
type Stops<'a> = (Option<&'a [u8]>, &'a [Found]);

// Of the storing, whose fifth call moves the mark to its place.
const STORING: &[Stops<'static>] = &[
    (
        None,
        &[
            NOTHING,
            NOTHING,
            NOTHING,
            NOTHING,
            NOTHING_OR_THE_MARK,
            NOTHING_OR_THE_MARK,
        ],
    ),
    (
        Some(SOME_MARK),
        &[SOME, SOME, SOME, SOME, SOME_OR_THE_MARK, SOME_OR_THE_MARK],
    ),
];

// Of the removal, whose third call syncs it.
const ENDING: &[Stops<'static>] = &[(
    Some(MARK),
    &[THE_MARK, NOTHING_OR_THE_MARK, NOTHING_OR_THE_MARK, NOTHING],
)];

// Whether a run of so many calls that stops after fewer of them fails in the next, and is done where it makes them all.
fn is_answered(disk: &MemDisk, answer: Result<bool, DiskFault>, calls: u64, whole: u64) -> bool {
    if calls < whole {
        answer == Err(DiskFault::Failed) && disk.calls() == calls + 1
    } else {
        answer == Ok(true) && disk.calls() == whole
    }
}

fn storing_found(
    alloc: Global,
    file: Option<&[u8]>,
    calls: u64,
) -> Result<Option<Found>, NoMemory> {
    let mut disk = disk_with(alloc, file)?;
    disk.stop_after(calls);
    let answer = store_there(&mut disk);
    if !is_answered(&disk, answer, calls, 5) {
        return Ok(None);
    }
    found_in(alloc, &disk)
}

fn ending_found(alloc: Global, file: Option<&[u8]>, calls: u64) -> Result<Option<Found>, NoMemory> {
    let mut disk = disk_with(alloc, file)?;
    disk.stop_after(calls);
    let answer = end_there(&mut disk);
    if !is_answered(&disk, answer, calls, 3) {
        return Ok(None);
    }
    found_in(alloc, &disk)
}

#[test]
fn a_stop_while_a_mark_is_stored_leaves_it_whole_or_not_at_all(
    rt: HostRuntime,
) -> Result<(), Fail> {
    for row in STORING {
        for calls in 0..row.1.len() {
            let found = storing_found(rt.alloc(), row.0, calls as u64)?;
            assert!(rt; found == Some(row.1[calls]), "after {calls} calls");
        }
    }
    Ok(())
}

#[test]
fn a_stop_while_a_mark_is_removed_leaves_it_or_nothing(rt: HostRuntime) -> Result<(), Fail> {
    for row in ENDING {
        for calls in 0..row.1.len() {
            let found = ending_found(rt.alloc(), row.0, calls as u64)?;
            assert!(rt; found == Some(row.1[calls]), "after {calls} calls");
        }
    }
    Ok(())
}
