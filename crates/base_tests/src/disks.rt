//! The disks in memory: tables of calls, each with its answer.

use cache_base::{Bytes, Name, Names, NoMemory, Numbers};
use disk_model::{ImageFault, MemDisk};
use disk_theory::{Disk, DiskFault, Place};
use std::alloc::Global;
use std::process::Abort;
use std::test::Fail;

mod changes;
mod images;
mod liar;
mod listing;

const ENTRY: Place = Place::Entry(Name([7; 20]));

// A call of the disk, or a look at it, or a plan, which are no calls.
#[derive(Clone, Copy)]
enum Call<'a> {
    // A new file of these bytes, by two calls.
    Make(Place, &'a [u8]),
    Create(Place),
    // These three ask for the size first, and do nothing where they may not be called.
    Patch(Place, u64, &'a [u8]),
    Rename(Place, Place),
    Remove(Place),
    Sync,
    Size(Place),
    // Into a buffer of these bytes.
    Read(Place, u64, &'a [u8; 8]),
    Entries,
    Doomed,
    // From here on no calls.
    File(Place),
    SyncedFile(Place),
    Calls,
    NameSteps,
    // A crash after so many name steps, which may leave these files or not.
    Crash(u64, &'a [(Place, &'a [u8])]),
    FailAt(&'a [u32]),
    StopAfter(u64),
}

// What is answered.
#[derive(Clone, Copy)]
enum Answer<'a> {
    Done,
    Failed,
    Nothing,
    Number(u64),
    Bytes(&'a [u8]),
    // So many bytes, and the buffer after.
    Read(u64, &'a [u8; 8]),
    Names(&'a [Name]),
    Numbers(&'a [u32]),
}

type Row<'a> = (Call<'a>, Answer<'a>);

// Makes a file with these bytes, through the trait.
fn make<D: Disk>(disk: &mut D, place: &Place, bytes: &[u8]) -> Result<(), DiskFault> {
    disk.create(place)?;
    disk.write_end(place, 0, bytes)
}

// Removes a file, if one stands there.
fn remove_there<D: Disk>(disk: &mut D, place: &Place) -> Result<bool, DiskFault> {
    match disk.size(place)? {
        None => Ok(false),
        Some(_) => {
            disk.remove(place)?;
            Ok(true)
        }
    }
}

// Renames a file, if one stands there and the places differ.
fn rename_there<D: Disk>(disk: &mut D, from: &Place, to: &Place) -> Result<bool, DiskFault> {
    if from == to {
        return Ok(false);
    }
    match disk.size(from)? {
        None => Ok(false),
        Some(_) => {
            disk.rename(from, to)?;
            Ok(true)
        }
    }
}

// Writes inside a file, if it has so many bytes there.
fn patch_there<D: Disk>(
    disk: &mut D,
    place: &Place,
    from: u64,
    bytes: &[u8],
) -> Result<bool, DiskFault> {
    match disk.size(place)? {
        None => Ok(false),
        Some(size) => {
            if from > 1000 || size < from || size - from < bytes.len() as u64 {
                return Ok(false);
            }
            disk.patch(place, from, bytes)?;
            Ok(true)
        }
    }
}

fn numbers(alloc: Global, of: &[u32]) -> Result<Numbers, NoMemory> {
    let mut list = Numbers::new(alloc);
    for number in of {
        list.push(*number)?;
    }
    Ok(list)
}

fn is_done(answered: Result<(), DiskFault>, wanted: &Answer<'_>) -> bool {
    match answered {
        Ok(()) => matches!(*wanted, Answer::Done),
        Err(DiskFault::Failed) => matches!(*wanted, Answer::Failed),
        Err(DiskFault::Memory) => false,
    }
}

// Of a call that is only made where it may be.
fn is_done_there(answered: Result<bool, DiskFault>, wanted: &Answer<'_>) -> bool {
    match answered {
        Ok(true) => matches!(*wanted, Answer::Done),
        Ok(false) => matches!(*wanted, Answer::Nothing),
        Err(fault) => is_done(Err(fault), wanted),
    }
}

fn is_number(number: u64, wanted: &Answer<'_>) -> bool {
    matches!(*wanted, Answer::Number(due) if due == number)
}

fn is_size(answered: Result<Option<u64>, DiskFault>, wanted: &Answer<'_>) -> bool {
    match answered {
        Ok(Some(size)) => is_number(size, wanted),
        Ok(None) => matches!(*wanted, Answer::Nothing),
        Err(fault) => is_done(Err(fault), wanted),
    }
}

fn is_content(content: Option<&[u8]>, wanted: &Answer<'_>) -> bool {
    match (content, *wanted) {
        (Some(found), Answer::Bytes(due)) => found == due,
        (None, Answer::Nothing) => true,
        _ => false,
    }
}

fn is_read<D: Disk>(
    disk: &mut D,
    place: &Place,
    from: u64,
    before: &[u8; 8],
    wanted: &Answer<'_>,
) -> bool {
    let mut buf = *before;
    match (disk.read(place, from, &mut buf), *wanted) {
        (Ok(count), Answer::Read(due, after)) => count as u64 == due && buf == *after,
        _ => false,
    }
}

fn are_entries<D: Disk>(disk: &mut D, names: &mut Names, wanted: &Answer<'_>) -> bool {
    match (disk.entries(names), *wanted) {
        (Ok(()), Answer::Names(due)) => names.as_slice() == due,
        (Err(fault), _) => is_done(Err(fault), wanted),
        _ => false,
    }
}

fn are_doomed<D: Disk>(disk: &mut D, numbers: &mut Numbers, wanted: &Answer<'_>) -> bool {
    match (disk.doomed(numbers), *wanted) {
        (Ok(()), Answer::Numbers(due)) => numbers.as_slice() == due,
        (Err(fault), _) => is_done(Err(fault), wanted),
        _ => false,
    }
}

// Whether a change is answered so.
fn change_answers<D: Disk>(disk: &mut D, call: &Call<'_>, wanted: &Answer<'_>) -> bool {
    match *call {
        Call::Make(place, bytes) => is_done(make(disk, &place, bytes), wanted),
        Call::Create(place) => is_done(disk.create(&place), wanted),
        Call::Patch(place, from, bytes) => {
            is_done_there(patch_there(disk, &place, from, bytes), wanted)
        }
        Call::Rename(from, to) => is_done_there(rename_there(disk, &from, &to), wanted),
        Call::Remove(place) => is_done_there(remove_there(disk, &place), wanted),
        Call::Sync => is_done(disk.sync(), wanted),
        _ => false,
    }
}

// Whether a call that changes nothing is answered so.
fn read_answers<D: Disk>(
    alloc: Global,
    disk: &mut D,
    call: &Call<'_>,
    wanted: &Answer<'_>,
) -> bool {
    match *call {
        Call::Size(place) => is_size(disk.size(&place), wanted),
        Call::Read(place, from, before) => is_read(disk, &place, from, before, wanted),
        Call::Entries => are_entries(disk, &mut Names::new(alloc), wanted),
        Call::Doomed => are_doomed(disk, &mut Numbers::new(alloc), wanted),
        _ => false,
    }
}

// Whether a look at the disk shows so.
fn look_answers(disk: &MemDisk, call: &Call<'_>, wanted: &Answer<'_>) -> bool {
    match *call {
        Call::File(place) => is_content(disk.file(&place), wanted),
        Call::SyncedFile(place) => is_content(disk.synced_file(&place), wanted),
        Call::Calls => is_number(disk.calls(), wanted),
        Call::NameSteps => is_number(disk.name_steps() as u64, wanted),
        _ => false,
    }
}

// Whether a plan is made.
fn is_planned(alloc: Global, disk: &mut MemDisk, call: &Call<'_>) -> Result<bool, NoMemory> {
    match *call {
        Call::FailAt(calls) => disk.fail_at(numbers(alloc, calls)?),
        Call::StopAfter(calls) => disk.stop_after(calls),
        _ => return Ok(false),
    }
    Ok(true)
}

fn content(alloc: Global, bytes: &[u8]) -> Result<Bytes, NoMemory> {
    let mut all = Bytes::new(alloc);
    all.extend(bytes)?;
    Ok(all)
}

fn contents(alloc: Global, files: &[(Place, &[u8])]) -> Result<Vec<(Place, Bytes)>, NoMemory> {
    let mut all = Vec::new(alloc);
    for index in 0..files.len() {
        let (place, bytes) = files[index];
        all.push((place, content(alloc, bytes)?))?;
    }
    Ok(all)
}

// Whether each of these files stands.
fn all_stand(disk: &MemDisk, files: &[(Place, &[u8])]) -> bool {
    for index in 0..files.len() {
        let (place, bytes) = files[index];
        if disk.file(&place) != Some(bytes) {
            return false;
        }
    }
    true
}

// Whether a crash may leave these files, and does, or may not.
fn crash_answers(
    alloc: Global,
    disk: &MemDisk,
    call: &Call<'_>,
    wanted: &Answer<'_>,
) -> Result<bool, NoMemory> {
    match *call {
        Call::Crash(names, files) => match disk.image(names as usize, contents(alloc, files)?) {
            Ok(left) => Ok(matches!(*wanted, Answer::Done) && all_stand(&left, files)),
            Err(ImageFault::NotAnImage) => Ok(matches!(*wanted, Answer::Nothing)),
            Err(ImageFault::Memory) => Err(NoMemory),
        },
        _ => Ok(false),
    }
}

fn answers(
    alloc: Global,
    disk: &mut MemDisk,
    call: &Call<'_>,
    wanted: &Answer<'_>,
) -> Result<bool, NoMemory> {
    Ok(
        change_answers(disk, call, wanted)
            || read_answers(alloc, disk, call, wanted)
            || look_answers(disk, call, wanted)
            || is_planned(alloc, disk, call)?
            || crash_answers(alloc, disk, call, wanted)?,
    )
}

// A disk on which this file stands, synced.
fn disk_with(alloc: Global, place: Place, bytes: &[u8]) -> Result<MemDisk, NoMemory> {
    let content = content(alloc, bytes)?;
    let mut disk = MemDisk::new(alloc);
    disk.put_file(place, content)?;
    Ok(disk)
}

// How many rows are answered so, one after the other, up to the first that is not.
fn rows_answered(alloc: Global, disk: &mut MemDisk, rows: &[Row<'_>]) -> Result<usize, NoMemory> {
    for index in 0..rows.len() {
        let (call, wanted) = rows[index];
        if !answers(alloc, disk, &call, &wanted)? {
            return Ok(index);
        }
    }
    Ok(rows.len())
}

// Asserts that all rows are answered so, over a new disk.
fn all_answered(rt: &impl Abort, alloc: Global, rows: &[Row<'_>]) -> Result<(), Fail> {
    let answered = rows_answered(alloc, &mut MemDisk::new(alloc), rows)?;
    assert_eq!(rt; answered, rows.len());
    Ok(())
}

// The same over a disk on which one file stands, synced.
fn all_answered_with(
    rt: &impl Abort,
    alloc: Global,
    place: Place,
    bytes: &[u8],
    rows: &[Row<'_>],
) -> Result<(), Fail> {
    let answered = rows_answered(alloc, &mut disk_with(alloc, place, bytes)?, rows)?;
    assert_eq!(rt; answered, rows.len());
    Ok(())
}

const ONE_FILE: &[Row<'static>] = &[
    (Call::Make(ENTRY, b"hello"), Answer::Done),
    (Call::Sync, Answer::Done),
    (Call::Size(ENTRY), Answer::Number(5)),
    (Call::File(ENTRY), Answer::Bytes(b"hello")),
    (Call::Size(Place::Index), Answer::Nothing),
    (Call::Remove(ENTRY), Answer::Done),
    (Call::File(ENTRY), Answer::Nothing),
    (Call::Calls, Answer::Number(7)),
];

#[test]
fn a_file_is_made_written_synced_and_removed(rt: HostRuntime) -> Result<(), Fail> {
    all_answered(&rt, rt.alloc(), ONE_FILE)
}

const BEFORE_ANY_CALL: &[Row<'static>] = &[
    (Call::Calls, Answer::Number(0)),
    (Call::Size(Place::Index), Answer::Number(3)),
];

#[test]
fn a_file_is_there_before_any_call(rt: HostRuntime) -> Result<(), Fail> {
    all_answered_with(&rt, rt.alloc(), Place::Index, b"old", BEFORE_ANY_CALL)
}

const STOPPED: &[Row<'static>] = &[
    (Call::StopAfter(1), Answer::Done),
    (Call::Create(ENTRY), Answer::Done),
    (Call::Create(Place::Index), Answer::Failed),
    (Call::Sync, Answer::Failed),
];

#[test]
fn a_stop_fails_each_later_call(rt: HostRuntime) -> Result<(), Fail> {
    all_answered(&rt, rt.alloc(), STOPPED)
}

const PLANNED: &[Row<'static>] = &[
    (Call::FailAt(&[2, 3]), Answer::Done),
    (Call::Sync, Answer::Done),
    (Call::Create(ENTRY), Answer::Failed),
    (Call::Size(ENTRY), Answer::Failed),
    (Call::Size(ENTRY), Answer::Number(0)),
];

#[test]
fn planned_calls_fail_and_are_recorded(rt: HostRuntime) -> Result<(), Fail> {
    all_answered(&rt, rt.alloc(), PLANNED)
}

// The buffer of each read is what the one before left.
const READ: &[Row<'static>] = &[
    (Call::Make(ENTRY, b"hello"), Answer::Done),
    (
        Call::Read(ENTRY, 1, b"........"),
        Answer::Read(4, b"ello...."),
    ),
    (
        Call::Read(ENTRY, 5, b"ello...."),
        Answer::Read(0, b"ello...."),
    ),
    (
        Call::Read(Place::Index, 0, b"ello...."),
        Answer::Read(0, b"ello...."),
    ),
];

#[test]
fn bytes_come_back_from_an_offset(rt: HostRuntime) -> Result<(), Fail> {
    all_answered(&rt, rt.alloc(), READ)
}
