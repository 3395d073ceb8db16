//! Tables of calls over a disk in memory, each with its answer.

use cache_base::{Name, Names, Numbers};
use disk_model::{LiarDisk, MemDisk};
use disk_theory::{Disk, DiskFault, Place};
use overlay_disk::OverlayDisk;
use std::alloc::Global;
use std::test::Fail;

const ENTRY: Place = Place::Entry(Name([7; 20]));

const OTHER: Place = Place::Entry(Name([9; 20]));

// A call of the disk.
#[derive(Clone, Copy)]
enum Call<'a> {
    Create(Place),
    WriteEnd(Place, u64, &'a [u8]),
    Patch(Place, u32, &'a [u8]),
    Rename(Place, Place),
    Remove(Place),
    Sync,
    Size(Place),
    // Into a buffer of eight zero bytes.
    Read(Place, u64),
    Entries,
    Doomed,
}

// What is answered.
#[derive(Clone, Copy)]
enum Answer<'a> {
    Done,
    Failed,
    Memory,
    Nothing,
    Number(u64),
    // So many bytes, and the buffer after.
    Read(u64, &'a [u8; 8]),
    Names(&'a [Name]),
    Numbers(&'a [u32]),
}

type Row<'a> = (Call<'a>, Answer<'a>);

fn is_done(answered: Result<(), DiskFault>, wanted: &Answer<'_>) -> bool {
    match answered {
        Ok(()) => matches!(*wanted, Answer::Done),
        Err(DiskFault::Failed) => matches!(*wanted, Answer::Failed),
        Err(DiskFault::Memory) => matches!(*wanted, Answer::Memory),
    }
}

fn is_size(answered: Result<Option<u64>, DiskFault>, wanted: &Answer<'_>) -> bool {
    match answered {
        Ok(Some(size)) => matches!(*wanted, Answer::Number(due) if due == size),
        Ok(None) => matches!(*wanted, Answer::Nothing),
        Err(fault) => is_done(Err(fault), wanted),
    }
}

fn is_read<D: Disk + Drop>(
    disk: &mut OverlayDisk<D>,
    place: &Place,
    from: u64,
    wanted: &Answer<'_>,
) -> bool {
    let mut buf = [0; 8];
    match (disk.read(place, from, &mut buf), *wanted) {
        (Ok(count), Answer::Read(due, after)) => count as u64 == due && buf == *after,
        (Err(fault), _) => is_done(Err(fault), wanted),
        _ => false,
    }
}

fn are_entries<D: Disk + Drop>(
    disk: &mut OverlayDisk<D>,
    names: &mut Names,
    wanted: &Answer<'_>,
) -> bool {
    match (disk.entries(names), *wanted) {
        (Ok(()), Answer::Names(due)) => names.as_slice() == due,
        (Err(fault), _) => is_done(Err(fault), wanted),
        _ => false,
    }
}

fn are_doomed<D: Disk + Drop>(
    disk: &mut OverlayDisk<D>,
    numbers: &mut Numbers,
    wanted: &Answer<'_>,
) -> bool {
    match (disk.doomed(numbers), *wanted) {
        (Ok(()), Answer::Numbers(due)) => numbers.as_slice() == due,
        (Err(fault), _) => is_done(Err(fault), wanted),
        _ => false,
    }
}

fn answers<D: Disk + Drop>(
    alloc: Global,
    disk: &mut OverlayDisk<D>,
    call: &Call<'_>,
    wanted: &Answer<'_>,
) -> bool {
    match *call {
        Call::Create(place) => is_done(disk.create(&place), wanted),
        Call::WriteEnd(place, from, bytes) => is_done(disk.write_end(&place, from, bytes), wanted),
        Call::Patch(place, from, bytes) => {
            is_done(disk.patch(&place, u64::from(from), bytes), wanted)
        }
        Call::Rename(from, to) => is_done(disk.rename(&from, &to), wanted),
        Call::Remove(place) => is_done(disk.remove(&place), wanted),
        Call::Sync => is_done(disk.sync(), wanted),
        Call::Size(place) => is_size(disk.size(&place), wanted),
        Call::Read(place, from) => is_read(disk, &place, from, wanted),
        Call::Entries => are_entries(disk, &mut Names::new(alloc), wanted),
        Call::Doomed => are_doomed(disk, &mut Numbers::new(alloc), wanted),
    }
}

// The number of the first row that is answered otherwise, or that of rows.
fn first_wrong<D: Disk + Drop>(
    alloc: Global,
    disk: &mut OverlayDisk<D>,
    rows: &[Row<'_>],
) -> usize {
    for (at, (call, wanted)) in rows.iter().enumerate() {
        if !answers(alloc, disk, call, wanted) {
            return at;
        }
    }
    rows.len()
}

// Makes a file with these bytes.
fn make<D: Disk>(disk: &mut D, place: &Place, bytes: &[u8]) -> Result<(), DiskFault> {
    disk.create(place)?;
    disk.write_end(place, 0, bytes)
}

const OVER_FILES: &[Row<'static>] = &[
    (Call::Size(ENTRY), Answer::Number(5)),
    (Call::Read(ENTRY, 1), Answer::Read(4, b"ello\0\0\0\0")),
    (Call::Entries, Answer::Names(&[Name([7; 20])])),
    // The beginning stays below, and the rest is in memory.
    (Call::WriteEnd(ENTRY, 6, b"x"), Answer::Failed),
    (Call::WriteEnd(ENTRY, 3, b"p me"), Answer::Done),
    (Call::Size(ENTRY), Answer::Number(7)),
    (Call::Read(ENTRY, 0), Answer::Read(7, b"help me\0")),
    (Call::Read(ENTRY, 2), Answer::Read(5, b"lp me\0\0\0")),
    (Call::Read(ENTRY, 5), Answer::Read(2, b"me\0\0\0\0\0\0")),
    (Call::Read(ENTRY, 7), Answer::Read(0, &[0; 8])),
    (Call::WriteEnd(ENTRY, 5, b"us both"), Answer::Done),
    (Call::Read(ENTRY, 4), Answer::Read(8, b" us both")),
    // A patch before the rest takes what lies between into memory.
    (Call::Patch(ENTRY, 1, b"ew"), Answer::Done),
    (Call::Read(ENTRY, 0), Answer::Read(8, b"hewp us ")),
    (Call::Patch(ENTRY, 9, b"ull"), Answer::Done),
    (Call::Read(ENTRY, 4), Answer::Read(8, b" us bull")),
    (Call::Patch(ENTRY, 10, b"ull"), Answer::Failed),
    (Call::Size(ENTRY), Answer::Number(12)),
    // A file that moves takes its content along.
    (Call::Rename(Place::Index, Place::Log), Answer::Done),
    (Call::Size(Place::Index), Answer::Nothing),
    (Call::Rename(Place::Index, Place::Tmp), Answer::Failed),
    (Call::Read(Place::Log, 2), Answer::Read(3, b"dex\0\0\0\0\0")),
    (Call::WriteEnd(Place::Log, 2, b""), Answer::Done),
    (Call::Create(Place::Index), Answer::Done),
    (Call::Size(Place::Index), Answer::Number(0)),
    (
        Call::Read(Place::Log, 0),
        Answer::Read(2, b"in\0\0\0\0\0\0"),
    ),
    (Call::Rename(Place::Log, Place::Log), Answer::Done),
    (Call::Size(Place::Log), Answer::Number(2)),
    (Call::Remove(Place::Log), Answer::Done),
    (Call::Remove(Place::Log), Answer::Failed),
    (Call::Read(Place::Log, 0), Answer::Read(0, &[0; 8])),
    // Lists follow.
    (Call::Rename(ENTRY, OTHER), Answer::Done),
    (Call::Create(ENTRY), Answer::Done),
    (
        Call::Entries,
        Answer::Names(&[Name([7; 20]), Name([9; 20])]),
    ),
    (Call::Rename(OTHER, Place::Doomed(3)), Answer::Done),
    (Call::Entries, Answer::Names(&[Name([7; 20])])),
    (Call::Doomed, Answer::Numbers(&[3, 8])),
    (Call::Remove(Place::Doomed(8)), Answer::Done),
    (Call::Doomed, Answer::Numbers(&[3])),
    (Call::Sync, Answer::Done),
];

#[test]
fn changes_are_seen_over_the_files_below(rt: HostRuntime) -> Result<(), Fail> {
    let alloc = rt.alloc();
    let mut below = MemDisk::new(alloc);
    make(&mut below, &ENTRY, b"hello")?;
    make(&mut below, &Place::Index, b"index")?;
    make(&mut below, &Place::Doomed(8), b"doomed")?;
    let mut disk = OverlayDisk::new(alloc, below);
    assert!(rt; first_wrong(alloc, &mut disk, OVER_FILES) == OVER_FILES.len());
    Ok(())
}

const OVER_FAULTS: &[Row<'static>] = &[
    (Call::Size(ENTRY), Answer::Failed),
    (Call::Create(OTHER), Answer::Done),
    (Call::Size(OTHER), Answer::Number(0)),
    (Call::Read(ENTRY, 0), Answer::Failed),
    (Call::WriteEnd(ENTRY, 0, b"x"), Answer::Failed),
    (Call::Remove(ENTRY), Answer::Failed),
    (Call::Entries, Answer::Failed),
    (Call::Sync, Answer::Done),
];

// All further calls of the disk below fail.
#[test]
fn a_look_below_that_fails_is_answered_so(rt: HostRuntime) -> Result<(), Fail> {
    let alloc = rt.alloc();
    let mut below = MemDisk::new(alloc);
    make(&mut below, &ENTRY, b"hello")?;
    below.stop_after(2);
    let mut disk = OverlayDisk::new(alloc, below);
    assert!(rt; first_wrong(alloc, &mut disk, OVER_FAULTS) == OVER_FAULTS.len());
    Ok(())
}

const OVER_LIES: &[Row<'static>] = &[
    (Call::Size(ENTRY), Answer::Number(u64::MAX)),
    (Call::Patch(ENTRY, 0, b"x"), Answer::Memory),
    (Call::Size(ENTRY), Answer::Number(u64::MAX)),
    (Call::WriteEnd(ENTRY, 3, b"x"), Answer::Done),
    (Call::Size(ENTRY), Answer::Number(4)),
    // Fewer bytes are read below than were asked for.
    (
        Call::Read(ENTRY, 0),
        Answer::Read(2, &[7, 7, 0, 0, 0, 0, 0, 0]),
    ),
    (Call::Patch(ENTRY, 0, b"x"), Answer::Failed),
];

#[test]
fn lengths_below_that_are_no_lengths_do_no_harm(rt: HostRuntime) -> Result<(), Fail> {
    let alloc = rt.alloc();
    let mut disk = OverlayDisk::new(alloc, LiarDisk::new(u64::MAX, 7));
    assert!(rt; first_wrong(alloc, &mut disk, OVER_LIES) == OVER_LIES.len());
    Ok(())
}
