//! The disk over the folder that a test runs in, beside std's own calls on it: tables of calls, each with its answer.

mod claims;
mod earlier;
mod files;
mod names;

use cache_base::Name;
use disk_theory::{Disk, DiskFault, Place};
use real_disk::RealDisk;
use std::alloc::AllocError;
use std::fs;
use std::os::unix::fs::{PermissionsExt, symlink};

type HostDisk<'a> = RealDisk<'a, HostRuntime>;

// The names of 40 digits `0` and of 40 digits `F`.
const FIRST: Place = Place::Entry(Name([0; 20]));

const LAST: Place = Place::Entry(Name([255; 20]));

const FIRST_PATH: &str = "cache/entries/0000000000000000000000000000000000000000";

const LAST_PATH: &str = "cache/entries/FFFFFFFFFFFFFFFFFFFFFFFFFFFFFFFFFFFFFFFF";

fn disk_in<'a>(rt: &'a HostRuntime, dir: &str) -> Result<HostDisk<'a>, AllocError> {
    Ok(RealDisk::new(rt, String::from_str(rt.alloc(), dir)?))
}

fn make(disk: &mut HostDisk<'_>, place: &Place, bytes: &[u8]) -> Result<(), DiskFault> {
    disk.create(place)?;
    disk.write_end(place, 0, bytes)
}

// A call of the disk, or a look at the folder or a change of it by the system.
#[derive(Clone, Copy)]
enum Call<'a> {
    // A new file of these bytes.
    Make(Place, &'a [u8]),
    Create(Place),
    WriteEnd(Place, u64, &'a [u8]),
    Patch(Place, u64, &'a [u8]),
    // Four bytes.
    Read(Place, u64),
    Size(Place),
    Rename(Place, Place),
    Remove(Place),
    Sync,
    Leave,
    // By the system, at a path.
    File(&'a str),
    Mode(&'a str, u32),
    WriteFile(&'a str, &'a [u8]),
    MakeFolder(&'a str),
    Link(&'a str, &'a str),
    LinkHard(&'a str, &'a str),
    RemoveFile(&'a str),
}

// What is answered.
#[derive(Clone, Copy)]
enum Answer<'a> {
    Done,
    Failed,
    Nothing,
    Number(u64),
    Bytes(&'a [u8]),
}

type Row<'a> = (Call<'a>, Answer<'a>);

fn is_done(answered: Result<(), DiskFault>, wanted: &Answer<'_>) -> bool {
    match answered {
        Ok(()) => matches!(*wanted, Answer::Done),
        Err(DiskFault::Failed) => matches!(*wanted, Answer::Failed),
        Err(DiskFault::Memory) => false,
    }
}

fn is_size(answered: Result<Option<u64>, DiskFault>, wanted: &Answer<'_>) -> bool {
    match answered {
        Ok(Some(size)) => matches!(*wanted, Answer::Number(due) if due == size),
        Ok(None) => matches!(*wanted, Answer::Nothing),
        Err(fault) => is_done(Err(fault), wanted),
    }
}

fn is_read(disk: &mut HostDisk<'_>, place: &Place, from: u64, wanted: &Answer<'_>) -> bool {
    let mut part = *b"....";
    match disk.read(place, from, &mut part) {
        Ok(n) => match (part.get(..n), *wanted) {
            (Some(found), Answer::Bytes(due)) => found == due,
            _ => false,
        },
        Err(fault) => is_done(Err(fault), wanted),
    }
}

fn is_left(disk: &mut HostDisk<'_>, wanted: &Answer<'_>) -> bool {
    disk.leave();
    matches!(*wanted, Answer::Done)
}

// Whether a call of the disk is answered so.
fn disk_answers(disk: &mut HostDisk<'_>, call: &Call<'_>, wanted: &Answer<'_>) -> bool {
    match *call {
        Call::Make(place, bytes) => is_done(make(disk, &place, bytes), wanted),
        Call::Create(place) => is_done(disk.create(&place), wanted),
        Call::WriteEnd(place, from, bytes) if from < 100 => {
            is_done(disk.write_end(&place, from, bytes), wanted)
        }
        Call::Patch(place, from, bytes) if from < 100 => {
            is_done(disk.patch(&place, from, bytes), wanted)
        }
        Call::Read(place, from) => is_read(disk, &place, from, wanted),
        Call::Size(place) => is_size(disk.size(&place), wanted),
        Call::Rename(from, to) => is_done(disk.rename(&from, &to), wanted),
        Call::Remove(place) => is_done(disk.remove(&place), wanted),
        Call::Sync => is_done(disk.sync(), wanted),
        Call::Leave => is_left(disk, wanted),
        _ => false,
    }
}

fn is_file(rt: &HostRuntime, path: &str, wanted: &Answer<'_>) -> bool {
    match *wanted {
        Answer::Bytes(bytes) => holds(rt, path, bytes),
        Answer::Nothing => is_missing(rt, path),
        _ => false,
    }
}

// Whether a look at the folder, or a change of it, goes so.
fn folder_answers(rt: &HostRuntime, call: &Call<'_>, wanted: &Answer<'_>) -> bool {
    match *call {
        Call::File(path) => is_file(rt, path, wanted),
        Call::Mode(path, mode) => has_mode(rt, path, mode),
        Call::WriteFile(path, bytes) => fs::write(rt, path, bytes).is_ok(),
        Call::MakeFolder(path) => fs::create_dir(rt, path).is_ok(),
        Call::Link(to, path) => symlink(rt, to, path).is_ok(),
        Call::LinkHard(file, path) => fs::hard_link(rt, file, path).is_ok(),
        Call::RemoveFile(path) => fs::remove_file(rt, path).is_ok(),
        _ => false,
    }
}

// How many rows are answered so, one after the other over a folder, up to the first that is not.
fn rows_answered(rt: &HostRuntime, dir: &str, rows: &[Row<'_>]) -> Result<usize, AllocError> {
    let mut disk = disk_in(rt, dir)?;
    for index in 0..rows.len() {
        let (call, wanted) = rows[index];
        if !disk_answers(&mut disk, &call, &wanted) && !folder_answers(rt, &call, &wanted) {
            return Ok(index);
        }
    }
    Ok(rows.len())
}

// Whether std reads these bytes at the path.
fn holds(rt: &HostRuntime, path: &str, bytes: &[u8]) -> bool {
    fs::read(rt, path).is_ok_and(|found| found.as_slice() == bytes)
}

fn is_missing(rt: &HostRuntime, path: &str) -> bool {
    fs::exists(rt, path).is_ok_and(|exists| !exists)
}

fn has_mode(rt: &HostRuntime, path: &str, mode: u32) -> bool {
    fs::metadata(rt, path).is_ok_and(|found| found.permissions().mode() & 0o777 == mode)
}
