ghost use Rattle.disk_model.specs.MemDisk.{state_in};
ghost use Rattle.disk_theory.specs.Sound.{IsQuiet};
ghost use Rattle.disk_theory.specs.State.{State};
ghost use Rattle.startup_read.specs.Kept.{KeepsIndex};

use crate::examples::{CHANGES, CLEAN, NOTHING};
use cache_base::{Bytes, Moment, Name, NoMemory, Numbers};
use disk_model::MemDisk;
use disk_theory::{Disk, DiskFault, Place};
use index_map::RecordMap;
use startup_read::{Start, close_index, open_index};
use std::alloc::Global;
use std::test::Fail;

mod bytes;
mod limit;
mod session;
mod starts;
mod stops;

// The index without records with the flag 1.
const DIRTY: &[u8] = b"\0\0\0\x0a\0\0\x03\xe8\0\0\0\x01\0\0\0\0\xbd\x49\xd1\x0d";

const FIRST: Name = Name([0x11; 20]);

const SECOND: Name = Name([0x22; 20]);

const THIRD: Name = Name([0x33; 20]);

// A clean index with records of the first two names.
const TWO: &[u8] = b"\0\0\0\x0a\0\0\x03\xe8\0\0\0\0\0\0\0\0\
\x11\x11\x11\x11\x11\x11\x11\x11\x11\x11\x11\x11\x11\x11\x11\x11\x11\x11\x11\x11\
\0\0\x03\xe8\xda\x39\xa3\xee\x5e\x6b\x4b\x0d\xff\xff\xff\xff\0\x80\0\0\x01\
\x22\x22\x22\x22\x22\x22\x22\x22\x22\x22\x22\x22\x22\x22\x22\x22\x22\x22\x22\x22\
\0\0\x01\xf4\x01\x02\x03\x04\x05\x06\x07\x08\0\x0c\0\x0f\x05\x84\0\0\x02\
\x2f\xd8\x8c\x3e";

// What stands in the files `index`, `index.log` and `index.tmp`, if they stand.
type Files<'a> = (Option<&'a [u8]>, Option<&'a [u8]>, Option<&'a [u8]>);

// Puts a file at the place, if there is one.
fn put(
    alloc: Global,
    disk: &mut MemDisk,
    place: Place,
    bytes: Option<&[u8]>,
) -> Result<(), NoMemory>
    requires { IsQuiet (state_in disk.old) }
    ensures { IsQuiet (state_in disk.new) }
{
    match bytes {
        None => Ok(()),
        Some(b) => {
            let mut file = Bytes::new(alloc);
            file.extend(b)?;
            disk.put_file(place, file)
        }
    }
}

// Puts the files of the index on a disk.
fn put_all(alloc: Global, disk: &mut MemDisk, files: &Files<'_>) -> Result<(), NoMemory>
    requires { IsQuiet (state_in disk.old) }
{
    put(alloc, disk, Place::Index, files.0)?;
    put(alloc, disk, Place::Log, files.1)?;
    put(alloc, disk, Place::Tmp, files.2)
}

// A session that changes nothing, and how it started.
fn pass<D: Disk>(
    alloc: Global,
    disk: &mut D,
    now: Moment,
    ended: bool,
) -> Result<Start, DiskFault> {
    let mut opened = open_index(alloc, disk)?;
    close_index(alloc, disk, &mut opened.map, now, ended)?;
    Ok(opened.start)
}

// The record of a name is gone.
#[tactic(auto, using(startup_read::proofs::KeptLaws::same_base_keeps_index))]
fn forget(map: &mut RecordMap, name: &Name)
    ensures { (s : State) → KeepsIndex s map.old → KeepsIndex s map.new }
{
    map.remove(name);
}

// A session in which the entry of the second name goes, and how it started.
fn forget_one<D: Disk>(alloc: Global, disk: &mut D) -> Result<Start, DiskFault> {
    let mut opened = open_index(alloc, disk)?;
    forget(&mut opened.map, &SECOND);
    close_index(alloc, disk, &mut opened.map, 1001, true)?;
    Ok(opened.start)
}

// Whether these bytes stand at the place.
fn holds(disk: &MemDisk, place: &Place, bytes: &[u8]) -> bool {
    match disk.file(place) {
        Some(file) => file == bytes,
        None => false,
    }
}

// Whether these bytes stand at the place, synced.
fn has_synced(disk: &MemDisk, place: &Place, bytes: &[u8]) -> bool {
    match disk.synced_file(place) {
        Some(file) => file == bytes,
        None => false,
    }
}

fn is_absent(disk: &MemDisk, place: &Place) -> bool {
    disk.file(place).is_none()
}
