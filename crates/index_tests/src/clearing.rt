//! Which records a clearing of an origin takes, and its mark: told from other files, stored and removed with a stop
//! at each call.

ghost use Rattle.index_map.specs.Known.{IsPlain};

use crate::maps::over_base;
use cache_base::{Bytes, Name, NoMemory};
use context_clear::{mark_is_read, mark_is_spelled, stored, victims};
use disk_model::MemDisk;
use disk_theory::Place;
use index_map::RecordMap;
use index_record::{INITIALIZED, IndexRecord, NO_TIME, PINNED};
use std::alloc::Global;
use std::test::Fail;

mod stops;

// The hashes of the origin of no bytes and of `^a`, which are the first eight bytes of hashlib's SHA-1.
const NO_ORIGIN: u64 = 0xDA39_A3EE_5E6B_4B0D;

const SOME_ORIGIN: u64 = 0xF87F_B192_D266_1A8C;

// Their marks. `hash_of` of tools/cachelib/hashes.py gives the last four bytes from the first eight.
const MARK: &[u8] = b"\xda\x39\xa3\xee\x5e\x6b\x4b\x0d\xed\xdc\xe9\x58";

const SOME_MARK: &[u8] = b"\xf8\x7f\xb1\x92\xd2\x66\x1a\x8c\xbf\x5c\x21\xfa";

// The first with eleven bytes, and with thirteen.
const SHORT: &[u8] = b"\xda\x39\xa3\xee\x5e\x6b\x4b\x0d\xed\xdc\xe9";

const LONG: &[u8] = b"\xda\x39\xa3\xee\x5e\x6b\x4b\x0d\xed\xdc\xe9\x58\x00";

// What stands at `clear`, if a file does, and the origin that is told.
type Row<'a> = (Option<&'a [u8]>, Option<u64>);

const TOLD: &[Row<'static>] = &[
    (Some(MARK), Some(NO_ORIGIN)),
    (Some(SOME_MARK), Some(SOME_ORIGIN)),
    (None, None),
    (Some(b""), None),
    (Some(SHORT), None),
    (Some(LONG), None),
    // a wrong hash, and the hash of another origin
    (
        Some(b"\xda\x39\xa3\xee\x5e\x6b\x4b\x0d\xed\xdc\xe9\x59"),
        None,
    ),
    (
        Some(b"\xda\x39\xa3\xee\x5e\x6b\x4b\x0d\xbf\x5c\x21\xfa"),
        None,
    ),
];

// A disk on which this file stands at `clear`, synced, if there is one.
fn disk_with(alloc: Global, file: Option<&[u8]>) -> Result<MemDisk, NoMemory> {
    let mut disk = MemDisk::new(alloc);
    if let Some(found) = file {
        let mut bytes = Bytes::new(alloc);
        bytes.extend(found)?;
        disk.put_file(Place::Clear, bytes)?;
    }
    Ok(disk)
}

fn tells(alloc: Global, row: &Row<'static>) -> Result<bool, NoMemory> {
    let mut disk = disk_with(alloc, row.0)?;
    Ok(stored(&mut disk) == Ok(row.1) && disk.calls() == 1)
}

#[test]
fn a_mark_is_told_from_other_files_by_one_call(rt: HostRuntime) -> Result<(), Fail> {
    for row in TOLD {
        assert!(rt; tells(rt.alloc(), row)?);
    }
    Ok(())
}

// A record whose name has this byte alone.
fn record(byte: u8, origin: u64, pinned: bool) -> IndexRecord
    ensures { IsPlain result }
{
    IndexRecord {
        name: Name([byte; 20]),
        frecency: 1,
        origin,
        on_start: NO_TIME,
        on_stop: NO_TIME,
        content: 0,
        flags: if pinned {
            INITIALIZED + PINNED + 1
        } else {
            INITIALIZED + 1
        },
    }
}

// The records 1 and 2 of the origin 5, seen or not; then the record 4 of it, and 3, which is pinned, and 6 of the
// origin 7.
fn records(alloc: Global, seen: bool) -> Result<RecordMap, NoMemory> {
    let mut map = over_base(alloc, seen)?;
    map.set(record(4, 5, false))?;
    map.set(record(3, 5, true))?;
    map.set(record(6, 7, false))?;
    Ok(map)
}

// Whether the first records were seen, an origin, and the names that are taken.
type Taken<'a> = (bool, u64, &'a [Name]);

const TAKEN: &[Taken<'static>] = &[
    (true, 5, &[Name([1; 20]), Name([2; 20]), Name([4; 20])]),
    (false, 5, &[Name([4; 20])]),
    (true, 7, &[Name([6; 20])]),
    (true, 9, &[]),
];

fn takes(alloc: Global, row: &Taken<'_>) -> Result<bool, NoMemory> {
    let map = records(alloc, row.0)?;
    Ok(victims(alloc, &map, row.1)?.as_slice() == row.2)
}

#[test]
fn seen_records_of_an_origin_are_taken_unless_pinned(rt: HostRuntime) -> Result<(), Fail> {
    for row in TAKEN {
        assert!(rt; takes(rt.alloc(), row)?);
    }
    Ok(())
}

#[test]
fn laws_are_called() {
    mark_is_read();
    mark_is_spelled();
}
