use super::*;
use crate::examples::record;
use startup_read::{refresh_index, write_index};

// The name of the key `:https://example.com/`, and a dirty index of the moment 1000 with its record.
const EXAMPLE: Name = Name(
    *b"\x68\xbc\x13\xfa\x47\x70\x09\xa2\x95\xe3\x2b\xf0\x16\x51\xa1\x4c\xab\x37\x7a\x5c",
);

const ONE_RECORD: &[u8] = b"\0\0\0\x0a\0\0\x03\xe8\0\0\0\x01\0\0\0\0\
\x68\xbc\x13\xfa\x47\x70\x09\xa2\x95\xe3\x2b\xf0\x16\x51\xa1\x4c\xab\x37\x7a\x5c\
\0\0\x03\xe8\xda\x39\xa3\xee\x5e\x6b\x4b\x0d\xff\xff\xff\xff\0\x80\0\0\x01\
\x6e\xd6\x05\xa8";

// The same with records of the three names, of the moments 1000, 1001 and 1002.
const THREE_RECORDS: &[u8] = b"\0\0\0\x0a\0\0\x03\xe8\0\0\0\x01\0\0\0\0\
\x11\x11\x11\x11\x11\x11\x11\x11\x11\x11\x11\x11\x11\x11\x11\x11\x11\x11\x11\x11\
\0\0\x03\xe8\xda\x39\xa3\xee\x5e\x6b\x4b\x0d\xff\xff\xff\xff\0\x80\0\0\x01\
\x22\x22\x22\x22\x22\x22\x22\x22\x22\x22\x22\x22\x22\x22\x22\x22\x22\x22\x22\x22\
\0\0\x03\xe9\xda\x39\xa3\xee\x5e\x6b\x4b\x0d\xff\xff\xff\xff\0\x80\0\0\x01\
\x33\x33\x33\x33\x33\x33\x33\x33\x33\x33\x33\x33\x33\x33\x33\x33\x33\x33\x33\x33\
\0\0\x03\xea\xda\x39\xa3\xee\x5e\x6b\x4b\x0d\xff\xff\xff\xff\0\x80\0\0\x01\
\x67\x4f\xf3\xeb";

#[derive(Clone, Copy)]
enum How {
    Written,
    // Over the map of an opening.
    OpenedAndWritten,
    // At the moment 1000 and at 1001.
    RefreshedTwice,
}

// Names with the frecencies of their records, how an index of them is made, its bytes, and how many these are.
type Row<'a> = (&'a [(Name, u32)], How, &'a [u8], usize);

const INDEXES: [Row<'static>; 4] = [
    // Without records it has 20 bytes, with one 61, and with three 143.
    (&[], How::OpenedAndWritten, DIRTY, 20),
    (&[(EXAMPLE, 1000)], How::Written, ONE_RECORD, 61),
    (
        &[(SECOND, 1001), (THIRD, 1002), (FIRST, 1000)],
        How::Written,
        THREE_RECORDS,
        143,
    ),
    // It is written only where that is due: the second time it is not.
    (&[(EXAMPLE, 1000)], How::RefreshedTwice, ONE_RECORD, 61),
];

fn set_all(map: &mut RecordMap, records: &[(Name, u32)]) -> Result<(), NoMemory> {
    for index in 0..records.len() {
        let (name, frecency) = records[index];
        map.set(record(name, frecency))?;
    }
    Ok(())
}

fn write<D: Disk>(
    alloc: Global,
    disk: &mut D,
    map: &mut RecordMap,
    how: How,
) -> Result<(), DiskFault> {
    match how {
        How::Written => write_index(alloc, disk, map, 1000),
        How::OpenedAndWritten => {
            *map = open_index(alloc, disk)?.map;
            write_index(alloc, disk, map, 1000)
        }
        How::RefreshedTwice => {
            refresh_index(alloc, disk, map, 1000)?;
            refresh_index(alloc, disk, map, 1001)
        }
    }
}

// Whether the map has no more to write, and these bytes are the index.
fn is_written(disk: &MemDisk, map: &RecordMap, bytes: &[u8]) -> bool {
    map.has_base()
        && map.changed() == 0
        && holds(disk, &Place::Index, bytes)
        && is_absent(disk, &Place::Tmp)
}

fn row_holds(
    alloc: Global,
    disk: &mut MemDisk,
    map: &mut RecordMap,
    row: &Row<'_>,
) -> Result<bool, DiskFault> {
    let (records, how, bytes, len) = *row;
    set_all(map, records)?;
    write(alloc, disk, map, how)?;
    Ok(is_written(disk, map, bytes) && bytes.len() == len)
}

// How many rows hold, up to the first that does not.
fn rows_held(alloc: Global, rows: &[Row<'_>]) -> Result<usize, DiskFault> {
    for index in 0..rows.len() {
        let mut disk = MemDisk::new(alloc);
        let mut map = RecordMap::new(alloc);
        if !row_holds(alloc, &mut disk, &mut map, &rows[index])? {
            return Ok(index);
        }
    }
    Ok(rows.len())
}

#[test]
fn an_index_has_these_bytes(rt: HostRuntime) -> Result<(), Fail> {
    assert_eq!(rt; rows_held(rt.alloc(), &INDEXES)?, INDEXES.len());
    Ok(())
}
