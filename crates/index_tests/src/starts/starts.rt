use super::*;

// The empty index with the flag 256.
const FLAG_256: &[u8] = b"\0\0\0\x0a\0\0\x03\xe8\0\0\x01\0\0\0\0\0\xbd\x49\xd1\x0d";

// An index with the record of the first name, and one that says that the second is gone.
const WITH_REMOVED: &[u8] = b"\0\0\0\x0a\0\0\x03\xe8\0\0\0\0\0\0\0\0\
\x11\x11\x11\x11\x11\x11\x11\x11\x11\x11\x11\x11\x11\x11\x11\x11\x11\x11\x11\x11\
\0\0\x03\xe8\xda\x39\xa3\xee\x5e\x6b\x4b\x0d\xff\xff\xff\xff\0\x80\0\0\x01\
\x22\x22\x22\x22\x22\x22\x22\x22\x22\x22\x22\x22\x22\x22\x22\x22\x22\x22\x22\x22\
\0\0\0\0\0\0\0\0\0\0\0\0\xff\xff\xff\xff\0\xa0\0\0\0\
\x72\xd9\x8a\xa9";

// A journal with two records of the first name.
const REPEATED: &[u8] =
    b"\x11\x11\x11\x11\x11\x11\x11\x11\x11\x11\x11\x11\x11\x11\x11\x11\x11\x11\x11\x11\
\0\0\x03\xe8\xda\x39\xa3\xee\x5e\x6b\x4b\x0d\xff\xff\xff\xff\0\x80\0\0\x01\
\x11\x11\x11\x11\x11\x11\x11\x11\x11\x11\x11\x11\x11\x11\x11\x11\x11\x11\x11\x11\
\0\0\0\x07\xda\x39\xa3\xee\x5e\x6b\x4b\x0d\xff\xff\xff\xff\0\x80\0\0\x01\
\xa4\x8a\xb6\xae";

// The number of records, how many of them the journal has to say, and the frecencies under the three names.
type Shown = (u64, u64, [Option<u32>; 3]);

const NO_RECORDS: Shown = (0, 0, [None, None, None]);

// Records that are to be updated are unseen.
const TWO_UNSEEN: Shown = (2, 0, [None, None, None]);

// The files, how an opening starts with them, and what its map shows.
const STARTS: [(Files<'static>, Start, Shown); 12] = [
    // Without an index that fits, the records are made anew.
    ((None, Some(NOTHING), None), Start::Build, NO_RECORDS),
    (
        (Some(b"index"), Some(NOTHING), None),
        Start::Build,
        NO_RECORDS,
    ),
    // An index that is dirty, or has no journal, or none that fits, is not trusted.
    (
        (Some(DIRTY), Some(NOTHING), None),
        Start::Update,
        NO_RECORDS,
    ),
    ((Some(CLEAN), None, None), Start::Update, NO_RECORDS),
    ((Some(CLEAN), Some(b"log"), None), Start::Update, NO_RECORDS),
    ((Some(TWO), None, None), Start::Update, TWO_UNSEEN),
    // Nor is one beside a file `index.tmp`, one with the flag 256, or one whose journal has a name twice.
    (
        (Some(CLEAN), Some(NOTHING), Some(b"")),
        Start::Update,
        NO_RECORDS,
    ),
    (
        (Some(FLAG_256), Some(NOTHING), None),
        Start::Update,
        NO_RECORDS,
    ),
    ((Some(TWO), Some(REPEATED), None), Start::Update, TWO_UNSEEN),
    // A clean index with its journal is trusted, and the journal is applied.
    ((Some(CLEAN), Some(NOTHING), None), Start::Ready, NO_RECORDS),
    (
        (Some(TWO), Some(CHANGES), None),
        Start::Ready,
        (2, 2, [None, Some(500), Some(7)]),
    ),
    // A removed record of an index is left out.
    (
        (Some(WITH_REMOVED), Some(NOTHING), None),
        Start::Ready,
        (1, 0, [Some(1000), None, None]),
    ),
];

fn frecency(map: &RecordMap, name: &Name) -> Option<u32> {
    Some(map.get(name)?.frecency)
}

fn shown(map: &RecordMap) -> Shown {
    let frecencies = [
        frecency(map, &FIRST),
        frecency(map, &SECOND),
        frecency(map, &THIRD),
    ];
    (map.totals().count, map.changed(), frecencies)
}

fn start_with(alloc: Global, files: &Files<'_>) -> Result<(Start, Shown), DiskFault> {
    let mut disk = MemDisk::new(alloc);
    put_all(alloc, &mut disk, files)?;
    let opened = open_index(alloc, &mut disk)?;
    Ok((opened.start, shown(&opened.map)))
}

// How many rows hold, up to the first that does not.
fn rows_held(alloc: Global, rows: &[(Files<'_>, Start, Shown)]) -> Result<usize, DiskFault> {
    for index in 0..rows.len() {
        let (files, start, map) = rows[index];
        if start_with(alloc, &files)? != (start, map) {
            return Ok(index);
        }
    }
    Ok(rows.len())
}

#[test]
fn a_clean_index_with_its_journal_is_trusted_and_no_other(rt: HostRuntime) -> Result<(), Fail> {
    assert_eq!(rt; rows_held(rt.alloc(), &STARTS)?, STARTS.len());
    Ok(())
}
