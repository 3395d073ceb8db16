//! Checks of files on a disk in memory. The files and hashes were made by another program.

ghost use Rattle.std.specs.Prelude.{◌≡◌, IfOk};
ghost use Rattle.disk_model.specs.MemDisk.{state_in};
ghost use Rattle.disk_theory.specs.Sound.{IsQuiet};
ghost use Rattle.record_list.specs.Lists.{HasNames};

use cache_base::{Bytes, Name, Names, NoMemory, Numbers};
use cache_check::{
    Finding, FindingList, What, files_have_table, findings, findings_agree, findings_are_exact,
    only_one_table,
};
use chunk_store::Damage;
use disk_model::MemDisk;
use disk_theory::{DiskFault, Place};
use entry_file::Unfit;
use index_record::{IndexRecord, Records};
use std::alloc::Global;
use std::test::Fail;

// The file of the body `hello` under the key `:https://example.com/`, made at the moment 1000.
const HELLO: &[u8] = b"hello\x06\xab\x5e\x9a\x39\x9e\
    \0\0\0\x03\0\0\0\x01\0\0\x03\xe8\0\0\x03\xe8\0\0\x03\xe8\xff\xff\xff\xff\0\0\0\x15\0\0\0\0\
    :https://example.com/\0\0\0\0\x05";

// The same as version 1.
const FIRST: &[u8] = b"hello\x42\x4d\x09\x3d\x39\x9e\
    \0\0\0\x01\0\0\0\x01\0\0\x03\xe8\0\0\x03\xe8\0\0\x03\xe8\xff\xff\xff\xff\0\0\0\x15\
    :https://example.com/\0\0\0\0\x05";

// The file `HELLO`, where the first letter of the body is another.
const CHANGED: &[u8] = b"jello\x06\xab\x5e\x9a\x39\x9e\
    \0\0\0\x03\0\0\0\x01\0\0\x03\xe8\0\0\x03\xe8\0\0\x03\xe8\xff\xff\xff\xff\0\0\0\x15\0\0\0\0\
    :https://example.com/\0\0\0\0\x05";

// The file `HELLO` without its last byte.
const CUT: &[u8] = b"hello\x06\xab\x5e\x9a\x39\x9e\
    \0\0\0\x03\0\0\0\x01\0\0\x03\xe8\0\0\x03\xe8\0\0\x03\xe8\xff\xff\xff\xff\0\0\0\x15\0\0\0\0\
    :https://example.com/\0\0\0\0";

// What stands after a body of 262,145 bytes of the same key, with 1 and 2 as the hashes of its chunks.
const LONG_TAIL: &[u8] = b"\x95\xef\xfb\x31\0\x01\0\x02\
    \0\0\0\x03\0\0\0\x01\0\0\x03\xe8\0\0\x03\xe8\0\0\x03\xe8\xff\xff\xff\xff\0\0\0\x15\0\0\0\0\
    :https://example.com/\0\0\x04\0\x01";

// The SHA-1 of the key.
const NAME: Name = Name(
    *b"\x68\xbc\x13\xfa\x47\x70\x09\xa2\x95\xe3\x2b\xf0\x16\x51\xa1\x4c\xab\x37\x7a\x5c",
);

const ONE: Name = Name([1; 20]);

const TWO: Name = Name([2; 20]);

const THREE: Name = Name([3; 20]);

// The record of the file `HELLO`.
const RECORD: IndexRecord = IndexRecord {
    name: NAME,
    frecency: 1000,
    origin: 0xda39_a3ee_5e6b_4b0d,
    on_start: 0xffff,
    on_stop: 0xffff,
    content: 0,
    flags: 0x8000_0001,
};

fn put(alloc: Global, disk: &mut MemDisk, name: Name, bytes: &[u8]) -> Result<(), NoMemory>
    requires { IsQuiet (state_in disk.old) }
    ensures { IsQuiet (state_in disk.new) }
{
    let mut file = Bytes::new(alloc);
    match file.extend(bytes) {
        Ok(()) => disk.put_file(Place::Entry(name), file),
        Err(fault) => Err(fault),
    }
}

fn put_all(alloc: Global, disk: &mut MemDisk, files: &[(Name, &[u8])]) -> Result<(), NoMemory>
    requires { IsQuiet (state_in disk.old) }
{
    for file in files {
        put(alloc, disk, file.0, file.1)?;
    }
    Ok(())
}

// The record, in a list of its own.
fn one_record(alloc: Global, record: IndexRecord) -> Result<Records, NoMemory>
    ensures { IfOk result HasNames }
{
    let mut records = Records::new(alloc);
    records.push(record)?;
    Ok(records)
}

// The record, as if it were of the file of another name.
fn record_of(name: Name) -> IndexRecord
    ensures { result.name ≡ name }
{
    IndexRecord { name, ..RECORD }
}

// Two records, the greater name first.
fn falling_records(alloc: Global) -> Result<Records, NoMemory>
    ensures { IfOk result HasNames }
{
    let mut records = Records::new(alloc);
    records.push(record_of(TWO))?;
    records.push(record_of(ONE))?;
    Ok(records)
}

fn no_records(alloc: Global) -> Records
    ensures { HasNames result }
{
    Records::new(alloc)
}

// The records of an index.
#[derive(Clone, Copy)]
enum Known {
    None,
    One(IndexRecord),
    // Those of `ONE` and `TWO`, the greater name first.
    Falling,
}

fn records_of(alloc: Global, known: Known) -> Result<Records, NoMemory>
    ensures { IfOk result HasNames }
{
    match known {
        Known::None => Ok(no_records(alloc)),
        Known::One(record) => one_record(alloc, record),
        Known::Falling => falling_records(alloc),
    }
}

fn names_of(alloc: Global, names: &[Name]) -> Result<Names, NoMemory> {
    let mut list = Names::new(alloc);
    for name in names {
        list.push(*name)?;
    }
    Ok(list)
}

// The files on a disk, the records, the names that are being written, what is found, and the calls of the disk where
// they are counted.
#[derive(Clone, Copy)]
struct Row<'a> {
    files: &'a [(Name, &'a [u8])],
    known: Known,
    writing: &'a [Name],
    found: &'a [Finding],
    calls: Option<u64>,
}

// Whether that is found, on a disk with no other files.
fn finds(alloc: Global, disk: &mut MemDisk, row: Row<'_>) -> Result<bool, DiskFault>
    requires { IsQuiet (state_in disk.old) }
{
    put_all(alloc, disk, row.files)?;
    let records = records_of(alloc, row.known)?;
    let writing = names_of(alloc, row.writing)?;
    let list = findings(alloc, disk, &records, &writing)?;
    Ok(list.as_slice() == row.found)
}

fn holds(alloc: Global, row: Row<'_>) -> bool {
    let mut disk = MemDisk::new(alloc);
    let found = finds(alloc, &mut disk, row);
    found == Ok(true) && row.calls.unwrap_or(disk.calls()) == disk.calls()
}

const SOUND: Row<'_> = Row {
    files: &[(NAME, HELLO)],
    known: Known::One(RECORD),
    writing: &[],
    found: &[],
    calls: None,
};

const ROWS: [Row<'_>; 10] = [
    // a sound entry has no findings
    Row {
        calls: Some(4),
        ..SOUND
    },
    // nor has one of version 1, whose record is the same
    Row {
        files: &[(NAME, FIRST)],
        calls: Some(4),
        ..SOUND
    },
    // a file without its last byte is unfit
    Row {
        files: &[(NAME, CUT)],
        found: &[
            Finding {
                name: NAME,
                what: What::Unfit(Unfit::Version),
            },
            Finding {
                name: NAME,
                what: What::Extra,
            },
        ],
        ..SOUND
    },
    // a changed byte is a damage
    Row {
        files: &[(NAME, CHANGED)],
        found: &[Finding {
            name: NAME,
            what: What::Damaged(Damage {
                chunk: 0,
                stored: 0x399e,
                found: 0x6daa,
            }),
        }],
        ..SOUND
    },
    // a file without a record is missing
    Row {
        known: Known::None,
        found: &[Finding {
            name: NAME,
            what: What::Missing,
        }],
        ..SOUND
    },
    // a record without a file is extra
    Row {
        files: &[],
        found: &[Finding {
            name: NAME,
            what: What::Extra,
        }],
        calls: Some(1),
        ..SOUND
    },
    // a record with another field differs
    Row {
        known: Known::One(IndexRecord {
            content: 5,
            ..RECORD
        }),
        found: &[Finding {
            name: NAME,
            what: What::Differs,
        }],
        ..SOUND
    },
    // what is being written is left out
    Row {
        files: &[(NAME, b"hello\xff\xff\xff\xff")],
        writing: &[NAME],
        calls: Some(1),
        ..SOUND
    },
    // names rise
    Row {
        files: &[(THREE, b""), (ONE, HELLO)],
        known: Known::One(IndexRecord {
            name: TWO,
            ..RECORD
        }),
        found: &[
            Finding {
                name: ONE,
                what: What::Unfit(Unfit::WrongName),
            },
            Finding {
                name: TWO,
                what: What::Extra,
            },
            Finding {
                name: THREE,
                what: What::Unfit(Unfit::Short),
            },
        ],
        ..SOUND
    },
    // records may stand in any order
    Row {
        files: &[(TWO, b"")],
        known: Known::Falling,
        found: &[
            Finding {
                name: ONE,
                what: What::Extra,
            },
            Finding {
                name: TWO,
                what: What::Unfit(Unfit::Short),
            },
            Finding {
                name: TWO,
                what: What::Extra,
            },
        ],
        ..SOUND
    },
];

// The number of the first row that does not hold.
fn first_wrong(alloc: Global, rows: &[Row<'_>]) -> Option<usize> {
    for index in 0..rows.len() {
        if !holds(alloc, rows[index]) {
            return Some(index);
        }
    }
    None
}

#[test]
fn what_is_wrong_is_found(rt: HostRuntime) {
    assert_eq!(rt; first_wrong(rt.alloc(), &ROWS), None);
}

// The file of a body of two chunks of zeros.
fn long_file(alloc: Global) -> Result<Vec<u8>, Fail> {
    let mut file = vec![in alloc; 0u8; 262_145]?;
    file.extend_from_slice(LONG_TAIL)?;
    Ok(file)
}

#[test]
fn each_damaged_chunk_is_found(rt: HostRuntime) -> Result<(), Fail> {
    let file = long_file(rt.alloc())?;
    let row = Row {
        files: &[(NAME, &file)],
        known: Known::One(IndexRecord {
            flags: 0x8000_0101,
            ..RECORD
        }),
        writing: &[],
        found: &[
            Finding {
                name: NAME,
                what: What::Damaged(Damage {
                    chunk: 0,
                    stored: 1,
                    found: 0x1826,
                }),
            },
            Finding {
                name: NAME,
                what: What::Damaged(Damage {
                    chunk: 1,
                    stored: 2,
                    found: 0xb8c9,
                }),
            },
        ],
        calls: None,
    };
    assert!(rt; holds(rt.alloc(), row));
    Ok(())
}

// What is answered over the sound entry where the call of this number fails.
fn failing_at(alloc: Global, call: u32) -> Result<bool, DiskFault> {
    let mut calls = Numbers::new(alloc);
    calls.push(call)?;
    let mut disk = MemDisk::new(alloc);
    disk.fail_at(calls);
    finds(alloc, &mut disk, SOUND)
}

#[test]
fn a_call_that_fails_is_answered(rt: HostRuntime) {
    for call in 1..5 {
        assert!(rt;
            failing_at(rt.alloc(), call) == Err(DiskFault::Failed),
            "call {call}"
        );
    }
    assert!(rt; failing_at(rt.alloc(), 5) == Ok(true));
}

#[test]
fn laws_are_called(rt: HostRuntime) {
    files_have_table(&MemDisk::new(rt.alloc()));
    only_one_table();
    findings_agree();
    findings_are_exact();
}
