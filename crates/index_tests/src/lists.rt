ghost use Rattle.std.specs.Prelude.{IfOk};
ghost use Rattle.record_list.specs.Lists.{HasNames};
ghost use Rattle.record_list.specs.Stored.{AreClean};

use crate::examples::{FALLING, FIRST, NOTHING, REPEATED, RISING, SECOND};
use cache_base::NoMemory;
use index_record::{IndexRecord, Records, removed};
use record_list::{
    RecordsFault, by_name, by_name_keeps, clean_reads_same, diff_then_apply, parse, parse_present,
    print, rising_has_names, stored_fits_exactly, stored_reads_back,
};
use std::alloc::Global;
use std::test::Fail;

// A record that says that the name of the first is gone, and the second.
const GONE_THEN_SECOND: &[u8] =
    b"\x11\x11\x11\x11\x11\x11\x11\x11\x11\x11\x11\x11\x11\x11\x11\x11\x11\x11\x11\x11\0\0\0\0\
\0\0\0\0\0\0\0\0\xff\xff\xff\xff\0\xa0\0\0\0\
\x22\x22\x22\x22\x22\x22\x22\x22\x22\x22\x22\x22\x22\x22\x22\x22\x22\x22\x22\x22\0\0\x01\xf4\
\x01\x02\x03\x04\x05\x06\x07\x08\0\x0c\0\x0f\x05\x84\0\0\x02\x0c\x92\xd4\xea";

// The same with a wrong hash.
const WRONG_HASH: &[u8] =
    b"\x11\x11\x11\x11\x11\x11\x11\x11\x11\x11\x11\x11\x11\x11\x11\x11\x11\x11\x11\x11\0\0\x03\xe8\
\xda\x39\xa3\xee\x5e\x6b\x4b\x0d\xff\xff\xff\xff\0\x80\0\0\x01\
\x11\x11\x11\x11\x11\x11\x11\x11\x11\x11\x11\x11\x11\x11\x11\x11\x11\x11\x11\x11\0\0\x03\xe8\
\xda\x39\xa3\xee\x5e\x6b\x4b\x0d\xff\xff\xff\xff\0\x80\0\0\x01\xc2\xbf\x23\x38";

// The same as `REPEATED`, but the second record lacks its last byte.
const CUT: &[u8] =
    b"\x11\x11\x11\x11\x11\x11\x11\x11\x11\x11\x11\x11\x11\x11\x11\x11\x11\x11\x11\x11\0\0\x03\xe8\
\xda\x39\xa3\xee\x5e\x6b\x4b\x0d\xff\xff\xff\xff\0\x80\0\0\x01\
\x11\x11\x11\x11\x11\x11\x11\x11\x11\x11\x11\x11\x11\x11\x11\x11\x11\x11\x11\x11\0\0\x03\xe8\
\xda\x39\xa3\xee\x5e\x6b\x4b\x0d\xff\xff\xff\xff\0\x80\0\0\xc2\xbf\x23\x39";

// The name of the first is gone, and then its record.
const GONE_THEN_FIRST: &[u8] =
    b"\x11\x11\x11\x11\x11\x11\x11\x11\x11\x11\x11\x11\x11\x11\x11\x11\x11\x11\x11\x11\0\0\0\0\
\0\0\0\0\0\0\0\0\xff\xff\xff\xff\0\xa0\0\0\0\
\x11\x11\x11\x11\x11\x11\x11\x11\x11\x11\x11\x11\x11\x11\x11\x11\x11\x11\x11\x11\0\0\x03\xe8\
\xda\x39\xa3\xee\x5e\x6b\x4b\x0d\xff\xff\xff\xff\0\x80\0\0\x01\x77\xda\x88\x0a";

// The answer of `parse`, or of `parse_present`. A part that is too short is none of the tests' matter.
fn parsed(alloc: Global, part: &[u8]) -> Result<Records, RecordsFault>
    ensures distinct { IfOk result HasNames }
    ensures clean { IfOk result AreClean }
{
    if part.len() < 4 {
        return Err(RecordsFault::Length);
    }
    parse(alloc, part)
}

fn parsed_present(alloc: Global, part: &[u8]) -> Result<Records, RecordsFault> {
    if part.len() < 4 {
        return Err(RecordsFault::Length);
    }
    parse_present(alloc, part)
}

// Which records of a part are read: all of them, or those that are present.
#[derive(Clone, Copy)]
enum Which {
    All,
    Present,
}

fn are(answer: Result<Records, RecordsFault>, due: Result<&[IndexRecord], RecordsFault>) -> bool {
    match (answer, due) {
        (Ok(records), Ok(due)) => records.as_slice() == due,
        (Err(fault), Err(due)) => fault == due,
        _ => false,
    }
}

// A part of a file, and what is read.
type Row<'a> = (Which, &'a [u8], Result<&'a [IndexRecord], RecordsFault>);

fn reads(alloc: Global, row: Row<'_>) -> bool {
    let (which, part, due) = row;
    match which {
        Which::All => are(parsed(alloc, part), due),
        Which::Present => are(parsed_present(alloc, part), due),
    }
}

#[test]
fn parts_are_read(rt: HostRuntime) {
    let removed = removed(&FIRST.name);
    let rows: [Row<'_>; 8] = [
        // records are read in the order of the file
        (Which::All, FALLING, Ok(&[SECOND, FIRST])),
        // removed records are kept or left out
        (Which::All, GONE_THEN_SECOND, Ok(&[removed, SECOND])),
        (Which::Present, GONE_THEN_SECOND, Ok(&[SECOND])),
        // no records are a hash
        (Which::All, NOTHING, Ok(&[])),
        // each check fails in its turn
        (Which::All, CUT, Err(RecordsFault::Length)),
        (Which::All, WRONG_HASH, Err(RecordsFault::Hash)),
        (Which::All, REPEATED, Err(RecordsFault::Repeated)),
        // a removed record takes its name
        (Which::Present, GONE_THEN_FIRST, Err(RecordsFault::Repeated)),
    ];
    for i in 0..rows.len() {
        assert!(rt; reads(rt.alloc(), rows[i]), "row {i}");
    }
}

// The records of a list, by rising name.
fn rising(alloc: Global, records: &Records) -> Result<Records, NoMemory>
    requires { HasNames records.now }
{
    Ok(by_name(Vec::from_slice(alloc, records.as_slice())?))
}

// Whether a part's records, by rising name, are these.
fn rises_as(alloc: Global, part: &[u8], due: &[IndexRecord]) -> Result<bool, Fail> {
    let records = parsed(alloc, part)?;
    Ok(rising(alloc, &records)?.as_slice() == due)
}

// Whether a part's records are printed after this head as these bytes.
fn prints_as(alloc: Global, part: &[u8], front: &[u8], due: &[u8]) -> Result<bool, Fail> {
    let records = parsed(alloc, part)?;
    let printed = print(alloc, front, &records)?;
    Ok(printed.as_slice().strip_prefix(front) == Some(due))
}

#[test]
fn no_records_are_printed_as_a_hash(rt: HostRuntime) -> Result<(), Fail> {
    assert!(rt; prints_as(rt.alloc(), NOTHING, b"", NOTHING)?);
    Ok(())
}

#[test]
fn records_are_printed_by_rising_name(rt: HostRuntime) -> Result<(), Fail> {
    assert!(rt; rises_as(rt.alloc(), FALLING, &[FIRST, SECOND])?);
    assert!(rt; prints_as(rt.alloc(), FALLING, b"front", RISING)?);
    Ok(())
}

#[test]
fn laws_are_called() {
    stored_reads_back();
    stored_fits_exactly();
    rising_has_names();
    clean_reads_same();
    by_name_keeps();
    diff_then_apply();
}
