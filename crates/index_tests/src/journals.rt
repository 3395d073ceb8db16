use crate::examples::{CHANGES, FALLING, FIRST, NOTHING, REPEATED, RISING, SECOND, THIRD};
use index_journal::{JournalFault, apply, journal_fits_exactly, journal_reads_back, parse, print};
use index_record::{IndexRecord, removed};
use std::alloc::Global;
use std::test::Fail;

// `FALLING` without its last byte, and without the 41 last.
const CUT: &[u8] =
    b"\x22\x22\x22\x22\x22\x22\x22\x22\x22\x22\x22\x22\x22\x22\x22\x22\x22\x22\x22\x22\0\0\x01\xf4\
\x01\x02\x03\x04\x05\x06\x07\x08\0\x0c\0\x0f\x05\x84\0\0\x02\
\x11\x11\x11\x11\x11\x11\x11\x11\x11\x11\x11\x11\x11\x11\x11\x11\x11\x11\x11\x11\0\0\x03\xe8\
\xda\x39\xa3\xee\x5e\x6b\x4b\x0d\xff\xff\xff\xff\0\x80\0\0\x01\xe7\xe9\x97";

const LONG_CUT: &[u8] =
    b"\x22\x22\x22\x22\x22\x22\x22\x22\x22\x22\x22\x22\x22\x22\x22\x22\x22\x22\x22\x22\0\0\x01\xf4\
\x01\x02\x03\x04\x05\x06\x07\x08\0\x0c\0\x0f\x05\x84\0\0\x02\x11\x11\x11\x11";

// Whether these are the records of a journal, and it is printed as these bytes.
fn reads_as(
    alloc: Global,
    journal: &[u8],
    due: &[IndexRecord],
    printed_as: &[u8],
) -> Result<bool, Fail> {
    let records = parse(alloc, journal)?;
    let printed = print(alloc, &records)?;
    Ok(records.as_slice() == due && printed.as_slice() == printed_as)
}

#[test]
fn records_are_read_as_they_stand_and_printed_by_name(rt: HostRuntime) -> Result<(), Fail> {
    let gone = removed(&FIRST.name);
    let rows = [
        // a journal without records
        (NOTHING, [].as_slice(), NOTHING),
        // removed records are kept
        (CHANGES, &[gone, THIRD], CHANGES),
        (FALLING, &[SECOND, FIRST], RISING),
        (RISING, &[FIRST, SECOND], RISING),
    ];
    for i in 0..rows.len() {
        let (journal, records, printed) = rows[i];
        assert!(rt; reads_as(rt.alloc(), journal, records, printed)?, "row {i}");
    }
    Ok(())
}

// Whether these are the records of an index after the changes of a journal.
fn applies_as(
    alloc: Global,
    index: &[u8],
    changes: &[u8],
    due: &[IndexRecord],
) -> Result<bool, Fail> {
    let index = parse(alloc, index)?;
    let changes = parse(alloc, changes)?;
    Ok(apply(alloc, &index, &changes)?.as_slice() == due)
}

// A journal removes and adds, and its record takes the place of a removed one.
#[test]
fn a_journal_is_applied(rt: HostRuntime) -> Result<(), Fail> {
    assert!(rt; applies_as(rt.alloc(), FALLING, CHANGES, &[SECOND, THIRD])?);
    assert!(rt; applies_as(rt.alloc(), CHANGES, FALLING, &[FIRST, SECOND, THIRD])?);
    Ok(())
}

#[test]
fn each_check_fails_in_its_turn(rt: HostRuntime) {
    for (bytes, fault) in [
        (b"\xbd\x49\xd1".as_slice(), JournalFault::Short),
        (CUT, JournalFault::Length),
        (LONG_CUT, JournalFault::Hash),
        (b"\0\0\0\0\0", JournalFault::Length),
        (b"\0\0\0\0", JournalFault::Hash),
        (REPEATED, JournalFault::Repeated),
    ] {
        assert!(rt; parse(rt.alloc(), bytes).err() == Some(fault), "{fault:?}");
    }
}

#[test]
fn laws_are_called() {
    journal_reads_back();
    journal_fits_exactly();
}
