//! What a crash may leave of a disk with one synced file. The answer tells whether it may.

use super::*;

const STAYING: &[Row<'static>] = &[
    (Call::Crash(0, &[(ENTRY, b"hello")]), Answer::Done),
    (Call::Crash(0, &[(ENTRY, b"hellx")]), Answer::Nothing),
    (Call::Crash(0, &[(ENTRY, b"hell")]), Answer::Nothing),
    (Call::Crash(0, &[(Place::Index, b"hello")]), Answer::Nothing),
    (Call::Crash(1, &[(ENTRY, b"hello")]), Answer::Nothing),
];

#[test]
fn a_synced_file_stays(rt: HostRuntime) -> Result<(), Fail> {
    all_answered_with(&rt, rt.alloc(), ENTRY, b"hello", STAYING)
}

const TORN: &[Row<'static>] = &[
    (Call::Patch(ENTRY, 1, b"a"), Answer::Done),
    (Call::Crash(0, &[(ENTRY, b"hello")]), Answer::Done),
    (Call::Crash(0, &[(ENTRY, b"hallo")]), Answer::Done),
    (Call::Crash(0, &[(ENTRY, b"hallx")]), Answer::Nothing),
    (Call::Make(Place::Log, b"new"), Answer::Done),
    (Call::Crash(1, &[(ENTRY, b"hello")]), Answer::Nothing),
];

#[test]
fn writes_may_be_torn_where_they_reach(rt: HostRuntime) -> Result<(), Fail> {
    all_answered_with(&rt, rt.alloc(), ENTRY, b"hello", TORN)
}

const DOOMED: &[Row<'static>] = &[
    (Call::Rename(ENTRY, Place::Doomed(1)), Answer::Done),
    (Call::Crash(0, &[(ENTRY, b"hello")]), Answer::Done),
    (
        Call::Crash(1, &[(Place::Doomed(1), b"hello")]),
        Answer::Done,
    ),
    (
        Call::Crash(0, &[(Place::Doomed(1), b"hello")]),
        Answer::Nothing,
    ),
];

#[test]
fn a_doomed_entry_stands_under_one_name(rt: HostRuntime) -> Result<(), Fail> {
    all_answered_with(&rt, rt.alloc(), ENTRY, b"hello", DOOMED)
}

const COMPLETE: &[Row<'static>] = &[
    (
        Call::Crash(0, &[(ENTRY, b"hello"), (ENTRY, b"hello")]),
        Answer::Nothing,
    ),
    (Call::Crash(0, &[]), Answer::Nothing),
];

#[test]
fn a_place_is_named_once_and_none_is_missing(rt: HostRuntime) -> Result<(), Fail> {
    all_answered_with(&rt, rt.alloc(), ENTRY, b"hello", COMPLETE)
}
