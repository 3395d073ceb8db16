use super::*;

const USE: &[Row<'static>] = &[
    (Call::Create(0, X, 1_000_000), Answer::Gone(X)),
    (Call::Finish(0), Answer::Wrote(1_000_000, 0, 1)),
    (Call::Use(0, 1_000_000), Answer::Wrote(1_021_600, 0, 1)),
    (Call::FileLen(X_PATH), Answer::Number(52)),
    (Call::Find(X), Answer::Found(2, 1_000_000, 1_021_600, 0)),
];

// A use counts, and its frecency is one of the known pairs of the table.
#[test]
fn a_use_is_counted(rt: HostRuntime) -> Result<(), Fail> {
    assert!(rt; rows_answered(&rt, USE)? == USE.len());
    Ok(())
}

const USERS: &[Row<'static>] = &[
    (Call::Users(X), Answer::Number(0)),
    (Call::Create(0, X, 5), Answer::Gone(X)),
    (Call::Open(63, X), Answer::Done),
    (Call::Users(X), Answer::Number(2)),
    (Call::Users(Y), Answer::Number(0)),
    (Call::Doom(X), Answer::Gone(X)),
    (Call::Users(X), Answer::Number(0)),
];

// All slots of an entry are its users, until it is doomed.
#[test]
fn users_are_counted(rt: HostRuntime) -> Result<(), Fail> {
    assert!(rt; rows_answered(&rt, USERS)? == USERS.len());
    Ok(())
}

const NAMES: &[Row<'static>] = &[
    (Call::Create(7, X, 5), Answer::Gone(X)),
    (Call::Create(8, Y, 5), Answer::Gone(Y)),
    (Call::Open(9, X), Answer::Done),
    (Call::OpenNames, Answer::Keys(&[Y, X])),
    (Call::WritingNames, Answer::Keys(&[Y, X])),
    (Call::Finish(7), Answer::Wrote(5, 0, 1)),
    (Call::OpenNames, Answer::Keys(&[Y, X])),
    (Call::WritingNames, Answer::Keys(&[Y])),
    (Call::Doom(Y), Answer::Gone(Y)),
    (Call::OpenNames, Answer::Keys(&[X])),
    (Call::WritingNames, Answer::Keys(&[])),
];

// Names of open entries, and of those that are being written: an entry is until it is finished or doomed.
#[test]
fn names_rise(rt: HostRuntime) -> Result<(), Fail> {
    assert!(rt; rows_answered(&rt, NAMES)? == NAMES.len());
    Ok(())
}

const EVICTED: &[Row<'static>] = &[
    (Call::Create(0, X, 5), Answer::Gone(X)),
    (Call::Evict(X), Answer::Nothing),
    (Call::Close(0), Answer::Wrote(5, 0, 1)),
    (Call::FileLen(X_PATH), Answer::Number(52)),
    (Call::Evict(X), Answer::Done),
    (Call::FileLen(X_PATH), Answer::Nothing),
];

// An entry goes once no slot has it.
#[test]
fn an_unused_entry_is_evicted(rt: HostRuntime) -> Result<(), Fail> {
    assert!(rt; rows_answered(&rt, EVICTED)? == EVICTED.len());
    Ok(())
}
