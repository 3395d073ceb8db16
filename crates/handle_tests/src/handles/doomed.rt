use super::*;

const NUMBERS: &[Row<'static>] = &[
    (Call::Create(0, X, 1), Answer::Gone(X)),
    (Call::Finish(0), Answer::Wrote(1, 0, 1)),
    (Call::Doom(X), Answer::Gone(X)),
    (Call::Create(1, X, 1), Answer::Gone(X)),
    (Call::Finish(1), Answer::Wrote(1, 0, 1)),
    (Call::Doom(X), Answer::Gone(X)),
    (Call::FileLen("cache/doomed/1"), Answer::Number(52)),
    (Call::Close(0), Answer::Same),
    (Call::FileLen("cache/doomed/0"), Answer::Nothing),
    (Call::Create(0, X, 1), Answer::Gone(X)),
    (Call::Finish(0), Answer::Wrote(1, 0, 1)),
    (Call::Doom(X), Answer::Gone(X)),
    (Call::FileLen("cache/doomed/0"), Answer::Number(52)),
    (Call::FileLen("cache/doomed/2"), Answer::Nothing),
    (Call::CloseAll, Answer::Done),
    (Call::FileLen("cache/doomed/0"), Answer::Nothing),
    (Call::FileLen("cache/doomed/1"), Answer::Nothing),
];

// Each has the least number that is free, and gives it back with its last slot.
#[test]
fn doomed_entries_have_numbers(rt: HostRuntime) -> Result<(), Fail> {
    assert!(rt; rows_answered(&rt, NUMBERS)? == NUMBERS.len());
    Ok(())
}

const DOOMED_DRAFT: &[Row<'static>] = &[
    (Call::Create(0, X, 5), Answer::Gone(X)),
    (Call::Doom(X), Answer::Gone(X)),
    (Call::Append(0, b"on"), Answer::Done),
    (Call::Finish(0), Answer::Same),
    (Call::FileLen("cache/doomed/0"), Answer::Number(56)),
    (Call::FileLen(X_PATH), Answer::Nothing),
    (Call::Doom(X), Answer::Refused(Refusal::Absent)),
];

// A doomed draft grows and is finished where it stands.
#[test]
fn a_doomed_draft_works_on(rt: HostRuntime) -> Result<(), Fail> {
    assert!(rt; rows_answered(&rt, DOOMED_DRAFT)? == DOOMED_DRAFT.len());
    Ok(())
}

const UNUSED: &[Row<'static>] = &[
    (Call::Create(0, X, 5), Answer::Gone(X)),
    (Call::Close(0), Answer::Wrote(5, 0, 1)),
    (Call::Doom(X), Answer::Gone(X)),
    (Call::FileLen(X_PATH), Answer::Nothing),
    (Call::FileLen("cache/doomed/0"), Answer::Nothing),
];

// An entry that no slot has is removed at its place.
#[test]
fn an_unused_entry_is_removed(rt: HostRuntime) -> Result<(), Fail> {
    assert!(rt; rows_answered(&rt, UNUSED)? == UNUSED.len());
    Ok(())
}

const ALL_DRAFTS: &[Row<'static>] = &[
    (Call::CreateAll, Answer::Done),
    (Call::Doom(b":!"), Answer::Gone(b":!")),
    (Call::Append(0, b"on"), Answer::Done),
    (Call::Finish(0), Answer::Same),
    (Call::FileLen("cache/doomed/64"), Answer::Nothing),
    (Call::CloseAll, Answer::Done),
];

// Where every slot writes an entry, all their files stand aside already, and a draft is doomed without another number.
#[test]
fn a_draft_is_doomed_among_64(rt: HostRuntime) -> Result<(), Fail> {
    assert!(rt; rows_answered(&rt, ALL_DRAFTS)? == ALL_DRAFTS.len());
    Ok(())
}
