use super::*;

const READER: &[Row<'static>] = &[
    (Call::Create(0, X, 1000), Answer::Gone(X)),
    (Call::Append(0, b"old"), Answer::Done),
    (Call::Close(0), Answer::Wrote(1000, 0, 1)),
    (Call::Open(1, X), Answer::Done),
    (Call::Doom(X), Answer::Gone(X)),
    (Call::FileLen(X_PATH), Answer::Nothing),
    (Call::Create(2, X, 1000), Answer::Gone(X)),
    (Call::Append(2, b"new"), Answer::Done),
    (Call::Read(1, 0, 10), Answer::Bytes(b"old")),
    (Call::Close(2), Answer::Wrote(1000, 0, 1)),
    (Call::Close(1), Answer::Same),
    (Call::FileLen("cache/doomed/0"), Answer::Nothing),
    (Call::FileLen(X_PATH), Answer::Number(57)),
];

// A reader reads on after its entry was doomed and written again.
#[test]
fn a_reader_outlives_its_entry(rt: HostRuntime) -> Result<(), Fail> {
    assert!(rt; rows_answered(&rt, READER)? == READER.len());
    Ok(())
}

const FINISHED: &[Row<'static>] = &[
    (Call::Create(9, X, 1000), Answer::Gone(X)),
    (Call::Append(9, b"old"), Answer::Done),
    (Call::Finish(9), Answer::Wrote(1000, 0, 1)),
    (Call::BodyLen(9), Answer::Number(3)),
    (Call::Find(X), Answer::Found(1, 1000, 1000, 3)),
];

// The file of `old` under the key, made at the moment 1000.
#[test]
fn a_finished_entry_is_found(rt: HostRuntime) -> Result<(), Fail> {
    assert!(rt; rows_answered(&rt, FINISHED)? == FINISHED.len());
    Ok(())
}

const READ_DRAFT: &[Row<'static>] = &[
    (Call::Create(0, X, 5), Answer::Gone(X)),
    (Call::AppendChunk(0, 7), Answer::Done),
    (Call::Append(0, b"tail"), Answer::Done),
    (Call::Open(63, X), Answer::Done),
    (Call::FileLen("cache/doomed/0"), Answer::Number(262_148)),
    (Call::FileLen(X_PATH), Answer::Nothing),
    (
        Call::Read(63, 262_140, 9),
        Answer::Bytes(b"\x07\x07\x07\x07"),
    ),
    (Call::Read(63, 262_144, 9), Answer::Bytes(b"tail")),
    (Call::Read(63, 262_146, 1), Answer::Bytes(b"i")),
    (Call::Read(63, 262_148, 1), Answer::Bytes(b"")),
    (Call::Close(0), Answer::Wrote(5, 0, 257)),
    (Call::Read(63, 262_143, 2), Answer::Bytes(b"\x07")),
    (Call::Read(63, 262_145, 9), Answer::Bytes(b"ail")),
];

// Writer and readers share an entry that is not finished yet.
#[test]
fn a_draft_is_read(rt: HostRuntime) -> Result<(), Fail> {
    assert!(rt; rows_answered(&rt, READ_DRAFT)? == READ_DRAFT.len());
    Ok(())
}

const DROPPED_DRAFT: &[Row<'static>] = &[
    (Call::Create(0, X, 5), Answer::Gone(X)),
    (Call::FileLen("cache/doomed/0"), Answer::Number(0)),
    (Call::CloseAll, Answer::Done),
    (Call::FileLen("cache/doomed/0"), Answer::Nothing),
    (Call::FileLen(X_PATH), Answer::Nothing),
];

// What is not finished when the handles are closed leaves no file.
#[test]
fn a_draft_is_dropped(rt: HostRuntime) -> Result<(), Fail> {
    assert!(rt; rows_answered(&rt, DROPPED_DRAFT)? == DROPPED_DRAFT.len());
    Ok(())
}
