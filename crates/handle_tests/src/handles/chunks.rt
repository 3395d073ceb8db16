use super::*;

const HELD: &[Row<'static>] = &[
    (Call::Create(0, X, 1000), Answer::Gone(X)),
    (Call::Append(0, b"body"), Answer::Done),
    (Call::Finish(0), Answer::Wrote(1000, 0, 1)),
    (Call::Read(0, 0, 4), Answer::Bytes(b"body")),
    (Call::RemoveFile(X_PATH), Answer::Done),
    (Call::Read(0, 2, 9), Answer::Bytes(b"dy")),
    (Call::Close(0), Answer::Same),
    (Call::Create(0, X, 1000), Answer::Gone(X)),
    (Call::Append(0, b"other"), Answer::Done),
    (Call::Read(0, 0, 9), Answer::Bytes(b"other")),
    (Call::Append(0, b"!"), Answer::Done),
    (Call::Read(0, 0, 9), Answer::Bytes(b"other!")),
];

// The file is gone, and its chunk is held. The next entry of the key has its own.
#[test]
fn a_chunk_that_is_held_is_not_read_again(rt: HostRuntime) -> Result<(), Fail> {
    assert!(rt; rows_answered(&rt, HELD)? == HELD.len());
    Ok(())
}
