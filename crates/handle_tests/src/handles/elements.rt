use super::*;

const SET: &[Row<'static>] = &[
    (Call::Create(0, X, 5), Answer::Gone(X)),
    (Call::Set(0, b"ctid", b"5"), Answer::Same),
    (Call::Finish(0), Answer::Wrote(5, 5, 1)),
    (Call::FileLen(X_PATH), Answer::Number(59)),
    (Call::Set(0, b"a", b"bc"), Answer::Wrote(5, 5, 1)),
    (Call::FileLen(X_PATH), Answer::Number(64)),
    (Call::Element(0, b"ctid"), Answer::Bytes(b"5")),
    (Call::Element(0, b"b"), Answer::Nothing),
    (Call::Unset(0, b"b"), Answer::Nothing),
    (Call::Unset(0, b"ctid"), Answer::Wrote(5, 0, 1)),
    (Call::FileLen(X_PATH), Answer::Number(57)),
];

// Elements of a draft go out with it, and those of a finished entry at once.
#[test]
fn elements_are_set(rt: HostRuntime) -> Result<(), Fail> {
    assert!(rt; rows_answered(&rt, SET)? == SET.len());
    Ok(())
}

const READ_ANEW: &[Row<'static>] = &[
    (Call::Create(0, X, 5), Answer::Gone(X)),
    (Call::Append(0, b"body"), Answer::Done),
    (Call::Finish(0), Answer::Wrote(5, 0, 1)),
    (Call::Set(0, b"name", b"value"), Answer::Wrote(5, 0, 1)),
    (Call::CloseAll, Answer::Done),
    (Call::Open(3, X), Answer::Done),
    (Call::Element(3, b"name"), Answer::Bytes(b"value")),
    (Call::Read(3, 0, 9), Answer::Bytes(b"body")),
];

// What was set is there when the entry is read anew.
#[test]
fn elements_are_read_anew(rt: HostRuntime) -> Result<(), Fail> {
    assert!(rt; rows_answered(&rt, READ_ANEW)? == READ_ANEW.len());
    Ok(())
}
