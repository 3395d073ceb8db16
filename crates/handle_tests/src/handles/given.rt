use super::*;

// Its version and its key size are not those of the entry. It has the pin.
const HEADER: Header = Header {
    version: 1,
    fetch_count: 7,
    last_fetched: 500,
    last_modified: 400,
    frecency: 300,
    expiration: 2000,
    key_size: 99,
    flags: 1,
};

const AS_GIVEN: &[Row<'static>] = &[
    (Call::Create(0, X, 5), Answer::Gone(X)),
    (Call::Append(0, b"old"), Answer::Done),
    (Call::Set(0, b"own", b"1"), Answer::Same),
    (
        Call::FinishAs(0, HEADER, b"ctid\x005\0"),
        Answer::WrotePinned(300, 5, 1),
    ),
    (Call::FileLen(X_PATH), Answer::Number(64)),
    (Call::Element(0, b"own"), Answer::Nothing),
    (Call::Element(0, b"ctid"), Answer::Bytes(b"5")),
    (Call::BodyLen(0), Answer::Number(3)),
    (Call::Find(X), Answer::Found(7, 400, 300, 3)),
    (Call::Use(0, 300), Answer::WrotePinned(21_900, 5, 1)),
    (Call::Close(0), Answer::Same),
    (Call::Find(X), Answer::Found(8, 400, 21_900, 3)),
];

// Header and elements are those that are given, and not the entry's own. The file has version 3 and its key, whatever
// the header says of them.
#[test]
fn an_entry_is_finished_as_given(rt: HostRuntime) -> Result<(), Fail> {
    assert!(rt; rows_answered(&rt, AS_GIVEN)? == AS_GIVEN.len());
    Ok(())
}

const REFUSED: &[Row<'static>] = &[
    (
        Call::FinishAs(3, HEADER, b""),
        Answer::Refused(Refusal::NoSlot),
    ),
    (Call::Create(0, X, 5), Answer::Gone(X)),
    (Call::Open(3, X), Answer::Done),
    (
        Call::FinishAs(3, HEADER, b""),
        Answer::Refused(Refusal::NotWriter),
    ),
    (
        Call::FinishLong(0, HEADER, 262_094),
        Answer::Refused(Refusal::TooLarge),
    ),
    (Call::FileLen("cache/doomed/0"), Answer::Number(0)),
    (Call::FileLen(X_PATH), Answer::Nothing),
    (
        Call::FinishLong(0, HEADER, 262_093),
        Answer::WrotePinned(300, 0, 257),
    ),
    (Call::FileLen(X_PATH), Answer::Number(262_148)),
    (
        Call::FinishLong(0, HEADER, 262_094),
        Answer::Refused(Refusal::Finished),
    ),
    (
        Call::FinishAs(3, HEADER, b""),
        Answer::Refused(Refusal::NotWriter),
    ),
];

// A block has at most 262,144 bytes, and its elements are as long as it lets them be.
#[test]
fn a_given_finish_is_refused(rt: HostRuntime) -> Result<(), Fail> {
    assert!(rt; rows_answered(&rt, REFUSED)? == REFUSED.len());
    Ok(())
}

const DOOMED: &[Row<'static>] = &[
    (Call::Create(0, X, 5), Answer::Gone(X)),
    (Call::Append(0, b"old"), Answer::Done),
    (Call::Doom(X), Answer::Gone(X)),
    (Call::FinishAs(0, HEADER, b"a\0b\0"), Answer::Same),
    (Call::FileLen("cache/doomed/0"), Answer::Number(61)),
    (Call::FileLen(X_PATH), Answer::Nothing),
    (Call::Read(0, 0, 9), Answer::Bytes(b"old")),
    (Call::Close(0), Answer::Same),
    (Call::FileLen("cache/doomed/0"), Answer::Nothing),
];

// What is doomed gets no name, and the index learns nothing of it.
#[test]
fn a_doomed_entry_is_finished_as_given(rt: HostRuntime) -> Result<(), Fail> {
    assert!(rt; rows_answered(&rt, DOOMED)? == DOOMED.len());
    Ok(())
}
