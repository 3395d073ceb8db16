use super::*;

const PIN: &[Row<'static>] = &[
    (Call::Create(0, X, 5), Answer::Gone(X)),
    (Call::Pin(0), Answer::Same),
    (Call::Finish(0), Answer::WrotePinned(5, 0, 1)),
    (Call::FileLen(X_PATH), Answer::Number(52)),
    (Call::Pin(0), Answer::WrotePinned(5, 0, 1)),
    (Call::Unpin(0), Answer::Wrote(5, 0, 1)),
    (Call::Set(0, b"ctid", b"5"), Answer::Wrote(5, 5, 1)),
    (Call::Pin(0), Answer::WrotePinned(5, 5, 1)),
    (Call::Use(0, 5), Answer::WrotePinned(21_605, 5, 1)),
    (Call::FileLen(X_PATH), Answer::Number(59)),
];

// The pin of a draft goes out with it, and that of a finished entry at once. What else the record says stays.
#[test]
fn entries_are_pinned(rt: HostRuntime) -> Result<(), Fail> {
    assert!(rt; rows_answered(&rt, PIN)? == PIN.len());
    Ok(())
}

const REFUSED: &[Row<'static>] = &[
    (Call::Pin(3), Answer::Refused(Refusal::NoSlot)),
    (Call::Unpin(3), Answer::Refused(Refusal::NoSlot)),
    (Call::Create(0, X, 5), Answer::Gone(X)),
    (Call::Open(3, X), Answer::Done),
    (Call::Pin(3), Answer::Refused(Refusal::NotWriter)),
    (Call::Finish(0), Answer::Wrote(5, 0, 1)),
    (Call::Pin(3), Answer::Refused(Refusal::NotWriter)),
    (Call::Unpin(3), Answer::Refused(Refusal::NotWriter)),
    (Call::Doom(X), Answer::Gone(X)),
    (Call::Pin(0), Answer::Same),
    (Call::FileLen("cache/doomed/0"), Answer::Number(52)),
];

// Only the writer pins, also what is doomed, of which the index learns nothing.
#[test]
fn readers_do_not_pin(rt: HostRuntime) -> Result<(), Fail> {
    assert!(rt; rows_answered(&rt, REFUSED)? == REFUSED.len());
    Ok(())
}

// The first eight bytes of the SHA-1 of no bytes, and of `^a`.
const NO_ORIGIN: u64 = 0xDA39_A3EE_5E6B_4B0D;

const ORIGIN: u64 = 0xF87F_B192_D266_1A8C;

const A: &[u8] = b"O^a,:https://x/";

const OF_ORIGIN: &[Row<'static>] = &[
    (Call::OpenOf(NO_ORIGIN), Answer::Keys(&[])),
    (Call::Create(0, X, 5), Answer::Gone(X)),
    (Call::Create(1, Y, 5), Answer::Gone(Y)),
    (Call::Create(2, A, 5), Answer::Gone(A)),
    (Call::OpenOf(NO_ORIGIN), Answer::Keys(&[Y, X])),
    (Call::OpenOf(ORIGIN), Answer::Keys(&[A])),
    (Call::OpenOf(0), Answer::Keys(&[])),
    (Call::Pin(2), Answer::Same),
    (Call::OpenOf(ORIGIN), Answer::Keys(&[])),
    (Call::Finish(0), Answer::Wrote(5, 0, 1)),
    (Call::Open(9, X), Answer::Done),
    (Call::OpenOf(NO_ORIGIN), Answer::Keys(&[Y, X])),
    (Call::Pin(0), Answer::WrotePinned(5, 0, 1)),
    (Call::OpenOf(NO_ORIGIN), Answer::Keys(&[Y])),
    (Call::Unpin(2), Answer::Same),
    (Call::OpenOf(ORIGIN), Answer::Keys(&[A])),
    (Call::Doom(Y), Answer::Gone(Y)),
    (Call::OpenOf(NO_ORIGIN), Answer::Keys(&[])),
];

// Finished or not, once each, but none that is pinned or doomed.
#[test]
fn open_entries_are_of_an_origin(rt: HostRuntime) -> Result<(), Fail> {
    assert!(rt; rows_answered(&rt, OF_ORIGIN)? == OF_ORIGIN.len());
    Ok(())
}

const DOOM_NAME: &[Row<'static>] = &[
    (Call::Create(0, X, 5), Answer::Gone(X)),
    (Call::Append(0, b"old"), Answer::Done),
    (Call::Finish(0), Answer::Wrote(5, 0, 1)),
    (Call::DoomName(X), Answer::Gone(X)),
    (Call::FileLen(X_PATH), Answer::Nothing),
    (Call::FileLen("cache/doomed/0"), Answer::Number(57)),
    (Call::Read(0, 0, 9), Answer::Bytes(b"old")),
    (Call::Close(0), Answer::Same),
    (Call::FileLen("cache/doomed/0"), Answer::Nothing),
    (Call::Create(1, X, 5), Answer::Gone(X)),
    (Call::DoomName(X), Answer::Gone(X)),
    (Call::Users(X), Answer::Number(0)),
    (Call::Finish(1), Answer::Same),
    (Call::FileLen(X_PATH), Answer::Nothing),
    (Call::Close(1), Answer::Same),
    (Call::Create(2, X, 5), Answer::Gone(X)),
    (Call::Close(2), Answer::Wrote(5, 0, 1)),
    (Call::DoomName(X), Answer::Gone(X)),
    (Call::FileLen(X_PATH), Answer::Nothing),
    (Call::FileLen("cache/doomed/0"), Answer::Nothing),
];

// What is in use moves aside or stays there, and what is not is removed.
#[test]
fn names_are_doomed(rt: HostRuntime) -> Result<(), Fail> {
    assert!(rt; rows_answered(&rt, DOOM_NAME)? == DOOM_NAME.len());
    Ok(())
}
