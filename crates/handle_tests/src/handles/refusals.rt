use super::*;
use chunk_store::Damage;

// The file of `hello` whose first byte was changed to `j`.
const DAMAGE: Damage = Damage {
    chunk: 0,
    stored: 0x399E,
    found: 0x6DAA,
};

const SLOTS: &[Row<'static>] = &[
    (Call::Append(3, b"x"), Answer::Refused(Refusal::NoSlot)),
    (Call::Close(3), Answer::Refused(Refusal::NoSlot)),
    (Call::Element(3, b"x"), Answer::Refused(Refusal::NoSlot)),
    (Call::BodyLen(3), Answer::Refused(Refusal::NoSlot)),
    (Call::Create(3, b"a:x", 5), Answer::Refused(Refusal::BadKey)),
    (Call::Open(3, X), Answer::Refused(Refusal::Absent)),
    (Call::Create(3, X, 5), Answer::Gone(X)),
    (
        Call::Create(3, b"a:x", 5),
        Answer::Refused(Refusal::SlotTaken),
    ),
    (Call::Open(3, b"a:x"), Answer::Refused(Refusal::SlotTaken)),
];

#[test]
fn slots_are_free_or_taken(rt: HostRuntime) -> Result<(), Fail> {
    assert!(rt; rows_answered(&rt, SLOTS)? == SLOTS.len());
    Ok(())
}

const READERS: &[Row<'static>] = &[
    (Call::Create(0, X, 5), Answer::Gone(X)),
    (Call::Open(1, X), Answer::Done),
    (Call::Append(1, b"x"), Answer::Refused(Refusal::NotWriter)),
    (Call::Finish(1), Answer::Refused(Refusal::NotWriter)),
    (Call::Set(1, b"", b""), Answer::Refused(Refusal::NotWriter)),
    (Call::Unset(1, b"a"), Answer::Refused(Refusal::NotWriter)),
    (Call::Find(X), Answer::Refused(Refusal::Unfinished)),
    (Call::Finish(0), Answer::Wrote(5, 0, 1)),
    (Call::Append(0, b"x"), Answer::Refused(Refusal::Finished)),
    (
        Call::Set(1, b"", b"x"),
        Answer::Refused(Refusal::BadElement),
    ),
    (
        Call::Set(1, b"x", b"\0"),
        Answer::Refused(Refusal::BadElement),
    ),
    (Call::Set(1, b"x", b"y"), Answer::Wrote(5, 0, 1)),
];

#[test]
fn readers_do_not_write(rt: HostRuntime) -> Result<(), Fail> {
    assert!(rt; rows_answered(&rt, READERS)? == READERS.len());
    Ok(())
}

const SEEN_DAMAGE: &[Row<'static>] = &[
    (Call::Create(0, X, 5), Answer::Gone(X)),
    (Call::Append(0, b"hello"), Answer::Done),
    (Call::Close(0), Answer::Wrote(5, 0, 1)),
    (Call::ChangeFirstByte(X_PATH), Answer::Done),
    (Call::Open(0, X), Answer::Refused(Refusal::Damaged(DAMAGE))),
    (Call::Doom(X), Answer::Gone(X)),
];

// A chunk that is not the stored one is named by the first that differs.
#[test]
fn damage_is_seen(rt: HostRuntime) -> Result<(), Fail> {
    assert!(rt; rows_answered(&rt, SEEN_DAMAGE)? == SEEN_DAMAGE.len());
    Ok(())
}
