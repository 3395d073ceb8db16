use super::*;

const RENAMED: &[Row<'static>] = &[
    (Call::Make(Place::Tmp, b"new"), Answer::Done),
    (Call::Make(Place::Index, b"old"), Answer::Done),
    (Call::Rename(Place::Tmp, Place::Index), Answer::Done),
    (Call::File(Place::Index), Answer::Bytes(b"new")),
    (Call::File(Place::Tmp), Answer::Nothing),
    (Call::Rename(Place::Tmp, Place::Index), Answer::Nothing),
];

#[test]
fn a_rename_moves_and_replaces(rt: HostRuntime) -> Result<(), Fail> {
    all_answered(&rt, rt.alloc(), RENAMED)
}

// A file of the doomed takes the place `clear`, as a mark does, and goes from there.
const CLEARING: &[Row<'static>] = &[
    (Call::Size(Place::Clear), Answer::Number(3)),
    (Call::Make(Place::Doomed(64), b"mark"), Answer::Done),
    (Call::Sync, Answer::Done),
    (Call::Rename(Place::Doomed(64), Place::Clear), Answer::Done),
    (Call::File(Place::Clear), Answer::Bytes(b"mark")),
    (Call::SyncedFile(Place::Clear), Answer::Bytes(b"old")),
    (Call::File(Place::Doomed(64)), Answer::Nothing),
    (
        Call::Read(Place::Clear, 1, b"........"),
        Answer::Read(3, b"ark....."),
    ),
    (Call::Patch(Place::Clear, 0, b"M"), Answer::Done),
    (Call::File(Place::Clear), Answer::Bytes(b"Mark")),
    (
        Call::Crash(0, &[(Place::Clear, b"old"), (Place::Doomed(64), b"mark")]),
        Answer::Done,
    ),
    (Call::Crash(1, &[(Place::Clear, b"mark")]), Answer::Done),
    (Call::Crash(1, &[(Place::Clear, b"old")]), Answer::Nothing),
    (Call::Remove(Place::Clear), Answer::Done),
    (Call::File(Place::Clear), Answer::Nothing),
    (Call::Remove(Place::Clear), Answer::Nothing),
];

#[test]
fn a_mark_is_moved_to_its_place_and_removed(rt: HostRuntime) -> Result<(), Fail> {
    all_answered_with(&rt, rt.alloc(), Place::Clear, b"old", CLEARING)
}

const PATCHED: &[Row<'static>] = &[
    (Call::Make(ENTRY, b"hello"), Answer::Done),
    (Call::Patch(ENTRY, 1, b"ipp"), Answer::Done),
    (Call::File(ENTRY), Answer::Bytes(b"hippo")),
    // past the end
    (Call::Patch(ENTRY, 3, b"low"), Answer::Nothing),
];

#[test]
fn a_patch_keeps_the_length(rt: HostRuntime) -> Result<(), Fail> {
    all_answered(&rt, rt.alloc(), PATCHED)
}

const SYNCS: &[Row<'static>] = &[
    (Call::NameSteps, Answer::Number(0)),
    (Call::Make(ENTRY, b"two"), Answer::Done),
    (Call::Make(Place::Log, b"log"), Answer::Done),
    (Call::NameSteps, Answer::Number(2)),
    (Call::SyncedFile(ENTRY), Answer::Bytes(b"one")),
    (Call::SyncedFile(Place::Log), Answer::Nothing),
    (Call::Sync, Answer::Done),
    (Call::NameSteps, Answer::Number(0)),
    (Call::SyncedFile(ENTRY), Answer::Bytes(b"two")),
    (Call::Patch(ENTRY, 0, b"T"), Answer::Done),
    (Call::SyncedFile(ENTRY), Answer::Bytes(b"two")),
    (Call::File(ENTRY), Answer::Bytes(b"Two")),
];

#[test]
fn a_sync_makes_changes_last(rt: HostRuntime) -> Result<(), Fail> {
    all_answered_with(&rt, rt.alloc(), ENTRY, b"one", SYNCS)
}
