use super::*;
use std::test::Fail;

const OCCUPIED: &str = "occupied/entries/0000000000000000000000000000000000000000";

const OCCUPIED_LAST: &str = "occupied/entries/FFFFFFFFFFFFFFFFFFFFFFFFFFFFFFFFFFFFFFFF";

const LINKED: &str = "linked/entries/0000000000000000000000000000000000000000";

const MADE: &[Row<'static>] = &[
    (Call::Make(Place::Index, b"hello"), Answer::Done),
    (Call::Sync, Answer::Done),
    (Call::Size(Place::Index), Answer::Number(5)),
    (Call::File("above/cache/index"), Answer::Bytes(b"hello")),
    (Call::Mode("above", 0o700), Answer::Done),
    (Call::Mode("above/cache", 0o700), Answer::Done),
    (Call::Mode("above/cache/index", 0o600), Answer::Done),
];

#[test]
fn a_file_is_made_with_its_folders(rt: HostRuntime) -> Result<(), Fail> {
    assert!(rt; rows_answered(&rt, "above/cache//", MADE)? == MADE.len());
    Ok(())
}

const PATHS: &[Row<'static>] = &[
    (Call::Make(FIRST, b"first"), Answer::Done),
    (Call::File(FIRST_PATH), Answer::Bytes(b"first")),
    (Call::Make(LAST, b"last"), Answer::Done),
    (Call::File(LAST_PATH), Answer::Bytes(b"last")),
    (
        Call::Make(Place::Doomed(4_294_967_295), b"doomed"),
        Answer::Done,
    ),
    (
        Call::File("cache/doomed/4294967295"),
        Answer::Bytes(b"doomed"),
    ),
    (Call::Make(Place::Index, b"index"), Answer::Done),
    (Call::File("cache/index"), Answer::Bytes(b"index")),
    (Call::Make(Place::Log, b"index.log"), Answer::Done),
    (Call::File("cache/index.log"), Answer::Bytes(b"index.log")),
    (Call::Make(Place::Tmp, b"index.tmp"), Answer::Done),
    (Call::File("cache/index.tmp"), Answer::Bytes(b"index.tmp")),
    (Call::Make(Place::Clear, b"clear"), Answer::Done),
    (Call::File("cache/clear"), Answer::Bytes(b"clear")),
    (Call::Sync, Answer::Done),
];

#[test]
fn each_place_has_its_path(rt: HostRuntime) -> Result<(), Fail> {
    assert!(rt; rows_answered(&rt, "cache", PATHS)? == PATHS.len());
    Ok(())
}

const PARTS: &[Row<'static>] = &[
    (Call::Make(FIRST, b"0123456789"), Answer::Done),
    (Call::Read(FIRST, 0), Answer::Bytes(b"0123")),
    (Call::Read(FIRST, 4), Answer::Bytes(b"4567")),
    (Call::Read(FIRST, 6), Answer::Bytes(b"6789")),
    (Call::Read(FIRST, 7), Answer::Failed),
    (Call::Read(FIRST, 10), Answer::Failed),
    (Call::Read(FIRST, 1_099_511_627_776), Answer::Failed),
    (Call::Read(FIRST, 4_611_686_018_427_387_904), Answer::Failed),
    (Call::Read(FIRST, 9_223_372_036_854_775_809), Answer::Failed),
    (
        Call::Read(FIRST, 18_446_744_073_709_551_615),
        Answer::Failed,
    ),
    (Call::Read(FIRST, 6), Answer::Bytes(b"6789")),
];

#[test]
fn a_file_is_read_in_parts(rt: HostRuntime) -> Result<(), Fail> {
    assert!(rt; rows_answered(&rt, "cache", PARTS)? == PARTS.len());
    Ok(())
}

const WRITTEN: &[Row<'static>] = &[
    (Call::Make(FIRST, b"0123456789"), Answer::Done),
    (Call::WriteEnd(FIRST, 2, b"ab"), Answer::Done),
    (Call::File(FIRST_PATH), Answer::Bytes(b"01ab")),
    (Call::WriteEnd(FIRST, 4, b"cde"), Answer::Done),
    (Call::File(FIRST_PATH), Answer::Bytes(b"01abcde")),
    (Call::WriteEnd(FIRST, 3, b""), Answer::Done),
    (Call::File(FIRST_PATH), Answer::Bytes(b"01a")),
];

#[test]
fn a_written_file_ends_after_the_bytes(rt: HostRuntime) -> Result<(), Fail> {
    assert!(rt; rows_answered(&rt, "cache", WRITTEN)? == WRITTEN.len());
    Ok(())
}

const PATCHED: &[Row<'static>] = &[
    (Call::WriteFile("index", b"0123456789"), Answer::Done),
    (Call::Patch(Place::Index, 3, b"abc"), Answer::Done),
    (Call::Sync, Answer::Done),
    (Call::File("index"), Answer::Bytes(b"012abc6789")),
];

#[test]
fn a_patched_file_keeps_its_length(rt: HostRuntime) -> Result<(), Fail> {
    assert!(rt; rows_answered(&rt, ".", PATCHED)? == PATCHED.len());
    Ok(())
}

const ASKED: &[Row<'static>] = &[
    (Call::MakeFolder("asked"), Answer::Done),
    (Call::WriteFile("asked/index", b"0123456789"), Answer::Done),
    (Call::Size(Place::Index), Answer::Number(10)),
    (Call::Patch(Place::Index, 3, b"abc"), Answer::Done),
    (Call::WriteEnd(Place::Index, 8, b"d"), Answer::Done),
    (Call::Size(Place::Index), Answer::Number(9)),
    (Call::Sync, Answer::Done),
    (Call::File("asked/index"), Answer::Bytes(b"012abc67d")),
];

// Asked for its length, it is opened to be read alone.
#[test]
fn a_file_is_written_after_its_length_was_asked(rt: HostRuntime) -> Result<(), Fail> {
    assert!(rt; rows_answered(&rt, "asked", ASKED)? == ASKED.len());
    Ok(())
}

const CREATED_ANEW: &[Row<'static>] = &[
    (Call::Make(Place::Index, b"old"), Answer::Done),
    (Call::LinkHard("cache/index", "held"), Answer::Done),
    (Call::Make(Place::Index, b"newer"), Answer::Done),
    (Call::File("held"), Answer::Bytes(b"old")),
    (Call::File("cache/index"), Answer::Bytes(b"newer")),
];

#[test]
fn a_new_file_does_not_cut_the_old_one(rt: HostRuntime) -> Result<(), Fail> {
    assert!(rt; rows_answered(&rt, "cache", CREATED_ANEW)? == CREATED_ANEW.len());
    Ok(())
}

const RENAMED: &[Row<'static>] = &[
    (Call::Make(Place::Index, b"old"), Answer::Done),
    (Call::Make(Place::Tmp, b"newer"), Answer::Done),
    (Call::Rename(Place::Tmp, Place::Index), Answer::Done),
    (Call::WriteEnd(Place::Index, 5, b"!"), Answer::Done),
    (Call::Sync, Answer::Done),
    (Call::File("cache/index"), Answer::Bytes(b"newer!")),
    (Call::File("cache/index.tmp"), Answer::Nothing),
];

// Neither file was synced before.
#[test]
fn a_file_is_renamed_over_another(rt: HostRuntime) -> Result<(), Fail> {
    assert!(rt; rows_answered(&rt, "cache", RENAMED)? == RENAMED.len());
    Ok(())
}

const RENAMED_INTO_A_FOLDER: &[Row<'static>] = &[
    (Call::Make(FIRST, b"entry"), Answer::Done),
    (Call::Rename(FIRST, Place::Doomed(7)), Answer::Done),
    (Call::Sync, Answer::Done),
    (Call::Mode("moved/doomed", 0o700), Answer::Done),
    (Call::File("moved/doomed/7"), Answer::Bytes(b"entry")),
    (Call::Size(FIRST), Answer::Nothing),
];

#[test]
fn a_rename_makes_the_folder(rt: HostRuntime) -> Result<(), Fail> {
    assert!(rt; rows_answered(&rt, "moved", RENAMED_INTO_A_FOLDER)? == RENAMED_INTO_A_FOLDER.len());
    Ok(())
}

const MARKED: &[Row<'static>] = &[
    (Call::Size(Place::Clear), Answer::Nothing),
    (Call::Read(Place::Clear, 0), Answer::Bytes(b"")),
    (Call::Make(Place::Clear, b"older"), Answer::Done),
    (Call::Make(Place::Doomed(64), b"mark"), Answer::Done),
    (Call::Sync, Answer::Done),
    (Call::Rename(Place::Doomed(64), Place::Clear), Answer::Done),
    (Call::File("marked/clear"), Answer::Bytes(b"mark")),
    (Call::File("marked/doomed/64"), Answer::Nothing),
    (Call::Mode("marked/clear", 0o600), Answer::Done),
    (Call::Size(Place::Clear), Answer::Number(4)),
    (Call::Read(Place::Clear, 0), Answer::Bytes(b"mark")),
    (Call::Read(Place::Clear, 1), Answer::Bytes(b"ark")),
    (Call::Read(Place::Clear, 9), Answer::Bytes(b"")),
    (Call::Remove(Place::Clear), Answer::Done),
    (Call::Sync, Answer::Done),
    (Call::File("marked/clear"), Answer::Nothing),
    (Call::Read(Place::Clear, 0), Answer::Bytes(b"")),
];

// As a mark is stored over an older one, read as far as it goes, and removed.
#[test]
fn a_file_of_the_doomed_moves_to_the_top_folder(rt: HostRuntime) -> Result<(), Fail> {
    assert!(rt; rows_answered(&rt, "marked", MARKED)? == MARKED.len());
    Ok(())
}

const REMOVED: &[Row<'static>] = &[
    (Call::Make(FIRST, b"hello"), Answer::Done),
    (Call::Remove(FIRST), Answer::Done),
    (Call::Size(FIRST), Answer::Nothing),
    (Call::File(FIRST_PATH), Answer::Nothing),
    (Call::Sync, Answer::Done),
];

#[test]
fn a_removed_file_is_gone(rt: HostRuntime) -> Result<(), Fail> {
    assert!(rt; rows_answered(&rt, "cache", REMOVED)? == REMOVED.len());
    Ok(())
}

const MISSING: &[Row<'static>] = &[
    (Call::Size(FIRST), Answer::Nothing),
    (Call::Read(FIRST, 0), Answer::Failed),
    (Call::WriteEnd(FIRST, 0, b"x"), Answer::Failed),
    (Call::Patch(FIRST, 0, b"x"), Answer::Failed),
    (Call::Rename(FIRST, Place::Doomed(0)), Answer::Failed),
    (Call::Remove(FIRST), Answer::Failed),
    (Call::Sync, Answer::Done),
    (Call::File("missing"), Answer::Nothing),
];

#[test]
fn a_missing_file_is_not_made(rt: HostRuntime) -> Result<(), Fail> {
    assert!(rt; rows_answered(&rt, "missing", MISSING)? == MISSING.len());
    Ok(())
}

const OCCUPIED_PLACES: &[Row<'static>] = &[
    (Call::Make(LAST, b"last"), Answer::Done),
    (Call::MakeFolder(OCCUPIED), Answer::Done),
    (Call::Size(FIRST), Answer::Failed),
    (Call::Read(FIRST, 0), Answer::Failed),
    (Call::Create(FIRST), Answer::Failed),
    (Call::WriteEnd(FIRST, 0, b"x"), Answer::Failed),
    (Call::Patch(FIRST, 0, b"x"), Answer::Failed),
    (Call::Rename(LAST, FIRST), Answer::Failed),
    (Call::Remove(FIRST), Answer::Failed),
    (Call::Sync, Answer::Done),
    (Call::File(OCCUPIED_LAST), Answer::Bytes(b"last")),
];

#[test]
fn a_folder_at_a_place_fails_each_call(rt: HostRuntime) -> Result<(), Fail> {
    assert!(rt; rows_answered(&rt, "occupied", OCCUPIED_PLACES)? == OCCUPIED_PLACES.len());
    Ok(())
}

const LINKED_PLACE: &[Row<'static>] = &[
    (Call::Make(LAST, b"last"), Answer::Done),
    (Call::WriteFile("elsewhere", b"foreign"), Answer::Done),
    (Call::Link("../../elsewhere", LINKED), Answer::Done),
    (Call::Size(FIRST), Answer::Failed),
    (Call::Read(FIRST, 0), Answer::Failed),
    (Call::WriteEnd(FIRST, 0, b"x"), Answer::Failed),
    (Call::Make(FIRST, b"first"), Answer::Done),
    (Call::File(LINKED), Answer::Bytes(b"first")),
    (Call::File("elsewhere"), Answer::Bytes(b"foreign")),
];

// The file that a link leads to is neither read nor written, and stays where a new file takes the link's place.
#[test]
fn a_link_at_a_place_is_not_followed(rt: HostRuntime) -> Result<(), Fail> {
    assert!(rt; rows_answered(&rt, "linked", LINKED_PLACE)? == LINKED_PLACE.len());
    Ok(())
}
