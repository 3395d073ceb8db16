//! What a first sync covers. Where it goes over all that stands it fails in these folders, since `entries` is a file.

use super::*;
use std::test::Fail;

// The starts of an index: its version, a moment and the flag.
const CLEAN: [u8; 12] = [0, 0, 0, 10, 0, 0, 3, 232, 0, 0, 0, 0];

const DIRTY: [u8; 12] = [0, 0, 0, 10, 0, 0, 3, 232, 0, 0, 0, 1];

// A folder with these files in it.
fn make_folder(rt: &HostRuntime, folder: &str, files: &[(&str, &[u8])]) -> bool {
    fs::create_dir(rt, folder).is_ok()
        && files
            .iter()
            .all(|file| fs::write(rt, file.0, file.1).is_ok())
}

// Whether a first sync goes over all that stands.
fn goes_over_all(rt: &HostRuntime, folder: &str) -> Result<bool, AllocError> {
    let mut disk = disk_in(rt, folder)?;
    Ok(disk.sync().is_err())
}

#[test]
fn a_missing_folder_was_not_closed(rt: HostRuntime) -> Result<(), Fail> {
    let mut disk = disk_in(&rt, "never")?;
    assert_eq!(rt; disk.sync(), Ok(()));
    assert!(rt; is_missing(&rt, "never"));
    Ok(())
}

#[test]
fn the_index_tells_whether_the_cache_was_closed(rt: HostRuntime) -> Result<(), Fail> {
    assert!(rt; make_folder(&rt, "told", &[("told/entries", b"no folder")]));
    assert!(rt; goes_over_all(&rt, "told")?);
    assert!(rt; fs::write(&rt, "told/index.log", b"journal").is_ok());
    assert!(rt; goes_over_all(&rt, "told")?);
    for (index, goes) in [
        (CLEAN.as_slice(), false),
        (DIRTY.as_slice(), true),
        (&CLEAN[..11], true),
        (b"", true),
        (b"\x00\x00\x00\x0A\x00\x00\x03\xE8\x01\x00\x00\x00", true),
        (
            b"\x00\x00\x00\x0A\x00\x00\x03\xE8\x00\x00\x00\x00more",
            false,
        ),
    ] {
        assert!(rt; fs::write(&rt, "told/index", index).is_ok());
        assert_eq!(rt; goes_over_all(&rt, "told")?, goes);
    }
    assert!(rt; fs::write(&rt, "told/index.tmp", b"").is_ok());
    assert!(rt; goes_over_all(&rt, "told")?);
    assert!(rt; fs::remove_file(&rt, "told/index.tmp").is_ok());
    assert!(rt; !goes_over_all(&rt, "told")?);
    assert!(rt; fs::remove_file(&rt, "told/index.log").is_ok());
    assert!(rt; goes_over_all(&rt, "told")?);
    Ok(())
}

const KILLED: &[Row<'static>] = &[
    (Call::MakeFolder("killed"), Answer::Done),
    (
        Call::WriteFile("killed/entries", b"no folder"),
        Answer::Done,
    ),
    (Call::Make(Place::Log, b"journal"), Answer::Done),
    (Call::Make(Place::Index, &CLEAN), Answer::Done),
    (Call::Sync, Answer::Failed),
    (Call::Sync, Answer::Failed),
    (Call::RemoveFile("killed/entries"), Answer::Done),
    (Call::Sync, Answer::Done),
    (
        Call::WriteFile("killed/entries", b"no folder"),
        Answer::Done,
    ),
    (Call::Sync, Answer::Done),
];

#[test]
fn a_first_sync_goes_over_all_until_it_succeeds(rt: HostRuntime) -> Result<(), Fail> {
    assert!(rt; rows_answered(&rt, "killed", KILLED)? == KILLED.len());
    Ok(())
}

const CLOSED: &[Row<'static>] = &[
    (Call::MakeFolder("closed"), Answer::Done),
    (
        Call::WriteFile("closed/entries", b"no folder"),
        Answer::Done,
    ),
    (Call::WriteFile("closed/index", &CLEAN), Answer::Done),
    (
        Call::WriteFile("closed/index.log", b"journal"),
        Answer::Done,
    ),
    (Call::Remove(Place::Log), Answer::Done),
    (Call::Sync, Answer::Done),
];

#[test]
fn a_closed_cache_is_not_gone_over(rt: HostRuntime) -> Result<(), Fail> {
    assert!(rt; rows_answered(&rt, "closed", CLOSED)? == CLOSED.len());
    assert!(rt; goes_over_all(&rt, "closed")?);
    Ok(())
}

const MIXED: &[Row<'static>] = &[
    (Call::Make(FIRST, b"first"), Answer::Done),
    (Call::Make(Place::Doomed(3), b"doomed"), Answer::Done),
    (Call::MakeFolder("mixed/index"), Answer::Done),
    (Call::MakeFolder("mixed/doomed/7"), Answer::Done),
    (Call::Link("nowhere", "mixed/index.log"), Answer::Done),
    (Call::Link("nowhere", "mixed/clear"), Answer::Done),
    (Call::Link("nowhere", "mixed/doomed/8"), Answer::Done),
];

#[test]
fn what_is_no_file_is_not_synced(rt: HostRuntime) -> Result<(), Fail> {
    assert!(rt; rows_answered(&rt, "mixed", MIXED)? == MIXED.len());
    assert!(rt; !goes_over_all(&rt, "mixed")?);
    assert!(rt; holds(&rt, "mixed/doomed/3", b"doomed"));
    Ok(())
}

const NOTED: &[Row<'static>] = &[
    (Call::MakeFolder("noted"), Answer::Done),
    (Call::MakeFolder("noted/entries"), Answer::Done),
    (Call::WriteFile("noted/index", &DIRTY), Answer::Done),
    (Call::Sync, Answer::Done),
    (Call::WriteFile("noted/doomed", b"no folder"), Answer::Done),
];

const CHANGED: &[Row<'static>] = &[
    (Call::Sync, Answer::Done),
    (Call::Patch(Place::Index, 0, b"0"), Answer::Done),
    (Call::File("noted/synced"), Answer::Nothing),
    (Call::Sync, Answer::Done),
    (Call::Leave, Answer::Done),
];

const CHANGED_UNSYNCED: &[Row<'static>] = &[
    (Call::Sync, Answer::Done),
    (Call::Patch(Place::Index, 0, b"1"), Answer::Done),
    (Call::Leave, Answer::Done),
    (Call::File("noted/synced"), Answer::Nothing),
];

// A sync that went over all leaves the note, and so does the last call where all is synced. A change takes it away.
#[test]
fn the_note_spares_the_next_sync(rt: HostRuntime) -> Result<(), Fail> {
    assert_eq!(rt; rows_answered(&rt, "noted", NOTED)?, NOTED.len());
    assert!(rt; !goes_over_all(&rt, "noted")?);
    assert_eq!(rt; rows_answered(&rt, "noted", CHANGED)?, CHANGED.len());
    assert!(rt; !goes_over_all(&rt, "noted")?);
    assert_eq!(rt;
        rows_answered(&rt, "noted", CHANGED_UNSYNCED)?,
        CHANGED_UNSYNCED.len()
    );
    assert!(rt; goes_over_all(&rt, "noted")?);
    Ok(())
}

const COPIED: &[Row<'static>] = &[
    (Call::MakeFolder("copied"), Answer::Done),
    (Call::MakeFolder("copied/entries"), Answer::Done),
    (Call::WriteFile("copied/index", &DIRTY), Answer::Done),
    (Call::Sync, Answer::Done),
];

// The note of one folder, in another.
#[test]
fn a_copied_note_is_not_believed(rt: HostRuntime) -> Result<(), Fail> {
    assert_eq!(rt; rows_answered(&rt, "copied", COPIED)?, COPIED.len());
    assert!(rt; fs::create_dir(&rt, "copy").is_ok());
    assert!(rt; fs::create_dir(&rt, "copy/entries").is_ok());
    assert!(rt; fs::copy(&rt, "copied/index", "copy/index").is_ok());
    assert!(rt; fs::copy(&rt, "copied/synced", "copy/synced").is_ok());
    assert!(rt; fs::write(&rt, "copy/doomed", b"no folder").is_ok());
    assert!(rt; goes_over_all(&rt, "copy")?);
    assert_eq!(rt;
        rows_answered(&rt, "copy", COPY_CHANGED)?,
        COPY_CHANGED.len()
    );
    Ok(())
}

const COPY_CHANGED: &[Row<'static>] = &[
    (Call::Patch(Place::Index, 0, b"0"), Answer::Done),
    (Call::File("copy/synced"), Answer::Nothing),
];

const FOREIGN: &[Row<'static>] = &[
    (Call::MakeFolder("foreign"), Answer::Done),
    (Call::MakeFolder("foreign/entries"), Answer::Done),
    (Call::WriteFile("foreign/index", &DIRTY), Answer::Done),
    (
        Call::WriteFile("foreign/synced", b"synced 1 2 3 4 5 six\n"),
        Answer::Done,
    ),
    (Call::Sync, Answer::Done),
    (Call::Patch(Place::Index, 0, b"0"), Answer::Done),
    (Call::Sync, Answer::Done),
    (Call::Leave, Answer::Done),
    (
        Call::File("foreign/synced"),
        Answer::Bytes(b"synced 1 2 3 4 5 six\n"),
    ),
];

// A file of the note's name that has not the form of a note.
#[test]
fn a_foreign_file_is_no_note_and_stays(rt: HostRuntime) -> Result<(), Fail> {
    assert_eq!(rt; rows_answered(&rt, "foreign", FOREIGN)?, FOREIGN.len());
    Ok(())
}
