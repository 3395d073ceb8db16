//! One run at a time: which folder is locked, and what is done where another run came first.

use super::*;
use std::fs::TryLockError;
use std::test::Fail;

fn is_locked(rt: &HostRuntime, folder: &str) -> bool {
    match fs::open(rt, folder) {
        Ok(folder) => matches!(folder.try_lock(), Err(TryLockError::WouldBlock)),
        Err(_) => false,
    }
}

// Whether the folder is locked by the first call, and not before.
fn is_locked_by_a_look(rt: &HostRuntime, folder: &str) -> Result<bool, AllocError> {
    let mut disk = disk_in(rt, folder)?;
    let before = is_locked(rt, folder);
    let looked = disk.size(&Place::Index) == Ok(None);
    Ok(!before && looked && is_locked(rt, folder))
}

#[test]
fn the_first_call_locks_the_folder(rt: HostRuntime) -> Result<(), Fail> {
    assert!(rt; fs::create_dir(&rt, "locked").is_ok());
    assert!(rt; is_locked_by_a_look(&rt, "locked")?);
    assert!(rt; !is_locked(&rt, "locked"));
    Ok(())
}

// Whether the folder above one that is missing is locked until that is made, and then that one.
fn is_locked_where_made(rt: &HostRuntime) -> Result<bool, AllocError> {
    let mut disk = disk_in(rt, "above_new/cache")?;
    let looked = disk.size(&Place::Index) == Ok(None);
    let above = is_locked(rt, "above_new");
    let made = disk.create(&Place::Index) == Ok(());
    Ok(looked && above && made && !is_locked(rt, "above_new") && is_locked(rt, "above_new/cache"))
}

#[test]
fn a_missing_folder_is_locked_when_it_is_made(rt: HostRuntime) -> Result<(), Fail> {
    assert!(rt; fs::create_dir(&rt, "above_new").is_ok());
    assert!(rt; is_locked_where_made(&rt)?);
    Ok(())
}

const MADE_BY_ANOTHER: &[Row<'static>] = &[
    (Call::Size(Place::Index), Answer::Nothing),
    (Call::MakeFolder("late"), Answer::Done),
    (Call::WriteFile("late/index", b"other"), Answer::Done),
    (Call::WriteEnd(Place::Index, 0, b"mine"), Answer::Failed),
    (Call::Remove(Place::Index), Answer::Failed),
    (Call::Make(Place::Index, b"mine"), Answer::Failed),
    (Call::Make(FIRST, b"mine"), Answer::Failed),
    (Call::File("late/index"), Answer::Bytes(b"other")),
    (Call::File("late/entries"), Answer::Nothing),
];

#[test]
fn a_folder_that_another_made_meanwhile_is_left_alone(rt: HostRuntime) -> Result<(), Fail> {
    assert_eq!(rt;
        rows_answered(&rt, "late", MADE_BY_ANOTHER)?,
        MADE_BY_ANOTHER.len()
    );
    Ok(())
}
