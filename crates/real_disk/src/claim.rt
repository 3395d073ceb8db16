//! One run at a time: the lock of the folder of the cache, which a run holds to its end.
//!
//! The system lets go of a lock when the process ends, however it ends, so no file has to tell of it. A run that finds
//! the folder missing holds the lock of the nearest folder above it until it has made it, and then that of the new
//! folder. Who finds a new folder before its maker has locked it lets the maker go first.

ghost use Rattle.std.specs.Prelude.{◌↔◌, IfOk, IsTrue};
ghost use Rattle.real_disk.specs.Claims.{IsAsked, IsClaimed};

use crate::making::parent_of;
use folder_paths::{Area, CLEAR, DOOMED, ENTRIES, INDEX, LOG, TMP, path_in, path_of_area};
use machine_files::is_missing;
use std::fs::{self, File, TryLockError};
use std::io::{self, ErrorKind};
use std::os::unix::fs::MetadataExt;
use std::rt::{Clock, Files};
use std::thread;
use std::time::Duration;

// While another run has the lock it is asked for again after a pause, which doubles up to the longest. So many tries take
// about ten seconds.
const TRIES: u32 = 320;

const LONGEST_PAUSE: u64 = 32;

// Where runs take turns the tries begin anew with each of them, but for an hour at most.
const TURNS: u32 = 360;

// The number of the error of a file system that has no locks left. The kinds of errors have no name for it.
const NO_LOCKS: i32 = 37;

/// Whether this run has the folder of the cache to itself.
#[derive(Drop)]
pub(crate) enum Claim<F: Drop> {
    /// Nobody has asked.
    Unasked,
    /// The folder is missing. The lock of one above it is held, where it could be had.
    Missing(Option<F>),
    /// It has, by the lock of the folder, unless the file system has no locks.
    Held(F),
}

impl<F: Drop> Claim<F> {
    pub(crate) fn is_asked(&self) -> bool
        ensures asked { IsTrue result ↔ IsAsked self.now }
        ensures claimed { IsClaimed self.now → IsTrue result }
    {
        match self {
            Claim::Unasked => false,
            Claim::Missing(_) => true,
            Claim::Held(_) => true,
        }
    }

    pub(crate) fn is_held(&self) -> bool
        ensures { IsTrue result ↔ IsClaimed self.now }
    {
        match self {
            Claim::Unasked => false,
            Claim::Missing(_) => false,
            Claim::Held(_) => true,
        }
    }
}

/// Asks for the folder.
pub(crate) fn ask<R: Files<File = File> + AllocGlobal + Clock>(
    rt: &R,
    dir: &str,
) -> io::Result<Claim<File>>
    ensures { IfOk result IsAsked }
{
    let top = path_of_area(rt, dir, &Area::Top)?;
    if let Some(folder) = lock_if_there(rt, top.as_str())?
        && !is_new(&folder)?
    {
        return Ok(Claim::Held(folder));
    }
    match lock_above_missing(rt, top.as_str())? {
        Some(above) => Ok(Claim::Missing(above)),
        None => {
            let folder = open_folder(rt, top.as_str())?;
            lock(rt, &folder)?;
            Ok(Claim::Held(folder))
        }
    }
}

// Locks the nearest folder above one that is missing. Where that one stands then, its maker has locked it, and this lock
// is given up.
fn lock_above_missing<R: Files<File = File> + AllocGlobal + Clock>(
    rt: &R,
    top: &str,
) -> io::Result<Option<Option<File>>> {
    let above = lock_above(rt, top)?;
    if is_missing(rt, top)? {
        Ok(Some(above))
    } else {
        Ok(None)
    }
}

/// Asks for the folder that was missing, and was just made. Where another run had it meanwhile, what this one knows of it
/// is no longer so.
pub(crate) fn ask_made<R: Files<File = File> + AllocGlobal + Clock>(
    rt: &R,
    dir: &str,
) -> io::Result<Claim<File>>
    ensures { IfOk result IsClaimed }
{
    let folder = open_folder(rt, path_of_area(rt, dir, &Area::Top)?.as_str())?;
    lock(rt, &folder)?;
    if has_files(rt, dir)? {
        return Err(ErrorKind::ResourceBusy.into());
    }
    Ok(Claim::Held(folder))
}

// Whether a file or a folder of the cache stands there.
fn has_files<R: Files<File = File> + AllocGlobal>(rt: &R, dir: &str) -> io::Result<bool> {
    'names: for name in [ENTRIES, DOOMED, INDEX, LOG, TMP, CLEAR] {
        if !is_missing(rt, path_in(rt, dir, name)?.as_str())? {
            return Ok(true);
        }
    }
    Ok(false)
}

// A folder that has none in it may have been made just now, by a run that has not locked it yet.
fn is_new(folder: &File) -> io::Result<bool> {
    Ok(folder.metadata()?.nlink() < 3)
}

// The nearest folder that stands above, locked where that may be done.
fn lock_above<R: Files<File = File> + AllocGlobal + Clock>(
    rt: &R,
    top: &str,
) -> io::Result<Option<File>> {
    let mut above = parent_of(top);
    'above: for _ in 0..top.len() {
        match lock_if_there(rt, above) {
            Ok(None) => above = parent_of(above),
            Err(error) if error.kind() == ErrorKind::PermissionDenied => return Ok(None),
            outcome => return outcome,
        }
    }
    Ok(None)
}

// The folder, locked, if it stands.
fn lock_if_there<R: Files<File = File> + AllocGlobal + Clock>(
    rt: &R,
    path: &str,
) -> io::Result<Option<File>> {
    match open_folder(rt, path) {
        Ok(folder) => {
            lock(rt, &folder)?;
            Ok(Some(folder))
        }
        Err(error) if error.kind() == ErrorKind::NotFound => Ok(None),
        Err(error) => Err(error),
    }
}

// What is no folder is not opened: that of a pipe would wait for a writer.
fn open_folder<R: Files + AllocGlobal>(rt: &R, path: &str) -> io::Result<R::File> {
    fs::open(rt, format!(in rt.alloc(); "{path}/.")?.as_str())
}

// Locks the folder. While other runs take turns each of them has ten seconds: a run that comes or goes changes names in
// the folder.
fn lock<R: Clock>(rt: &R, folder: &File) -> io::Result<()> {
    if is_locked_by(rt, folder, 1)? {
        return Ok(());
    }
    'turns: for _ in 0..TURNS {
        let changed = changed_at(folder)?;
        if is_locked_by(rt, folder, TRIES)? {
            return Ok(());
        }
        if changed_at(folder)? == changed {
            break 'turns;
        }
    }
    Err(ErrorKind::ResourceBusy.into())
}

// Whether one of so many tries locked the folder. Where the file system has no locks the run goes on without.
fn is_locked_by<R: Clock>(rt: &R, folder: &File, tries: u32) -> io::Result<bool> {
    let mut pause = 1u64;
    'tries: for _ in 0..tries {
        match folder.try_lock() {
            Ok(()) => return Ok(true),
            Err(TryLockError::WouldBlock) => {}
            Err(TryLockError::Error(error)) if has_no_locks(&error) => return Ok(true),
            Err(TryLockError::Error(error)) => return Err(error),
        }
        thread::sleep(rt, Duration::from_millis(pause));
        pause = pause.saturating_mul(2).min(LONGEST_PAUSE);
    }
    Ok(false)
}

// When a name in the folder was made or removed last.
fn changed_at(folder: &File) -> io::Result<(i64, i64)> {
    let found = folder.metadata()?;
    Ok((found.ctime(), found.ctime_nsec()))
}

fn has_no_locks(error: &io::Error) -> bool {
    error.kind() == ErrorKind::Unsupported || error.raw_os_error() == Some(NO_LOCKS)
}
