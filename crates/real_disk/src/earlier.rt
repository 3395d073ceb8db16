//! What an earlier process has left in the system's memory.
//!
//! A process that was killed may have changed files and names that the system has not put on the medium yet. So the
//! first sync goes over all that stands, unless the cache was closed, since a closing syncs it all, or an earlier
//! process left the note that all was synced.

ghost use Rattle.std.specs.Prelude.{◌≡◌, ◌↔◌, IfOk, OnOk, IsTrue, codes};
ghost use Rattle.real_disk.specs.Earlier.{IsKnown, IsSynced};
ghost use Rattle.machine_files.specs.Called.{FoundFileAt};
ghost use Rattle.real_disk.specs.Reasons.{HasReason, HoldsAt, IsFlagClear, WasClosed};

use crate::standing::Standing;
use crate::sync_note;
use folder_paths::{INDEX, LOG, TMP, path_in};
use index_file::FLAG_AT;
use machine_files::{Machine, is_missing, open_regular, read_only, seen_at};
use std::io::{self, ErrorKind};

/// Why no change of an earlier process waits. Only the functions here make it.
#[derive(Clone, Copy, Debug, PartialEq, Eq)]
pub(crate) struct Covered {
    by: Cover,
}

#[derive(Clone, Copy, Debug, PartialEq, Eq)]
enum Cover {
    // The cache was closed.
    Closing,
    // An earlier process left the note that all was synced.
    Note,
    // This process synced all that stood.
    Sync,
    // It did, but for what it may not open.
    Part,
}

impl Covered {
    /// All that stood, as far as it may be opened, was synced by this process.
    pub(crate) fn by_sync(standing: Standing) -> Self {
        let by = if standing.is_whole() {
            Cover::Sync
        } else {
            Cover::Part
        };
        Covered { by }
    }
}

/// Whether changes of an earlier process may wait for a sync.
#[derive(Clone, Copy, Debug, PartialEq, Eq)]
pub(crate) enum Earlier {
    /// Nobody has looked yet.
    Unknown,
    /// They may.
    Unsynced,
    /// None does.
    Synced(Covered),
}

impl Earlier {
    /// What is known after a look, which is made once, before the first change of this process.
    pub(crate) fn after_look<R: Machine + AllocGlobal>(self, rt: &R, dir: &str) -> Earlier
        ensures known { IsKnown result }
        ensures once { IsKnown self → result ≡ self }
        ensures reason { (IsKnown self → ⊥) → IsSynced result → HasReason R.Machine rt.now dir.now }
    {
        match self {
            Earlier::Unknown => left_in(rt, dir),
            Earlier::Unsynced => Earlier::Unsynced,
            Earlier::Synced(covered) => Earlier::Synced(covered),
        }
    }

    pub(crate) fn is_synced(self) -> bool
        ensures { IsTrue result ↔ IsSynced self }
    {
        match self {
            Earlier::Unknown => false,
            Earlier::Unsynced => false,
            Earlier::Synced(_) => true,
        }
    }

    /// Whether a note is to be left when all is synced: the cache was not closed when this process came, and no file was
    /// passed over.
    pub(crate) fn wants_note(self) -> bool
        ensures { IsTrue result → IsSynced self }
    {
        match self {
            Earlier::Unknown => false,
            Earlier::Unsynced => false,
            Earlier::Synced(covered) => {
                covered.by != Cover::Closing && covered.by != Cover::Part
            }
        }
    }
}

/// What stands in the folder tells. Where a part of it cannot be read, changes may wait: a needless sync loses nothing.
pub(crate) fn left_in<R: Machine + AllocGlobal>(rt: &R, dir: &str) -> Earlier
    ensures known { IsKnown result }
    ensures reason { IsSynced result → HasReason R.Machine rt.now dir.now }
{
    let by = match was_closed(rt, dir) {
        Ok(true) => Cover::Closing,
        _ => match sync_note::is_left(rt, dir) {
            Ok(true) => Cover::Note,
            _ => return Earlier::Unsynced,
        },
    };
    Earlier::Synced(Covered { by })
}

/// Whether the cache is closed. A closing clears the flag when all else is synced. An opening moves the journal to
/// `index.tmp` and sets the flag.
pub(crate) fn was_closed<R: Machine + AllocGlobal>(rt: &R, dir: &str) -> io::Result<bool>
    ensures { IfOk result (λ is. IsTrue is → WasClosed R.Machine rt.now dir.now) }
{
    find_journal(rt, dir)?;
    if !is_without_tmp(rt, dir)? {
        return Ok(false);
    }
    Ok(is_index_clear(rt, dir)?)
}

// Where no journal stands it is an error.
fn find_journal<R: Machine + AllocGlobal>(rt: &R, dir: &str) -> io::Result<()>
    ensures { OnOk result (HoldsAt dir.now (codes "index.log")
        (FoundFileAt R.Machine rt.now)) }
{
    let log = path_in(rt, dir, LOG)?;
    seen_at(rt, log.as_str())?;
    Ok(())
}

fn is_without_tmp<R: Machine + AllocGlobal>(rt: &R, dir: &str) -> io::Result<bool>
    ensures { IfOk result (λ is. IsTrue is → HoldsAt dir.now (codes "index.tmp")
        (R.Machine.missing rt.now)) }
{
    let tmp = path_in(rt, dir, TMP)?;
    Ok(is_missing(rt, tmp.as_str())?)
}

fn is_index_clear<R: Machine + AllocGlobal>(rt: &R, dir: &str) -> io::Result<bool>
    ensures { IfOk result (λ is. IsTrue is → HoldsAt dir.now (codes "index")
        (IsFlagClear R.Machine rt.now)) }
{
    let index = path_in(rt, dir, INDEX)?;
    Ok(is_flag_clear(rt, index.as_str())?)
}

// A file that ends before its flag does is an error.
fn is_flag_clear<R: Machine>(rt: &R, path: &str) -> io::Result<bool>
    ensures { IfOk result (λ is. IsTrue is → IsFlagClear R.Machine rt.now path.now) }
{
    let file = open_regular(rt, &read_only(), path)?;
    let mut flag = [0; 4];
    rt.read_from(&file, FLAG_AT as u64, &mut flag)?;
    Ok(u32::from_be_bytes(flag) == 0)
}
