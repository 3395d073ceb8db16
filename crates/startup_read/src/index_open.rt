//! Opens the index.

ghost use Rattle.std.specs.Prelude.{◌≡◌, ℕ, IfOk, IsTrue, List, OnOk, Option, if◌then◌else◌, is_some};
ghost use Rattle.disk_theory.specs.Calls.{IsBehindSync, counted_change, if_done};
ghost use Rattle.disk_theory.specs.State.{standing};
ghost use Rattle.disk_theory.specs.declared.place.Place.TheVariants.{Index, Log, Tmp};
ghost use Rattle.index_theory.specs.Apart.{IsApart};
ghost use Rattle.disk_theory.specs.Told.{Told};
ghost use Rattle.index_theory.specs.Unclean.{IsUnclean};
ghost use Rattle.index_theory.specs.IndexKind.{index_kind};
ghost use Rattle.index_theory.specs.LogKind.{log_kind};
ghost use Rattle.index_theory.specs.Start.{start_of};
ghost use Rattle.record_list.specs.Change.{HasNoRemoved};
ghost use Rattle.record_list.specs.Lists.{HasNames};
ghost use Rattle.record_list.specs.Stored.{AreClean};
ghost use Rattle.disk_theory.specs.Account.{LeavesEntriesUnread, Looks, LooksAtNoEntry, OnlyChanges, ending, no_sync, one_sync};
ghost use Rattle.startup_read.specs.Kept.{HasBase, KeepsIndex};
ghost use Rattle.startup_read.specs.Opening as spec;
ghost use Rattle.startup_read.specs.Spares.{SparesEntries};
ghost use Rattle.startup_read.specs.Starts.{IsSeen, StartsFrom, StartsWith, is_clean as is_clean_kind};

use crate::records::{IndexRead, LogRead, read_index, read_log};
use crate::{IndexKind, LogKind, Start, decide};
use cache_base::NoMemory;
use disk_theory::{Disk, DiskFault, Place};
use index_file::FLAG_AT;
use index_map::RecordMap;
use std::alloc::Global;

// The flag of an index in use.
const IN_USE: u32 = 1;

/// How a cache starts, and its records at the start.
#[derive(Drop)]
pub struct Opened {
    /// How the cache starts.
    pub start: Start,
    /// The records now, over those of the file `index`.
    pub map: RecordMap,
}

// What an opening starts with, and what decides on its changes.
#[derive(Drop)]
struct Found {
    opened: Opened,
    clean: bool,
    log: bool,
    tmp: bool,
}

// The map of the records at the start.
fn begin_map(
    alloc: Global,
    start: Start,
    index: IndexRead,
    log: &LogRead,
) -> Result<RecordMap, NoMemory>
    requires distinct { HasNames index.records }
    requires clean { AreClean index.records }
    requires present { HasNoRemoved index.records }
    requires log_distinct { HasNames log.now.records }
    requires log_clean { AreClean log.now.records }
    ensures { IfOk result (StartsWith start index.records log.now.records) }
{
    match start {
        Start::Build => Ok(RecordMap::new(alloc)),
        Start::Update => RecordMap::with_base(alloc, index.records, false),
        Start::Ready => RecordMap::with_journal(alloc, index.records, &log.records),
    }
}

fn is_clean(kind: IndexKind) -> bool
    ensures { result ≡ is_clean_kind kind }
{
    match kind {
        IndexKind::Clean => true,
        IndexKind::Missing => false,
        IndexKind::Invalid => false,
        IndexKind::Dirty => false,
    }
}

fn has_log(kind: LogKind) -> bool
    ensures { (file : Option (List ℕ)) → kind ≡ log_kind file → result ≡ is_some file }
{
    match kind {
        LogKind::Missing => false,
        LogKind::Invalid => true,
        LogKind::Valid => true,
    }
}

// Reads the files of the index.
fn read_files<D: Disk>(alloc: Global, disk: &mut D) -> Result<Found, DiskFault>
    ensures start { IfOk result (λ found. IsTrue D.tells →
        found.opened.start ≡ start_of (standing (D.state disk.old))) }
    ensures map { IfOk result (λ found. IsTrue D.tells →
        StartsFrom (standing (D.state disk.old)) found.opened.map) }
    ensures base { IfOk result (λ found. IsTrue D.tells →
        HasBase (standing (D.state disk.old) Index) found.opened.map) }
    ensures seen { IfOk result (λ found. IsTrue D.tells →
        IsSeen (D.state disk.old) found.clean found.log found.tmp) }
    ensures looks { Looks D.Disk (ending result) disk.old disk.new }
    ensures no_entry { LooksAtNoEntry D.Disk disk.old disk.new }
{
    let tmp = disk.size(&Place::Tmp)?.is_some();
    let index = read_index(alloc, disk)?;
    let log = read_log(alloc, disk)?;
    let start = decide(index.kind, log.kind, tmp);
    let clean = is_clean(index.kind);
    let map = begin_map(alloc, start, index, &log)?;
    Ok(Found {
        opened: Opened { start, map },
        clean,
        log: has_log(log.kind),
        tmp,
    })
}

// The journal takes the place `index.tmp`, where there is one.
fn set_aside<D: Disk>(disk: &mut D, log: bool) -> Result<(), DiskFault>
    requires { IsTrue D.tells → log ≡ is_some (standing (D.state disk.old) Log) }
    ensures state { Told D.Disk (λ s t. t ≡ if_done result (spec.set_aside s) s) disk.old disk.new }
    ensures disk { OnlyChanges D.Disk (ending result) no_sync disk.old disk.new }
{
    if log {
        disk.rename(&Place::Log, &Place::Tmp)
    } else {
        Ok(())
    }
}

// The flag of an index that is clean is set.
fn mark_in_use<D: Disk>(disk: &mut D, clean: bool) -> Result<(), DiskFault>
    requires { IsTrue D.tells →
        clean ≡ is_clean_kind (index_kind (standing (D.state disk.old) Index)) }
    ensures state { Told D.Disk (λ s t. t ≡ if_done result (spec.marked s) s) disk.old disk.new }
    ensures disk { OnlyChanges D.Disk (ending result) no_sync disk.old disk.new }
{
    if clean {
        disk.patch(&Place::Index, FLAG_AT as u64, &IN_USE.to_be_bytes())
    } else {
        Ok(())
    }
}

// The file at `index.tmp` is removed, where there is one.
fn remove_tmp<D: Disk>(disk: &mut D, tmp: bool) -> Result<(), DiskFault>
    requires { IsTrue D.tells → tmp ≡ is_some (standing (D.state disk.old) Tmp) }
    ensures state { Told D.Disk (λ s t. t ≡ if_done result (spec.cleared s) s) disk.old disk.new }
    ensures counts { let before = D.counts disk.old in IsTrue D.tells →
        D.counts disk.new ≡ (if tmp then counted_change result before else before) }
    ensures disk { OnlyChanges D.Disk (ending result) no_sync disk.old disk.new }
{
    if tmp {
        disk.remove(&Place::Tmp)
    } else {
        Ok(())
    }
}

// Makes the changes of an opening.
fn change<D: Disk>(disk: &mut D, clean: bool, log: bool, tmp: bool) -> Result<(), DiskFault>
    requires { IsTrue D.tells → IsSeen (D.state disk.old) clean log tmp }
    ensures opened { OnOk result (Told D.Disk (λ s t. t ≡ spec.opened s) disk.old disk.new) }
    ensures amid { Told D.Disk spec.IsAmidOpening disk.old disk.new }
    ensures behind { OnOk result (IsTrue D.tells →
        IsBehindSync (spec.calls_behind (D.state disk.old)) (D.counts disk.new)) }
    ensures disk { OnlyChanges D.Disk (ending result) one_sync disk.old disk.new }
{
    set_aside(disk, log)?;
    mark_in_use(disk, clean)?;
    disk.sync()?;
    remove_tmp(disk, tmp || log)
}

/// Opens the index. How the cache starts, and its records at the start, follow from what stands at `index`, `index.log`
/// and `index.tmp`, which are read first. Then the journal is set aside, so that it is used once; the flag of a clean
/// index is set, so that no crash leaves it trusted while the cache is open; the disk is synced; and a file at
/// `index.tmp` is removed. No entry is looked at.
pub fn open_index<D: Disk>(alloc: Global, disk: &mut D) -> Result<Opened, DiskFault>
    // How the cache starts, and with which records.
    ensures start { IfOk result (λ opened. IsTrue D.tells →
        opened.start ≡ start_of (standing (D.state disk.old))) }
    ensures map { IfOk result (λ opened. IsTrue D.tells →
        StartsFrom (standing (D.state disk.old)) opened.map) }

    // The changes, in their order, and what they leave.
    ensures opened { OnOk result (Told D.Disk (λ s t. t ≡ spec.opened s) disk.old disk.new) }
    ensures amid { Told D.Disk spec.IsAmidOpening disk.old disk.new }
    ensures keeps { IfOk result (λ opened. IsTrue D.tells →
        KeepsIndex (D.state disk.new) opened.map) }
    ensures entries { Told D.Disk (λ s t. IsApart s → SparesEntries s t) disk.old disk.new }

    // A crash at any moment leaves an honest directory, and after an Ok no trusted index.
    ensures honest { Told D.Disk spec.OpensHonest disk.old disk.new }
    ensures unclean { OnOk result (IsTrue D.tells → IsUnclean (D.state disk.new)) }
    ensures apart { OnOk result (IsTrue D.tells → IsApart (D.state disk.new)) }

    // Calls and faults. All looks come before the sync, and after it comes at most the removal of `index.tmp`.
    ensures disk { LeavesEntriesUnread D.Disk (ending result) one_sync disk.old disk.new }
    ensures looks_first { spec.LooksBeforeSync D.Disk (ending result) disk.old disk.new }
    ensures behind { OnOk result (IsTrue D.tells →
        IsBehindSync (spec.calls_behind (D.state disk.old)) (D.counts disk.new)) }
{
    let found = read_files(alloc, disk)?;
    change(disk, found.clean, found.log, found.tmp)?;
    Ok(found.opened)
}
