//! What the files of the index say: their kinds and their records.

ghost use Rattle.std.specs.Prelude.{◌≡◌, IfOk, IsTrue, Some, if◌then◌else◌, length, true};
ghost use Rattle.std.specs.Option.{option_map};
ghost use Rattle.disk_theory.specs.State.{standing};
ghost use Rattle.disk_theory.specs.declared.place.Place.TheVariants.{Index, Log};
ghost use Rattle.index_theory.specs.IndexKind.{index_kind};
ghost use Rattle.index_theory.specs.LogKind.{log_kind};
ghost use Rattle.index_theory.specs.declared.kinds.IndexKind.TheVariants.{Clean, Dirty, Invalid};
ghost use Rattle.index_theory.specs.declared.kinds.LogKind.TheVariants.{Invalid as BadLog};
ghost use Rattle.record_list.specs.Change.{HasNoRemoved};
ghost use Rattle.record_list.specs.Lists.{HasNames};
ghost use Rattle.record_list.specs.Stored.{AreClean};
ghost use Rattle.disk_theory.specs.Account.{Looks, LooksAtNoEntry, ending};
ghost use Rattle.startup_read.specs.Reads.{ReadsIndex, ReadsJournal};

use crate::large_file::{LARGE, fails_check, number_at};
use crate::whole_file::{has_whole_records, read_sized};
use crate::{IndexKind, LogKind};
use cache_base::NoMemory;
use disk_theory::{Disk, DiskFault, Place};
use index_file::IndexFault;
use index_journal::JournalFault;
use index_record::Records;
use std::alloc::Global;

/// What stands at `index`, with the records of an index, or none.
#[derive(Drop)]
pub(crate) struct IndexRead {
    pub kind: IndexKind,
    pub records: Records,
}

/// What stands at `index.log`, with the records of a journal, or none.
#[derive(Drop)]
pub(crate) struct LogRead {
    pub kind: LogKind,
    pub records: Records,
}

// No records.
#[tactic(auto, using(crate::proofs::ReadKinds::no_names))]
fn no_records(alloc: Global) -> Records
    ensures distinct { HasNames result }
    ensures clean { AreClean result }
    ensures present { HasNoRemoved result }
{
    Records::new(alloc)
}

// An index of this kind without records.
fn no_index(alloc: Global, kind: IndexKind) -> IndexRead
    ensures kind { result.kind ≡ kind }
    ensures distinct { HasNames result.records }
    ensures clean { AreClean result.records }
    ensures present { HasNoRemoved result.records }
{
    IndexRead {
        kind,
        records: no_records(alloc),
    }
}

// A journal of this kind without records.
fn no_log(alloc: Global, kind: LogKind) -> LogRead
    ensures kind { result.kind ≡ kind }
    ensures distinct { HasNames result.records }
    ensures clean { AreClean result.records }
{
    LogRead {
        kind,
        records: no_records(alloc),
    }
}

fn kind_of_flag(dirty: bool) -> IndexKind
    ensures { result ≡ (if dirty then Dirty else Clean) }
{
    if dirty {
        IndexKind::Dirty
    } else {
        IndexKind::Clean
    }
}

// What these bytes are as an index.
fn parse_index(alloc: Global, b: &[u8]) -> Result<IndexRead, NoMemory>
    ensures reads { IfOk result (λ read. ReadsIndex (Some b.now) read.kind read.records) }
    ensures distinct { IfOk result (λ read. HasNames read.records) }
    ensures clean { IfOk result (λ read. AreClean read.records) }
    ensures present { IfOk result (λ read. HasNoRemoved read.records) }
{
    match index_file::parse(alloc, b) {
        Ok(image) => Ok(IndexRead {
            kind: kind_of_flag(image.dirty),
            records: image.records,
        }),
        Err(fault) => match fault {
            IndexFault::Memory => Err(NoMemory),
            _ => Ok(no_index(alloc, IndexKind::Invalid)),
        },
    }
}

// What these bytes are as a journal.
fn parse_log(alloc: Global, b: &[u8]) -> Result<LogRead, NoMemory>
    ensures reads { IfOk result (λ read. ReadsJournal (Some b.now) read.kind read.records) }
    ensures distinct { IfOk result (λ read. HasNames read.records) }
    ensures clean { IfOk result (λ read. AreClean read.records) }
{
    match index_journal::parse(alloc, b) {
        Ok(records) => Ok(LogRead {
            kind: LogKind::Valid,
            records,
        }),
        Err(fault) => match fault {
            JournalFault::Memory => Err(NoMemory),
            _ => Ok(no_log(alloc, LogKind::Invalid)),
        },
    }
}

// Whether a file of `size` bytes at `index` is seen to be no index before it is read whole: where it is large, by its
// version, and then by its records.
fn is_no_index<D: Disk>(alloc: Global, disk: &mut D, size: u64) -> Result<bool, DiskFault>
    requires { IsTrue D.tells →
        Some size ≡ option_map length (standing (D.state disk.old) Index) }
    ensures none { IfOk result (λ none. IsTrue D.tells → none ≡ true →
        index_kind (standing (D.state disk.old) Index) ≡ Invalid) }
    ensures looks { Looks D.Disk (ending result) disk.old disk.new }
    ensures no_entry { LooksAtNoEntry D.Disk disk.old disk.new }
{
    if size <= LARGE {
        return Ok(false);
    }
    let version = number_at(disk, &Place::Index, 0)?;
    if version != index_file::VERSION {
        return Ok(true);
    }
    fails_check(alloc, disk, &Place::Index, index_file::HEADER as u64, size)
}

// Whether a file of `size` bytes at `index.log` is seen to be no journal before it is read whole: where it is large, by
// its records.
fn is_no_log<D: Disk>(alloc: Global, disk: &mut D, size: u64) -> Result<bool, DiskFault>
    requires { IsTrue D.tells →
        Some size ≡ option_map length (standing (D.state disk.old) Log) }
    ensures none { IfOk result (λ none. IsTrue D.tells → none ≡ true →
        log_kind (standing (D.state disk.old) Log) ≡ BadLog) }
    ensures looks { Looks D.Disk (ending result) disk.old disk.new }
    ensures no_entry { LooksAtNoEntry D.Disk disk.old disk.new }
{
    if size <= LARGE {
        return Ok(false);
    }
    fails_check(alloc, disk, &Place::Log, 0, size)
}

/// What stands at `index`. Of a large file that is none no memory is taken.
pub(crate) fn read_index<D: Disk>(alloc: Global, disk: &mut D) -> Result<IndexRead, DiskFault>
    ensures reads { IfOk result (λ read. IsTrue D.tells →
        ReadsIndex (standing (D.state disk.old) Index) read.kind read.records) }
    ensures distinct { IfOk result (λ read. HasNames read.records) }
    ensures clean { IfOk result (λ read. AreClean read.records) }
    ensures present { IfOk result (λ read. HasNoRemoved read.records) }
    ensures looks { Looks D.Disk (ending result) disk.old disk.new }
    ensures no_entry { LooksAtNoEntry D.Disk disk.old disk.new }
{
    let Some(size) = disk.size(&Place::Index)? else {
        return Ok(no_index(alloc, IndexKind::Missing));
    };
    if !has_whole_records(size, index_file::LEAST as u64) {
        return Ok(no_index(alloc, IndexKind::Invalid));
    }
    if is_no_index(alloc, disk, size)? {
        return Ok(no_index(alloc, IndexKind::Invalid));
    }
    let file = read_sized(alloc, disk, &Place::Index, size)?;
    Ok(parse_index(alloc, file.as_slice())?)
}

/// What stands at `index.log`. Of a large file that is no journal no memory is taken.
pub(crate) fn read_log<D: Disk>(alloc: Global, disk: &mut D) -> Result<LogRead, DiskFault>
    ensures reads { IfOk result (λ read. IsTrue D.tells →
        ReadsJournal (standing (D.state disk.old) Log) read.kind read.records) }
    ensures distinct { IfOk result (λ read. HasNames read.records) }
    ensures clean { IfOk result (λ read. AreClean read.records) }
    ensures looks { Looks D.Disk (ending result) disk.old disk.new }
    ensures no_entry { LooksAtNoEntry D.Disk disk.old disk.new }
{
    let Some(size) = disk.size(&Place::Log)? else {
        return Ok(no_log(alloc, LogKind::Missing));
    };
    if !has_whole_records(size, index_journal::LEAST as u64) {
        return Ok(no_log(alloc, LogKind::Invalid));
    }
    if is_no_log(alloc, disk, size)? {
        return Ok(no_log(alloc, LogKind::Invalid));
    }
    let file = read_sized(alloc, disk, &Place::Log, size)?;
    Ok(parse_log(alloc, file.as_slice())?)
}
