//! The verb `load`: the entries of a dump are written.

ghost use Rattle.cache_tool.specs.Syncs.{as_made, item_syncs};
ghost use Rattle.std.specs.Prelude.{◌≡◌, ◌≢◌, ◌≤◌, ◌<◌, ◌⊎◌, ◌++◌, [], ℕ, Err, IfOk, IsTrue, None, Ok, OnOk, Some, suc};
ghost use Rattle.std.specs.Io.KnownBytes.{Appends, IsAtEnd};
ghost use Rattle.cache_base.specs.Causes.{CountsFailure, HasCause, Rose};
ghost use Rattle.cache_export.specs.Parts.{Part};
ghost use Rattle.cache_export.specs.Reader.{used_in};
ghost use Rattle.cache_store.specs.Open.{IsOpen};
ghost use Rattle.cache_replies.specs.Saying.{TakesMore};
ghost use Rattle.cache_store.specs.Session.{session};
ghost use Rattle.cache_tool.specs.Load.{HasDump, HasNoDump, LoadsDump, bad_dump_line, loaded_line};
ghost use Rattle.cache_tool.specs.LoadProgress.{EndsLoaded, IsLine, LoadsNext, PerformsLoad, finish_commands, loading, part_commands};
ghost use Rattle.cache_tool.specs.FillProgress.{RunsAll};
ghost use Rattle.cache_tool.specs.MarkLeft.{LeavesMark};
ghost use Rattle.cache_tool.specs.Statuses.{IsClosing, IsSaid};
ghost use Rattle.cache_tool.specs.World.{world};
ghost use Rattle.disk_theory.specs.Account.{no_sync};
ghost use Rattle.disk_theory.specs.Calls.{StopsAtFault};
ghost use Rattle.disk_theory.specs.Sound.{IsQuiet};
ghost use Rattle.disk_theory.specs.Told.{Told};
ghost use Rattle.cache_tool.specs.KeepsOpen.{KeepsOpen};

use crate::last_reply::LastReply;
use crate::put::send;
use crate::session::{begin, end, print_answer, status_of_fault};
use cache_base::{Bytes, Moment, NoMemory, Status, bytes_fit};
use cache_export::{DumpFault, DumpReader, Item};
use cache_io::{Sink, Source};
use cache_script::Command;
use cache_store::{Store, StoreFault};
use disk_theory::Disk;
use entry_metadata::Meta;
use entry_parts::parts_fit;
use std::alloc::Global;

// The slot by which the entries are written.
const SLOT: u8 = 0;

/// How the parts of a dump ended.
#[derive(Clone, Copy)]
pub(crate) enum LoadEnd {
    /// The dump ended after so many items.
    Whole(u64),
    /// The item with this number, counted from 1, is bad.
    Bad(u64),
    /// The source failed.
    Failed,
}

// Finishes the entry as the block of its item says, and gives up the slot.
fn finish_entry<D: Disk>(
    alloc: Global,
    store: &mut Store,
    meta: &Meta,
    said: &mut LastReply,
    disk: &mut D,
) -> Result<(), StoreFault>
    requires told { IsTrue D.tells → IsOpen (session D.Disk store.old disk.old) }
    ensures runs { let at = session D.Disk in IsTrue D.tells →
        RunsAll (finish_commands meta.now.header meta.now.elements) result
        (at store.old disk.old) (at store.new disk.new) }
    ensures keeps { KeepsOpen D.Disk item_syncs result store.new disk.old disk.new }
{
    let elements = &meta.elements;
    parts_fit(meta.header, elements);
    let finish = Command::FinishAs {
        slot: SLOT,
        header: meta.header,
        elements,
    };
    send(alloc, store, &finish, said, disk)?;
    let close = Command::Close { slot: SLOT };
    send(alloc, store, &close, said, disk)?;
    Ok(())
}

// Makes the entry of an item.
fn begin_entry<D: Disk>(
    alloc: Global,
    store: &mut Store,
    key: &Bytes,
    said: &mut LastReply,
    disk: &mut D,
) -> Result<(), StoreFault>
    requires told { IsTrue D.tells → IsOpen (session D.Disk store.old disk.old) }
    ensures runs { let at = session D.Disk in IsTrue D.tells →
        RunsAll (part_commands (Part.KeyPart key.now)) result
        (at store.old disk.old) (at store.new disk.new) }
    ensures keeps { KeepsOpen D.Disk no_sync result store.new disk.old disk.new }
{
    let key = key.as_slice();
    bytes_fit(key);
    send(
        alloc,
        store,
        &Command::Create { slot: SLOT, key },
        said,
        disk,
    )?;
    Ok(())
}

// Adds a piece to its body.
fn append_piece<D: Disk>(
    alloc: Global,
    store: &mut Store,
    piece: &Bytes,
    said: &mut LastReply,
    disk: &mut D,
) -> Result<(), StoreFault>
    requires told { IsTrue D.tells → IsOpen (session D.Disk store.old disk.old) }
    ensures runs { let at = session D.Disk in IsTrue D.tells →
        RunsAll (part_commands (Part.PiecePart piece.now)) result
        (at store.old disk.old) (at store.new disk.new) }
    ensures keeps { KeepsOpen D.Disk no_sync result store.new disk.old disk.new }
{
    let bytes = piece.as_slice();
    bytes_fit(bytes);
    send(
        alloc,
        store,
        &Command::Append { slot: SLOT, bytes },
        said,
        disk,
    )?;
    Ok(())
}

// Reads the next part and does what it asks for, or tells why there is none. So many items were whole before it.
fn load_next<D: Disk, S: Source>(
    alloc: Global,
    reader: &mut DumpReader,
    count: &mut u64,
    store: &mut Store,
    source: &mut S,
    said: &mut LastReply,
    disk: &mut D,
) -> Result<Option<LoadEnd>, StoreFault>
    requires few { count.old ≤ used_in reader.old }
    requires told { IsTrue D.tells → IsOpen (session D.Disk store.old disk.old) }
    ensures loads { let at = session D.Disk in let left = S.left in
        let was = D.counts disk.old in let counts = D.counts disk.new in
        let mid = loading reader.old count.old (left source.old) (at store.old disk.old) was in
        let now = loading reader.new count.new (left source.new) (at store.new disk.new) counts in
        LoadsNext (IsTrue D.tells) result mid now }
    ensures few { result ≡ Ok None → count.new ≤ used_in reader.new }
    ensures further { result ≡ Ok None → used_in reader.old < used_in reader.new }
    ensures source { HasCause (result ≡ Ok (Some LoadEnd.Failed))
        (S.faults source.old) (S.faults source.new) }
    ensures keeps { KeepsOpen D.Disk item_syncs result store.new disk.old disk.new }
{
    match reader.next(source) {
        Ok(Item::Key(key)) => {
            begin_entry(alloc, store, &key, said, disk)?;
            Ok(None)
        }
        Ok(Item::Piece(piece)) => {
            append_piece(alloc, store, &piece, said, disk)?;
            Ok(None)
        }
        Ok(Item::Block(meta)) => {
            finish_entry(alloc, store, &meta, said, disk)?;
            *count += 1;
            Ok(None)
        }
        Ok(Item::End) => Ok(Some(LoadEnd::Whole(*count))),
        Err(DumpFault::Bad(number)) => Ok(Some(LoadEnd::Bad(number))),
        Err(DumpFault::Source) => Ok(Some(LoadEnd::Failed)),
        Err(DumpFault::Memory) => Err(StoreFault::Memory),
    }
}

// Does what the parts of the dump ask for, one after the other.
fn load_parts<D: Disk, S: Source>(
    alloc: Global,
    store: &mut Store,
    source: &mut S,
    said: &mut LastReply,
    disk: &mut D,
) -> Result<LoadEnd, StoreFault>
    requires told { IsTrue D.tells → IsOpen (session D.Disk store.old disk.old) }
    ensures loads { let at = session D.Disk in let from = S.left source.old in
        let before = at store.old disk.old in let now = at store.new disk.new in
        let was = D.counts disk.old in let counts = D.counts disk.new in
        EndsLoaded (IsTrue D.tells) result from (S.left source.new) before now was counts }
    ensures source { HasCause (result ≡ Ok LoadEnd.Failed)
        (S.faults source.old) (S.faults source.new) }
    ensures keeps { KeepsOpen D.Disk (as_made D.Disk disk.new) result store.new disk.old disk.new }
{
    let mut reader = DumpReader::new(alloc);
    let mut count = 0;
    'parts: loop {
        if let Some(ended) = load_next(alloc, &mut reader, &mut count, store, source, said, disk)? {
            return Ok(ended);
        }
    }
}

// The line with the number of the items that were loaded.
fn say_loaded(alloc: Global, count: u64, line: &mut Bytes) -> Result<(), NoMemory>
    ensures { OnOk result (line.new ≡ line.old ++ loaded_line count) }
{
    line.extend(b"loaded ")?;
    line.extend_decimal(alloc, count)?;
    line.push(b'\n')
}

// The line with the number of the item that is bad.
fn say_bad(alloc: Global, number: u64, line: &mut Bytes) -> Result<(), NoMemory>
    ensures { OnOk result (line.new ≡ line.old ++ bad_dump_line number) }
{
    line.extend(b"bad dump ")?;
    line.extend_decimal(alloc, number)?;
    line.push(b'\n')
}

// Loads the dump. The line to print is held.
fn perform_load<D: Disk, S: Source>(
    alloc: Global,
    store: &mut Store,
    source: &mut S,
    line: &mut Bytes,
    disk: &mut D,
) -> Result<Status, StoreFault>
    requires empty { line.old ≡ [] }
    requires told { IsTrue D.tells → IsOpen (session D.Disk store.old disk.old) }
    ensures performs { let at = session D.Disk in let from = S.left source.old in
        let before = at store.old disk.old in let now = at store.new disk.new in
        let was = D.counts disk.old in let counts = D.counts disk.new in
        PerformsLoad (IsTrue D.tells) result from (S.left source.new)
        before now was counts line.new }
    ensures only { IfOk result (λ s. IsLine s ⊎ (s ≡ Status.Source)) }
    ensures source { HasCause (result ≡ Ok Status.Source)
        (S.faults source.old) (S.faults source.new) }
    ensures keeps { KeepsOpen D.Disk (as_made D.Disk disk.new) result store.new disk.old disk.new }
{
    let mut said = LastReply::new(alloc);
    match load_parts(alloc, store, source, &mut said, disk)? {
        LoadEnd::Whole(count) => {
            say_loaded(alloc, count, line)?;
            Ok(Status::Done)
        }
        LoadEnd::Bad(number) => {
            say_bad(alloc, number, line)?;
            Ok(Status::Script)
        }
        LoadEnd::Failed => Ok(Status::Source),
    }
}

/// Loads a dump: the entry of each item is written, one after the other, in the order in which they come. Then the
/// store is closed, and one line tells how many there were, or which item is bad: those before it stand, and nothing
/// is left of it.
pub(crate) fn load<D: Disk, S: Source, K: Sink>(
    alloc: Global,
    now: Moment,
    source: &mut S,
    sink: &mut K,
    disk: &mut D,
) -> Status
    ensures loads { let at = world S.Source K.Sink D.Disk in
        let before = at source.old sink.old disk.old in
        IsTrue D.tells → LoadsDump now result before (at source.new sink.new disk.new) }
    ensures grows { TakesMore (K.taken sink.old) (K.taken sink.new) }
    ensures read { result ≡ Status.Done → IsAtEnd (S.left source.new) }
    ensures dumped { result ≡ Status.Done → HasDump (S.left source.old) }
    ensures undumped { result ≡ Status.Script → HasNoDump (S.left source.old) }
    ensures done { result ≡ Status.Done →
        (n : ℕ) × Appends (K.taken sink.old) (K.taken sink.new) (loaded_line n) }
    ensures bad { result ≡ Status.Script →
        (n : ℕ) × Appends (K.taken sink.old) (K.taken sink.new) (bad_dump_line (suc n)) }
    ensures others { (result ≢ Status.Words) × (result ≢ Status.No) }
    ensures quiet { IsClosing result → IsTrue D.tells → IsQuiet (D.state disk.new) }
    ensures mark { Told D.Disk (LeavesMark []) disk.old disk.new }
    ensures stops { IsTrue D.tells → StopsAtFault (D.counts disk.old) (D.counts disk.new) }
    ensures source { result ≡ Status.Source → Rose (S.faults source.old) (S.faults source.new) }
    ensures sink { result ≡ Status.Sink → Rose (K.faults sink.old) (K.faults sink.new) }
    ensures calm { IsSaid result →
        (S.faults source.new ≡ S.faults source.old) × (K.faults sink.new ≡ K.faults sink.old) }
    ensures disk { CountsFailure (result ≡ Status.Disk) (D.faults disk.old) (D.faults disk.new) }
{
    let mut store = match begin(alloc, now, disk) {
        Ok(store) => store,
        Err(fault) => return status_of_fault(fault),
    };
    let mut line = Bytes::new(alloc);
    let came = perform_load(alloc, &mut store, source, &mut line, disk);
    match end(store, came, disk) {
        Status::Done => print_answer(Status::Done, line.as_slice(), sink),
        Status::Script => print_answer(Status::Script, line.as_slice(), sink),
        other => other,
    }
}
