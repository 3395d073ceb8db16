//! The verb `fill`: entries are made, half of all is evicted, and the rest is checked and listed.

ghost use Rattle.cache_tool.specs.Syncs.{run_syncs};
ghost use Rattle.cache_store.specs.Syncs.{writing_syncs};
ghost use Rattle.std.specs.List.{range_with_len};
ghost use Rattle.std.specs.Prelude.{◌≡◌, ◌≢◌, ◌≤◌, ◌<◌, ◌+◌, ◌++◌, ◌*◌, ◌%◌, ◌^◌, ◌⊎◌, [], ◌∷◌, codes, length, map, Err, IfOk, IsTrue, Ok, OnOk, ℕ};
ghost use Rattle.cache_base.specs.Causes.{CountsFailure, Rose};
ghost use Rattle.cache_store.specs.Open.{IsOpen};
ghost use Rattle.cache_replies.specs.Saying.{TakesMore};
ghost use Rattle.cache_store.specs.Session.{session};
ghost use Rattle.cache_theory.specs.Text.{with_number};
ghost use Rattle.cache_tool.specs.Fill.{body_of, entries_commands, entry_commands, half_of as half_of_kb, key_of, making_commands, next_number};
ghost use Rattle.cache_tool.specs.Filled.{FillsCache};
ghost use Rattle.cache_tool.specs.FillProgress.{EvictsHalf, PerformsFill, RunsAll};
ghost use Rattle.cache_tool.specs.FirstLine.{first_line as first_line_of};
ghost use Rattle.cache_tool.specs.HeldReply.{said_in};
ghost use Rattle.cache_tool.specs.MarkLeft.{LeavesMark};
ghost use Rattle.cache_tool.specs.Statuses.{IsAnswer, IsClosing};
ghost use Rattle.cache_tool.specs.World.{output};
ghost use Rattle.disk_theory.specs.Account.{no_sync, SyncsAtMost, one_sync};
ghost use Rattle.disk_theory.specs.Calls.{StopsAtFault};
ghost use Rattle.disk_theory.specs.Sound.{IsQuiet};
ghost use Rattle.disk_theory.specs.Told.{Told};
ghost use Rattle.cache_tool.specs.KeepsOpen.{KeepsOpen};

use crate::last_reply::LastReply;
use crate::put::send;
use crate::session::{begin, end, print_answer, status_of, status_of_fault};
use cache_base::{Bytes, Moment, NoMemory, Status, bytes_fit};
use cache_io::Sink;
use cache_script::Command;
use cache_store::{Store, StoreFault};
use disk_theory::Disk;
use std::alloc::Global;

// The slot by which the entries are written.
const SLOT: u8 = 0;

// No body is longer.
const LEN_MAX: usize = 32_767;

// The bytes 0 to 255 again and again, of which each body is a part.
const PATTERN: usize = 255 + LEN_MAX;

// The number after this one, by which the sizes of the bodies follow from the first.
fn next(x: u32) -> u32
    ensures value { result ≡ next_number x }
    ensures small { result < 2 ^ 31 }
{
    ((1_103_515_245 * u64::from(x) + 12_345) % 2_147_483_648) as u32
}

// Half of so many KB, as far as a number goes.
fn half_of(kb: u128) -> u32
    ensures { result ≡ half_of_kb kb }
{
    (kb / 2).min(u128::from(u32::MAX)) as u32
}

// The remainder of a number.
fn byte_at(j: usize) -> u8
    ensures { result ≡ j % 256 }
{
    (j % 256) as u8
}

// The pattern.
fn pattern(alloc: Global) -> Result<Bytes, NoMemory>
    ensures { IfOk result (λ bytes. bytes ≡ map (λ j. j % 256) (range_with_len 0 PATTERN)) }
{
    let mut bytes = Bytes::with_room(alloc, PATTERN)?;
    for j in 0..PATTERN {
        bytes.push(byte_at(j))?;
    }
    Ok(bytes)
}

// The body of the entry with this number, whose length follows from x.
fn body(pattern: &[u8], i: u32, x: u32) -> &[u8]
    requires pattern { pattern.now ≡ map (λ j. j % 256) (range_with_len 0 PATTERN) }
    requires small { x < 2 ^ 31 }
    ensures { result.now ≡ body_of i x }
{
    let (_, from) = pattern.split_at(i as usize % 256);
    let (bytes, _) = from.split_at(x as usize / 65_536);
    bytes
}

// The key of the entry with this number.
fn key(alloc: Global, i: u32) -> Result<Bytes, NoMemory>
    ensures { IfOk result (λ bytes. bytes ≡ key_of i) }
{
    let mut bytes = Bytes::new(alloc);
    bytes.extend(b":https://fill.example/")?;
    bytes.extend_decimal(alloc, u64::from(i))?;
    Ok(bytes)
}

// The first line of a text, with its newline.
fn first_line(text: &[u8]) -> &[u8]
    ensures { result.now ≡ first_line_of text.now }
{
    let mut n = 0;
    while n < text.len() {
        if text[n] == b'\n' {
            return &text[..n + 1];
        }
        n += 1;
    }
    text
}

// Makes the entry with this number.
fn make_entry<D: Disk>(
    alloc: Global,
    store: &mut Store,
    now: Moment,
    i: u32,
    bytes: &[u8],
    said: &mut LastReply,
    disk: &mut D,
) -> Result<(), StoreFault>
    requires told { IsTrue D.tells → IsOpen (session D.Disk store.old disk.old) }
    ensures runs { let at = session D.Disk in IsTrue D.tells → (x : ℕ) → bytes.now ≡ body_of i x →
        RunsAll (entry_commands now i x) result (at store.old disk.old) (at store.new disk.new) }
    ensures keeps { KeepsOpen D.Disk one_sync result store.new disk.old disk.new }
{
    let key = key(alloc, i)?;
    bytes_fit(key.as_slice());
    let at = Command::At {
        now: now.saturating_add(i),
    };
    send(alloc, store, &at, said, disk)?;
    let create = Command::Create {
        slot: SLOT,
        key: key.as_slice(),
    };
    send(alloc, store, &create, said, disk)?;
    let append = Command::Append { slot: SLOT, bytes };
    send(alloc, store, &append, said, disk)?;
    let close = Command::Close { slot: SLOT };
    send(alloc, store, &close, said, disk)?;
    Ok(())
}

// Makes so many entries.
fn make_entries<D: Disk>(
    alloc: Global,
    store: &mut Store,
    now: Moment,
    count: u32,
    first: u32,
    said: &mut LastReply,
    disk: &mut D,
) -> Result<(), StoreFault>
    requires told { IsTrue D.tells → IsOpen (session D.Disk store.old disk.old) }
    ensures runs { let at = session D.Disk in IsTrue D.tells →
        RunsAll (entries_commands now first count) result
        (at store.old disk.old) (at store.new disk.new) }
    ensures keeps { KeepsOpen D.Disk count result store.new disk.old disk.new }
{
    let pattern = pattern(alloc)?;
    let mut x = first;
    for i in 0..count {
        x = next(x);
        let bytes = body(pattern.as_slice(), i, x);
        make_entry(alloc, store, now, i, bytes, said, disk)?;
    }
    Ok(())
}

// Makes so many entries, and syncs them.
fn make_all<D: Disk>(
    alloc: Global,
    store: &mut Store,
    now: Moment,
    count: u32,
    first: u32,
    said: &mut LastReply,
    disk: &mut D,
) -> Result<(), StoreFault>
    requires told { IsTrue D.tells → IsOpen (session D.Disk store.old disk.old) }
    ensures runs { let at = session D.Disk in IsTrue D.tells →
        RunsAll (making_commands now count first) result
        (at store.old disk.old) (at store.new disk.new) }
    ensures keeps { KeepsOpen D.Disk (count + writing_syncs) result store.new disk.old disk.new }
{
    make_entries(alloc, store, now, count, first, said, disk)?;
    send(alloc, store, &Command::Flush, said, disk)?;
    Ok(())
}

// Evicts half of all entries, by their sizes.
fn evict_half<D: Disk>(
    alloc: Global,
    store: &mut Store,
    said: &mut LastReply,
    disk: &mut D,
) -> Result<(), StoreFault>
    requires told { IsTrue D.tells → IsOpen (session D.Disk store.old disk.old) }
    ensures evicts { let at = session D.Disk in let before = at store.old disk.old in
        IsTrue D.tells → EvictsHalf result before (at store.new disk.new) (said_in said.new) }
    ensures keeps { KeepsOpen D.Disk no_sync result store.new disk.old disk.new }
{
    let kb = half_of(store.kilobytes(disk)?);
    send(alloc, store, &Command::Evict { kb }, said, disk)?;
    Ok(())
}

// The line with the number of the entries that are made.
fn say_made(alloc: Global, count: u32, lines: &mut Bytes) -> Result<(), NoMemory>
    ensures { OnOk result (lines.new ≡ lines.old ++ with_number (codes "made") count) }
{
    lines.extend(b"made ")?;
    lines.extend_decimal(alloc, u64::from(count))?;
    lines.push(b'\n')
}

// Keeps the first line of a reply.
fn keep_line(said: &LastReply, lines: &mut Bytes) -> Result<(), NoMemory>
    ensures { OnOk result (lines.new ≡ lines.old ++ first_line_of (said_in said.now)) }
{
    lines.extend(first_line(said.as_slice()))
}

// Makes so many entries, evicts half of all, checks and lists them. The lines to print are held.
fn perform_fill<D: Disk>(
    alloc: Global,
    store: &mut Store,
    now: Moment,
    count: u32,
    first: u32,
    lines: &mut Bytes,
    disk: &mut D,
) -> Result<Status, StoreFault>
    requires empty { lines.old ≡ [] }
    requires told { IsTrue D.tells → IsOpen (session D.Disk store.old disk.old) }
    ensures performs { let at = session D.Disk in let before = at store.old disk.old in
        let now_at = at store.new disk.new in
        IsTrue D.tells → PerformsFill now count first result before now_at lines.new }
    ensures only { IfOk result IsAnswer }
    ensures keeps { KeepsOpen D.Disk (count + writing_syncs) result store.new disk.old disk.new }
{
    let mut said = LastReply::new(alloc);
    say_made(alloc, count, lines)?;
    make_all(alloc, store, now, count, first, &mut said, disk)?;
    evict_half(alloc, store, &mut said, disk)?;
    keep_line(&said, lines)?;
    let checked = send(alloc, store, &Command::Verify, &mut said, disk)?;
    keep_line(&said, lines)?;
    send(alloc, store, &Command::List, &mut said, disk)?;
    keep_line(&said, lines)?;
    Ok(status_of(checked))
}

/// Makes so many entries, whose sizes follow from a first number, evicts half of all, checks and lists them, closes the
/// store, and prints how many there were of each.
pub(crate) fn fill<D: Disk, K: Sink>(
    alloc: Global,
    now: Moment,
    count: u32,
    first: u32,
    sink: &mut K,
    disk: &mut D,
) -> Status
    ensures fills { let at = output K.Sink D.Disk in IsTrue D.tells →
        FillsCache now count first result (at sink.old disk.old) (at sink.new disk.new) }
    ensures grows { TakesMore (K.taken sink.old) (K.taken sink.new) }
    ensures others { IsAnswer result
        ⊎ ((result ≡ Status.Sink) ⊎ ((result ≡ Status.Disk) ⊎ (result ≡ Status.Memory))) }
    ensures quiet { IsClosing result → IsTrue D.tells → IsQuiet (D.state disk.new) }
    ensures mark { Told D.Disk (LeavesMark []) disk.old disk.new }
    ensures stops { IsTrue D.tells → StopsAtFault (D.counts disk.old) (D.counts disk.new) }
    ensures syncs { SyncsAtMost D.Disk (run_syncs (count + writing_syncs)) disk.old disk.new }
    ensures sink { result ≡ Status.Sink → Rose (K.faults sink.old) (K.faults sink.new) }
    ensures calm { IsAnswer result → K.faults sink.new ≡ K.faults sink.old }
    ensures disk { CountsFailure (result ≡ Status.Disk) (D.faults disk.old) (D.faults disk.new) }
{
    let mut store = match begin(alloc, now, disk) {
        Ok(store) => store,
        Err(fault) => return status_of_fault(fault),
    };
    let mut lines = Bytes::new(alloc);
    let came = perform_fill(alloc, &mut store, now, count, first, &mut lines, disk);
    match end(store, came, disk) {
        Status::Done => print_answer(Status::Done, lines.as_slice(), sink),
        Status::No => print_answer(Status::No, lines.as_slice(), sink),
        other => other,
    }
}
