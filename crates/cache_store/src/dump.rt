//! Says all entries as one stream, a dump.

ghost use Rattle.std.specs.Prelude.{◌≡◌, ◌↔◌, ◌≢◌, ◌≤◌, ◌+◌, [], Err, false, true, IfOk, IfSome, IsTrue, OnErr, OnOk};
ghost use Rattle.cache_base.specs.Limits.{chunks as chunks_of};
ghost use Rattle.cache_check.specs.Checks.{AllStand, files_of};
ghost use Rattle.cache_export.specs.Dump.{back_bytes, front_bytes};
ghost use Rattle.cache_export.specs.declared.limits.TheConstants.{DUMP_MAX};
ghost use Rattle.cache_io.specs.Mem.{taken_in};
ghost use Rattle.cache_store.specs.Answering.{IsStillToSay};
ghost use Rattle.cache_store.specs.Dumping.{TakesTurn, item_length, item_with, items_from, may_dump_as, turn_at};
ghost use Rattle.cache_store.specs.Faulting.{SendsFrontFor};
ghost use Rattle.cache_store.specs.Faults.{AccountsForSink, ending};
ghost use Rattle.cache_store.specs.Prefix.{ForPrefix};
ghost use Rattle.cache_replies.specs.Said.{saying};
ghost use Rattle.cache_replies.specs.Saying.{SaysMore, StopsIn, TakesMore};
ghost use Rattle.cache_theory.specs.Command.Command.{Dump};
ghost use Rattle.memory_index.specs.Records.{EndsWith};
ghost use Rattle.index_theory.specs.Ever.{entries_on};
ghost use Rattle.disk_theory.specs.Account.{Looks};
ghost use Rattle.disk_theory.specs.State.{standing};
ghost use Rattle.disk_theory.specs.declared.place.Place.TheVariants.{Entry};
ghost use Rattle.entry_file.specs.Held.{IsLastOf};
ghost use Rattle.entry_key.specs.Writing.{may_write as may_write_in};
ghost use Rattle.entry_metadata.specs.Meta.{meta_of};
ghost use Rattle.entry_metadata.specs.Metadata.{block_bytes};
ghost use Rattle.file_handles.specs.Kept.{kept, last_read};
ghost use Rattle.index_map.specs.Known.{SameBase};

use crate::StoreFault;
use crate::found_body::{Frame, Range, first_chunk, say_framed};
use crate::look_faults::look_fault;
use crate::store::Store;
use cache_base::{BODY_MAX, Name, Names, NoMemory};
use cache_export::{DUMP_MAX, HEAD, item_back, item_front};
use cache_io::{MemSink, Sink};
use cache_replies::{Answered, Pending};
use disk_theory::{Disk, Place};
use entry_key::may_write;
use entry_metadata::{Meta, block_len};
use file_handles::Handles;
use std::alloc::Global;

// What stands in an item before its body.
fn front(alloc: Global, meta: &Meta) -> Result<MemSink, NoMemory>
    requires { may_write_in meta.now.key ≡ true }
    ensures { IfOk result (λ text. taken_in text ≡ front_bytes meta.now.key meta.now.offset) }
{
    let mut text = MemSink::new(alloc);
    match item_front(&mut text, meta.key.as_slice(), meta.offset) {
        Ok(()) => Ok(text),
        Err(_) => Err(NoMemory),
    }
}

// What stands after it.
fn back(alloc: Global, meta: &Meta) -> Result<MemSink, NoMemory>
    ensures { IfOk result (λ text. taken_in text ≡ back_bytes (block_bytes (meta_of meta.now))) }
{
    let mut text = MemSink::new(alloc);
    match item_back(alloc, &mut text, meta) {
        Ok(()) => Ok(text),
        Err(_) => Err(NoMemory),
    }
}

// Whether a whole entry with these metadata may be dumped.
fn may_dump(meta: &Meta) -> bool
    ensures { result ≡ may_dump_as (meta_of meta.now) }
{
    may_write(meta.key.as_slice()) && meta.offset as usize <= BODY_MAX
}

// The length of its item: a byte, and three numbers of four bytes before the key, the body and the block.
fn item_len(meta: &Meta) -> u64
    requires { may_write_in meta.now.key ≡ true }
    ensures { result ≡ item_length (meta_of meta.now) }
{
    13 + meta.key.as_slice().len() as u64 + u64::from(meta.offset) + block_len(meta) as u64
}

// An entry that was found: its name, and its metadata.
#[derive(Clone, Copy)]
struct Found<'a> {
    name: &'a Name,
    meta: &'a Meta,
}

// A turn of a dump: the next name, and how long the dump is before it.
#[derive(Clone, Copy)]
struct Turn<'a> {
    name: &'a Name,
    used: u64,
}

// Says the item of an entry that was just found.
fn say_item<D: Disk, K: Sink>(
    alloc: Global,
    disk: &mut D,
    found: Found<'_>,
    handles: &mut Handles,
    reply: &mut Pending,
    sink: &mut K,
) -> Result<(), StoreFault>
    requires key { may_write_in found.meta.now.key ≡ true }
    requires held { IsTrue D.tells → let len = found.meta.now.offset in
        let file = standing (D.state disk.old) (Entry found.name.now) in
        IsLastOf (chunks_of len) file len (last_read handles.old) }
    ensures said { let at = saying K.Sink in let meta = found.entry.meta.now in
        OnOk result (IsTrue D.tells →
        ForPrefix (D.state disk.old) (Entry found.entry.name.now) meta.offset (λ body.
        let item = item_with (meta_of meta) body in
        SaysMore (at reply.old sink.old) (at reply.new sink.new) item)) }
    ensures stops { let at = saying K.Sink in let meta = found.entry.meta.now in
        OnErr result (IsTrue D.tells →
        ForPrefix (D.state disk.old) (Entry found.entry.name.now) meta.offset (λ body.
        let item = item_with (meta_of meta) body in
        StopsIn (at reply.old sink.old) (K.taken sink.new) item)) }
    ensures kept { kept handles.new ≡ kept handles.old }
    ensures looks { Looks D.Disk (ending result) disk.old disk.new }
    ensures sink { AccountsForSink K.Sink result sink.old sink.new }
{
    let place = Place::Entry(*found.name);
    let range = Range {
        place: &place,
        len: found.meta.offset,
        from: 0,
        to: found.meta.offset,
    };
    let head = front(alloc, found.meta)?;
    let tail = back(alloc, found.meta)?;
    first_chunk(disk, range, handles)?;
    let frame = Frame {
        head: head.bytes(),
        tail: tail.bytes(),
    };
    say_framed(disk, range, frame, handles, reply, sink)
}

// Says the item of what is found under a name, where it may be dumped, and tells its length: 0 where there is none, and
// None where the dump would be too long with it.
fn say_named<D: Disk, K: Sink>(
    alloc: Global,
    disk: &mut D,
    turn: Turn<'_>,
    handles: &mut Handles,
    reply: &mut Pending,
    sink: &mut K,
) -> Result<Option<u64>, StoreFault>
    requires used { turn.used ≤ DUMP_MAX }
    ensures turn { let at = saying K.Sink in IfOk result (λ len. IsTrue D.tells →
        let name = turn.entry.name.now in
        let file = standing (D.state disk.old) (Entry name) in
        TakesTurn (turn_at turn.entry.used name.0 file) len
        (at reply.old sink.old) (at reply.new sink.new)) }
    ensures short { IfOk result (λ len. IfSome len (λ n. turn.entry.used + n ≤ DUMP_MAX)) }
    ensures stops { let at = saying K.Sink in OnErr result (IsTrue D.tells →
        let name = turn.entry.name.now in
        let file = standing (D.state disk.old) (Entry name) in
        let text = (turn_at turn.entry.used name.0 file).text in
        StopsIn (at reply.old sink.old) (K.taken sink.new) text) }
    ensures kept { kept handles.new ≡ kept handles.old }
    ensures looks { Looks D.Disk (ending result) disk.old disk.new }
    ensures sink { AccountsForSink K.Sink result sink.old sink.new }
{
    let Some(meta) = handles.find_named(alloc, disk, turn.name)? else {
        return Ok(Some(0));
    };
    if !may_dump(&meta) {
        return Ok(Some(0));
    }
    let len = item_len(&meta);
    if turn.used + len + 1 > DUMP_MAX {
        return Ok(None);
    }
    let found = Found {
        name: turn.name,
        meta: &meta,
    };
    say_item(alloc, disk, found, handles, reply, sink)?;
    Ok(Some(len))
}

// Says the items of the files of these names, up to the first that would make the dump too long.
fn say_items<D: Disk, K: Sink>(
    alloc: Global,
    disk: &mut D,
    names: &[Name],
    handles: &mut Handles,
    reply: &mut Pending,
    sink: &mut K,
) -> Result<(), StoreFault>
    requires told { IsTrue D.tells → AllStand (D.state disk.old) names.now }
    ensures says { let at = saying K.Sink in OnOk result (IsTrue D.tells →
        SaysMore (at reply.old sink.old) (at reply.new sink.new)
        (items_from 8 (files_of (D.state disk.old) names.now))) }
    ensures stops { let at = saying K.Sink in OnErr result (IsTrue D.tells →
        StopsIn (at reply.old sink.old) (K.taken sink.new)
        (items_from 8 (files_of (D.state disk.old) names.now))) }
    ensures kept { kept handles.new ≡ kept handles.old }
    ensures looks { Looks D.Disk (ending result) disk.old disk.new }
    ensures sink { AccountsForSink K.Sink result sink.old sink.new }
{
    let mut used = HEAD.len() as u64;
    for name in names {
        let turn = Turn { name, used };
        match say_named(alloc, disk, turn, handles, reply, sink)? {
            Some(len) => used += len,
            None => return Ok(()),
        }
    }
    Ok(())
}

impl Store {
    ghost use Rattle.cache_store.specs.Faulting.{StaysAs};
    ghost use Rattle.cache_store.specs.Open.{IsOpen};
    ghost use Rattle.cache_store.specs.Performing.{DoesFor};
    ghost use Rattle.cache_store.specs.Session.{session};
    ghost use Rattle.file_handles.specs.Cache.{cache};
    ghost use Rattle.handle_table.specs.HeldChunks.{SameChunks};

    /// Ends the update, and says all entries that may be dumped, in the order of their names. A look that fails is
    /// answered by `fault` only before the head is out.
    pub(crate) fn dump<D: Disk, K: Sink>(
        &mut self,
        alloc: Global,
        disk: &mut D,
        sink: &mut K,
    ) -> Result<Answered, StoreFault>
        requires empty { self.old.reply.held ≡ [] }
        requires calm { self.old.faulting ≡ false }
        requires told { IsTrue D.tells → IsOpen (session D.Disk self.old disk.old) }
        ensures does { let at = session D.Disk in IsTrue D.tells →
            DoesFor Dump result (at self.old disk.old) (at self.new disk.new)
            (K.taken sink.old) (saying K.Sink self.new.reply sink.new) }
        ensures grows { IsTrue D.tells → TakesMore (K.taken sink.old) (K.taken sink.new) }
        ensures base { SameBase self.old.index.map self.new.index.map }
        ensures ended { OnOk result (IsTrue D.tells → (self.new.index.update ≡ [])
            × EndsWith (entries_on (D.state disk.old)) self.old.index
            self.new.index.map.records) }
        ensures chunks { SameChunks (kept self.old.handles) (kept self.new.handles) }
        ensures unsaid { IsStillToSay Dump result sink.old sink.new self.new.reply }
        ensures all { IfOk result (λ a. a ≡ Answered.All) }
        ensures faulted { self.new.faulting ≡ true → result ≡ Err StoreFault.Disk }
        ensures stays { let at = session D.Disk in self.new.faulting ≡ true → IsTrue D.tells →
            StaysAs (at self.old disk.old) (at self.new disk.new) }
        ensures silent { self.new.faulting ≡ true →
            (sink.new ≡ sink.old) × (self.new.reply.held ≡ []) }
        ensures front { self.new.faulting ≡ false → result ≡ Err StoreFault.Disk → IsTrue D.tells →
            SendsFrontFor (cache D.Disk self.old.handles disk.old) Dump
            (K.taken sink.old) (K.taken sink.new) }
        ensures looks { Looks D.Disk (ending result) disk.old disk.new }
        ensures sink { AccountsForSink K.Sink result sink.old sink.new }
    {
        let ended = match self.index.finish_apart(disk) {
            Ok(ended) => ended,
            Err(fault) => return Err(look_fault(fault, &mut self.faulting)),
        };
        let mut names = Names::new(alloc);
        match disk.entries(&mut names) {
            Ok(()) => {}
            Err(fault) => return Err(look_fault(fault, &mut self.faulting)),
        }
        // A look that fails from here on ends the reply.
        self.index.update = ended;
        self.reply.put(sink, &HEAD)?;
        self.reply.send(sink)?;
        say_items(
            alloc,
            disk,
            names.as_slice(),
            &mut self.handles,
            &mut self.reply,
            sink,
        )?;
        self.reply.put(sink, b"\0")?;
        Ok(Answered::All)
    }
}
