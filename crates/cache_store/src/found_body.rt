//! Says bytes of the body of an entry that was just found.

ghost use Rattle.std.specs.Prelude.{◌≡◌, ◌≢◌, ◌<◌, ◌≤◌, ◌-◌, ◌/◌, ◌++◌, ◌∷◌, [], ℕ, List, Err, false, true, drop, length, take, IsTrue, OnErr, OnOk};
ghost use Rattle.cache_base.specs.Limits.{chunk_size, chunks as chunks_of};
ghost use Rattle.cache_store.specs.Faults.{AccountsForSink, ending};
ghost use Rattle.cache_store.specs.Prefix.{ForPrefix, HasChunkAt, range_of};
ghost use Rattle.cache_replies.specs.Said.{saying};
ghost use Rattle.cache_replies.specs.Saying.{CutsIn, SaysMore, SendsFront};
ghost use Rattle.disk_theory.specs.Account.{Looks, ending as disk_ending};
ghost use Rattle.disk_theory.specs.State.{standing};
ghost use Rattle.entry_file.specs.Held.{IsLastOf};
ghost use Rattle.file_handles.specs.Kept.{kept, last_read};
ghost use Rattle.file_handles.specs.Reading.{part_of_body};

use crate::StoreFault;
use crate::look_faults::look_fault;
use crate::store::Store;
use cache_base::CHUNK;
use cache_io::Sink;
use cache_replies::Pending;
use disk_theory::{Disk, DiskFault, Place};
use file_handles::Handles;

/// What is said before bytes of a body, and after them.
#[derive(Clone, Copy)]
pub(crate) struct Frame<'a> {
    pub(crate) head: &'a [u8],
    pub(crate) tail: &'a [u8],
}

/// Bytes of a body at the beginning of a file, which has so many: those from a place on, up to another.
#[derive(Clone, Copy)]
pub(crate) struct Range<'a> {
    pub(crate) place: &'a Place,
    pub(crate) len: u32,
    pub(crate) from: u32,
    pub(crate) to: u32,
}

// So many bytes from a place on, as far as there are any.
fn cut(bytes: &[u8], from: usize, len: usize) -> &[u8]
    ensures { result.now ≡ take len (drop from bytes.now) }
{
    let rest = &bytes[from.min(bytes.len())..];
    &rest[..len.min(rest.len())]
}

/// Makes the chunk of the first of these bytes the one to be printed, if there are any.
pub(crate) fn first_chunk<D: Disk>(
    disk: &mut D,
    range: Range<'_>,
    handles: &mut Handles,
) -> Result<(), DiskFault>
    requires inside { range.to ≤ range.len }
    requires held { IsTrue D.tells → IsLastOf (chunks_of range.len)
        (standing (D.state disk.old) range.place.now) range.len (last_read handles.old) }
    ensures chunk { OnOk result (IsTrue D.tells → range.entry.from < range.entry.to →
        HasChunkAt (standing (D.state disk.old) range.entry.place.now) range.entry.len
        (range.entry.from / chunk_size) (last_read handles.new)) }
    ensures kept { kept handles.new ≡ kept handles.old }
    ensures looks { Looks D.Disk (disk_ending result) disk.old disk.new }
{
    if range.from >= range.to {
        return Ok(());
    }
    handles.read_found(disk, range.place, range.len, range.from / CHUNK as u32)
}

// Makes the chunk of a byte the one to be printed. That of the first byte is so already. Before another is looked at,
// all that was said goes out.
fn turn_to<D: Disk, K: Sink>(
    disk: &mut D,
    range: Range<'_>,
    at: u32,
    handles: &mut Handles,
    reply: &mut Pending,
    sink: &mut K,
) -> Result<(), StoreFault>
    requires at { (range.from ≤ at) × (at < range.len) }
    requires first { IsTrue D.tells → at ≡ range.from →
        HasChunkAt (standing (D.state disk.old) range.place.now) range.len
        (at / chunk_size) (last_read handles.old) }
    requires later { range.from < at → 0 < at / chunk_size }
    ensures chunk { OnOk result (IsTrue D.tells →
        HasChunkAt (standing (D.state disk.old) range.entry.place.now) range.entry.len
        (at / chunk_size) (last_read handles.new)) }
    ensures said { let at = saying K.Sink in
        OnOk result (SaysMore (at reply.old sink.old) (at reply.new sink.new) []) }
    ensures cut { let at = saying K.Sink in OnErr result ((more : List ℕ) → 0 < length more →
        CutsIn (at reply.old sink.old) (K.taken sink.new) more) }
    ensures later { OnErr result (range.entry.from < at) }
    ensures out { let at = saying K.Sink in result ≡ Err StoreFault.Disk →
        SendsFront (at reply.old sink.old) (K.taken sink.new) [] }
    ensures kept { kept handles.new ≡ kept handles.old }
    ensures looks { Looks D.Disk (ending result) disk.old disk.new }
    ensures sink { AccountsForSink K.Sink result sink.old sink.new }
{
    if at == range.from {
        return Ok(());
    }
    reply.send(sink)?;
    handles.read_found(disk, range.place, range.len, at / CHUNK as u32)?;
    Ok(())
}

// Says these bytes, a chunk at a time. The chunk of the first is held.
fn say_range<D: Disk, K: Sink>(
    disk: &mut D,
    range: Range<'_>,
    handles: &mut Handles,
    reply: &mut Pending,
    sink: &mut K,
) -> Result<(), StoreFault>
    requires inside { (range.from ≤ range.to) × (range.to ≤ range.len) }
    requires first { IsTrue D.tells → range.from < range.to →
        HasChunkAt (standing (D.state disk.old) range.place.now) range.len
        (range.from / chunk_size) (last_read handles.old) }
    ensures said { let at = saying K.Sink in OnOk result (IsTrue D.tells →
        ForPrefix (D.state disk.old) range.entry.place.now range.entry.len (λ body.
        let bytes = range_of range.entry.from range.entry.to body in
        SaysMore (at reply.old sink.old) (at reply.new sink.new) bytes)) }
    ensures cut { let at = saying K.Sink in OnErr result (IsTrue D.tells →
        ForPrefix (D.state disk.old) range.entry.place.now range.entry.len (λ body.
        let bytes = range_of range.entry.from range.entry.to body in
        CutsIn (at reply.old sink.old) (K.taken sink.new) bytes)) }
    // Where the disk failed those of the first chunk are out.
    ensures front { let at = saying K.Sink in result ≡ Err StoreFault.Disk → IsTrue D.tells →
        ForPrefix (D.state disk.old) range.entry.place.now range.entry.len (λ body.
        let part = part_of_body body range.entry.from (range.entry.to - range.entry.from) in
        SendsFront (at reply.old sink.old) (K.taken sink.new) part) }
    ensures kept { kept handles.new ≡ kept handles.old }
    ensures looks { Looks D.Disk (ending result) disk.old disk.new }
    ensures sink { AccountsForSink K.Sink result sink.old sink.new }
{
    let mut at = range.from;
    while at < range.to {
        turn_to(disk, range, at, handles, reply, sink)?;
        let left = range.to - at;
        let start = at % CHUNK as u32;
        reply.put(
            sink,
            cut(handles.chunk_read(), start as usize, left as usize),
        )?;
        at += left.min(CHUNK as u32 - start);
    }
    Ok(())
}

/// Says these bytes in their frame. The chunk of the first is held.
pub(crate) fn say_framed<D: Disk, K: Sink>(
    disk: &mut D,
    range: Range<'_>,
    frame: Frame<'_>,
    handles: &mut Handles,
    reply: &mut Pending,
    sink: &mut K,
) -> Result<(), StoreFault>
    requires inside { (range.from ≤ range.to) × (range.to ≤ range.len) }
    requires first { IsTrue D.tells → range.from < range.to →
        HasChunkAt (standing (D.state disk.old) range.place.now) range.len
        (range.from / chunk_size) (last_read handles.old) }
    ensures said { let at = saying K.Sink in OnOk result (IsTrue D.tells →
        ForPrefix (D.state disk.old) range.entry.place.now range.entry.len (λ body.
        let bytes = range_of range.entry.from range.entry.to body in
        let text = frame.entry.head.now ++ (bytes ++ frame.entry.tail.now) in
        SaysMore (at reply.old sink.old) (at reply.new sink.new) text)) }
    ensures cut { let at = saying K.Sink in OnErr result (IsTrue D.tells →
        ForPrefix (D.state disk.old) range.entry.place.now range.entry.len (λ body.
        let bytes = range_of range.entry.from range.entry.to body in
        let text = frame.entry.head.now ++ (bytes ++ frame.entry.tail.now) in
        CutsIn (at reply.old sink.old) (K.taken sink.new) text)) }
    // Where the disk failed all up to the end of the first chunk is out.
    ensures front { let at = saying K.Sink in result ≡ Err StoreFault.Disk → IsTrue D.tells →
        ForPrefix (D.state disk.old) range.entry.place.now range.entry.len (λ body.
        let front = frame.entry.head.now
        ++ part_of_body body range.entry.from (range.entry.to - range.entry.from) in
        SendsFront (at reply.old sink.old) (K.taken sink.new) front) }
    ensures kept { kept handles.new ≡ kept handles.old }
    ensures looks { Looks D.Disk (ending result) disk.old disk.new }
    ensures sink { AccountsForSink K.Sink result sink.old sink.new }
{
    reply.put(sink, frame.head)?;
    say_range(disk, range, handles, reply, sink)?;
    reply.put(sink, frame.tail)?;
    Ok(())
}

impl Store {
    ghost use Rattle.cache_store.specs.Session.{open_of};

    /// Says bytes of the body of an entry that was just found, after a head and before a newline.
    pub(crate) fn say_found<D: Disk, K: Sink>(
        &mut self,
        disk: &mut D,
        range: Range<'_>,
        head: &[u8],
        sink: &mut K,
    ) -> Result<(), StoreFault>
        requires calm { self.old.faulting ≡ false }
        requires inside { (range.from ≤ range.to) × (range.to ≤ range.len) }
        requires held { IsTrue D.tells → IsLastOf (chunks_of range.len)
            (standing (D.state disk.old) range.place.now) range.len (last_read self.old.handles) }
        ensures said { let at = saying K.Sink in OnOk result (IsTrue D.tells →
            ForPrefix (D.state disk.old) range.entry.place.now range.entry.len (λ body.
            let text = head.now ++ (range_of range.entry.from range.entry.to body ++ 10 ∷ []) in
            SaysMore (at self.old.reply sink.old) (at self.new.reply sink.new) text)) }
        ensures cut { let at = saying K.Sink in OnErr result (IsTrue D.tells →
            ForPrefix (D.state disk.old) range.entry.place.now range.entry.len (λ body.
            let text = head.now ++ (range_of range.entry.from range.entry.to body ++ 10 ∷ []) in
            CutsIn (at self.old.reply sink.old) (K.taken sink.new) text)) }
        // Where the disk failed nothing was said, or all up to the end of the first chunk is out.
        ensures faulted { self.new.faulting ≡ true → result ≡ Err StoreFault.Disk }
        ensures silent { self.new.faulting ≡ true →
            (sink.new ≡ sink.old) × (self.new.reply.held ≡ self.old.reply.held) }
        ensures front { let at = saying K.Sink in
            self.new.faulting ≡ false → result ≡ Err StoreFault.Disk → IsTrue D.tells →
            ForPrefix (D.state disk.old) range.entry.place.now range.entry.len (λ body.
            let front = head.now
            ++ part_of_body body range.entry.from (range.entry.to - range.entry.from) in
            SendsFront (at self.old.reply sink.old) (K.taken sink.new) front) }
        ensures open { open_of self.new ≡ open_of self.old }
        ensures looks { Looks D.Disk (ending result) disk.old disk.new }
        ensures sink { AccountsForSink K.Sink result sink.old sink.new }
    {
        match first_chunk(disk, range, &mut self.handles) {
            Ok(()) => {}
            Err(fault) => return Err(look_fault(fault, &mut self.faulting)),
        }
        let frame = Frame { head, tail: b"\n" };
        say_framed(disk, range, frame, &mut self.handles, &mut self.reply, sink)
    }
}
