//! Replies to a `read`.

ghost use Rattle.std.specs.Prelude.{◌≡◌, ◌≢◌, ◌<◌, ◌≤◌, ◌+◌, ◌++◌, ◌^◌, [], Err, false, true, IfErr, IfOk, IsSome, IsTrue, OnErr, OnOk, codes, drop, length, take};
ghost use Rattle.cache_base.specs.declared.limits.TheConstants.{SLOTS};
ghost use Rattle.cache_replies.specs.Answers.{outcome_in};
ghost use Rattle.cache_store.specs.Faulting.{SendsFrontFor, is_refusal};
ghost use Rattle.cache_store.specs.Faults.{AccountsForSink, ending};
ghost use Rattle.cache_store.specs.Reads.{AreHeld, LastIsFirst};
ghost use Rattle.cache_replies.specs.Said.{saying};
ghost use Rattle.cache_replies.specs.Saying.{CutsIn, SaysMore, SaysPart, SendsFront, StopsIn};
ghost use Rattle.cache_theory.specs.Command.Command.{ReadPart};
ghost use Rattle.cache_theory.specs.Text.{with_bytes, with_number};
ghost use Rattle.disk_theory.specs.Account.{Looks};
ghost use Rattle.file_handles.specs.Answers.{ending as handle_ending};
ghost use Rattle.file_handles.specs.Cache.{cache};
ghost use Rattle.handle_table.specs.Kept.{object_in};
ghost use Rattle.file_handles.specs.Kept.{kept};
ghost use Rattle.file_handles.specs.Reading.{ForBody, HasRead, HasReadOrNot, HoldsAsBefore, IsPartHeld, SameButChunks, part_of_body};
ghost use Rattle.file_handles.specs.Stands.{RepresentsSome};

use crate::StoreFault;
use crate::look_faults::{handles_fault, is_failed};
use crate::store::Store;
use cache_io::Sink;
use cache_replies::{Answered, Pending, Verdict, counted};
use disk_theory::Disk;
use file_handles::{HandleFault, Handles};
use std::alloc::Global;

// So many bytes of the body of a slot's entry, from a place on.
#[derive(Clone, Copy)]
struct Span {
    slot: u8,
    from: u64,
    len: u64,
}

// Says one part of the body, and gives its length. Where more is to be said, all that was said is out.
fn say_part<D: Disk, K: Sink>(
    handles: &mut Handles,
    alloc: Global,
    disk: &mut D,
    span: Span,
    reply: &mut Pending,
    sink: &mut K,
) -> Result<u64, StoreFault>
    requires slot { span.slot < SLOTS }
    requires there { IsSome (object_in (kept handles.old) span.slot) }
    requires told { IsTrue D.tells → RepresentsSome (cache D.Disk handles.old disk.old) }
    ensures says { let at = saying K.Sink in IfOk result (λ n. IsTrue D.tells →
        ForBody (cache D.Disk handles.old disk.old) span.slot (λ body.
        let part = part_of_body body span.from span.len in
        SaysPart n (at reply.old sink.old) (at reply.new sink.new) part)) }
    ensures stops { let at = saying K.Sink in OnErr result (IsTrue D.tells →
        ForBody (cache D.Disk handles.old disk.old) span.slot (λ body.
        let part = part_of_body body span.from span.len in
        StopsIn (at reply.old sink.old) (K.taken sink.new) part)) }
    ensures bound { IfOk result (λ n. n ≤ span.len) }
    ensures sent { IfOk result (λ n. n < span.len → reply.new.held ≡ []) }
    ensures unsaid { result ≡ Err StoreFault.Disk →
        (sink.new ≡ sink.old) × (reply.new.held ≡ reply.old.held) }
    ensures read { let before = cache D.Disk handles.old disk.old in
        HasRead (IsTrue D.tells) span.slot span.from span.len result before (kept handles.new) }
    ensures held { IsPartHeld (kept handles.old) span.slot span.from span.len →
        (disk.new ≡ disk.old) × (result ≢ Err StoreFault.Disk) }
    ensures looks { Looks D.Disk (ending result) disk.old disk.new }
    ensures sink { AccountsForSink K.Sink result sink.old sink.new }
{
    match handles.read_part(alloc, disk, span.slot, span.from, span.len) {
        Ok(part) => {
            let n = span.len.min(part.len() as u64);
            reply.put(sink, part)?;
            reply.send_before(sink, n < span.len)?;
            Ok(n)
        }
        Err(fault) => Err(handles_fault(fault)),
    }
}

// Reads the chunk of the first part of some bytes, which is held from then on.
fn fetch<D: Disk>(
    handles: &mut Handles,
    alloc: Global,
    disk: &mut D,
    span: Span,
) -> Result<(), HandleFault>
    requires slot { span.slot < SLOTS }
    requires there { IsSome (object_in (kept handles.old) span.slot) }
    requires told { IsTrue D.tells → RepresentsSome (cache D.Disk handles.old disk.old) }
    ensures no_refusal { IfErr result (λ f. is_refusal f ≡ false) }
    ensures read { let before = cache D.Disk handles.old disk.old in
        HasReadOrNot (IsTrue D.tells) span.slot span.from span.len result
        before (kept handles.new) }
    ensures fetched { OnOk result (IsPartHeld (kept handles.new) span.slot span.from span.len) }
    ensures held { IsPartHeld (kept handles.old) span.slot span.from span.len →
        disk.new ≡ disk.old }
    ensures no_change { result ≢ Err HandleFault.Disk }
    ensures looks { Looks D.Disk (handle_ending result) disk.old disk.new }
{
    match handles.read_part(alloc, disk, span.slot, span.from, span.len) {
        Ok(_) => Ok(()),
        Err(fault) => Err(fault),
    }
}

// Says the bytes of the body from a place on, part by part. The first part is held.
fn say_parts<D: Disk, K: Sink>(
    handles: &mut Handles,
    alloc: Global,
    disk: &mut D,
    span: Span,
    reply: &mut Pending,
    sink: &mut K,
) -> Result<(), StoreFault>
    requires slot { span.slot < SLOTS }
    requires there { IsSome (object_in (kept handles.old) span.slot) }
    requires small { span.from + span.len < 2 ^ 64 }
    requires first { IsPartHeld (kept handles.old) span.slot span.from span.len }
    requires told { IsTrue D.tells → RepresentsSome (cache D.Disk handles.old disk.old) }
    ensures says { let at = saying K.Sink in OnOk result (IsTrue D.tells →
        ForBody (cache D.Disk handles.old disk.old) span.slot (λ body.
        let bytes = take span.len (drop span.from body) in
        SaysMore (at reply.old sink.old) (at reply.new sink.new) bytes)) }
    // Where the disk failed the first part is out.
    ensures front { let at = saying K.Sink in result ≡ Err StoreFault.Disk → IsTrue D.tells →
        ForBody (cache D.Disk handles.old disk.old) span.slot (λ body.
        let part = part_of_body body span.from span.len in
        SendsFront (at reply.old sink.old) (K.taken sink.new) part) }
    ensures stops { let at = saying K.Sink in OnErr result (IsTrue D.tells →
        ForBody (cache D.Disk handles.old disk.old) span.slot (λ body.
        let bytes = take span.len (drop span.from body) in
        StopsIn (at reply.old sink.old) (K.taken sink.new) bytes)) }
    ensures same { SameButChunks (kept handles.old) (kept handles.new) }
    ensures holds { IsTrue D.tells →
        HoldsAsBefore (cache D.Disk handles.old disk.old) (kept handles.new) }
    ensures held { AreHeld (kept handles.old) span.slot span.from span.len → disk.new ≡ disk.old }
    ensures recent { OnOk result (IsTrue D.tells →
        LastIsFirst (kept handles.old) span.slot span.from span.len (kept handles.new)) }
    ensures looks { Looks D.Disk (ending result) disk.old disk.new }
    ensures sink { AccountsForSink K.Sink result sink.old sink.new }
{
    let mut done = 0;
    while done < span.len {
        let left = Span {
            from: span.from + done,
            len: span.len - done,
            ..span
        };
        let n = say_part(handles, alloc, disk, left, reply, sink)?;
        if n == 0 {
            return Ok(());
        }
        done += n;
    }
    Ok(())
}

// Says so many bytes of the body from a place on, if it has them, after a line with their number. The first part is
// held.
fn say_bytes<D: Disk, K: Sink>(
    handles: &mut Handles,
    alloc: Global,
    disk: &mut D,
    span: Span,
    reply: &mut Pending,
    sink: &mut K,
) -> Result<(), StoreFault>
    requires slot { span.slot < SLOTS }
    requires there { IsSome (object_in (kept handles.old) span.slot) }
    requires small { span.from + span.len < 2 ^ 64 }
    requires first { IsPartHeld (kept handles.old) span.slot span.from span.len }
    requires told { IsTrue D.tells → RepresentsSome (cache D.Disk handles.old disk.old) }
    ensures says { let at = saying K.Sink in OnOk result (IsTrue D.tells →
        ForBody (cache D.Disk handles.old disk.old) span.slot (λ body.
        let bytes = take span.len (drop span.from body) in
        let text = with_bytes (codes "data") bytes in
        span.len ≡ length bytes →
        SaysMore (at reply.old sink.old) (at reply.new sink.new) text)) }
    ensures cut { let at = saying K.Sink in OnErr result (IsTrue D.tells →
        ForBody (cache D.Disk handles.old disk.old) span.slot (λ body.
        let bytes = take span.len (drop span.from body) in
        let text = with_bytes (codes "data") bytes in
        span.len ≡ length bytes → CutsIn (at reply.old sink.old) (K.taken sink.new) text)) }
    // Where the disk failed the line and the first part are out.
    ensures front { let at = saying K.Sink in result ≡ Err StoreFault.Disk → IsTrue D.tells →
        ForBody (cache D.Disk handles.old disk.old) span.slot (λ body.
        let front = with_number (codes "data") span.len ++ part_of_body body span.from span.len in
        SendsFront (at reply.old sink.old) (K.taken sink.new) front) }
    ensures same { SameButChunks (kept handles.old) (kept handles.new) }
    ensures holds { IsTrue D.tells →
        HoldsAsBefore (cache D.Disk handles.old disk.old) (kept handles.new) }
    ensures held { AreHeld (kept handles.old) span.slot span.from span.len → disk.new ≡ disk.old }
    ensures recent { OnOk result (IsTrue D.tells →
        LastIsFirst (kept handles.old) span.slot span.from span.len (kept handles.new)) }
    ensures looks { Looks D.Disk (ending result) disk.old disk.new }
    ensures sink { AccountsForSink K.Sink result sink.old sink.new }
{
    let head = counted(alloc, b"data", span.len)?;
    reply.put(sink, head.as_slice())?;
    say_parts(handles, alloc, disk, span, reply, sink)?;
    reply.put(sink, b"\n")?;
    Ok(())
}

impl Store {
    ghost use Rattle.cache_store.specs.Answering.{AnswersFor, IsStillToSay};
    ghost use Rattle.cache_store.specs.Session.{open_of};

    /// Says the part of a body, unless the command is refused. The first chunk is read before anything is said.
    pub(crate) fn say_read<D: Disk, K: Sink>(
        &mut self,
        alloc: Global,
        disk: &mut D,
        slot: u8,
        from: u32,
        len: u32,
        sink: &mut K,
    ) -> Result<Answered, StoreFault>
        requires slot { slot < SLOTS }
        requires empty { self.old.reply.held ≡ [] }
        requires calm { self.old.faulting ≡ false }
        requires told { IsTrue D.tells → RepresentsSome (cache D.Disk self.old.handles disk.old) }
        ensures answers { IsTrue D.tells →
            AnswersFor (cache D.Disk self.old.handles disk.old) (ReadPart slot from len) result
            (K.taken sink.old) (saying K.Sink self.new.reply sink.new) }
        ensures unsaid { IsStillToSay (ReadPart slot from len) result
            sink.old sink.new self.new.reply }
        ensures open { open_of self.new
            ≡ record (open_of self.old) { handles = kept self.new.handles } }
        ensures same { SameButChunks (kept self.old.handles) (kept self.new.handles) }
        ensures holds { IsTrue D.tells →
            HoldsAsBefore (cache D.Disk self.old.handles disk.old) (kept self.new.handles) }
        ensures held { AreHeld (kept self.old.handles) slot from len → disk.new ≡ disk.old }
        ensures recent { IfOk result (λ a. outcome_in a ≡ Verdict.Ok → IsTrue D.tells →
            LastIsFirst (kept self.old.handles) slot from len (kept self.new.handles)) }
        // Where a look failed before anything was said, all is as before; and else where the disk failed the reply is
        // out up to its first chunk.
        ensures faulted { self.new.faulting ≡ true → result ≡ Err StoreFault.Disk }
        ensures stays { self.new.faulting ≡ true → kept self.new.handles ≡ kept self.old.handles }
        ensures silent { self.new.faulting ≡ true →
            (sink.new ≡ sink.old) × (self.new.reply.held ≡ []) }
        ensures front { self.new.faulting ≡ false → result ≡ Err StoreFault.Disk → IsTrue D.tells →
            SendsFrontFor (cache D.Disk self.old.handles disk.old) (ReadPart slot from len)
            (K.taken sink.old) (K.taken sink.new) }
        ensures looks { Looks D.Disk (ending result) disk.old disk.new }
        ensures sink { AccountsForSink K.Sink result sink.old sink.new }
    {
        let end = match self.handles.body_len(slot) {
            Ok(end) => end,
            Err(refusal) => return Ok(Answered::Refused(refusal)),
        };
        let count = u64::from(len).min(u64::from(end.saturating_sub(from)));
        let at = u64::from(from);
        let span = Span {
            slot,
            from: at,
            len: count,
        };
        if let Err(fault) = fetch(&mut self.handles, alloc, disk, span) {
            self.faulting = is_failed(&fault);
            return Err(handles_fault(fault));
        }
        say_bytes(&mut self.handles, alloc, disk, span, &mut self.reply, sink)?;
        Ok(Answered::All)
    }
}
