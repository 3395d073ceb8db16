//! The verb `put`: an entry is made of its key and of the bytes of the source.

ghost use Rattle.cache_tool.specs.Syncs.{run_syncs};
ghost use Rattle.cache_store.specs.Syncs.{most_syncs};
ghost use Rattle.std.specs.Prelude.{◌≡◌, ◌≢◌, ◌≤◌, ◌<◌, ◌+◌, ◌⊎◌, [], length, false, true, Err, Ok, Some, IfOk, IsTrue, vec_len};
ghost use Rattle.std.specs.Io.KnownBytes.{IsAtEnd};
ghost use Rattle.cache_base.specs.Causes.{Rose};
ghost use Rattle.cache_base.specs.declared.limits.TheConstants.{BODY_MAX as BODY_LEN, PIECE_MAX as PIECE_LEN};
ghost use Rattle.cache_script.specs.Command.{command_of};
ghost use Rattle.cache_store.specs.Faulting.{LooksAtNothing, StaysAs};
ghost use Rattle.cache_store.specs.Faults.{ending};
ghost use Rattle.cache_store.specs.Open.{IsOpen};
ghost use Rattle.cache_replies.specs.Printed.{HasBadKey, Prints, PrintsOk, PrintsRefusal};
ghost use Rattle.cache_replies.specs.Saying.{TakesMore};
ghost use Rattle.cache_store.specs.Session.{is_faulting, open_of, session};
ghost use Rattle.cache_theory.specs.Command.Command.{Resume};
ghost use Rattle.cache_theory.specs.Given.{IsGiven};
ghost use Rattle.cache_tool.specs.AnyDisk.{IsRefusalLine, TakesAtMost, ok_line};
ghost use Rattle.cache_tool.specs.HeldReply.{said_in};
ghost use Rattle.cache_tool.specs.MarkLeft.{LeavesMark};
ghost use Rattle.cache_tool.specs.PutProgress.{AppendsBody, AppendsPiece, HasNoFront, PerformsPut, SendsCommand};
ghost use Rattle.cache_tool.specs.Statuses.{IsAnswer, IsClosing};
ghost use Rattle.cache_tool.specs.Verbs.{StoresEntry};
ghost use Rattle.cache_tool.specs.World.{supply, world};
ghost use Rattle.disk_theory.specs.Account.{Ending, FailsInChange, Looks, no_sync, SyncsAtMost, one_sync};
ghost use Rattle.disk_theory.specs.Calls.{StopsAtFault};
ghost use Rattle.disk_theory.specs.Sound.{IsQuiet};
ghost use Rattle.disk_theory.specs.Told.{Told};
ghost use Rattle.entry_key.specs.Writing.{may_write};
ghost use Rattle.index_map.specs.Known.{SameBase};
ghost use Rattle.cache_tool.specs.KeepsOpen.{KeepsOpen};

use crate::last_reply::LastReply;
use crate::piece::{PieceEnd, fill};
use crate::session::{begin, end, end_faulted, print_answer, status_of, status_of_fault};
use cache_base::{BODY_MAX, Moment, NoMemory, PIECE_MAX, Status};
use cache_io::{Sink, Source};
use cache_script::Command;
use cache_store::{Store, StoreFault, Verdict};
use disk_theory::Disk;
use std::alloc::Global;

// The slot by which the entry is written.
const SLOT: u8 = 0;

/// Performs a command. Its reply is held.
pub(crate) fn send<D: Disk>(
    alloc: Global,
    store: &mut Store,
    c: &Command<'_>,
    said: &mut LastReply,
    disk: &mut D,
) -> Result<Verdict, StoreFault>
    requires given { IsGiven (command_of c.now) }
    requires told { IsTrue D.tells → IsOpen (session D.Disk store.old disk.old) }
    ensures sends { let at = session D.Disk in let before = at store.old disk.old in
        let now = at store.new disk.new in IsTrue D.tells →
        SendsCommand (command_of c.now) result before now (said_in said.new) }
    ensures prints { IfOk result (λ o.
        Prints (command_of c.now) o (Some []) (Some (said_in said.new))) }
    ensures bad_key { HasBadKey (command_of c.now) → result ≢ Ok Verdict.Ok }
    ensures keeps { KeepsOpen D.Disk (most_syncs (command_of c.now)) result store.new disk.old
        disk.new }
    ensures faulted { is_faulting store.new ≡ true → result ≡ Err StoreFault.Disk }
    ensures looked { is_faulting store.new ≡ true →
        Looks D.Disk Ending.OneFailed disk.old disk.new }
    ensures stays { let at = session D.Disk in is_faulting store.new ≡ true → IsTrue D.tells →
        StaysAs (at store.old disk.old) (at store.new disk.new) }
    ensures same_base { is_faulting store.new ≡ true
        → SameBase (open_of store.old).index.map (open_of store.new).index.map }
    ensures bare { LooksAtNothing (command_of c.now) → is_faulting store.new ≡ false }
    ensures change { is_faulting store.new ≡ false → HasNoFront (command_of c.now) →
        command_of c.now ≢ Resume → FailsInChange D.Disk (ending result) disk.new }
{
    said.clear();
    store.attempt(alloc, disk, c, said)
}

// Appends a piece to the body, unless it is empty. The body has room for so many bytes more, and the machine refuses a
// piece that is longer: so it is refused, whatever the disk is.
fn append_piece<D: Disk>(
    alloc: Global,
    store: &mut Store,
    piece: &[u8],
    room: usize,
    said: &mut LastReply,
    disk: &mut D,
) -> Result<Verdict, StoreFault>
    requires told { IsTrue D.tells → IsOpen (session D.Disk store.old disk.old) }
    ensures appends { let at = session D.Disk in let before = at store.old disk.old in
        let now = at store.new disk.new in IsTrue D.tells →
        AppendsPiece piece.now room result before now (said_in said.new) }
    ensures fits { result ≡ Ok Verdict.Ok → length piece.now ≤ room }
    ensures refused { result ≡ Ok Verdict.Refused → IsRefusalLine (said_in said.new) }
    ensures keeps { KeepsOpen D.Disk no_sync result store.new disk.old disk.new }
    ensures bare { is_faulting store.old ≡ false → is_faulting store.new ≡ false }
    ensures change { is_faulting store.old ≡ false →
        FailsInChange D.Disk (ending result) disk.new }
{
    if piece.is_empty() {
        return Ok(Verdict::Ok);
    }
    let append = Command::Append {
        slot: SLOT,
        bytes: piece,
    };
    let outcome = send(alloc, store, &append, said, disk)?;
    if piece.len() > room {
        said.say_too_large()?;
        return Ok(Verdict::Refused);
    }
    Ok(outcome)
}

// Room for a piece. Fails only where memory runs out.
fn new_piece(alloc: Global) -> Result<Vec<u8>, NoMemory>
    ensures { IfOk result (λ piece. vec_len piece ≡ PIECE_LEN) }
{
    Ok(vec![in alloc; 0; PIECE_MAX]?)
}

// Appends the bytes of the source in pieces, up to its end or to a piece that is refused.
fn append_all<D: Disk, S: Source>(
    alloc: Global,
    store: &mut Store,
    source: &mut S,
    piece: &mut [u8],
    said: &mut LastReply,
    disk: &mut D,
) -> Result<Status, StoreFault>
    requires long { length piece.old ≡ PIECE_LEN }
    requires told { IsTrue D.tells → IsOpen (session D.Disk store.old disk.old) }
    ensures appends { let gives = supply S.Source in let at = session D.Disk in
        let before = at store.old disk.old in let now = at store.new disk.new in IsTrue D.tells →
        AppendsBody (gives source.old) (gives source.new) result before now (said_in said.new) }
    ensures only { IfOk result (λ s. IsAnswer s ⊎ (s ≡ Status.Source)) }
    ensures read { result ≡ Ok Status.Done → IsAtEnd (S.left source.new) }
    ensures source { result ≡ Ok Status.Source → Rose (S.faults source.old) (S.faults source.new) }
    ensures calm { IfOk result (λ s. IsAnswer s → S.faults source.new ≡ S.faults source.old) }
    ensures taken { TakesAtMost (BODY_LEN + PIECE_LEN) (S.left source.old) (S.left source.new) }
    ensures refused { result ≡ Ok Status.No → IsRefusalLine (said_in said.new) }
    ensures keeps { KeepsOpen D.Disk no_sync result store.new disk.old disk.new }
    ensures bare { is_faulting store.old ≡ false → is_faulting store.new ≡ false }
    ensures change { is_faulting store.old ≡ false →
        FailsInChange D.Disk (ending result) disk.new }
{
    let mut room = BODY_MAX;
    'pieces: loop {
        let filled = fill(source, piece);
        let outcome = append_piece(alloc, store, &piece[..filled.count], room, said, disk)?;
        match filled.ended {
            PieceEnd::Failed => return Ok(Status::Source),
            PieceEnd::End => return Ok(status_of(outcome)),
            PieceEnd::Full => match outcome {
                Verdict::Refused => return Ok(Status::No),
                Verdict::Ok => room -= filled.count,
            },
        }
    }
}

// Makes an entry of the key and of the source's bytes. The last reply is held. An entry whose source failed is left
// unfinished.
fn perform_put<D: Disk, S: Source>(
    alloc: Global,
    store: &mut Store,
    key: &[u8],
    source: &mut S,
    said: &mut LastReply,
    disk: &mut D,
) -> Result<Status, StoreFault>
    requires calm { is_faulting store.old ≡ false }
    requires told { IsTrue D.tells → IsOpen (session D.Disk store.old disk.old) }
    ensures performs { let gives = supply S.Source in let at = session D.Disk in
        let before = at store.old disk.old in let now = at store.new disk.new in
        let from = gives source.old in IsTrue D.tells →
        PerformsPut key.now from (gives source.new) result before now (said_in said.new) }
    ensures only { IfOk result (λ s. IsAnswer s ⊎ (s ≡ Status.Source)) }
    ensures read { result ≡ Ok Status.Done → IsAtEnd (S.left source.new) }
    ensures unread { may_write key.now ≡ false → source.new ≡ source.old }
    ensures source { result ≡ Ok Status.Source → Rose (S.faults source.old) (S.faults source.new) }
    ensures calm { IfOk result (λ s. IsAnswer s → S.faults source.new ≡ S.faults source.old) }
    ensures taken { TakesAtMost (BODY_LEN + PIECE_LEN) (S.left source.old) (S.left source.new) }
    ensures done { result ≡ Ok Status.Done → said_in said.new ≡ ok_line }
    ensures refused { result ≡ Ok Status.No → IsRefusalLine (said_in said.new) }
    ensures keeps { KeepsOpen D.Disk one_sync result store.new disk.old disk.new }
    // A look at the disk fails in the first command alone.
    ensures faulted { is_faulting store.new ≡ true → result ≡ Err StoreFault.Disk }
    ensures looked { result ≡ Err StoreFault.Disk → is_faulting store.new ≡ true →
        Looks D.Disk Ending.OneFailed disk.old disk.new }
    ensures stays { let at = session D.Disk in
        result ≡ Err StoreFault.Disk → is_faulting store.new ≡ true → IsTrue D.tells →
        StaysAs (at store.old disk.old) (at store.new disk.new) }
    ensures same_base { result ≡ Err StoreFault.Disk → is_faulting store.new ≡ true →
        SameBase (open_of store.old).index.map (open_of store.new).index.map }
    ensures unread_fault { result ≡ Err StoreFault.Disk → is_faulting store.new ≡ true →
        source.new ≡ source.old }
    ensures change { is_faulting store.new ≡ false →
        FailsInChange D.Disk (ending result) disk.new }
{
    let mut piece = new_piece(alloc)?;
    let create = Command::Create { slot: SLOT, key };
    if let Verdict::Refused = send(alloc, store, &create, said, disk)? {
        return Ok(Status::No);
    }
    let appended = append_all(alloc, store, source, piece.as_mut_slice(), said, disk)?;
    if let Status::Done = appended {
        let close = Command::Close { slot: SLOT };
        let outcome = send(alloc, store, &close, said, disk)?;
        return Ok(status_of(outcome));
    }
    Ok(appended)
}

/// Makes an entry of the key and of the source's bytes, closes the store, and prints the last reply. Where a look at
/// the disk failed before anything was changed, the line `fault` is printed.
pub(crate) fn put<D: Disk, S: Source, K: Sink>(
    alloc: Global,
    now: Moment,
    key: &[u8],
    source: &mut S,
    sink: &mut K,
    disk: &mut D,
) -> Status
    ensures stores { let at = world S.Source K.Sink D.Disk in
        let before = at source.old sink.old disk.old in
        IsTrue D.tells → StoresEntry now key.now result before (at source.new sink.new disk.new) }
    ensures grows { TakesMore (K.taken sink.old) (K.taken sink.new) }
    ensures read { result ≡ Status.Done → IsAtEnd (S.left source.new) }
    ensures unread { may_write key.now ≡ false → source.new ≡ source.old }
    ensures taken { TakesAtMost (BODY_LEN + PIECE_LEN) (S.left source.old) (S.left source.new) }
    ensures done { result ≡ Status.Done → PrintsOk (K.taken sink.old) (K.taken sink.new) }
    ensures refused { result ≡ Status.No → PrintsRefusal (K.taken sink.old) (K.taken sink.new) }
    ensures others { (result ≢ Status.Words) × (result ≢ Status.Script) }
    ensures quiet { IsClosing result → IsTrue D.tells → IsQuiet (D.state disk.new) }
    ensures mark { Told D.Disk (LeavesMark []) disk.old disk.new }
    ensures stops { IsTrue D.tells → StopsAtFault (D.counts disk.old) (D.counts disk.new) }
    ensures syncs { SyncsAtMost D.Disk (run_syncs one_sync) disk.old disk.new }
    ensures source { result ≡ Status.Source → Rose (S.faults source.old) (S.faults source.new) }
    ensures sink { result ≡ Status.Sink → Rose (K.faults sink.old) (K.faults sink.new) }
    ensures calm { IsAnswer result →
        (S.faults source.new ≡ S.faults source.old) × (K.faults sink.new ≡ K.faults sink.old) }
    ensures disk { result ≡ Status.Disk → Rose (D.faults disk.old) (D.faults disk.new) }
    ensures disk_first { result ≢ Status.Disk → result ≢ Status.Memory →
        D.faults disk.new ≡ D.faults disk.old }
{
    let mut store = match begin(alloc, now, disk) {
        Ok(store) => store,
        Err(fault) => return status_of_fault(fault),
    };
    let mut said = LastReply::new(alloc);
    let came = perform_put(alloc, &mut store, key, source, &mut said, disk);
    if store.faulting() {
        return end_faulted(store, sink, disk);
    }
    match end(store, came, disk) {
        Status::Done => print_answer(Status::Done, said.as_slice(), sink),
        Status::No => print_answer(Status::No, said.as_slice(), sink),
        other => other,
    }
}
