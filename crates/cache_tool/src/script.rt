//! The verb `run`: the commands of a script are performed.

ghost use Rattle.std.specs.Prelude.{◌≡◌, ◌≢◌, ◌⊎◌, ◌<◌, Err, IfOk, IsErrOf, IsTrue, None, Ok, OnErr, OnOk, Some, []};
ghost use Rattle.std.specs.Io.KnownBytes.{Appends, IsAtEnd};
ghost use Rattle.cache_base.specs.Causes.{HasCause, Rose};
ghost use Rattle.cache_script.specs.Reader.{given_in, held_in, used_in};
ghost use Rattle.cache_store.specs.Open.{IsOpen, LeavesOpen};
ghost use Rattle.cache_replies.specs.Said.{IsCut};
ghost use Rattle.cache_replies.specs.Saying.{TakesMore};
ghost use Rattle.cache_store.specs.Session.{session};
ghost use Rattle.cache_tool.specs.Script.{HasBadCommand, HasScript, bad_line};
ghost use Rattle.cache_tool.specs.ScriptProgress.{PerformsCommands, PerformsNext, PerformsScript};
ghost use Rattle.cache_tool.specs.Statuses.{IsClosing};
ghost use Rattle.cache_tool.specs.Tally.{IsAccounted, failure, script_failure, tally, turn_failure};
ghost use Rattle.cache_tool.specs.Verbs.{RunsScript};
ghost use Rattle.cache_tool.specs.World.{progress, world};
ghost use Rattle.disk_theory.specs.Calls.{StopsAtFault};
ghost use Rattle.disk_theory.specs.Sound.{IsQuiet};
ghost use Rattle.index_theory.specs.Honest.{LeavesHonest};

use crate::session::{begin, end, status_of_fault};
use cache_base::{Bytes, Moment, NoMemory, Status};
use cache_io::{Sink, Source, write_whole};
use cache_script::{Reader, ScriptFault};
use cache_store::{Store, StoreFault};
use disk_theory::Disk;
use std::alloc::Global;

/// How the commands of a script ended.
#[derive(Clone, Copy)]
pub(crate) enum ScriptEnd {
    /// The source ended after the last command.
    Whole,
    /// The source failed.
    Failed,
    /// The command with this number, counted from 1, is bad.
    Bad(u64),
}

/// Performs the commands of the script that the source has, each with its reply before the next one is read. A
/// command that ends in a failed look at the disk is answered by the line `fault`, and the session goes on.
pub(crate) fn run_script<D: Disk, S: Source, K: Sink>(
    alloc: Global,
    now: Moment,
    source: &mut S,
    sink: &mut K,
    disk: &mut D,
) -> Status
    ensures runs { let at = world S.Source K.Sink D.Disk in
        let before = at source.old sink.old disk.old in
        IsTrue D.tells → RunsScript now result before (at source.new sink.new disk.new) }
    ensures grows { IsTrue D.tells → TakesMore (K.taken sink.old) (K.taken sink.new) }
    ensures done { result ≡ Status.Done → HasScript (S.left source.old) }
    ensures read { result ≡ Status.Done → IsAtEnd (S.left source.new) }
    ensures bad { result ≡ Status.Script → HasBadCommand (S.left source.old) }
    ensures others { (result ≢ Status.Words) × (result ≢ Status.No) }
    ensures quiet { IsClosing result → IsTrue D.tells → IsQuiet (D.state disk.new) }
    ensures stops { IsTrue D.tells → StopsAtFault (D.counts disk.old) (D.counts disk.new) }
    ensures source { result ≡ Status.Source → Rose (S.faults source.old) (S.faults source.new) }
    ensures sink { result ≡ Status.Sink → Rose (K.faults sink.old) (K.faults sink.new) }
    ensures calm { (result ≡ Status.Done) ⊎ (result ≡ Status.Script) →
        (S.faults source.new ≡ S.faults source.old) × (K.faults sink.new ≡ K.faults sink.old) }
    ensures disk { result ≡ Status.Disk → Rose (D.faults disk.old) (D.faults disk.new) }
    ensures went_on { result ≢ Status.Disk → result ≢ Status.Memory →
        IsTrue D.tells → (D.counts disk.new).failed ≡ (D.counts disk.old).failed }
{
    let mut store = match begin(alloc, now, disk) {
        Ok(store) => store,
        Err(fault) => return status_of_fault(fault),
    };
    let came = perform_script(alloc, &mut store, source, sink, disk);
    end(store, came, disk)
}

// Opens a reader, performs the commands, and names one that is bad.
fn perform_script<D: Disk, S: Source, K: Sink>(
    alloc: Global,
    store: &mut Store,
    source: &mut S,
    sink: &mut K,
    disk: &mut D,
) -> Result<Status, StoreFault>
    requires told { IsTrue D.tells → IsOpen (session D.Disk store.old disk.old) }
    ensures performs { let at = progress S.Source K.Sink D.Disk in
        let before = at store.old source.old sink.old disk.old in
        IsTrue D.tells → PerformsScript result before (at store.new source.new sink.new disk.new) }
    ensures grows { IsTrue D.tells → TakesMore (K.taken sink.old) (K.taken sink.new) }
    ensures status { IfOk result (λ s.
        (s ≡ Status.Done) ⊎ ((s ≡ Status.Script) ⊎ (s ≡ Status.Source))) }
    ensures done { result ≡ Ok Status.Done → HasScript (S.left source.old) }
    ensures read { result ≡ Ok Status.Done → IsAtEnd (S.left source.new) }
    ensures bad { result ≡ Ok Status.Script → HasBadCommand (S.left source.old) }
    ensures open { IsTrue D.tells → LeavesOpen result (session D.Disk store.new disk.new) }
    ensures honest { IsTrue D.tells → LeavesHonest (D.state disk.new) }
    ensures account { let at = tally S.Source K.Sink D.Disk in
        let before = at source.old sink.old disk.old in
        IsAccounted (script_failure result) before (at source.new sink.new disk.new) }
{
    let mut reader = Reader::new(alloc)?;
    match perform_commands(alloc, &mut reader, store, source, sink, disk)? {
        ScriptEnd::Whole => Ok(Status::Done),
        ScriptEnd::Failed => Ok(Status::Source),
        ScriptEnd::Bad(number) => {
            say_bad(alloc, number, sink)?;
            Ok(Status::Script)
        }
    }
}

// Performs the commands until none is left.
fn perform_commands<D: Disk, S: Source, K: Sink>(
    alloc: Global,
    reader: &mut Reader,
    store: &mut Store,
    source: &mut S,
    sink: &mut K,
    disk: &mut D,
) -> Result<ScriptEnd, StoreFault>
    requires fresh { (held_in reader.old ≡ [])
        × (given_in reader.old ≡ 0) × (used_in reader.old ≡ 0) }
    requires told { IsTrue D.tells → IsOpen (session D.Disk store.old disk.old) }
    ensures performs { let at = progress S.Source K.Sink D.Disk in
        let before = at store.old source.old sink.old disk.old in
        PerformsCommands D.tells result before (at store.new source.new sink.new disk.new) }
    ensures grows { IsTrue D.tells → TakesMore (K.taken sink.old) (K.taken sink.new) }
    ensures open { IsTrue D.tells → LeavesOpen result (session D.Disk store.new disk.new) }
    ensures honest { IsTrue D.tells → LeavesHonest (D.state disk.new) }
    ensures account { let at = tally S.Source K.Sink D.Disk in
        let before = at source.old sink.old disk.old in
        IsAccounted (failure result) before (at source.new sink.new disk.new) }
{
    'turns: loop {
        if let Some(ended) = perform_next(alloc, reader, store, source, sink, disk)? {
            return Ok(ended);
        }
    }
}

// Reads the next command and performs it, or tells why there is none.
fn perform_next<D: Disk, S: Source, K: Sink>(
    alloc: Global,
    reader: &mut Reader,
    store: &mut Store,
    source: &mut S,
    sink: &mut K,
    disk: &mut D,
) -> Result<Option<ScriptEnd>, StoreFault>
    requires told { IsTrue D.tells → IsOpen (session D.Disk store.old disk.old) }
    ensures performs { let at = progress S.Source K.Sink D.Disk in
        let before = at store.old source.old sink.old disk.old in
        let now = at store.new source.new sink.new disk.new in
        PerformsNext D.tells result reader.old reader.new before now }
    ensures grows { IsTrue D.tells → TakesMore (K.taken sink.old) (K.taken sink.new) }
    ensures further { result ≡ Ok None → given_in reader.old < given_in reader.new }
    ensures open { IsTrue D.tells → LeavesOpen result (session D.Disk store.new disk.new) }
    ensures honest { IsTrue D.tells → LeavesHonest (D.state disk.new) }
    ensures account { let at = tally S.Source K.Sink D.Disk in
        let before = at source.old sink.old disk.old in
        IsAccounted (turn_failure result) before (at source.new sink.new disk.new) }
{
    match reader.next_command(source) {
        Ok(Some(command)) => {
            store.command(alloc, disk, &command, sink)?;
            Ok(None)
        }
        Ok(None) => Ok(Some(ScriptEnd::Whole)),
        Err(ScriptFault::Source) => Ok(Some(ScriptEnd::Failed)),
        Err(ScriptFault::Script(number)) => Ok(Some(ScriptEnd::Bad(number))),
    }
}

// The line that names a bad command.
fn bad_text(alloc: Global, number: u64) -> Result<Bytes, NoMemory>
    ensures { IfOk result (λ text. text ≡ bad_line number) }
{
    let mut text = Bytes::new(alloc);
    text.extend(b"script ")?;
    text.extend_decimal(alloc, number)?;
    text.push(b'\n')?;
    Ok(text)
}

// Prints that line.
fn say_bad<K: Sink>(alloc: Global, number: u64, sink: &mut K) -> Result<(), StoreFault>
    ensures said { OnOk result (Appends (K.taken sink.old) (K.taken sink.new) (bad_line number)) }
    ensures cut { OnErr result (IsCut (K.taken sink.old) (K.taken sink.new) (bad_line number)) }
    ensures no_disk { result ≢ Err StoreFault.Disk }
    ensures sink { let failed = IsErrOf result StoreFault.Sink in
        HasCause failed (K.faults sink.old) (K.faults sink.new) }
{
    let text = bad_text(alloc, number)?;
    write_whole(sink, text.as_slice())?;
    Ok(())
}
