//! How a session begins and ends, and how its answer is printed.

ghost use Rattle.cache_tool.specs.Syncs.{ending_syncs, opening_syncs};
ghost use Rattle.std.specs.Prelude.{◌≡◌, ◌≢◌, ◌⊎◌, ◌≤◌, Err, IfOk, IsTrue, OnErr, false};
ghost use Rattle.std.specs.Io.KnownBytes.{Appends};
ghost use Rattle.cache_base.specs.Causes.{CountsFailure, Rose, RoseOnce};
ghost use Rattle.cache_store.specs.Faults.{ending};
ghost use Rattle.cache_store.specs.IndexCalls.{ReadsEntriesOf};
ghost use Rattle.cache_store.specs.Open.{IsOpen, LeavesOpen};
ghost use Rattle.cache_replies.specs.Said.{IsCut};
ghost use Rattle.cache_replies.specs.Saying.{IsPart};
ghost use Rattle.cache_store.specs.Session.{is_faulting, session};
ghost use Rattle.cache_theory.specs.Faulted.{fault_line};
ghost use Rattle.cache_tool.specs.Beginning.{BeginsRun, FailsBeforeCommands, FailsToBegin, ReadsNoEntry};
ghost use Rattle.cache_tool.specs.Ending.{EndsSession};
ghost use Rattle.cache_tool.specs.Statuses.{IsAnswer, IsClosing, IsSaid, status_in, status_of as status_of_outcome};
ghost use Rattle.context_clear.specs.Mark.{mark_of};
ghost use Rattle.disk_theory.specs.Account.{Accounts, Ending, LooksAtNoEntry, SyncsAtMost};
ghost use Rattle.disk_theory.specs.Calls.{LastFails, StopsAtFault};
ghost use Rattle.disk_theory.specs.Sound.{IsQuiet};
ghost use Rattle.disk_theory.specs.State.{standing};
ghost use Rattle.disk_theory.specs.Told.{Told};
ghost use Rattle.disk_theory.specs.declared.place.Place.TheVariants.{Clear};
ghost use Rattle.index_theory.specs.Start.{start_of};

use crate::last_reply::LastReply;
use cache_base::{Moment, Status};
use cache_io::{Sink, SinkFault, write_whole};
use cache_script::Command;
use cache_store::{Store, StoreFault, Verdict};
use disk_theory::Disk;
use std::alloc::Global;

/// Begins a run: the store is opened at this moment, and the clearing is done that an earlier run left undone, if the
/// mark of one stands. Nothing is printed, since the reply to that is empty.
pub(crate) fn begin<D: Disk>(alloc: Global, now: Moment, disk: &mut D) -> Result<Store, StoreFault>
    ensures begins { IfOk result (λ store. IsTrue D.tells →
        BeginsRun now (D.state disk.old) (session D.Disk store disk.new)) }
    ensures open { IfOk result (λ store. IsTrue D.tells →
        IsOpen (session D.Disk store disk.new)) }
    ensures fails { OnErr result (Told D.Disk (FailsToBegin now) disk.old disk.new) }
    ensures looks { IsTrue D.tells → let files = standing (D.state disk.old) in
        ReadsNoEntry (mark_of (files Clear)) (start_of files) →
        ReadsEntriesOf D.Disk 0 disk.old disk.new }
    ensures calm { IfOk result (λ store. is_faulting store ≡ false) }
    ensures no_sink { result ≢ Err StoreFault.Sink }
    ensures account { Accounts D.Disk (ending result) opening_syncs disk.old disk.new }
    ensures before { ending result ≡ Ending.OneFailed → IsTrue D.tells → FailsBeforeCommands
        (D.state disk.old) (D.state disk.new) (D.counts disk.old) (D.counts disk.new) }
{
    let mut store = Store::open(alloc, disk, now)?;
    let mut reply = LastReply::new(alloc);
    store.attempt(alloc, disk, &Command::Resume, &mut reply)?;
    Ok(store)
}

/// How the program ends by the outcome of the last command.
pub(crate) fn status_of(outcome: Verdict) -> Status
    ensures { result ≡ status_of_outcome outcome }
{
    match outcome {
        Verdict::Ok => Status::Done,
        Verdict::Refused => Status::No,
    }
}

/// How the program ends where the run did not begin.
pub(crate) fn status_of_fault(fault: StoreFault) -> Status
    ensures { result ≡ status_in (Err fault) }
{
    match fault {
        StoreFault::Memory => Status::Memory,
        StoreFault::Disk => Status::Disk,
        StoreFault::Sink => Status::Sink,
    }
}

/// Ends a session with the result of its commands: the store is closed, unless the disk failed or memory ran out. A
/// fault of the closing comes before their result.
pub(crate) fn end<D: Disk>(store: Store, came: Result<Status, StoreFault>, disk: &mut D) -> Status
    requires closing { IfOk came IsClosing }
    requires told { IsTrue D.tells → LeavesOpen came (session D.Disk store disk.old) }
    ensures ends { IsTrue D.tells →
        EndsSession result (session D.Disk store disk.old) (D.state disk.new) }
    ensures same { (result ≡ status_in came) ⊎ ((result ≡ Status.Disk) ⊎ (result ≡ Status.Memory)) }
    ensures dropped { ¬ (IsClosing (status_in came)) →
        (result ≡ status_in came) × (disk.new ≡ disk.old) }
    ensures quiet { IsClosing result → IsTrue D.tells → IsQuiet (D.state disk.new) }
    ensures no_entry { LooksAtNoEntry D.Disk disk.old disk.new }
    ensures went_on { result ≢ Status.Disk → result ≢ Status.Memory →
        IsTrue D.tells → (D.counts disk.new).failed ≡ (D.counts disk.old).failed }
    ensures later { D.faults disk.old ≤ D.faults disk.new }
    ensures stops { IsTrue D.tells → StopsAtFault (D.counts disk.old) (D.counts disk.new) }
    ensures syncs { SyncsAtMost D.Disk ending_syncs disk.old disk.new }
    ensures cause { IsClosing (status_in came) →
        CountsFailure (result ≡ Status.Disk) (D.faults disk.old) (D.faults disk.new) }
    ensures last { IsClosing (status_in came) → result ≡ Status.Disk → IsTrue D.tells →
        LastFails (D.counts disk.new) }
{
    let status = match came {
        Ok(status) => status,
        Err(StoreFault::Sink) => Status::Sink,
        Err(StoreFault::Disk) => return Status::Disk,
        Err(StoreFault::Memory) => return Status::Memory,
    };
    match store.close(disk) {
        Ok(()) => status,
        Err(fault) => status_of_fault(fault),
    }
}

// The result of a session whose last line was said, or whose sink failed in it: its store is closed, unless memory
// ran out.
fn after_line(said: Result<(), StoreFault>) -> Result<Status, StoreFault>
    ensures cases { (result ≡ Ok Status.No) ⊎ (result ≡ Err StoreFault.Memory) }
    ensures memory { said ≡ Err StoreFault.Memory → result ≡ Err StoreFault.Memory }
{
    match said {
        Err(StoreFault::Memory) => Err(StoreFault::Memory),
        _ => Ok(Status::No),
    }
}

/// Ends a session whose command ended in a failed look at the disk, with all as it was: the line that tells it is
/// printed, and the store is closed unless memory ran out. The status is that of a disk that failed, whatever else
/// did.
pub(crate) fn end_faulted<D: Disk, K: Sink>(mut store: Store, sink: &mut K, disk: &mut D) -> Status
    requires told { IsTrue D.tells → IsOpen (session D.Disk store disk.old) }
    ensures failed { (result ≡ Status.Disk) ⊎ (result ≡ Status.Memory) }
    ensures ends { IsTrue D.tells →
        EndsSession result (session D.Disk store disk.old) (D.state disk.new) }
    ensures closed { ((D.faults disk.new ≡ D.faults disk.old) × (result ≡ Status.Disk → IsTrue D.tells →
        EndsSession Status.No (session D.Disk store disk.old) (D.state disk.new)
        × ((D.counts disk.new).failed ≡ (D.counts disk.old).failed)))
        ⊎ (RoseOnce (D.faults disk.old) (D.faults disk.new)
        × (IsTrue D.tells → LastFails (D.counts disk.new))) }
    ensures part { IsPart (K.taken sink.old) (K.taken sink.new) fault_line }
    ensures said { result ≡ Status.Disk → Appends (K.taken sink.old) (K.taken sink.new) fault_line
        ⊎ Rose (K.faults sink.old) (K.faults sink.new) }
    ensures no_entry { LooksAtNoEntry D.Disk disk.old disk.new }
    ensures later { D.faults disk.old ≤ D.faults disk.new }
    ensures stops { IsTrue D.tells → StopsAtFault (D.counts disk.old) (D.counts disk.new) }
    ensures syncs { SyncsAtMost D.Disk ending_syncs disk.old disk.new }
{
    let came = after_line(store.say_fault(sink));
    match end(store, came, disk) {
        Status::Memory => Status::Memory,
        _ => Status::Disk,
    }
}

/// Prints the text of an answer, or the line of what is bad, which came with this status.
pub(crate) fn print_answer<K: Sink>(status: Status, text: &[u8], sink: &mut K) -> Status
    requires answer { IsSaid status }
    ensures same { (result ≡ status) ⊎ ((result ≡ Status.Sink) ⊎ (result ≡ Status.Memory)) }
    ensures all { IsAnswer result → Appends (K.taken sink.old) (K.taken sink.new) text.now }
    ensures bad { result ≡ Status.Script → Appends (K.taken sink.old) (K.taken sink.new) text.now }
    ensures part { IsPart (K.taken sink.old) (K.taken sink.new) text.now }
    ensures cut { result ≡ Status.Sink → IsCut (K.taken sink.old) (K.taken sink.new) text.now }
    ensures sink { result ≡ Status.Sink → Rose (K.faults sink.old) (K.faults sink.new) }
    ensures calm { IsAnswer result → K.faults sink.new ≡ K.faults sink.old }
    ensures bad_calm { result ≡ Status.Script → K.faults sink.new ≡ K.faults sink.old }
{
    match write_whole(sink, text) {
        Ok(()) => status,
        Err(SinkFault::Failed) => Status::Sink,
        Err(SinkFault::Memory) => Status::Memory,
    }
}
