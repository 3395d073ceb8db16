//! One command, which the words give.

ghost use Rattle.disk_theory.specs.Account.{SyncsAtMost};
ghost use Rattle.cache_tool.specs.Syncs.{run_syncs};
ghost use Rattle.cache_store.specs.Syncs.{all_syncs};
ghost use Rattle.std.specs.Prelude.{◌≡◌, ◌≢◌, ◌∷◌, ◌⊎◌, [], true, IsTrue};
ghost use Rattle.cache_base.specs.Causes.{Rose};
ghost use Rattle.cache_script.specs.Command.{command_of};
ghost use Rattle.cache_store.specs.IndexCalls.{ReadsEntriesOf};
ghost use Rattle.cache_replies.specs.Printed.{PrintsNo, PrintsOk, is_plain};
ghost use Rattle.cache_replies.specs.Saying.{TakesMore};
ghost use Rattle.cache_theory.specs.Given.{IsGiven};
ghost use Rattle.cache_theory.specs.Text.{IsSpoken};
ghost use Rattle.cache_tool.specs.MarkLeft.{LeavesMark};
ghost use Rattle.cache_tool.specs.Statuses.{IsAnswer, IsClosing};
ghost use Rattle.cache_tool.specs.Verbs.{AnswersCommand, LooksAtNone};
ghost use Rattle.cache_tool.specs.World.{output};
ghost use Rattle.context_clear.specs.Mark.{mark_of};
ghost use Rattle.disk_theory.specs.Calls.{StopsAtFault};
ghost use Rattle.disk_theory.specs.Sound.{IsQuiet};
ghost use Rattle.disk_theory.specs.State.{standing};
ghost use Rattle.disk_theory.specs.Told.{Told};
ghost use Rattle.disk_theory.specs.declared.place.Place.TheVariants.{Clear};
ghost use Rattle.index_theory.specs.Start.{start_of};

use crate::session::{begin, end, end_faulted, status_of, status_of_fault};
use cache_base::{Moment, Status};
use cache_io::Sink;
use cache_script::Command;
use disk_theory::Disk;
use std::alloc::Global;

/// Performs the command and prints its reply. Where a look at the disk failed before anything of it was out, the line
/// `fault` is printed, and the status is that of a disk that failed.
pub(crate) fn perform_one<D: Disk, K: Sink>(
    alloc: Global,
    now: Moment,
    command: &Command<'_>,
    sink: &mut K,
    disk: &mut D,
) -> Status
    requires given { IsGiven (command_of command.now) }
    requires spoken { IsSpoken (command_of command.now) }
    ensures answers { let at = output K.Sink D.Disk in let c = command_of command.now in
        IsTrue D.tells → AnswersCommand now c result (at sink.old disk.old) (at sink.new disk.new) }
    ensures others { IsAnswer result
        ⊎ ((result ≡ Status.Sink) ⊎ ((result ≡ Status.Disk) ⊎ (result ≡ Status.Memory))) }
    ensures done { result ≡ Status.Done → is_plain (command_of command.now) ≡ true →
        PrintsOk (K.taken sink.old) (K.taken sink.new) }
    ensures refused { result ≡ Status.No →
        PrintsNo (command_of command.now) (K.taken sink.old) (K.taken sink.new) }
    ensures grows { IsTrue D.tells → TakesMore (K.taken sink.old) (K.taken sink.new) }
    ensures no_entry { let files = standing (D.state disk.old) in
        LooksAtNone (command_of command.now) (mark_of (files Clear)) (start_of files) →
        ReadsEntriesOf D.Disk 0 disk.old disk.new }
    ensures quiet { IsClosing result → IsTrue D.tells → IsQuiet (D.state disk.new) }
    ensures mark { Told D.Disk (LeavesMark (command_of command.now ∷ [])) disk.old disk.new }
    ensures stops { IsTrue D.tells → StopsAtFault (D.counts disk.old) (D.counts disk.new) }
    ensures syncs { SyncsAtMost D.Disk (run_syncs (all_syncs (command_of command.now ∷ []))) disk.old disk.new }
    ensures sink { result ≡ Status.Sink → Rose (K.faults sink.old) (K.faults sink.new) }
    ensures calm { IsAnswer result → K.faults sink.new ≡ K.faults sink.old }
    ensures disk { result ≡ Status.Disk → Rose (D.faults disk.old) (D.faults disk.new) }
    ensures disk_first { result ≢ Status.Disk → result ≢ Status.Memory →
        D.faults disk.new ≡ D.faults disk.old }
{
    let mut store = match begin(alloc, now, disk) {
        Ok(store) => store,
        Err(fault) => return status_of_fault(fault),
    };
    let answered = store.attempt(alloc, disk, command, sink);
    if store.faulting() {
        return end_faulted(store, sink, disk);
    }
    end(store, answered.map(status_of), disk)
}
