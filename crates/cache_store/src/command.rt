//! Answers a command: by its reply, or by the line that tells of a failed look at the disk.

ghost use Rattle.std.specs.Prelude.{◌≡◌, ◌≢◌, Err, Ok, true, false, IsTrue};
ghost use Rattle.cache_script.specs.Command.{command_of};
ghost use Rattle.cache_store.specs.CommandCall.{HoldsAtExit, PerformsCommand};
ghost use Rattle.cache_store.specs.Faulting.{FailsForGood, LooksAtNothing};
ghost use Rattle.cache_store.specs.Outcomes.{Faults, verdict_in, verdict_of};
ghost use Rattle.cache_theory.specs.Command.Command.{Resume};
ghost use Rattle.cache_theory.specs.Given.{IsGiven};

use crate::store::Store;
use crate::{Outcome, StoreFault, Verdict};
use cache_io::Sink;
use cache_script::Command;
use disk_theory::Disk;
use std::alloc::Global;

// The outcome of a command that was performed.
fn outcome_of(verdict: Verdict) -> Outcome
    ensures same { verdict_of result ≡ verdict }
    ensures performed { result ≢ Outcome.Faulted }
{
    match verdict {
        Verdict::Ok => Outcome::Ok,
        Verdict::Refused => Outcome::Refused,
    }
}

impl Store {
    ghost use Rattle.cache_store.specs.Open.{IsOpen};
    ghost use Rattle.cache_store.specs.Session.{cache_of, is_faulting, session};

    /// Performs a command and writes its reply, which is out when the call returns.
    ///
    /// Where a look at the disk fails before anything of the reply is out, the reply is the line `fault`, the outcome
    /// is `Faulted`, and the store and the disk are as they were: the next command can be performed. After a fault of
    /// the sink the store may only be closed; `faulting` tells whether it was the line that was cut.
    ///
    /// The reply to `verify` is what is wrong with the files that stand and the records in memory, and the outcome is
    /// `Refused` where that is anything. The replies to `has` and `list` are the machine's where the records are
    /// right: where the directory was honest at the opening, or a `rebuild` has answered. There an `evict` and a
    /// `clear` take off what the machine's do; elsewhere they take off what has to go by the records that there are,
    /// and the reply names it all the same. So it is with `Resume`, which prints nothing: it does what is left of a
    /// clearing that was stopped, whose mark stands, and removes what else stands in its place. Each run begins with
    /// it, and a look of its that fails ends the run.
    pub fn command<D: Disk, K: Sink>(
        &mut self,
        alloc: Global,
        disk: &mut D,
        c: &Command<'_>,
        sink: &mut K,
    ) -> Result<Outcome, StoreFault>
        requires given { IsGiven (command_of c.now) }
        requires told { IsTrue D.tells → IsOpen (session D.Disk self.old disk.old) }
        ensures always { HoldsAtExit D.Disk K.Sink (command_of c.now) result
            self.old self.new disk.old disk.new sink.old sink.new }

        // Where a look at the disk failed before anything of the reply was out, all is as it was.
        ensures faults { is_faulting self.new ≡ true →
            Faults D.Disk result self.old self.new disk.old disk.new
            (K.taken sink.old) (K.taken sink.new) }
        ensures faulted { result ≡ Ok Outcome.Faulted → is_faulting self.new ≡ true }
        ensures bare { LooksAtNothing (command_of c.now) → is_faulting self.new ≡ false }
        ensures ends { command_of c.now ≡ Resume → is_faulting self.new ≡ false }

        // Elsewhere it is performed. Where the disk failed for good, it was in a change or a sync, as the last call, or
        // the reply is out up to its first chunk.
        ensures does { is_faulting self.new ≡ false →
            PerformsCommand D.Disk K.Sink (command_of c.now) (verdict_in result)
            self.old self.new disk.old disk.new sink.old sink.new }
        ensures fails { let at = cache_of (session D.Disk self.old disk.old) in
            command_of c.now ≢ Resume → result ≡ Err StoreFault.Disk → IsTrue D.tells →
            FailsForGood (D.counts disk.new) (command_of c.now) at
            (K.taken sink.old) (K.taken sink.new) }
    {
        let answered = self.attempt(alloc, disk, c, sink);
        if self.faulting {
            self.say_fault(sink)?;
            return Ok(Outcome::Faulted);
        }
        match answered {
            Ok(verdict) => Ok(outcome_of(verdict)),
            Err(fault) => Err(fault),
        }
    }
}
