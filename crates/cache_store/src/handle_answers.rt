//! The answer to what a call of the handles answers.

ghost use Rattle.std.specs.Prelude.{◌≡◌, ◌≢◌, false, IfOk, Err, Ok};
ghost use Rattle.cache_replies.specs.Answers.{outcome_in};
ghost use Rattle.cache_store.specs.Faults.{ending};
ghost use Rattle.cache_store.specs.Learnt.{HasOutcomeOfFault};
ghost use Rattle.cache_replies.specs.Printed.{IsPlainAnswer, lists_findings};
ghost use Rattle.cache_store.specs.Replied.{replied};
ghost use Rattle.file_handles.specs.Answers.{done_or, ending as handle_ending, fault_ending as handle_fault_ending, reply_in};

use crate::StoreFault;
use cache_replies::Answered;
use file_handles::HandleFault;

/// The answer to a fault of the handles: a refusal is still to be said, and the others are faults of the store.
pub(crate) fn fault_answer(fault: HandleFault) -> Result<Answered, StoreFault>
    ensures replies { replied result ≡ reply_in fault }
    ensures went { IfOk result (λ a. HasOutcomeOfFault fault (outcome_in a)) }
    ensures not_said { result ≢ Ok Answered.All }
    ensures plain { IfOk result IsPlainAnswer }
    ensures unlisted { IfOk result (λ a. lists_findings a ≡ false) }
    ensures no_sink { result ≢ Err StoreFault.Sink }
    ensures ending { ending result ≡ handle_fault_ending fault }
{
    match fault {
        HandleFault::Refused(refusal) => Ok(Answered::Refused(refusal)),
        HandleFault::Read => Err(StoreFault::Disk),
        HandleFault::Disk => Err(StoreFault::Disk),
        HandleFault::Memory => Err(StoreFault::Memory),
    }
}

/// The answer to what a call of the handles answers.
pub(crate) fn answer_of<T: Drop>(answer: Result<T, HandleFault>) -> Result<Answered, StoreFault>
    ensures replies { replied result ≡ done_or answer }
    ensures not_said { result ≢ Ok Answered.All }
    ensures plain { IfOk result IsPlainAnswer }
    ensures unlisted { IfOk result (λ a. lists_findings a ≡ false) }
    ensures no_sink { result ≢ Err StoreFault.Sink }
    ensures ending { ending result ≡ handle_ending answer }
{
    match answer {
        Ok(_) => Ok(Answered::Done),
        Err(fault) => fault_answer(fault),
    }
}
