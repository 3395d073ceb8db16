//! Learns of a command on entries, for the index in memory.

ghost use Rattle.std.specs.Prelude.{◌≡◌, false, IfErr, IfOk, OnOk};
ghost use Rattle.cache_replies.specs.Answers.{outcome_in};
ghost use Rattle.cache_replies.specs.Printed.{IsPlainAnswer, lists_findings};
ghost use Rattle.cache_store.specs.Faults.{EndsAs, ending};
ghost use Rattle.cache_store.specs.Learnt.{HasOutcomeOf, IsLearnt, effect_of, effect_of_some};
ghost use Rattle.cache_store.specs.Records.{LearnsEffect};
ghost use Rattle.file_handles.specs.Answers.{done_or, done_or_none, ending as handle_ending};
ghost use Rattle.file_handles.specs.Effects.{IsPlainEffect};

use crate::StoreFault;
use crate::handle_answers::fault_answer;
use cache_base::NoMemory;
use cache_replies::Answered;
use file_handles::{Effect, HandleFault};
use memory_index::MemoryIndex;

// Learns what a command did. The name that it changed need not be read any more.
fn learn(index: &mut MemoryIndex, effect: Effect) -> Result<(), NoMemory>
    requires { IsPlainEffect effect }
    ensures { OnOk result (LearnsEffect effect index.old index.new) }
{
    match effect {
        Effect::Same => Ok(()),
        Effect::Gone(name) => {
            index.remove(&name);
            Ok(())
        }
        Effect::Wrote(record) => index.set(record),
    }
}

/// Learns of a call of the handles, and hands its answer on.
pub(crate) fn learn_of(
    index: &mut MemoryIndex,
    answer: Result<Effect, HandleFault>,
) -> Result<Answered, StoreFault>
    requires { IsPlainEffect (effect_of answer) }
    ensures learnt { IsLearnt (done_or answer) (effect_of answer) result index.old index.new }
    ensures plain { IfOk result IsPlainAnswer }
    ensures unlisted { IfOk result (λ a. lists_findings a ≡ false) }
    ensures unlearnt { IfErr answer (λ f. index.new ≡ index.old) }
    ensures went { IfOk result (λ a. HasOutcomeOf answer (outcome_in a)) }
    ensures ending { EndsAs (handle_ending answer) (ending result) }
{
    match answer {
        Ok(effect) => {
            learn(index, effect)?;
            Ok(Answered::Done)
        }
        Err(fault) => fault_answer(fault),
    }
}

/// The same of a call that answers None where there is nothing to do.
pub(crate) fn learn_of_some(
    index: &mut MemoryIndex,
    answer: Result<Option<Effect>, HandleFault>,
) -> Result<Answered, StoreFault>
    requires { IsPlainEffect (effect_of_some answer) }
    ensures learnt { IsLearnt (done_or_none answer)
        (effect_of_some answer) result index.old index.new }
    ensures unlisted { IfOk result (λ a. lists_findings a ≡ false) }
    ensures ending { EndsAs (handle_ending answer) (ending result) }
{
    match answer {
        Ok(Some(effect)) => {
            learn(index, effect)?;
            Ok(Answered::Done)
        }
        Ok(None) => Ok(Answered::NoneThere),
        Err(fault) => fault_answer(fault),
    }
}
