//! Says what is left of an answer, and values.

ghost use Rattle.std.specs.Prelude.{◌≡◌, IfOk, IsErrOf, Ok, OnErr, OnOk, codes};
ghost use Rattle.cache_base.specs.Causes.{HasCause};
ghost use Rattle.cache_replies.specs.Answers.{left_to_say, outcome_in, outcome_of};
ghost use Rattle.cache_replies.specs.Said.{saying};
ghost use Rattle.cache_replies.specs.Saying.{CutsIn, SaysMore};
ghost use Rattle.cache_theory.specs.Command.Reply.{Findings};
ghost use Rattle.cache_theory.specs.Text.{findings_text, with_bytes};

use crate::answered::Answered;
use crate::entry_text::counted;
use crate::listing::say_listing;
use crate::pending::Pending;
use crate::verdict::Verdict;
use cache_check::Finding;
use cache_io::{Sink, SinkFault};
use cache_script::refusal_text;
use std::alloc::Global;

/// Says a value, after a line with its length.
pub fn say_value<K: Sink>(
    alloc: Global,
    value: &[u8],
    reply: &mut Pending,
    sink: &mut K,
) -> Result<(), SinkFault>
    ensures says { let at = saying K.Sink in let text = with_bytes (codes "value") value.now in
        OnOk result (SaysMore (at reply.old sink.old) (at reply.new sink.new) text) }
    ensures cut { let at = saying K.Sink in let text = with_bytes (codes "value") value.now in
        OnErr result (CutsIn (at reply.old sink.old) (K.taken sink.new) text) }
    ensures cause { let failed = IsErrOf result SinkFault.Failed in
        HasCause failed (K.faults sink.old) (K.faults sink.new) }
{
    let head = counted(alloc, b"value", value.len() as u64)?;
    reply.put(sink, head.as_slice())?;
    reply.put(sink, value)?;
    reply.put(sink, b"\n")?;
    Ok(())
}

// Says a line that is no refusal.
fn say_ok<K: Sink>(reply: &mut Pending, sink: &mut K, line: &[u8]) -> Result<Verdict, SinkFault>
    ensures says { let at = saying K.Sink in
        OnOk result (SaysMore (at reply.old sink.old) (at reply.new sink.new) line.now) }
    ensures cut { let at = saying K.Sink in
        OnErr result (CutsIn (at reply.old sink.old) (K.taken sink.new) line.now) }
    ensures outcome { IfOk result (λ o. o ≡ Verdict.Ok) }
    ensures cause { let failed = IsErrOf result SinkFault.Failed in
        HasCause failed (K.faults sink.old) (K.faults sink.new) }
{
    reply.put(sink, line)?;
    Ok(Verdict::Ok)
}

// Says what was found, and tells whether that is anything.
fn say_findings<K: Sink>(
    alloc: Global,
    found: &[Finding],
    reply: &mut Pending,
    sink: &mut K,
) -> Result<Verdict, SinkFault>
    ensures says { let at = saying K.Sink in OnOk result
        (SaysMore (at reply.old sink.old) (at reply.new sink.new) (findings_text found.now)) }
    ensures cut { let at = saying K.Sink in
        OnErr result (CutsIn (at reply.old sink.old) (K.taken sink.new) (findings_text found.now)) }
    ensures outcome { IfOk result (λ o. o ≡ outcome_of (Findings found.now)) }
    ensures cause { let failed = IsErrOf result SinkFault.Failed in
        HasCause failed (K.faults sink.old) (K.faults sink.new) }
{
    say_listing(alloc, b"findings", found, reply, sink)?;
    match found {
        [] => Ok(Verdict::Ok),
        [_, ..] => Ok(Verdict::Refused),
    }
}

/// Says what is left to say, and tells how the command came out.
pub fn say_rest<K: Sink>(
    alloc: Global,
    answered: Answered,
    reply: &mut Pending,
    sink: &mut K,
) -> Result<Verdict, SinkFault>
    ensures says { let at = saying K.Sink in
        OnOk result
        (SaysMore (at reply.old sink.old) (at reply.new sink.new) (left_to_say answered)) }
    ensures cut { let at = saying K.Sink in
        OnErr result (CutsIn (at reply.old sink.old) (K.taken sink.new) (left_to_say answered)) }
    ensures outcome { IfOk result (λ o. o ≡ outcome_in answered) }
    ensures resumed { answered ≡ Answered.Resumed →
        (result ≡ Ok Verdict.Ok) × ((reply.new ≡ reply.old) × (sink.new ≡ sink.old)) }
    ensures cause { let failed = IsErrOf result SinkFault.Failed in
        HasCause failed (K.faults sink.old) (K.faults sink.new) }
{
    match answered {
        Answered::All => Ok(Verdict::Ok),
        Answered::Resumed => Ok(Verdict::Ok),
        Answered::Done => say_ok(reply, sink, b"ok\n"),
        Answered::NoneThere => say_ok(reply, sink, b"none\n"),
        Answered::Yes => say_ok(reply, sink, b"yes\n"),
        Answered::No => say_ok(reply, sink, b"no\n"),
        Answered::Unknown => say_ok(reply, sink, b"unknown\n"),
        Answered::Ready => say_ok(reply, sink, b"ready\n"),
        Answered::Updating(names) => {
            let line = counted(alloc, b"updating", names)?;
            say_ok(reply, sink, line.as_slice())
        }
        Answered::Rebuilt(records) => {
            let line = counted(alloc, b"rebuilt", records)?;
            say_ok(reply, sink, line.as_slice())
        }
        Answered::Cleared(names) => {
            let line = counted(alloc, b"cleared", names)?;
            say_ok(reply, sink, line.as_slice())
        }
        Answered::Checked(found) => say_findings(alloc, found.as_slice(), reply, sink),
        Answered::Refused(refusal) => {
            let text = refusal_text(alloc, &refusal)?;
            reply.put(sink, text.as_bytes())?;
            reply.put(sink, b"\n")?;
            Ok(Verdict::Refused)
        }
    }
}
