//! Says a list: the number of its items, and a line of each.

ghost use Rattle.std.specs.Prelude.{◌≡◌, ◌++◌, [], ◌∷◌, List, ℕ, IfOk, IsErrOf, OnErr, OnOk, string_bytes};
ghost use Rattle.cache_base.specs.Causes.{HasCause};
ghost use Rattle.cache_replies.specs.Said.{saying};
ghost use Rattle.cache_replies.specs.Saying.{CutsIn, SaysMore};
ghost use Rattle.cache_replies.specs.Texts.{lines, listing};
ghost use Rattle.cache_theory.specs.Text.{finding_words, line, record_words};
ghost use Rattle.hex.specs.Hex.{encode_upper};

use crate::entry_text::counted;
use crate::pending::Pending;
use cache_base::{Bytes, Name, NoMemory};
use cache_check::Finding;
use cache_io::{Sink, SinkFault};
use cache_script::{extend_record, finding_text};
use entry_name::text_of;
use index_record::IndexRecord;
use std::alloc::Global;

/// An item of a list, which has a line of its own.
pub trait Listed {
    /// The words of the line.
    ghost words: { Self → List (List ℕ) };

    /// Adds the line. Where memory runs out a part of it may be there.
    fn add_line(&self, alloc: Global, to: &mut Bytes) -> Result<(), NoMemory>
        ensures { OnOk result (to.new ≡ to.old ++ line (words self.now)) };
}

impl Listed for Name {
    ghost words = { λ name. encode_upper name.0 ∷ [] };

    fn add_line(&self, alloc: Global, to: &mut Bytes) -> Result<(), NoMemory> {
        let text = text_of(alloc, self)?;
        to.extend(text.as_bytes())?;
        to.push(b'\n')
    }
}

impl Listed for IndexRecord {
    ghost words = { record_words };

    fn add_line(&self, _alloc: Global, to: &mut Bytes) -> Result<(), NoMemory> {
        extend_record(to, self)?;
        to.push(b'\n')
    }
}

impl Listed for Finding {
    ghost words = { finding_words };

    fn add_line(&self, alloc: Global, to: &mut Bytes) -> Result<(), NoMemory> {
        let text = finding_text(alloc, self)?;
        to.extend(text.as_bytes())?;
        to.push(b'\n')
    }
}

// So many lines go out at once. That of a record is the longest: at most 93 bytes and a newline.
const LINES: usize = 64;

const LINES_LEN: usize = 94 * LINES;

// The lines of some items.
fn lines_of<T: Listed>(alloc: Global, items: &[T]) -> Result<Bytes, NoMemory>
    ensures { IfOk result (λ text. text ≡ lines T.words items.now) }
{
    let mut text = Bytes::with_room(alloc, LINES_LEN)?;
    for item in items {
        item.add_line(alloc, &mut text)?;
    }
    Ok(text)
}

// Says a line of each item.
fn say_lines<T: Listed, K: Sink>(
    alloc: Global,
    items: &[T],
    reply: &mut Pending,
    sink: &mut K,
) -> Result<(), SinkFault>
    ensures says { let at = saying K.Sink in let text = lines T.words items.now in
        OnOk result (SaysMore (at reply.old sink.old) (at reply.new sink.new) text) }
    ensures cut { let at = saying K.Sink in let text = lines T.words items.now in
        OnErr result (CutsIn (at reply.old sink.old) (K.taken sink.new) text) }
    ensures cause { let failed = IsErrOf result SinkFault.Failed in
        HasCause failed (K.faults sink.old) (K.faults sink.new) }
{
    let mut left = items;
    while !left.is_empty() {
        let (part, rest) = left.split_at(left.len().min(LINES));
        let lines = lines_of(alloc, part)?;
        reply.put(sink, lines.as_slice())?;
        left = rest;
    }
    Ok(())
}

/// Says the word with the number of the items, and a line of each item.
pub fn say_listing<T: Listed, K: Sink>(
    alloc: Global,
    word: &[u8],
    items: &[T],
    reply: &mut Pending,
    sink: &mut K,
) -> Result<(), SinkFault>
    ensures says { let at = saying K.Sink in let text = listing word.now T.words items.now in
        OnOk result (SaysMore (at reply.old sink.old) (at reply.new sink.new) text) }
    ensures cut { let at = saying K.Sink in let text = listing word.now T.words items.now in
        OnErr result (CutsIn (at reply.old sink.old) (K.taken sink.new) text) }
    ensures cause { let failed = IsErrOf result SinkFault.Failed in
        HasCause failed (K.faults sink.old) (K.faults sink.new) }
{
    let head = counted(alloc, word, items.len() as u64)?;
    reply.put(sink, head.as_slice())?;
    say_lines(alloc, items, reply, sink)
}
