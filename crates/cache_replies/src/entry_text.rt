//! Lines with a number, and the text of an entry before its body.

ghost use Rattle.std.specs.Prelude.{◌≡◌, ◌++◌, ◌∷◌, IfOk, OnOk, decimal};
ghost use Rattle.cache_replies.specs.EntryText.{head_text};
ghost use Rattle.cache_replies.specs.Texts.{fields, found_line};
ghost use Rattle.cache_theory.specs.Text.{alt_line, with_number};
ghost use Rattle.entry_metadata.specs.Meta.{meta_of};

use cache_base::{Bytes, NoMemory};
use entry_metadata::Meta;
use std::alloc::Global;

// Adds a space and a number in decimal.
fn extend_field(alloc: Global, to: &mut Bytes, n: u64) -> Result<(), NoMemory>
    ensures { OnOk result (to.new ≡ to.old ++ 32 ∷ decimal n) }
{
    to.push(b' ')?;
    to.extend_decimal(alloc, n)
}

fn extend_fields(alloc: Global, to: &mut Bytes, numbers: &[u64]) -> Result<(), NoMemory>
    ensures { OnOk result (to.new ≡ to.old ++ fields numbers.now) }
{
    for n in numbers {
        extend_field(alloc, to, *n)?;
    }
    Ok(())
}

/// A word, a number, and a newline.
pub fn counted(alloc: Global, word: &[u8], count: u64) -> Result<Bytes, NoMemory>
    ensures { IfOk result (λ line. line ≡ with_number word.now count) }
{
    let mut line = Bytes::new(alloc);
    line.extend(word)?;
    extend_field(alloc, &mut line, count)?;
    line.push(b'\n')?;
    Ok(line)
}

// The line of numbers of an entry.
#[tactic(auto, unfolding(crate::specs::Texts::found_line))]
fn head(alloc: Global, meta: &Meta) -> Result<Bytes, NoMemory>
    ensures { IfOk result (λ line. line ≡ found_line (meta_of meta.now)) }
{
    let header = meta.header;
    let numbers = [
        u64::from(header.fetch_count),
        u64::from(header.last_fetched),
        u64::from(header.last_modified),
        u64::from(header.frecency),
        u64::from(header.expiration),
        u64::from(header.flags),
        meta.elements.print().len() as u64,
        u64::from(meta.offset),
    ];
    let mut line = Bytes::new(alloc);
    line.extend(b"found")?;
    extend_fields(alloc, &mut line, &numbers)?;
    line.push(b'\n')?;
    Ok(line)
}

/// The text of an entry before its body: its numbers and its elements.
pub(crate) fn entry_head(alloc: Global, meta: &Meta) -> Result<Bytes, NoMemory>
    ensures { IfOk result (λ text. text ≡ head_text (meta_of meta.now)) }
{
    let mut text = head(alloc, meta)?;
    text.extend(meta.elements.print())?;
    text.push(b'\n')?;
    Ok(text)
}

/// The line of alternative data: their length and their kind.
pub(crate) fn alt_head(alloc: Global, kind: &[u8], len: u64) -> Result<Bytes, NoMemory>
    ensures { IfOk result (λ line. line ≡ alt_line kind.now len) }
{
    let mut line = Bytes::new(alloc);
    line.extend(b"alt")?;
    extend_field(alloc, &mut line, len)?;
    line.push(b' ')?;
    line.extend(kind)?;
    line.push(b'\n')?;
    Ok(line)
}
