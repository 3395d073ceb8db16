//! What is shown of an entry: all of it, its main body, or its alternative data.

ghost use Rattle.std.specs.Prelude.{◌≡◌, ◌≤◌, IfOk, option_map};
ghost use Rattle.cache_replies.specs.Showing.{alt_shown, main_length, main_shown, part_said, part_shown};
ghost use Rattle.entry_metadata.specs.Meta.{meta_of};

use crate::entry_text::{alt_head, counted, entry_head};
use alt_data::info;
use cache_base::{Bytes, NoMemory};
use entry_metadata::Meta;
use std::alloc::Global;

/// What is shown of an entry.
#[derive(Clone, Copy)]
pub enum Shown {
    /// Its numbers, its elements and its whole body.
    Whole,
    /// Its main body.
    Main,
    /// Its alternative data.
    Alt,
}

/// What is said of an entry before bytes of its body, and which bytes these are.
#[derive(Drop)]
pub struct Part {
    /// The text before them.
    pub head: Bytes,
    /// The place of the first of them in the body.
    pub from: u32,
    /// The place after the last.
    pub to: u32,
}

// Which bytes of its body are the main one.
fn main_len(meta: &Meta) -> u32
    ensures len { result ≡ main_length (meta_of meta.now) }
    ensures inside { result ≤ meta.now.offset }
{
    match info(&meta.elements, meta.offset) {
        Some(alt) => alt.offset,
        None => meta.offset,
    }
}

// The part with the main body.
fn main_part(alloc: Global, meta: &Meta) -> Result<Part, NoMemory>
    ensures { IfOk result (λ part. part_said part ≡ main_shown (meta_of meta.now)) }
{
    let to = main_len(meta);
    let head = counted(alloc, b"main", u64::from(to))?;
    Ok(Part { head, from: 0, to })
}

// The part with the alternative data, if there are any.
fn alt_part(alloc: Global, meta: &Meta) -> Result<Option<Part>, NoMemory>
    ensures { IfOk result (λ part. option_map part_said part ≡ alt_shown (meta_of meta.now)) }
{
    let Some(alt) = info(&meta.elements, meta.offset) else {
        return Ok(None);
    };
    let len = meta.offset - alt.offset;
    let head = alt_head(alloc, alt.kind, u64::from(len))?;
    Ok(Some(Part {
        head,
        from: alt.offset,
        to: meta.offset,
    }))
}

/// The part that is shown of an entry, if it has that.
pub fn part_of(alloc: Global, shown: Shown, meta: &Meta) -> Result<Option<Part>, NoMemory>
    ensures part { IfOk result (λ part.
        option_map part_said part ≡ part_shown shown (meta_of meta.now)) }
{
    match shown {
        Shown::Whole => {
            let head = entry_head(alloc, meta)?;
            Ok(Some(Part {
                head,
                from: 0,
                to: meta.offset,
            }))
        }
        Shown::Main => Ok(Some(main_part(alloc, meta)?)),
        Shown::Alt => alt_part(alloc, meta),
    }
}
