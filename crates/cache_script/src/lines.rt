//! The lines of commands.

ghost use Rattle.std.specs.Prelude.{◌≡◌, ◌≢◌, IfNone, IfSome};
ghost use Rattle.std.specs.Option.{option_map};
ghost use Rattle.cache_theory.specs.Command.{Command as MachineCommand};
ghost use Rattle.cache_theory.specs.Text.{FieldsFit, IsOneLine, command_words, spaced};
ghost use Rattle.cache_script.specs.Lines.{Tells, cut as cut_of, number_below as number_below_of, slot_in, len_in, read_in, slot_form, first_slot_form, number_form, verb_form, form_in, line_form};

use crate::Command;
use cache_base::{ALT_MAX, ELEMENTS_MAX, PIECE_MAX, SLOTS, number};
use memchr::memchr;

/// What the line of a command tells of it.
#[derive(Clone, Copy)]
pub(crate) enum Line<'a> {
    /// The line is the whole command.
    Whole(Command<'a>),
    /// So many bytes follow, which are appended.
    Append { slot: u8, len: u32 },
    /// So many bytes follow, which are the value of the element.
    Set { slot: u8, len: u32, name: &'a [u8] },
    /// So many bytes follow, which are alternative data of the kind.
    PutAlt { slot: u8, len: u32, kind: &'a [u8] },
}

/// What stands before the first such byte, and what after it.
pub(crate) fn cut(text: &[u8], byte: u8) -> Option<(&[u8], &[u8])>
    ensures { option_map (λ parts. (parts.0.now, parts.1.now)) result ≡ cut_of byte text.now }
{
    let at = memchr(byte, text)?;
    Some((&text[..at], &text[at + 1..]))
}

fn number_below(word: &[u8], limit: u32) -> Option<u32>
    ensures { result ≡ number_below_of limit word.now }
{
    let n = number(word)?;
    if n < limit { Some(n) } else { None }
}

fn slot(word: &[u8]) -> Option<u8>
    ensures { result ≡ slot_in word.now }
{
    let slot = number_below(word, SLOTS as u32)?;
    Some(slot as u8)
}

// A length below a limit, and what follows it.
fn len_and_more(text: &[u8], limit: u32) -> Option<(u32, &[u8])>
    ensures { option_map (λ parts. (parts.0, parts.1.now)) result ≡ len_in limit text.now }
{
    let (len, more) = cut(text, b' ')?;
    let len = number_below(len, limit)?;
    Some((len, more))
}

fn read_line<'a>(slot: u8, from: &[u8], len: &[u8]) -> Option<Line<'a>>
    ensures { option_map line_form result ≡ read_in slot from.now len.now }
{
    let from = number(from)?;
    let len = number(len)?;
    Some(Line::Whole(Command::ReadPart { slot, from, len }))
}

// What a verb tells that has a slot and more.
#[tactic(auto, unfolding(crate::specs::Lines::slot_form))]
fn slot_line<'a>(verb: &[u8], slot: u8, rest: &'a [u8]) -> Option<Line<'a>>
    ensures { option_map line_form result ≡ slot_form verb.now slot rest.now }
{
    if verb == b"create".as_slice() {
        return Some(Line::Whole(Command::Create { slot, key: rest }));
    }
    if verb == b"open".as_slice() {
        return Some(Line::Whole(Command::OpenKey { slot, key: rest }));
    }
    if verb == b"unset".as_slice() {
        return Some(Line::Whole(Command::UnsetElement { slot, name: rest }));
    }
    if verb == b"element".as_slice() {
        return Some(Line::Whole(Command::Element { slot, name: rest }));
    }
    if verb == b"append".as_slice() {
        let len = number_below(rest, PIECE_MAX as u32 + 1)?;
        return Some(Line::Append { slot, len });
    }
    if verb == b"set".as_slice() {
        let (len, name) = len_and_more(rest, ELEMENTS_MAX as u32 + 1)?;
        return Some(Line::Set { slot, len, name });
    }
    if verb == b"putalt".as_slice() {
        let (len, kind) = len_and_more(rest, ALT_MAX as u32 + 1)?;
        return Some(Line::PutAlt { slot, len, kind });
    }
    if verb == b"read".as_slice() {
        let (from, len) = cut(rest, b' ')?;
        return read_line(slot, from, len);
    }
    None
}

// What a verb tells that has a slot first, and maybe more.
#[tactic(auto, unfolding(crate::specs::Lines::first_slot_form))]
fn first_slot_line<'a>(verb: &[u8], rest: &'a [u8]) -> Option<Line<'a>>
    ensures { option_map line_form result ≡ first_slot_form verb.now rest.now }
{
    if verb == b"finish".as_slice() {
        let slot = slot(rest)?;
        return Some(Line::Whole(Command::Finish { slot }));
    }
    if verb == b"close".as_slice() {
        let slot = slot(rest)?;
        return Some(Line::Whole(Command::Close { slot }));
    }
    if verb == b"use".as_slice() {
        let slot = slot(rest)?;
        return Some(Line::Whole(Command::UseEntry { slot }));
    }
    if verb == b"pin".as_slice() {
        let slot = slot(rest)?;
        return Some(Line::Whole(Command::Pin { slot }));
    }
    if verb == b"unpin".as_slice() {
        let slot = slot(rest)?;
        return Some(Line::Whole(Command::Unpin { slot }));
    }
    let (first, rest) = cut(rest, b' ')?;
    slot_line(verb, slot(first)?, rest)
}

// What a verb tells that has a number after it, or a slot first.
#[tactic(auto, unfolding(crate::specs::Lines::number_form))]
fn number_line<'a>(verb: &[u8], rest: &'a [u8]) -> Option<Line<'a>>
    ensures { option_map line_form result ≡ number_form verb.now rest.now }
{
    if verb == b"at".as_slice() {
        let now = number(rest)?;
        return Some(Line::Whole(Command::At { now }));
    }
    if verb == b"evict".as_slice() {
        let kb = number(rest)?;
        return Some(Line::Whole(Command::Evict { kb }));
    }
    if verb == b"step".as_slice() {
        let n = number(rest)?;
        return Some(Line::Whole(Command::Step { n }));
    }
    first_slot_line(verb, rest)
}

// What a verb tells that has more after it.
#[tactic(auto, unfolding(crate::specs::Lines::verb_form))]
fn verb_line<'a>(verb: &[u8], rest: &'a [u8]) -> Option<Line<'a>>
    ensures { option_map line_form result ≡ verb_form verb.now rest.now }
{
    if verb == b"doom".as_slice() {
        return Some(Line::Whole(Command::Doom { key: rest }));
    }
    if verb == b"get".as_slice() {
        return Some(Line::Whole(Command::Get { key: rest }));
    }
    if verb == b"getalt".as_slice() {
        return Some(Line::Whole(Command::GetAlt { key: rest }));
    }
    if verb == b"main".as_slice() {
        return Some(Line::Whole(Command::MainBody { key: rest }));
    }
    if verb == b"has".as_slice() {
        return Some(Line::Whole(Command::Has { key: rest }));
    }
    if verb == b"clear".as_slice() {
        return Some(Line::Whole(Command::Clear { origin: rest }));
    }
    number_line(verb, rest)
}

#[tactic(auto, unfolding(crate::specs::Lines::form_in))]
fn text_line(text: &[u8]) -> Option<Line<'_>>
    ensures { option_map line_form result ≡ form_in text.now }
{
    if text == b"flush".as_slice() {
        return Some(Line::Whole(Command::Flush));
    }
    if text == b"list".as_slice() {
        return Some(Line::Whole(Command::List));
    }
    if text == b"state".as_slice() {
        return Some(Line::Whole(Command::State));
    }
    if text == b"verify".as_slice() {
        return Some(Line::Whole(Command::Verify));
    }
    if text == b"rebuild".as_slice() {
        return Some(Line::Whole(Command::Rebuild));
    }
    let (verb, rest) = cut(text, b' ')?;
    verb_line(verb, rest)
}

/// What the line of a command tells, given without its newline; or none where it is the line of no command.
pub(crate) fn line_in(text: &[u8]) -> Option<Line<'_>>
    ensures exact { option_map line_form result ≡ form_in text.now }
    ensures tells { IsOneLine text.now → IfSome result (λ line. Tells text.now (line_form line)) }
    ensures none { IfNone result ((c : MachineCommand) → FieldsFit c →
        text.now ≢ spaced (command_words c)) }
{
    text_line(text)
}
