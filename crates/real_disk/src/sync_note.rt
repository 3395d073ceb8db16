//! The note that everything was synced, which a run leaves to the next one.
//!
//! It is a file beside `index` that names itself, by its device and inode, and the folder of entries, by these two
//! and the time of its last change. So it is not believed in a copy, nor where another program has changed a name
//! among the entries. Neither its making nor its removal is synced (docs/CRASH.md). It is known by its content: another
//! file of this name is none of the cache's, and stays.

ghost use Rattle.std.specs.Prelude.{◌≡◌, ◌++◌, ◌∷◌, IfOk, IsTrue, string_bytes};
ghost use Rattle.std.specs.Option.{IfSome};
ghost use Rattle.real_disk.specs.Reasons.{HasStampAt, IsNoteAt, NoteIsLeft, change_text, identity_text, note_text};

use folder_paths::{Area, path_in, path_of_area};
use machine_files::{Machine, Stamp, open_regular, read_only};
use std::alloc::{AllocError, Global};
use std::io::{self, ErrorKind, Write};

const NOTE: &str = "synced";

// No note has more bytes.
const LONGEST: u64 = 160;

// A note of whatever folder.
#[derive(Drop)]
struct Note {
    text: Vec<u8, Global>,
    itself: Stamp,
}

/// Whether the note stands and names itself and the folder of entries.
pub(crate) fn is_left<R: Machine + AllocGlobal>(rt: &R, dir: &str) -> io::Result<bool>
    ensures { IfOk result (λ is. IsTrue is → NoteIsLeft R.Machine rt.now dir.now) }
{
    let path = path_in(rt, dir, NOTE)?;
    let Some(note) = note_at(rt, path.as_str())? else {
        return Ok(false);
    };
    let due = text_of(rt, &note.itself, &entries_in(rt, dir)?)?;
    Ok(note.text.as_slice() == due.as_bytes())
}

// What stands there, if it has the content of a note. All else of this name is none of the cache's.
fn note_at<R: Machine + AllocGlobal>(rt: &R, path: &str) -> io::Result<Option<Note>>
    ensures { IfOk result (λ found. IfSome found (λ note.
        IsNoteAt R.Machine rt.now path.now note.text.items note.itself)) }
{
    match rt.look_at(path) {
        Ok(found) if found.is_file() && found.len() <= LONGEST => {}
        Ok(_) => return Ok(None),
        Err(error) if error.kind() == ErrorKind::NotFound => return Ok(None),
        Err(error) => return Err(error),
    }
    let note = read_note(rt, path)?;
    if is_text_of_note(&note.text) {
        Ok(Some(note))
    } else {
        Ok(None)
    }
}

// What the file has that stands there, as far as a note is long.
fn read_note<R: Machine + AllocGlobal>(rt: &R, path: &str) -> io::Result<Note>
    ensures { IfOk result (λ note.
        IsNoteAt R.Machine rt.now path.now note.text.items note.itself) }
{
    let file = open_regular(rt, &read_only(), path)?;
    let found = rt.look_at_open(&file)?;
    let mut text = vec![in rt.alloc(); 0u8; found.len().min(LONGEST) as usize]?;
    rt.read_from(&file, 0, &mut text)?;
    Ok(Note {
        text,
        itself: rt.stamp(&found),
    })
}

fn is_text_of_note(text: &[u8]) -> bool {
    match text.strip_prefix(b"synced ") {
        Some(rest) => rest.strip_suffix(b"\n").is_some_and(are_six_numbers),
        None => false,
    }
}

fn are_six_numbers(text: &[u8]) -> bool {
    text.iter().filter(|byte| **byte == b' ').count() == 5
        && text
            .iter()
            .all(|byte| matches!(*byte, b' ' | b'-' | b'0'..=b'9'))
}

/// Makes the note, in the place of an older one.
pub(crate) fn leave<R: Machine + AllocGlobal>(rt: &R, dir: &str) -> io::Result<()> {
    let entries = entries_in(rt, dir)?;
    take_away(rt, dir)?;
    let path = path_in(rt, dir, NOTE)?;
    let mut file = rt.make_at(path.as_str())?;
    let itself = rt.stamp(&rt.look_at_open(&file)?);
    let text = text_of(rt, &itself, &entries)?;
    file.write_all(text.as_bytes())
}

/// Removes the note, if it stands, be it that of another folder.
pub(crate) fn take_away<R: Machine + AllocGlobal>(rt: &R, dir: &str) -> io::Result<()> {
    let path = path_in(rt, dir, NOTE)?;
    if note_at(rt, path.as_str())?.is_some() {
        rt.remove_at(path.as_str())?;
    }
    Ok(())
}

fn entries_in<R: Machine + AllocGlobal>(rt: &R, dir: &str) -> io::Result<Stamp>
    ensures { IfOk result (λ entries. HasStampAt R.Machine rt.now dir.now entries) }
{
    let path = path_of_area(rt, dir, &Area::Entries)?;
    Ok(rt.stamp(&rt.look_at(path.as_str())?))
}

// What a note says of itself and of the folder of entries.
fn text_of<R: AllocGlobal>(rt: &R, itself: &Stamp, entries: &Stamp) -> Result<String, AllocError>
    ensures { IfOk result (λ text. string_bytes text ≡ note_text itself.now entries.now) }
{
    let file = identity_of(rt, itself)?;
    let folder = identity_of(rt, entries)?;
    let both = spaced(rt, file.as_str(), folder.as_str())?;
    let change = change_of(rt, entries)?;
    let named = spaced(rt, both.as_str(), change.as_str())?;
    let mut text = String::new(rt.alloc());
    text.push_str("synced ")?;
    text.push_str(named.as_str())?;
    text.push_str("\n")?;
    Ok(text)
}

fn identity_of<R: AllocGlobal>(rt: &R, stamp: &Stamp) -> Result<String, AllocError>
    ensures { IfOk result (λ text. string_bytes text ≡ identity_text stamp.now) }
{
    let device = stamp.device;
    let inode = stamp.inode;
    let first = format!(in rt.alloc(); "{device}")?;
    let second = format!(in rt.alloc(); "{inode}")?;
    spaced(rt, first.as_str(), second.as_str())
}

fn change_of<R: AllocGlobal>(rt: &R, stamp: &Stamp) -> Result<String, AllocError>
    ensures { IfOk result (λ text. string_bytes text ≡ change_text stamp.now) }
{
    let seconds = stamp.seconds;
    let nanoseconds = stamp.nanoseconds;
    let first = format!(in rt.alloc(); "{seconds}")?;
    let second = format!(in rt.alloc(); "{nanoseconds}")?;
    spaced(rt, first.as_str(), second.as_str())
}

// Both texts, with a space between them.
fn spaced<R: AllocGlobal>(rt: &R, first: &str, second: &str) -> Result<String, AllocError>
    ensures { IfOk result (λ text. string_bytes text ≡ first.now ++ (32 ∷ second.now)) }
{
    let mut text = String::new(rt.alloc());
    text.push_str(first)?;
    text.push_str(" ")?;
    text.push_str(second)?;
    Ok(text)
}
