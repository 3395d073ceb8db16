//! Reads on in a dump until it is known what comes next.

ghost use Rattle.std.specs.Prelude.{◌≡◌, ◌≤◌, ◌↔◌, IfOk, IsErrOf, IsTrue, OnErr};
ghost use Rattle.cache_base.specs.Causes.{HasCause};
ghost use Rattle.cache_export.specs.Front.{front_at};
ghost use Rattle.cache_export.specs.Reading.{IsEnd, Reached};
ghost use Rattle.cache_io.specs.Window.{items, most_of, Grew};
ghost use Rattle.cache_export.specs.declared.front.Front.TheVariants.{More};
ghost use Rattle.cache_export.specs.declared.limits.TheConstants.{DUMP_MAX, HELD_MAX};
ghost use Rattle.cache_io.specs.declared.window.ReadFault.TheVariants as faults;

use crate::front::{Due, Front, front_of};
use cache_io::{ReadFault, Source, Window};

/// What comes next in a dump.
#[derive(Clone, Copy, Debug, PartialEq, Eq)]
pub(crate) enum Next {
    /// A part of so many bytes, after what stands before it, or a bad one of that length.
    Part(usize),
    /// The end.
    End,
    /// A bad part.
    Bad,
}

// Whether two slices have the same bytes.
fn are_same(a: &[u8], b: &[u8]) -> bool
    ensures { IsTrue result ↔ (a.now ≡ b.now) }
{
    a == b
}

// Whether the bytes end a dump.
fn ends(due: Due, bytes: &[u8]) -> bool
    ensures { IsTrue result ↔ IsEnd due bytes.now }
{
    match due {
        Due::Head => are_same(bytes, b"C2DUMP01\0"),
        Due::Item => are_same(bytes, b"\0"),
        Due::Length => false,
        Due::Body => false,
    }
}

/// Reads on until it is known what comes next, after `used` bytes of the dump. The source is read only where more bytes
/// are wanted.
pub(crate) fn read_next<S: Source>(
    window: &mut Window,
    source: &mut S,
    due: Due,
    left: usize,
    used: u64,
) -> Result<Next, ReadFault>
    requires used { used ≤ DUMP_MAX }
    requires most { most_of window.old ≡ HELD_MAX }
    ensures grew { Grew (items window.old) (items window.new)
        (S.left source.old) (S.left source.new) }
    ensures most { most_of window.new ≡ most_of window.old }
    ensures reached { IfOk result (λ next.
        Reached due left used next (items window.new) (S.left source.new)) }
    ensures cause { HasCause (IsErrOf result faults.Source)
        (S.faults source.old) (S.faults source.new) }
    ensures more { OnErr result (front_at due left used (items window.new) ≡ More) }
    ensures wanted { ¬ (front_at due left used (items window.old) ≡ More) →
        source.new ≡ source.old }
{
    'reads: loop {
        match front_of(due, left, used, window.as_slice()) {
            Front::Whole(len) => return Ok(Next::Part(len)),
            Front::Bad => return Ok(Next::Bad),
            Front::More => {}
        }
        let count = window.fill(source)?;
        if count == 0 {
            if ends(due, window.as_slice()) {
                return Ok(Next::End);
            }
            return Ok(Next::Bad);
        }
    }
}
