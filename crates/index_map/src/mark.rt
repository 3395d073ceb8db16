//! How the record now of a name stands to the base's.

ghost use Rattle.std.specs.Prelude.{◌≡◌, length, map, option_and_then};
ghost use Rattle.std.specs.Option.{option_map};
ghost use Rattle.index_map.specs.Slots as spec;

use crate::slot::{Held, facts_of};
use index_record::{IndexRecord, removed};

/// How the record now of a name of the base stands to the base's record.
#[derive(Clone, Copy, PartialEq, Eq)]
pub(crate) enum Mark {
    /// It is the same, and was not seen.
    Unseen,
    /// It is the same, and was seen.
    Seen,
    /// There is none.
    Gone,
    /// What is known of the name stands in the table, if anything is.
    Away,
}

/// The mark of a record that begins seen or not.
pub(crate) fn first_mark(seen: bool) -> Mark
    ensures { result ≡ spec.first_mark seen }
{
    if seen { Mark::Seen } else { Mark::Unseen }
}

/// What a record of the base holds under its name.
pub(crate) fn held_of(r: &IndexRecord, mark: Mark) -> Option<Held>
    ensures { option_map (spec.slot_of r.now.name) result ≡ spec.marked r.now mark }
{
    let facts = Some(facts_of(r));
    match mark {
        Mark::Unseen => Some(Held {
            current: facts,
            base: facts,
            seen: false,
        }),
        Mark::Seen => Some(Held {
            current: facts,
            base: facts,
            seen: true,
        }),
        Mark::Gone => Some(Held {
            current: None,
            base: facts,
            seen: false,
        }),
        Mark::Away => None,
    }
}

/// The record now of a name of the base.
pub(crate) fn current_of(r: &IndexRecord, mark: Mark) -> Option<IndexRecord>
    ensures { result ≡ option_and_then (λ slot. slot.current) (spec.marked r.now mark) }
{
    match mark {
        Mark::Unseen => Some(*r),
        Mark::Seen => Some(*r),
        Mark::Gone => None,
        Mark::Away => None,
    }
}

/// What a journal has to say of a name of the base.
pub(crate) fn change_of(r: &IndexRecord, mark: Mark) -> Option<IndexRecord>
    ensures { result ≡ option_and_then spec.change_in (spec.marked r.now mark) }
{
    match mark {
        Mark::Unseen => None,
        Mark::Seen => None,
        Mark::Gone => Some(removed(&r.name)),
        Mark::Away => None,
    }
}

// The mark after all unseen records are dropped.
fn seen_mark(mark: Mark) -> Mark
    ensures { result ≡ spec.seen_mark mark }
{
    match mark {
        Mark::Unseen => Mark::Gone,
        Mark::Seen => Mark::Seen,
        Mark::Gone => Mark::Gone,
        Mark::Away => Mark::Away,
    }
}

// The mark after the records now are written.
fn written_mark(mark: Mark) -> Mark
    ensures { result ≡ spec.written_mark mark }
{
    match mark {
        Mark::Unseen => Mark::Unseen,
        Mark::Seen => Mark::Seen,
        Mark::Gone => Mark::Away,
        Mark::Away => Mark::Away,
    }
}

/// Drops all unseen records.
pub(crate) fn keep_seen(marks: &mut Vec<Mark>)
    ensures marks { marks.new.items ≡ map spec.seen_mark marks.old.items }
    ensures long { length marks.new.items ≡ length marks.old.items }
{
    for i in 0..marks.len() {
        marks[i] = seen_mark(marks[i]);
    }
}

/// Makes the records now the base's.
pub(crate) fn mark_written(marks: &mut Vec<Mark>)
    ensures marks { marks.new.items ≡ map spec.written_mark marks.old.items }
    ensures long { length marks.new.items ≡ length marks.old.items }
{
    for i in 0..marks.len() {
        marks[i] = written_mark(marks[i]);
    }
}
