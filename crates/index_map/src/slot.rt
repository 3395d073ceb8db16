//! What is known under one name.

ghost use Rattle.std.specs.Prelude.{◌≡◌, length, map, option_and_then};
ghost use Rattle.std.specs.Option.{option_map};
ghost use Rattle.cache_base.specs.declared.name.Name.{Name as AName};
ghost use Rattle.index_map.specs.Slots as spec;

use cache_base::Name;
use index_record::{IndexRecord, removed};

/// A record without its name. The widest fields come first, so that there are no gaps.
#[derive(Clone, Copy, PartialEq, Eq)]
pub(crate) struct Facts {
    pub origin: u64,
    pub frecency: u32,
    pub flags: u32,
    pub on_start: u16,
    pub on_stop: u16,
    pub content: u8,
}

/// What is known under one name, which is that of both records. A slot in a table holds a record now, one of the base,
/// or both.
#[derive(Clone, Copy)]
pub(crate) struct Held {
    /// The record now.
    pub current: Option<Facts>,
    /// The record in the base.
    pub base: Option<Facts>,
    /// Whether the record now was seen.
    pub seen: bool,
}

impl Held {
    /// The slot that holds no record.
    pub const EMPTY: Held = Held {
        current: None,
        base: None,
        seen: false,
    };
}

/// A record without its name.
pub(crate) fn facts_of(r: &IndexRecord) -> Facts
    ensures { result ≡ spec.facts_of r.now }
{
    Facts {
        origin: r.origin,
        frecency: r.frecency,
        flags: r.flags,
        on_start: r.on_start,
        on_stop: r.on_stop,
        content: r.content,
    }
}

/// The record of a name.
pub(crate) fn record_of(name: &Name, facts: &Facts) -> IndexRecord
    ensures { result ≡ spec.record_of name.now facts.now }
{
    IndexRecord {
        name: *name,
        frecency: facts.frecency,
        origin: facts.origin,
        on_start: facts.on_start,
        on_stop: facts.on_stop,
        content: facts.content,
        flags: facts.flags,
    }
}

/// The record of a name, if there is one.
pub(crate) fn named(name: &Name, facts: Option<Facts>) -> Option<IndexRecord>
    ensures { result ≡ option_map (spec.record_of name.now) facts }
{
    match facts {
        Some(facts) => Some(record_of(name, &facts)),
        None => None,
    }
}

/// Whether the record now differs from the base's.
pub(crate) fn differs(slot: &Held) -> bool
    ensures { result ≡ spec.differs (spec.bare slot.now) }
{
    slot.base != slot.current
}

/// What a journal has to say of the slot of a name.
pub(crate) fn change(name: &Name, slot: &Held) -> Option<IndexRecord>
    ensures { result ≡ spec.change_in (spec.slot_of name.now slot.now) }
{
    match (slot.base, slot.current) {
        (None, current) => named(name, current),
        (Some(_), None) => Some(removed(name)),
        (Some(base), Some(current)) => {
            if base == current {
                None
            } else {
                Some(record_of(name, &current))
            }
        }
    }
}

/// Whether the slot holds a record.
pub(crate) fn is_used(slot: &Held) -> bool
    ensures { result ≡ spec.is_held slot.now }
{
    slot.current.is_some() || slot.base.is_some()
}

/// Takes an unseen record out, and says whether the slot holds a record then.
pub(crate) fn keep_seen(slot: &mut Held) -> bool
    ensures slot { slot.new ≡ spec.seen_held slot.old }
    ensures used { result ≡ spec.is_held slot.new }
{
    if !slot.seen {
        slot.current = None;
    }
    is_used(slot)
}

/// Makes the record now the base's, and says whether the slot holds a record then.
pub(crate) fn mark_written(slot: &mut Held) -> bool
    ensures slot { slot.new ≡ spec.written_held slot.old }
    ensures used { result ≡ spec.is_held slot.new }
{
    slot.base = slot.current;
    is_used(slot)
}

/// What a place holds, if it holds a record.
pub(crate) fn used(held: Option<Held>) -> Option<Held>
    ensures { (name : AName) → option_map (spec.slot_of name) result
        ≡ option_and_then (spec.kept_slot (λ slot. slot)) (option_map (spec.slot_of name) held) }
{
    match held {
        Some(held) => { if is_used(&held) { Some(held) } else { None } }
        None => None,
    }
}

/// Takes the unseen records out of places.
pub(crate) fn keep_seen_in(places: &mut Vec<(Name, Held)>)
    ensures { places.new.items ≡ map (λ e. (e.0, spec.seen_held e.1)) places.old.items }
{
    for i in 0..places.len() {
        let (name, mut held) = places[i];
        keep_seen(&mut held);
        places[i] = (name, held);
    }
}

/// Makes the records now in places the base's.
pub(crate) fn mark_written_in(places: &mut Vec<(Name, Held)>)
    ensures { places.new.items ≡ map (λ e. (e.0, spec.written_held e.1)) places.old.items }
{
    for i in 0..places.len() {
        let (name, mut held) = places[i];
        mark_written(&mut held);
        places[i] = (name, held);
    }
}
