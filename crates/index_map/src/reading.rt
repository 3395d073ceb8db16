//! What a table has under a name.

ghost use Rattle.std.specs.Prelude.{◌≡◌, option_and_then};
ghost use Rattle.std.specs.Map.{lookup};
ghost use Rattle.std.specs.Option.{option_map};
ghost use Rattle.record_list.specs.Lists.{same_name};
ghost use Rattle.index_map.specs.Slots as spec;

use crate::all_slots::AllSlots;
use crate::slot::{Facts, Held, named};
use crate::table::Table;
use cache_base::Name;
use index_record::IndexRecord;

/// The record of a name in the base.
pub(crate) fn base_at(table: &Table, name: &Name) -> Option<Facts>
    ensures base { option_map (spec.record_of name.now) result
        ≡ option_and_then (λ slot. slot.base) (lookup (same_name name.now) table.now) }
    ensures table { spec.IsTable table.now }
{
    match table.get(name) {
        Some(slot) => slot.base,
        None => None,
    }
}

/// The record of a name in the base, by what is known at its place and what stands in the layers.
pub(crate) fn base_over(placed: &Held, below: Option<Held>) -> Option<Facts>
    ensures { result ≡ spec.base_over placed.now below }
{
    match below {
        Some(below) => below.base,
        None => placed.base,
    }
}

/// The record of a name now, if it was seen.
pub(crate) fn seen_at(slots: &AllSlots, name: &Name) -> Option<IndexRecord>
    ensures record { result ≡ option_and_then spec.seen_of (lookup (same_name name.now) slots.now) }
    ensures table { spec.IsTable slots.now }
{
    match slots.get(name) {
        Some(slot) => {
            if slot.seen {
                named(name, slot.current)
            } else {
                None
            }
        }
        None => None,
    }
}
