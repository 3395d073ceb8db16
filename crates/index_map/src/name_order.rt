//! Records and places in name order, and the place of a name among them.

ghost use Rattle.std.specs.List.{AllByRecursion, HoldsAt};
ghost use Rattle.std.specs.Map.{keys_of};
ghost use Rattle.std.specs.Prelude.{◌≡◌, ◌<◌, ◌^◌, IfNone, IfOk, IfSome, false, length, map};
ghost use Rattle.cache_base.specs.Names as names;
ghost use Rattle.record_list.specs.Lists.{AreSorted, HasNames, IsByName, names_of, same_name};
ghost use Rattle.index_map.specs.Slots as spec;

use crate::counts::MOST;
use crate::slot::Held;
use cache_base::{Name, NoMemory};
use index_record::{IndexRecord, Records};
use record_list::by_name;
use std::alloc::Global;

/// The records in name order, in their memory.
pub(crate) fn in_order(records: Records) -> Records
    requires { HasNames records }
    ensures { IsByName records result }
{
    by_name(records.into_vec())
}

/// The place of a name among records in name order.
pub(crate) fn place_of(records: &[IndexRecord], name: &Name) -> Option<usize>
    requires { AreSorted records.now }
    ensures within { IfSome result (λ i. i < length records.now) }
    ensures found { IfSome result (HoldsAt (λ r. r.name ≡ name.now) records.now) }
    ensures none { IfNone result
        (AllByRecursion (λ n. same_name name.now n ≡ false) (names_of records.now)) }
{
    match records.binary_search_by_key(name, |record| record.name) {
        Ok(place) => Some(place),
        Err(_) => None,
    }
}

// A place for the name of each of these records, where nothing is known yet.
fn empty_places(alloc: Global, records: &[IndexRecord]) -> Result<Vec<(Name, Held)>, NoMemory>
    ensures { IfOk result (λ places. places.items ≡ map spec.new_place records.now) }
{
    let mut places = Vec::with_capacity(alloc, records.len())?;
    for record in records {
        places.push((record.name, Held::EMPTY))?;
    }
    Ok(places)
}

/// A place for each of these changes, in name order, where nothing is known yet.
pub(crate) fn places_for(alloc: Global, changes: &Records) -> Result<Vec<(Name, Held)>, NoMemory>
    requires { HasNames changes.now }
    ensures new { IfOk result (λ places. spec.AreNew places.items) }
    ensures few { IfOk result (λ places. length places.items < 2 ^ 62) }
{
    if changes.as_slice().len() >= MOST {
        return Err(NoMemory);
    }
    let sorted = in_order(Records::from_vec(changes.as_slice().to_vec(alloc)?));
    Ok(empty_places(alloc, sorted.as_slice())?)
}

/// The place of a name among places in name order.
pub(crate) fn place_in(places: &[(Name, Held)], name: &Name) -> Option<usize>
    requires { names.AreSorted (keys_of places.now) }
    ensures within { IfSome result (λ i. i < length places.now) }
    ensures found { IfSome result (HoldsAt (λ e. e.0 ≡ name.now) places.now) }
    ensures none { IfNone result
        (AllByRecursion (λ n. same_name name.now n ≡ false) (keys_of places.now)) }
{
    match places.binary_search_by_key(name, |place| place.0) {
        Ok(place) => Some(place),
        Err(_) => None,
    }
}
