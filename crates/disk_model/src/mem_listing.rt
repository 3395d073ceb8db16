// Lists of the files that stand on a disk in memory.

ghost use Rattle.std.specs.Prelude.{◌↔◌, ℕ, IfOk, IsSome, Contains};
ghost use Rattle.cache_base.specs.Names.{AreSorted};
ghost use Rattle.cache_base.specs.declared.name.Name.{Name as NameValue};
ghost use Rattle.disk_theory.specs.declared.place.Place.TheVariants.{Entry, Doomed};
ghost use Rattle.disk_theory.specs.Listing.{AreSortedNumbers};
ghost use Rattle.disk_model.specs.MemSlots.{names_in};

use crate::mem_slots::Slot;
use cache_base::{Names, NoMemory, Numbers};
use disk_theory::Place;
use std::alloc::Global;
use std::collections::BTreeMap;

/// The names under which entry files stand.
pub(crate) fn entry_names(alloc: Global, slots: &BTreeMap<Place, Slot>) -> Result<Names, NoMemory>
    ensures sorted { IfOk result AreSorted }
    ensures names { IfOk result (λ names. (name : NameValue) →
        Contains names name ↔ IsSome (names_in slots.now (Entry name))) }
{
    let mut names = Names::new(alloc);
    for (place, slot) in slots {
        if let Place::Entry(name) = place {
            if slot.now.is_some() {
                names.push(*name)?;
            }
        }
    }
    Ok(names)
}

/// The numbers under which files of doomed entries stand.
pub(crate) fn doomed_numbers(
    alloc: Global,
    slots: &BTreeMap<Place, Slot>,
) -> Result<Numbers, NoMemory>
    ensures sorted { IfOk result AreSortedNumbers }
    ensures numbers { IfOk result (λ numbers. (number : ℕ) →
        Contains numbers number ↔ IsSome (names_in slots.now (Doomed number))) }
{
    let mut numbers = Numbers::new(alloc);
    for (place, slot) in slots {
        if let Place::Doomed(number) = place {
            if slot.now.is_some() {
                numbers.push(*number)?;
            }
        }
    }
    Ok(numbers)
}
