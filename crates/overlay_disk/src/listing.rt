//! Lists of the files that stand.

ghost use Rattle.std.specs.Prelude.{◌≡◌, ℕ, IfOk, OnOk};
ghost use Rattle.std.specs.BTreeMap.{is_at};
ghost use Rattle.std.specs.BTreeSet.{contains};
ghost use Rattle.std.specs.List.{list_any};
ghost use Rattle.std.specs.List.Sorted.{IsStrictlySortedBy};
ghost use Rattle.std.specs.Ordering.{nat_cmp};
ghost use Rattle.cache_base.specs.Names.{AreSorted, name_cmp};
ghost use Rattle.cache_base.specs.declared.name.Name.{Name as NameValue};
ghost use Rattle.disk_theory.specs.declared.place.Place.TheVariants.{Doomed, Entry};
ghost use Rattle.disk_theory.specs.Listing.{AreSortedNumbers};
ghost use Rattle.overlay_disk.specs.Listed.{followed, stands_after};
ghost use Rattle.overlay_disk.specs.Seen.{overs_in};

use crate::over::Over;
use cache_base::{Items, Name, Names, NoMemory, Numbers, listed, name_set};
use disk_theory::Place;
use std::alloc::{AllocError, Global};
use std::collections::{BTreeMap, BTreeSet};

// The items of the set, in order.
fn rising<T: Ord + Drop>(
    alloc: Global,
    mut items: BTreeSet<T, Global>,
) -> Result<Items<T>, NoMemory>
    ensures keys { IfOk result (λ list. list ≡ items.keys) }
    ensures sorted { IfOk result (λ list. IsStrictlySortedBy T.cmp list) }
{
    let mut list = Items::with_room(alloc, items.len())?;
    while let Some(item) = items.pop_first() {
        list.push(item)?;
    }
    Ok(list)
}

// Takes out the item where no file stands, and puts it in where one does that has changed.
fn follow<T: Ord + Drop>(set: &mut BTreeSet<T>, item: T, over: &Over) -> Result<(), AllocError>
    ensures { OnOk result ((q : T) → contains T.cmp set.new q
        ≡ followed over.now (is_at (T.cmp q) item) (contains T.cmp set.old q)) }
{
    match over {
        Over::Below => {}
        Over::Gone => {
            set.remove(&item);
        }
        Over::File(_) => {
            set.insert(item)?;
        }
    }
    Ok(())
}

/// The names of entries, of which these stand below.
pub(crate) fn entry_names(
    alloc: Global,
    below: &[Name],
    slots: &BTreeMap<Place, Over>,
) -> Result<Names, NoMemory>
    ensures sorted { IfOk result AreSorted }
    ensures names { IfOk result (λ names. (q : NameValue) → list_any (is_at (name_cmp q)) names
        ≡ stands_after (overs_in slots.now (Entry q)) (list_any (is_at (name_cmp q)) below.now)) }
{
    let mut names = name_set(alloc, below)?;
    for (place, over) in slots {
        if let Place::Entry(name) = place {
            follow(&mut names, *name, over)?;
        }
    }
    listed(alloc, names)
}

// The numbers as a set.
fn number_set(alloc: Global, numbers: &[u32]) -> Result<BTreeSet<u32>, NoMemory>
    ensures { IfOk result (λ set. (q : ℕ) →
        contains nat_cmp set q ≡ list_any (is_at (nat_cmp q)) numbers.now) }
{
    Ok(numbers.iter().copied().collect::<BTreeSet<u32>>(alloc)?)
}

/// The numbers of doomed files, of which these stand below.
pub(crate) fn doomed_numbers(
    alloc: Global,
    below: &[u32],
    slots: &BTreeMap<Place, Over>,
) -> Result<Numbers, NoMemory>
    ensures sorted { IfOk result AreSortedNumbers }
    ensures numbers { IfOk result (λ numbers. (q : ℕ) → list_any (is_at (nat_cmp q)) numbers
        ≡ stands_after (overs_in slots.now (Doomed q)) (list_any (is_at (nat_cmp q)) below.now)) }
{
    let mut numbers = number_set(alloc, below)?;
    for (place, over) in slots {
        if let Place::Doomed(number) = place {
            follow(&mut numbers, *number, over)?;
        }
    }
    rising(alloc, numbers)
}
