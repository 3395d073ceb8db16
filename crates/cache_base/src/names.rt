//! Sets of names, and names that are searched for among sorted ones.

ghost use Rattle.std.specs.BTreeSet.{contains};
ghost use Rattle.std.specs.List.Sorted.{IsSorted};
ghost use Rattle.std.specs.Prelude.{◌≡◌, IfOk};
ghost use Rattle.cache_base.specs.Names.{AreSorted, has_name as has_name_of, name_cmp};
ghost use Rattle.cache_base.specs.declared.name.Name.{Name as AName};

use crate::{Name, Names, NoMemory};
use std::alloc::Global;
use std::collections::BTreeSet;

/// The names as a set, whose keys are in name order. Fails only when out of memory.
pub fn name_set(alloc: Global, names: &[Name]) -> Result<BTreeSet<Name>, NoMemory>
    ensures has { IfOk result (λ set. (q : AName) →
        contains name_cmp set q ≡ has_name_of names.now q) }
    ensures sorted { IfOk result (λ set. AreSorted set.keys) }
{
    Ok(names.iter().copied().collect::<BTreeSet<Name>>(alloc)?)
}

/// The names of a set, in name order.
pub fn listed(alloc: Global, mut set: BTreeSet<Name>) -> Result<Names, NoMemory>
    ensures names { IfOk result (λ names. names ≡ set.keys) }
    ensures sorted { IfOk result AreSorted }
{
    let mut names = Names::with_room(alloc, set.len())?;
    while let Some(name) = set.pop_first() {
        names.push(name)?;
    }
    Ok(names)
}

/// Whether a name is among sorted ones.
pub fn has_name(sorted: &[Name], name: &Name) -> bool
    requires { IsSorted name_cmp sorted.now }
    ensures { result ≡ has_name_of sorted.now name.now }
{
    sorted.binary_search(name).is_ok()
}
