//! An entry that loses its name, and later its file.

ghost use Rattle.std.specs.Prelude.{◌≡◌, ◌<◌, ℕ, length, IfOk, IsTrue, IsSome};
ghost use Rattle.cache_base.specs.declared.limits.TheConstants.{SLOTS};
ghost use Rattle.disk_theory.specs.Account.{OnlyChanges, ending, no_sync};
ghost use Rattle.disk_theory.specs.State.{standing, renamed, removed};
ghost use Rattle.disk_theory.specs.Calls.{counted_change, if_done};
ghost use Rattle.disk_theory.specs.declared.place.Place.TheVariants.{Entry, Doomed};
ghost use Rattle.disk_theory.specs.Told.{Told};
ghost use Rattle.doom_area.specs.DoomArea.{IsLeastFree};

use cache_base::Name;
use disk_theory::{Disk, DiskFault, Place};

/// The least number that is not in use. It takes no memory.
pub fn least(in_use: &[u32]) -> u32
    requires { length in_use.now < SLOTS }
    ensures { IsLeastFree in_use.now result }
{
    let mut number: u32 = 0;
    while in_use.contains(&number) {
        number += 1;
    }
    number
}

/// Moves the file of an entry among the doomed, under the least number that is not in use, and gives the number. A
/// doomed file that stands under this number, which no entry uses any more, loses its name.
pub fn doom<D: Disk>(disk: &mut D, name: &Name, in_use: &[u32]) -> Result<u32, DiskFault>
    requires few { length in_use.now < SLOTS }
    requires told { IsTrue D.tells → IsSome (standing (D.state disk.old) (Entry name.now)) }
    ensures number { IfOk result (IsLeastFree in_use.now) }
    ensures state { (number : ℕ) → IsLeastFree in_use.now number →
        Told D.Disk
        (λ s t. t ≡ if_done result (renamed (Entry name.now) (Doomed number) s) s)
        disk.old disk.new }
    ensures counts { IsTrue D.tells →
        D.counts disk.new ≡ counted_change result (D.counts disk.old) }
    ensures disk { OnlyChanges D.Disk (ending result) no_sync disk.old disk.new }
{
    let number = least(in_use);
    disk.rename(&Place::Entry(*name), &Place::Doomed(number))?;
    Ok(number)
}

/// Removes the file of a doomed entry.
pub fn release<D: Disk>(disk: &mut D, number: u32) -> Result<(), DiskFault>
    requires { IsTrue D.tells → IsSome (standing (D.state disk.old) (Doomed number)) }
    ensures state { Told D.Disk
        (λ s t. t ≡ if_done result (removed (Doomed number) s) s) disk.old disk.new }
    ensures counts { IsTrue D.tells →
        D.counts disk.new ≡ counted_change result (D.counts disk.old) }
    ensures disk { OnlyChanges D.Disk (ending result) no_sync disk.old disk.new }
{
    disk.remove(&Place::Doomed(number))
}
