//! The folder of doomed files is cleared, as when the cache is opened and no entry is in use.

ghost use Rattle.std.specs.Prelude.{OnOk, IsTrue};
ghost use Rattle.disk_theory.specs.Account.{LeavesEntriesUnread, ending, no_sync};
ghost use Rattle.disk_theory.specs.Listing.{AreDoomed, AreSortedNumbers};
ghost use Rattle.disk_theory.specs.Told.{Told};
ghost use Rattle.doom_area.specs.DoomArea.{RemovesDoomed, IsCleared};

use cache_base::Numbers;
use disk_theory::{Disk, DiskFault, Place};
use std::alloc::Global;

// Removes the doomed files, whose numbers these are.
fn remove_each<D: Disk>(disk: &mut D, numbers: &[u32]) -> Result<(), DiskFault>
    requires sorted { AreSortedNumbers numbers.now }
    requires told { IsTrue D.tells → AreDoomed (D.state disk.old) numbers.now }
    ensures removes { Told D.Disk RemovesDoomed disk.old disk.new }
    ensures cleared { OnOk result (Told D.Disk IsCleared disk.old disk.new) }
    ensures disk { LeavesEntriesUnread D.Disk (ending result) no_sync disk.old disk.new }
{
    for number in numbers {
        disk.remove(&Place::Doomed(*number))?;
    }
    Ok(())
}

/// Removes the files of all doomed entries, in the order of their numbers, and stops at the first call that fails.
/// Foreign names in the folder are left alone.
pub fn clear<D: Disk>(alloc: Global, disk: &mut D) -> Result<(), DiskFault>
    // Nothing but doomed files was removed, and after an Ok none stands.
    ensures removes { Told D.Disk RemovesDoomed disk.old disk.new }
    ensures cleared { OnOk result (Told D.Disk IsCleared disk.old disk.new) }
    ensures disk { LeavesEntriesUnread D.Disk (ending result) no_sync disk.old disk.new }
{
    let mut numbers = Numbers::new(alloc);
    disk.doomed(&mut numbers)?;
    remove_each(disk, numbers.as_slice())
}
