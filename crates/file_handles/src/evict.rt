//! Evicts an entry that is not in use.

ghost use Rattle.std.specs.Prelude.{◌≡◌, IsSome, IsTrue};
ghost use Rattle.disk_theory.specs.Account.{Accounts, LooksAtNoEntry, ending as disk_ending, no_sync};
ghost use Rattle.disk_theory.specs.State.{standing};
ghost use Rattle.disk_theory.specs.Told.{Told};
ghost use Rattle.disk_theory.specs.declared.place.Place.TheVariants.{Entry as EntryAt};
ghost use Rattle.file_handles.specs.Unsynced.{SyncsNothing};
ghost use Rattle.index_theory.specs.Leaves.{LeavesBeside};

use crate::Handles;
use cache_base::Name;
use disk_theory::{Disk, DiskFault, Place};

impl Handles {
    ghost use Rattle.file_handles.specs.Cache.{cache};
    ghost use Rattle.file_handles.specs.Dooming.{DoomsUnder, TakesEntry};
    ghost use Rattle.file_handles.specs.Kept.{kept};
    ghost use Rattle.file_handles.specs.Removing.{FailsInRemoval};
    ghost use Rattle.file_handles.specs.Stands.{RepresentsSome};
    ghost use Rattle.handle_table.specs.Users.{users_of};

    /// Removes the file of an entry that no slot uses.
    pub fn evict<D: Disk>(&mut self, disk: &mut D, name: &Name) -> Result<(), DiskFault>
        requires unused { users_of (kept self.old) name.now ≡ 0 }
        requires told { IsTrue D.tells → RepresentsSome (cache D.Disk self.old disk.old)
            × IsSome (standing (D.state disk.old) (EntryAt name.now)) }
        ensures evicts { let at = cache D.Disk in IsTrue D.tells →
            DoomsUnder name.now.0 result (at self.old disk.old) (at self.new disk.new) }
        ensures takes { Told D.Disk (TakesEntry name.now) disk.old disk.new }
        ensures kept { kept self.new ≡ kept self.old }
        ensures unsynced { Told D.Disk SyncsNothing disk.old disk.new }
        ensures index { Told D.Disk LeavesBeside disk.old disk.new }
        ensures no_entry { LooksAtNoEntry D.Disk disk.old disk.new }
        ensures account { Accounts D.Disk (disk_ending result) no_sync disk.old disk.new }
        ensures change { FailsInRemoval D.Disk (disk_ending result) disk.new }
    {
        disk.remove(&Place::Entry(*name))
    }
}
