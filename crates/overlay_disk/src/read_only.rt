//! A disk that is only looked at.

ghost use Rattle.std.specs.Prelude.{◌≡◌, ◌≤◌, ◌++◌, IfOk, IsErrOf, IsTrue, OnOk, drop, length};
ghost use Rattle.std.specs.Option.{option_map};
ghost use Rattle.cache_base.specs.Causes.{HasCause};
ghost use Rattle.cache_base.specs.Names.{AreSorted};
ghost use Rattle.disk_theory.specs.Calls.{counted_look, counted_read};
ghost use Rattle.disk_theory.specs.Listing.{AreEntries, AreDoomed, AreSortedNumbers};
ghost use Rattle.disk_theory.specs.State.{part_of, standing};
ghost use Rattle.overlay_disk.specs.OnlySeen.{IsOnlySeen};

use cache_base::{Names, Numbers};
use disk_theory::{Disk, DiskFault, Place};

/// A disk of which only the calls that look can be made: its field is seen in this file alone.
#[derive(Drop)]
pub(crate) struct ReadOnly<D: Disk + Drop> {
    disk: D,
}

impl<D: Disk + Drop> ReadOnly<D> {
    /// Makes no call of the disk.
    pub(crate) fn new(disk: D) -> Self
        ensures { result.disk ≡ disk }
    {
        ReadOnly { disk }
    }

    pub(crate) fn size(&mut self, place: &Place) -> Result<Option<u64>, DiskFault>
        ensures size { IfOk result (λ size. IsTrue D.tells →
            size ≡ option_map length (standing (D.state self.old.disk) place.now)) }
        ensures one_call { IsTrue D.tells →
            D.counts self.new.disk ≡ counted_read result place.now (D.counts self.old.disk) }
        ensures seen { IsOnlySeen D.Disk self.old.disk self.new.disk }
        ensures cause { HasCause (IsErrOf result DiskFault.Failed)
            (D.faults self.old.disk) (D.faults self.new.disk) }
    {
        self.disk.size(place)
    }

    pub(crate) fn read(
        &mut self,
        place: &Place,
        from: u64,
        buf: &mut [u8],
    ) -> Result<usize, DiskFault>
        ensures len { IfOk result (λ n. n ≤ length buf.old) }
        ensures bytes { IfOk result (λ n. IsTrue D.tells →
            let part = part_of from (length buf.old) (standing (D.state self.old.disk) place.now) in
            (n ≡ length part) × (buf.new ≡ part ++ drop n buf.old)) }
        ensures one_call { IsTrue D.tells →
            D.counts self.new.disk ≡ counted_read result place.now (D.counts self.old.disk) }
        ensures seen { IsOnlySeen D.Disk self.old.disk self.new.disk }
        ensures cause { HasCause (IsErrOf result DiskFault.Failed)
            (D.faults self.old.disk) (D.faults self.new.disk) }
    {
        self.disk.read(place, from, buf)
    }

    pub(crate) fn entries(&mut self, out: &mut Names) -> Result<(), DiskFault>
        ensures names { OnOk result (IsTrue D.tells → AreEntries (D.state self.old.disk) out.new) }
        ensures one_call { IsTrue D.tells →
            D.counts self.new.disk ≡ counted_look result (D.counts self.old.disk) }
        ensures sorted { OnOk result (AreSorted out.new) }
        ensures seen { IsOnlySeen D.Disk self.old.disk self.new.disk }
        ensures cause { HasCause (IsErrOf result DiskFault.Failed)
            (D.faults self.old.disk) (D.faults self.new.disk) }
    {
        self.disk.entries(out)
    }

    pub(crate) fn doomed(&mut self, out: &mut Numbers) -> Result<(), DiskFault>
        ensures numbers { OnOk result (IsTrue D.tells → AreDoomed (D.state self.old.disk) out.new) }
        ensures one_call { IsTrue D.tells →
            D.counts self.new.disk ≡ counted_look result (D.counts self.old.disk) }
        ensures sorted { OnOk result (AreSortedNumbers out.new) }
        ensures seen { IsOnlySeen D.Disk self.old.disk self.new.disk }
        ensures cause { HasCause (IsErrOf result DiskFault.Failed)
            (D.faults self.old.disk) (D.faults self.new.disk) }
    {
        self.disk.doomed(out)
    }
}
