//! A disk, and what its calls do.

ghost use Rattle.std.specs.Prelude.{◌≡◌, ◌≢◌, ◌+◌, ◌-◌, ◌^◌, ◌≤◌, ◌++◌, ℕ, Bool, List, length, drop, IfOk, OnOk, IsTrue, IsSome, IsErrOf, Option};
ghost use Rattle.std.specs.Option.{option_map};
ghost use Rattle.cache_base.specs.Causes.{CountsFailure};
ghost use Rattle.cache_base.specs.Names.{AreSorted};
ghost use Rattle.disk_theory.specs.State.{State, standing, part_of, created, renamed, removed, wrote, settled};
ghost use Rattle.disk_theory.specs.State.Write.{End, Patch};
ghost use Rattle.disk_theory.specs.Sound.{IsSound};
ghost use Rattle.disk_theory.specs.Listing.{AreEntries, AreDoomed, AreSortedNumbers, IsFinite};
ghost use Rattle.disk_theory.specs.Calls.{Counts, counted_change, counted_look, counted_read, counted_sync, if_ok, if_done, MayWriteAt, HoldsPart};
ghost use Rattle.disk_theory.specs.declared.disk.DiskFault.TheVariants.{Memory};

use crate::Place;
use cache_base::{Names, NoMemory, Numbers};
use std::alloc::AllocError;

/// Why a call of a disk was not done.
#[derive(Clone, Copy, Debug, PartialEq, Eq)]
pub enum DiskFault {
    /// The disk failed. A change that failed is recorded as its step all the same, so that a crash may show it in
    /// full, in part or not at all; a sync that failed settles nothing.
    Failed,
    /// Memory ran out, and nothing changed.
    Memory,
}

impl From<AllocError> for DiskFault {
    ghost from_gives = { λ _ e. e ≡ Memory };

    fn from(_: AllocError) -> Self {
        DiskFault::Memory
    }
}

impl From<NoMemory> for DiskFault {
    ghost from_gives = { λ _ e. e ≡ Memory };

    fn from(_: NoMemory) -> Self {
        DiskFault::Memory
    }
}

/// A disk. Its calls change the files and their names at once, and `sync` makes the changes last: what a crash
/// leaves is decided by what was synced and by the steps since.
///
/// The conditions on what stands at a place, and the clauses on states and counts, hold of a disk that tells. A
/// real folder tells nothing, and there a call on a file that is not there just fails.
pub trait Disk {
    /// Whether contracts see what the disk holds.
    ghost tells: { Bool };

    /// What was synced, and the steps since.
    ghost state: { Self → State };

    /// How many calls were made, and which change and which sync failed last.
    ghost counts: { Self → Counts };

    /// How many calls have failed.
    ghost faults: { Self → ℕ };

    /// Makes all changes last. After it nothing is pending.
    fn sync(&mut self) -> Result<(), DiskFault>
        ensures state { IsTrue tells →
            state self.new ≡ if_ok result (settled (state self.old)) (state self.old) }
        ensures counts { IsTrue tells → counts self.new ≡ counted_sync result (counts self.old) }
        ensures cause { CountsFailure (IsErrOf result DiskFault.Failed)
            (faults self.old) (faults self.new) };

    /// The length, in bytes, of the file at the place, or none where no file stands there.
    fn size(&mut self, place: &Place) -> Result<Option<u64>, DiskFault>
        ensures size { IfOk result (λ size. IsTrue tells →
            size ≡ option_map length (standing (state self.old) place.now)) }
        ensures state { IsTrue tells → state self.new ≡ state self.old }
        ensures counts { IsTrue tells → counts self.new ≡ counted_read result place.now
            (counts self.old) }
        ensures cause { CountsFailure (IsErrOf result DiskFault.Failed)
            (faults self.old) (faults self.new) };

    /// Fills the buffer's beginning with the bytes of the file from the offset `from` on, as far as the file goes, and
    /// tells how many they are: none where no file stands there, or where `from` is at or past its end. The rest of
    /// the buffer is as before.
    fn read(&mut self, place: &Place, from: u64, buf: &mut [u8]) -> Result<usize, DiskFault>
        ensures len { IfOk result (λ n. n ≤ length buf.old) }
        ensures bytes { IfOk result (λ n. IsTrue tells →
            let part = part_of from (length buf.old) (standing (state self.old) place.now) in
            (n ≡ length part) × (buf.new ≡ part ++ drop n buf.old)) }
        ensures state { IsTrue tells → state self.new ≡ state self.old }
        ensures counts { IsTrue tells → counts self.new ≡ counted_read result place.now
            (counts self.old) }
        ensures cause { CountsFailure (IsErrOf result DiskFault.Failed)
            (faults self.old) (faults self.new) };

    /// A new empty file takes the place. A file that stood there loses its name.
    fn create(&mut self, place: &Place) -> Result<(), DiskFault>
        ensures state { IsTrue tells →
            state self.new ≡ if_done result (created place.now (state self.old)) (state self.old) }
        ensures counts { IsTrue tells → counts self.new ≡ counted_change result (counts self.old) }
        ensures cause { CountsFailure (IsErrOf result DiskFault.Failed)
            (faults self.old) (faults self.new) };

    /// Writes the bytes at the offset `from`. The file then ends after them.
    fn write_end(&mut self, place: &Place, from: u64, bytes: &[u8]) -> Result<(), DiskFault>
        requires limit { from ≤ 2 ^ 40 }
        requires told { IsTrue tells → MayWriteAt (standing (state self.old) place.now) from }
        ensures state { IsTrue tells → state self.new ≡ if_done result
            (wrote place.now (End from bytes.now) (state self.old)) (state self.old) }
        ensures counts { IsTrue tells → counts self.new ≡ counted_change result (counts self.old) }
        ensures cause { CountsFailure (IsErrOf result DiskFault.Failed)
            (faults self.old) (faults self.new) };

    /// Writes the bytes at the offset `from` inside the file, whose length stays.
    fn patch(&mut self, place: &Place, from: u64, bytes: &[u8]) -> Result<(), DiskFault>
        requires limit { from ≤ 2 ^ 40 }
        requires told { IsTrue tells →
            HoldsPart (standing (state self.old) place.now) from (length bytes.now) }
        ensures state { IsTrue tells → state self.new ≡ if_done result
            (wrote place.now (Patch from bytes.now) (state self.old)) (state self.old) }
        ensures counts { IsTrue tells → counts self.new ≡ counted_change result (counts self.old) }
        ensures cause { CountsFailure (IsErrOf result DiskFault.Failed)
            (faults self.old) (faults self.new) };

    /// The file of the first place takes the second. A file that stood there loses its name.
    fn rename(&mut self, from: &Place, to: &Place) -> Result<(), DiskFault>
        requires stands { IsTrue tells → IsSome (standing (state self.old) from.now) }
        requires differ { IsTrue tells → from.now ≢ to.now }
        ensures state { IsTrue tells → state self.new
            ≡ if_done result (renamed from.now to.now (state self.old)) (state self.old) }
        ensures counts { IsTrue tells → counts self.new ≡ counted_change result (counts self.old) }
        ensures cause { CountsFailure (IsErrOf result DiskFault.Failed)
            (faults self.old) (faults self.new) };

    /// Removes the file at the place.
    fn remove(&mut self, place: &Place) -> Result<(), DiskFault>
        requires { IsTrue tells → IsSome (standing (state self.old) place.now) }
        ensures state { IsTrue tells →
            state self.new ≡ if_done result (removed place.now (state self.old)) (state self.old) }
        ensures counts { IsTrue tells → counts self.new ≡ counted_change result (counts self.old) }
        ensures cause { CountsFailure (IsErrOf result DiskFault.Failed)
            (faults self.old) (faults self.new) };

    /// The list becomes the names under which entry files stand, rising by their bytes.
    fn entries(&mut self, out: &mut Names) -> Result<(), DiskFault>
        ensures sorted { OnOk result (AreSorted out.new) }
        ensures names { OnOk result (IsTrue tells → AreEntries (state self.old) out.new) }
        ensures state { IsTrue tells → state self.new ≡ state self.old }
        ensures counts { IsTrue tells → counts self.new ≡ counted_look result (counts self.old) }
        ensures cause { CountsFailure (IsErrOf result DiskFault.Failed)
            (faults self.old) (faults self.new) };

    /// The list becomes the numbers under which files of doomed entries stand, rising.
    fn doomed(&mut self, out: &mut Numbers) -> Result<(), DiskFault>
        ensures sorted { OnOk result (AreSortedNumbers out.new) }
        ensures numbers { OnOk result (IsTrue tells → AreDoomed (state self.old) out.new) }
        ensures state { IsTrue tells → state self.new ≡ state self.old }
        ensures counts { IsTrue tells → counts self.new ≡ counted_look result (counts self.old) }
        ensures cause { CountsFailure (IsErrOf result DiskFault.Failed)
            (faults self.old) (faults self.new) };

    /// No file stands at two places, and each write lay within its file.
    ghost sound: { (disk : Self) → IsTrue tells → IsSound (state disk) };

    /// Entry files stand under finitely many names, and hold bytes.
    ghost finite: { (disk : Self) → IsTrue tells → IsFinite (state disk) };
}
