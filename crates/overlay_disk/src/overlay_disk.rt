//! A disk over another one, whose changes stay in memory.

ghost use Rattle.std.specs.Prelude.{◌≡◌, ◌⊎◌, ◌↔◌, ℕ, ◌≤◌, ◌^◌, ◌++◌, [], Contains, IfErr, IfOk, IsSome, IsErrOf, IsOk, IsTrue, None, OnErr, OnOk, Some, drop, false, length};
ghost use Rattle.std.specs.Option.{option_map};
ghost use Rattle.cache_base.specs.Causes.{CountsFailure, Rose};
ghost use Rattle.cache_base.specs.declared.name.Name.{Name as NameValue};
ghost use Rattle.cache_base.specs.Names.{AreSorted};
ghost use Rattle.disk_theory.specs.Calls.{HoldsPart, MayWriteAt, no_counts};
ghost use Rattle.disk_theory.specs.declared.disk.DiskFault.TheVariants.{Memory};
ghost use Rattle.disk_theory.specs.declared.place.Place.TheVariants.{Doomed, Entry};
ghost use Rattle.disk_theory.specs.Listing.{AreSortedNumbers};
ghost use Rattle.disk_theory.specs.Silent.{nothing, never, never_finite};
ghost use Rattle.disk_theory.specs.State.{part_of, standing, written};
ghost use Rattle.disk_theory.specs.State.Write.{End, Patch};

use crate::layer::Layer;
use cache_base::{Names, Numbers};
use disk_theory::{Disk, DiskFault, Place};
use std::alloc::Global;

/// A disk on which all that stands below stands until it is changed. What changes is held in memory: names that went
/// or came, and of a file what comes after its first byte that was written. The disk below is looked at, and never
/// changed or synced.
///
/// Each call that fails raises the count of faults by one. A call on a file that does not stand fails, but for a look.
#[derive(Drop)]
pub struct OverlayDisk<D: Disk + Drop> {
    layer: Layer<D>,
    faults: u64,
}

impl<D: Disk + Drop> OverlayDisk<D> {
    ghost use Rattle.overlay_disk.specs.Seen.{SameFiles};
    ghost use Rattle.overlay_disk.specs.Shown.{below, shown};

    /// The disk with no change yet. Makes no call of the one below.
    pub fn new(alloc: Global, disk: D) -> Self
        ensures below { below result ≡ disk }
        ensures shown { SameFiles (standing (D.state disk)) (shown D.Disk result) }
        ensures faults { ⟦<OverlayDisk<D> as Disk>⟧.faults result ≡ 0 }
    {
        OverlayDisk {
            layer: Layer::new(alloc, disk),
            faults: 0,
        }
    }

    // The answer of a call. Here alone a failure is counted.
    fn answer<T>(&mut self, outcome: Result<T, DiskFault>) -> Result<T, DiskFault>
        ensures same { result ≡ outcome }
        ensures layer { self.new.layer ≡ self.old.layer }
        ensures cause { CountsFailure (IsErrOf result DiskFault.Failed) self.old.faults self.new.faults }
    {
        match outcome {
            Ok(value) => Ok(value),
            Err(DiskFault::Memory) => Err(DiskFault::Memory),
            Err(DiskFault::Failed) => {
                self.faults = self.faults.saturating_add(1);
                Err(DiskFault::Failed)
            }
        }
    }
}

impl<D: Disk + Drop> Disk for OverlayDisk<D> {
    ghost use Rattle.overlay_disk.specs.Seen.{held, MovesTo, PutsAt, SameFiles};
    ghost use Rattle.overlay_disk.specs.Shown.{below, shown, Changes, OnlyLooks};

    ghost tells = { false };

    ghost state = { λ _. nothing };

    ghost counts = { λ _. no_counts };

    ghost faults = { λ d. d.faults };

    ghost sound = { λ _ told. never told };

    ghost finite = { λ _ told. never_finite told };

    /// Makes no call of the disk below.
    fn sync(&mut self) -> Result<(), DiskFault>
        ensures done { IsOk result }
        ensures same { self.new ≡ self.old }
    {
        Ok(())
    }

    fn size(&mut self, place: &Place) -> Result<Option<u64>, DiskFault>
        ensures size { IfOk result (λ size. IsTrue D.tells →
            size ≡ option_map length (shown D.Disk self.old place.now)) }
        ensures shown { Changes D.Disk SameFiles self.old self.new }
        ensures below { OnlyLooks D.Disk self.old self.new }
        ensures fault { IsErrOf result DiskFault.Failed →
            Rose (D.faults (below self.old)) (D.faults (below self.new))
            ⊎ (IsTrue D.tells → 2 ^ 64 ≤ length (held (shown D.Disk self.old place.now))) }
        ensures cause { CountsFailure (IsErrOf result DiskFault.Failed) self.old.faults self.new.faults }
    {
        let outcome = self.layer.size(place);
        self.answer(outcome)
    }

    fn read(&mut self, place: &Place, from: u64, buf: &mut [u8]) -> Result<usize, DiskFault>
        ensures len { IfOk result (λ n. n ≤ length buf.old) }
        ensures bytes { IfOk result (λ n. IsTrue D.tells →
            let part = part_of from (length buf.old) (shown D.Disk self.old place.now) in
            (n ≡ length part) × (buf.new ≡ part ++ drop n buf.old)) }
        ensures shown { Changes D.Disk SameFiles self.old self.new }
        ensures below { OnlyLooks D.Disk self.old self.new }
        ensures fault { IsErrOf result DiskFault.Failed →
            Rose (D.faults (below self.old)) (D.faults (below self.new)) }
        ensures cause { CountsFailure (IsErrOf result DiskFault.Failed) self.old.faults self.new.faults }
    {
        let outcome = self.layer.read(place, from, buf);
        self.answer(outcome)
    }

    /// Makes no call of the disk below.
    fn create(&mut self, place: &Place) -> Result<(), DiskFault>
        ensures ok { OnOk result (Changes D.Disk (PutsAt place.now (Some [])) self.old self.new) }
        ensures err { OnErr result (Changes D.Disk SameFiles self.old self.new) }
        ensures memory { IfErr result (λ fault. fault ≡ Memory) }
        ensures below { below self.new ≡ below self.old }
        ensures cause { CountsFailure (IsErrOf result DiskFault.Failed) self.old.faults self.new.faults }
    {
        let outcome = self.layer.create(place);
        self.answer(outcome)
    }

    fn write_end(&mut self, place: &Place, from: u64, bytes: &[u8]) -> Result<(), DiskFault>
        ensures ok { OnOk result (IsTrue D.tells →
            let before = shown D.Disk self.old in
            PutsAt place.now (option_map (written (End from bytes.now)) (before place.now))
            before (shown D.Disk self.new)) }
        ensures err { OnErr result (Changes D.Disk SameFiles self.old self.new) }
        ensures below { OnlyLooks D.Disk self.old self.new }
        ensures fault { IsErrOf result DiskFault.Failed →
            Rose (D.faults (below self.old)) (D.faults (below self.new))
            ⊎ (IsTrue D.tells → ¬ (MayWriteAt (shown D.Disk self.old place.now) from)) }
        ensures cause { CountsFailure (IsErrOf result DiskFault.Failed) self.old.faults self.new.faults }
    {
        let outcome = self.layer.write_end(place, from, bytes);
        self.answer(outcome)
    }

    fn patch(&mut self, place: &Place, from: u64, bytes: &[u8]) -> Result<(), DiskFault>
        requires { from ≤ 2 ^ 40 }
        ensures ok { OnOk result (IsTrue D.tells →
            let before = shown D.Disk self.old in
            PutsAt place.now (option_map (written (Patch from bytes.now)) (before place.now))
            before (shown D.Disk self.new)) }
        ensures err { OnErr result (Changes D.Disk SameFiles self.old self.new) }
        ensures below { OnlyLooks D.Disk self.old self.new }
        ensures fault { IsErrOf result DiskFault.Failed →
            Rose (D.faults (below self.old)) (D.faults (below self.new))
            ⊎ (IsTrue D.tells →
            ¬ (HoldsPart (shown D.Disk self.old place.now) from (length bytes.now))) }
        ensures cause { CountsFailure (IsErrOf result DiskFault.Failed) self.old.faults self.new.faults }
    {
        let outcome = self.layer.patch(place, from, bytes);
        self.answer(outcome)
    }

    fn rename(&mut self, from: &Place, to: &Place) -> Result<(), DiskFault>
        ensures ok { OnOk result (Changes D.Disk (MovesTo from.now to.now) self.old self.new) }
        ensures err { OnErr result (Changes D.Disk SameFiles self.old self.new) }
        ensures below { OnlyLooks D.Disk self.old self.new }
        ensures fault { IsErrOf result DiskFault.Failed →
            Rose (D.faults (below self.old)) (D.faults (below self.new))
            ⊎ (IsTrue D.tells → shown D.Disk self.old from.now ≡ None) }
        ensures cause { CountsFailure (IsErrOf result DiskFault.Failed) self.old.faults self.new.faults }
    {
        let outcome = self.layer.rename(from, to);
        self.answer(outcome)
    }

    fn remove(&mut self, place: &Place) -> Result<(), DiskFault>
        ensures ok { OnOk result (Changes D.Disk (PutsAt place.now None) self.old self.new) }
        ensures err { OnErr result (Changes D.Disk SameFiles self.old self.new) }
        ensures below { OnlyLooks D.Disk self.old self.new }
        ensures fault { IsErrOf result DiskFault.Failed →
            Rose (D.faults (below self.old)) (D.faults (below self.new))
            ⊎ (IsTrue D.tells → shown D.Disk self.old place.now ≡ None) }
        ensures cause { CountsFailure (IsErrOf result DiskFault.Failed) self.old.faults self.new.faults }
    {
        let outcome = self.layer.remove(place);
        self.answer(outcome)
    }

    fn entries(&mut self, out: &mut Names) -> Result<(), DiskFault>
        ensures sorted { OnOk result (AreSorted out.new) }
        ensures names { OnOk result (IsTrue D.tells → (name : NameValue) →
            Contains out.new name ↔ IsSome (shown D.Disk self.old (Entry name))) }
        ensures shown { Changes D.Disk SameFiles self.old self.new }
        ensures below { OnlyLooks D.Disk self.old self.new }
        ensures fault { IsErrOf result DiskFault.Failed →
            Rose (D.faults (below self.old)) (D.faults (below self.new)) }
        ensures cause { CountsFailure (IsErrOf result DiskFault.Failed) self.old.faults self.new.faults }
    {
        let outcome = self.layer.entries(out);
        self.answer(outcome)
    }

    fn doomed(&mut self, out: &mut Numbers) -> Result<(), DiskFault>
        ensures sorted { OnOk result (AreSortedNumbers out.new) }
        ensures numbers { OnOk result (IsTrue D.tells → (number : ℕ) →
            Contains out.new number ↔ IsSome (shown D.Disk self.old (Doomed number))) }
        ensures shown { Changes D.Disk SameFiles self.old self.new }
        ensures below { OnlyLooks D.Disk self.old self.new }
        ensures fault { IsErrOf result DiskFault.Failed →
            Rose (D.faults (below self.old)) (D.faults (below self.new)) }
        ensures cause { CountsFailure (IsErrOf result DiskFault.Failed) self.old.faults self.new.faults }
    {
        let outcome = self.layer.doomed(out);
        self.answer(outcome)
    }
}
