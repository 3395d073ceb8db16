//! The changes over a disk.

ghost use Rattle.std.specs.Prelude.{◌≡◌, ◌⊎◌, ◌↔◌, ℕ, ◌≤◌, ◌^◌, ◌++◌, [], Contains, IfErr, IfOk, IsErrOf, IsSome, IsTrue, None, OnErr, OnOk, Some, drop, length};
ghost use Rattle.std.specs.Option.{option_map};
ghost use Rattle.cache_base.specs.declared.name.Name.{Name as NameValue};
ghost use Rattle.cache_base.specs.Names.{AreSorted};
ghost use Rattle.cache_base.specs.Causes.{Rose};
ghost use Rattle.disk_theory.specs.declared.place.Place.{Place as Where};
ghost use Rattle.disk_theory.specs.declared.place.Place.TheVariants.{Doomed, Entry};
ghost use Rattle.disk_theory.specs.State.{part_of, standing, written};
ghost use Rattle.disk_theory.specs.State.Write.{End, Patch};
ghost use Rattle.disk_theory.specs.declared.disk.DiskFault.TheVariants.{Memory};
ghost use Rattle.disk_theory.specs.Calls.{HoldsPart, MayWriteAt};
ghost use Rattle.disk_theory.specs.Listing.{AreSortedNumbers};

use crate::listing::{doomed_numbers, entry_names};
use crate::over::{Over, OverFile};
use crate::read_only::ReadOnly;
use crate::slots::{make_slot, put, take};
use cache_base::{Names, Numbers};
use disk_theory::{Disk, DiskFault, Place};
use std::alloc::Global;
use std::collections::BTreeMap;

/// What stands at the places that were changed, over a disk that is only looked at.
#[derive(Drop)]
pub(crate) struct Layer<D: Disk + Drop> {
    alloc: Global,
    below: ReadOnly<D>,
    slots: BTreeMap<Place, Over>,
}

impl<D: Disk + Drop> Layer<D> {
    ghost use Rattle.overlay_disk.specs.OnlySeen.{IsOnlySeen};
    ghost use Rattle.overlay_disk.specs.Seen.{HasSlot, held, MovesTo, PutsAt, SameFiles, overs_in, seen_as, with_over};
    ghost use Rattle.overlay_disk.specs.Shown.{LooksBelow, Shows, files_below, shown_in};
    ghost use Rattle.overlay_disk.specs.declared.over.Over.TheVariants.{Below, File};

    /// Nothing was changed yet.
    pub(crate) fn new(alloc: Global, disk: D) -> Self
        ensures below { result.below.disk ≡ disk }
        ensures shown { SameFiles (standing (D.state disk)) (shown_in D.Disk result) }
    {
        Layer {
            alloc,
            below: ReadOnly::new(disk),
            slots: BTreeMap::new(alloc),
        }
    }

    pub(crate) fn size(&mut self, place: &Place) -> Result<Option<u64>, DiskFault>
        ensures size { IfOk result (λ size. IsTrue D.tells →
            size ≡ option_map length (shown_in D.Disk self.old place.now)) }
        ensures shown { Shows D.Disk SameFiles self.old self.new }
        ensures fault { IsErrOf result DiskFault.Failed →
            Rose (D.faults self.old.below.disk) (D.faults self.new.below.disk)
            ⊎ (IsTrue D.tells → 2 ^ 64 ≤ length (held (shown_in D.Disk self.old place.now))) }
        ensures below { LooksBelow D.Disk self.old self.new }
    {
        match self.slots.get(place) {
            None => self.below.size(place),
            Some(Over::Below) => self.below.size(place),
            Some(Over::Gone) => Ok(None),
            Some(Over::File(file)) => Ok(Some(file.size(&mut self.below)?)),
        }
    }

    pub(crate) fn read(
        &mut self,
        place: &Place,
        from: u64,
        buf: &mut [u8],
    ) -> Result<usize, DiskFault>
        ensures len { IfOk result (λ n. n ≤ length buf.old) }
        ensures bytes { IfOk result (λ n. IsTrue D.tells →
            let part = part_of from (length buf.old) (shown_in D.Disk self.old place.now) in
            (n ≡ length part) × (buf.new ≡ part ++ drop n buf.old)) }
        ensures shown { Shows D.Disk SameFiles self.old self.new }
        ensures fault { IsErrOf result DiskFault.Failed →
            Rose (D.faults self.old.below.disk) (D.faults self.new.below.disk) }
        ensures below { LooksBelow D.Disk self.old self.new }
    {
        match self.slots.get(place) {
            None => self.below.read(place, from, buf),
            Some(Over::Below) => self.below.read(place, from, buf),
            Some(Over::Gone) => Ok(0),
            Some(Over::File(file)) => file.read(&mut self.below, from, buf),
        }
    }

    pub(crate) fn create(&mut self, place: &Place) -> Result<(), DiskFault>
        ensures ok { OnOk result (Shows D.Disk (PutsAt place.now (Some [])) self.old self.new) }
        ensures err { OnErr result (Shows D.Disk SameFiles self.old self.new) }
        ensures memory { IfErr result (λ fault. fault ≡ Memory) }
        ensures below { self.new.below ≡ self.old.below }
    {
        make_slot(&mut self.slots, place)?;
        let file = OverFile::empty(self.alloc, place);
        put(&mut self.slots, place, Over::File(file));
        Ok(())
    }

    pub(crate) fn write_end(
        &mut self,
        place: &Place,
        from: u64,
        bytes: &[u8],
    ) -> Result<(), DiskFault>
        ensures ok { OnOk result (IsTrue D.tells →
            let before = shown_in D.Disk self.old in
            PutsAt place.now (option_map (written (End from bytes.now)) (before place.now))
            before (shown_in D.Disk self.new)) }
        ensures err { OnErr result (Shows D.Disk SameFiles self.old self.new) }
        ensures fault { IsErrOf result DiskFault.Failed →
            Rose (D.faults self.old.below.disk) (D.faults self.new.below.disk)
            ⊎ (IsTrue D.tells → ¬ (MayWriteAt (shown_in D.Disk self.old place.now) from)) }
        ensures below { LooksBelow D.Disk self.old self.new }
    {
        let mut file = self.take_file(place)?;
        let outcome = file.write_end(self.alloc, &mut self.below, from, bytes);
        put(&mut self.slots, place, Over::File(file));
        outcome
    }

    pub(crate) fn patch(&mut self, place: &Place, from: u64, bytes: &[u8]) -> Result<(), DiskFault>
        requires { from ≤ 2 ^ 40 }
        ensures ok { OnOk result (IsTrue D.tells →
            let before = shown_in D.Disk self.old in
            PutsAt place.now (option_map (written (Patch from bytes.now)) (before place.now))
            before (shown_in D.Disk self.new)) }
        ensures err { OnErr result (Shows D.Disk SameFiles self.old self.new) }
        ensures fault { IsErrOf result DiskFault.Failed →
            Rose (D.faults self.old.below.disk) (D.faults self.new.below.disk)
            ⊎ (IsTrue D.tells →
            ¬ (HoldsPart (shown_in D.Disk self.old place.now) from (length bytes.now))) }
        ensures below { LooksBelow D.Disk self.old self.new }
    {
        let mut file = self.take_file(place)?;
        let outcome = file.patch(self.alloc, &mut self.below, from, bytes);
        put(&mut self.slots, place, Over::File(file));
        outcome
    }

    pub(crate) fn rename(&mut self, from: &Place, to: &Place) -> Result<(), DiskFault>
        ensures ok { OnOk result (Shows D.Disk (MovesTo from.now to.now) self.old self.new) }
        ensures err { OnErr result (Shows D.Disk SameFiles self.old self.new) }
        ensures fault { IsErrOf result DiskFault.Failed →
            Rose (D.faults self.old.below.disk) (D.faults self.new.below.disk)
            ⊎ (IsTrue D.tells → shown_in D.Disk self.old from.now ≡ None) }
        ensures below { LooksBelow D.Disk self.old self.new }
    {
        make_slot(&mut self.slots, to)?;
        let file = self.take_file(from)?;
        put(&mut self.slots, from, Over::Gone);
        put(&mut self.slots, to, Over::File(file));
        Ok(())
    }

    pub(crate) fn remove(&mut self, place: &Place) -> Result<(), DiskFault>
        ensures ok { OnOk result (Shows D.Disk (PutsAt place.now None) self.old self.new) }
        ensures err { OnErr result (Shows D.Disk SameFiles self.old self.new) }
        ensures fault { IsErrOf result DiskFault.Failed →
            Rose (D.faults self.old.below.disk) (D.faults self.new.below.disk)
            ⊎ (IsTrue D.tells → shown_in D.Disk self.old place.now ≡ None) }
        ensures below { LooksBelow D.Disk self.old self.new }
    {
        let _gone = self.take_file(place)?;
        put(&mut self.slots, place, Over::Gone);
        Ok(())
    }

    // Takes the file that stands at the place, which then has a slot. A place with no file is a fault.
    fn take_file(&mut self, place: &Place) -> Result<OverFile, DiskFault>
        ensures file { IfOk result (λ file. IsTrue D.tells →
            seen_as (files_below D.Disk self.old) place.now (File file)
            ≡ shown_in D.Disk self.old place.now) }
        ensures rest { OnOk result
            (overs_in self.new.slots ≡ with_over place.now Below (overs_in self.old.slots)) }
        ensures err { OnErr result (overs_in self.new.slots ≡ overs_in self.old.slots) }
        ensures slot { OnOk result (HasSlot self.new.slots place.now) }
        ensures kept { (q : Where) → HasSlot self.old.slots q → HasSlot self.new.slots q }
        ensures fault { IsErrOf result DiskFault.Failed →
            Rose (D.faults self.old.below.disk) (D.faults self.new.below.disk)
            ⊎ (IsTrue D.tells → shown_in D.Disk self.old place.now ≡ None) }
        ensures later { D.faults self.old.below.disk ≤ D.faults self.new.below.disk }
        ensures below { LooksBelow D.Disk self.old self.new }
    {
        make_slot(&mut self.slots, place)?;
        match take(&mut self.slots, place) {
            Over::File(file) => Ok(file),
            Over::Gone => {
                put(&mut self.slots, place, Over::Gone);
                Err(DiskFault::Failed)
            }
            Over::Below => match self.below.size(place)? {
                Some(len) => Ok(OverFile::below(self.alloc, place, len)),
                None => Err(DiskFault::Failed),
            },
        }
    }

    pub(crate) fn entries(&mut self, out: &mut Names) -> Result<(), DiskFault>
        ensures sorted { OnOk result (AreSorted out.new) }
        ensures names { OnOk result (IsTrue D.tells → (name : NameValue) →
            Contains out.new name ↔ IsSome (shown_in D.Disk self.old (Entry name))) }
        ensures shown { Shows D.Disk SameFiles self.old self.new }
        ensures fault { IsErrOf result DiskFault.Failed →
            Rose (D.faults self.old.below.disk) (D.faults self.new.below.disk) }
        ensures below { LooksBelow D.Disk self.old self.new }
    {
        self.below.entries(out)?;
        *out = entry_names(self.alloc, out.as_slice(), &self.slots)?;
        Ok(())
    }

    pub(crate) fn doomed(&mut self, out: &mut Numbers) -> Result<(), DiskFault>
        ensures sorted { OnOk result (AreSortedNumbers out.new) }
        ensures numbers { OnOk result (IsTrue D.tells → (number : ℕ) →
            Contains out.new number ↔ IsSome (shown_in D.Disk self.old (Doomed number))) }
        ensures shown { Shows D.Disk SameFiles self.old self.new }
        ensures fault { IsErrOf result DiskFault.Failed →
            Rose (D.faults self.old.below.disk) (D.faults self.new.below.disk) }
        ensures below { LooksBelow D.Disk self.old self.new }
    {
        self.below.doomed(out)?;
        *out = doomed_numbers(self.alloc, out.as_slice(), &self.slots)?;
        Ok(())
    }
}
