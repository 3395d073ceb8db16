//! The calls of a disk in memory.

ghost use Rattle.std.specs.Prelude.{◌≡◌, ◌≢◌, ◌≤◌, ◌^◌, ◌↔◌, ◌++◌, true, length, take, drop, IfOk, OnOk, IsSome, IsErrOf};
ghost use Rattle.std.specs.Option.{option_map};
ghost use Rattle.cache_base.specs.Causes.{CountsFailure};
ghost use Rattle.cache_base.specs.Names.{AreSorted};
ghost use Rattle.disk_theory.specs.Calls.{counted_change, counted_look, counted_read, counted_sync, if_ok, if_done, MayWriteAt, HoldsPart};

use super::MemDisk;
use cache_base::{Names, Numbers};
use disk_theory::{Disk, DiskFault, Place};

impl Disk for MemDisk {
    ghost use Rattle.disk_theory.specs.State.{standing, part_of, created, renamed, removed, wrote, settled};
    ghost use Rattle.disk_theory.specs.State.Write.{End, Patch};
    ghost use Rattle.disk_theory.specs.Listing.{AreEntries, AreDoomed, AreSortedNumbers};
    ghost use Rattle.disk_model.specs.MemDisk.{state_in, counts_in, faults_in, FailsNext};
    ghost use Rattle.disk_model.specs.MemFinite.{finite_in};

    ghost tells = { true };

    ghost state = { state_in };

    ghost counts = { counts_in };

    ghost faults = { faults_in };

    ghost sound = { λ d _. d.table.sound };

    ghost finite = { λ d _. finite_in d };

    fn sync(&mut self) -> Result<(), DiskFault>
        ensures state { state_in self.new
            ≡ if_ok result (settled (state_in self.old)) (state_in self.old) }
        ensures counts { counts_in self.new ≡ counted_sync result (counts_in self.old) }
        ensures cause { CountsFailure (IsErrOf result DiskFault.Failed)
            (faults_in self.old) (faults_in self.new) }
        ensures fails { IsErrOf result DiskFault.Failed → FailsNext self.old }
        ensures done { OnOk result (¬ (FailsNext self.old)) }
    {
        self.syncs = self.syncs.saturating_add(1);
        let fails = self.begin();
        self.last_sync = self.calls;
        if fails {
            self.fail_sync();
            return Err(DiskFault::Failed);
        }
        self.table.sync();
        Ok(())
    }

    fn size(&mut self, place: &Place) -> Result<Option<u64>, DiskFault>
        ensures size { IfOk result (λ size.
            size ≡ option_map length (standing (state_in self.old) place.now)) }
        ensures state { state_in self.new ≡ state_in self.old }
        ensures counts { counts_in self.new ≡ counted_read result place.now (counts_in self.old) }
        ensures cause { CountsFailure (IsErrOf result DiskFault.Failed)
            (faults_in self.old) (faults_in self.new) }
        ensures fails { IsErrOf result DiskFault.Failed ↔ FailsNext self.old }
    {
        if self.begin_read(place) {
            return Err(DiskFault::Failed);
        }
        match self.table.find(place) {
            None => Ok(None),
            Some(file) => Ok(Some(self.table.content(file).len() as u64)),
        }
    }

    fn read(&mut self, place: &Place, from: u64, buf: &mut [u8]) -> Result<usize, DiskFault>
        ensures len { IfOk result (λ n. n ≤ length buf.old) }
        ensures bytes { IfOk result (λ n.
            let part = part_of from (length buf.old) (standing (state_in self.old) place.now) in
            (n ≡ length part) × (buf.new ≡ part ++ drop n buf.old)) }
        ensures state { state_in self.new ≡ state_in self.old }
        ensures counts { counts_in self.new ≡ counted_read result place.now (counts_in self.old) }
        ensures cause { CountsFailure (IsErrOf result DiskFault.Failed)
            (faults_in self.old) (faults_in self.new) }
        ensures fails { IsErrOf result DiskFault.Failed ↔ FailsNext self.old }
    {
        if self.begin_read(place) {
            return Err(DiskFault::Failed);
        }
        match self.table.find(place) {
            None => Ok(0),
            Some(file) => Ok(copy_part(self.table.content(file), from, buf)),
        }
    }

    fn create(&mut self, place: &Place) -> Result<(), DiskFault>
        ensures state { state_in self.new
            ≡ if_done result (created place.now (state_in self.old)) (state_in self.old) }
        ensures counts { counts_in self.new ≡ counted_change result (counts_in self.old) }
        ensures cause { CountsFailure (IsErrOf result DiskFault.Failed)
            (faults_in self.old) (faults_in self.new) }
        ensures fails { IsErrOf result DiskFault.Failed → FailsNext self.old }
        ensures done { OnOk result (¬ (FailsNext self.old)) }
    {
        let fails = self.begin();
        self.table.create(*place)?;
        self.end_change(fails)
    }

    fn write_end(&mut self, place: &Place, from: u64, bytes: &[u8]) -> Result<(), DiskFault>
        requires limit { from ≤ 2 ^ 40 }
        requires told { MayWriteAt (standing (state_in self.old) place.now) from }
        ensures state { state_in self.new ≡ if_done result
            (wrote place.now (End from bytes.now) (state_in self.old)) (state_in self.old) }
        ensures counts { counts_in self.new ≡ counted_change result (counts_in self.old) }
        ensures cause { CountsFailure (IsErrOf result DiskFault.Failed)
            (faults_in self.old) (faults_in self.new) }
        ensures fails { IsErrOf result DiskFault.Failed → FailsNext self.old }
        ensures done { OnOk result (¬ (FailsNext self.old)) }
    {
        let fails = self.begin();
        match self.table.find(place) {
            None => unreachable!(),
            Some(file) => self.table.write_end(file, from as usize, bytes)?,
        }
        self.end_change(fails)
    }

    fn patch(&mut self, place: &Place, from: u64, bytes: &[u8]) -> Result<(), DiskFault>
        requires limit { from ≤ 2 ^ 40 }
        requires told { HoldsPart (standing (state_in self.old) place.now) from (length bytes.now) }
        ensures state { state_in self.new ≡ if_done result
            (wrote place.now (Patch from bytes.now) (state_in self.old)) (state_in self.old) }
        ensures counts { counts_in self.new ≡ counted_change result (counts_in self.old) }
        ensures cause { CountsFailure (IsErrOf result DiskFault.Failed)
            (faults_in self.old) (faults_in self.new) }
        ensures fails { IsErrOf result DiskFault.Failed → FailsNext self.old }
        ensures done { OnOk result (¬ (FailsNext self.old)) }
    {
        let fails = self.begin();
        match self.table.find(place) {
            None => unreachable!(),
            Some(file) => self.table.patch(file, from as usize, bytes)?,
        }
        self.end_change(fails)
    }

    fn rename(&mut self, from: &Place, to: &Place) -> Result<(), DiskFault>
        requires stands { IsSome (standing (state_in self.old) from.now) }
        requires differ { from.now ≢ to.now }
        ensures state { state_in self.new
            ≡ if_done result (renamed from.now to.now (state_in self.old)) (state_in self.old) }
        ensures counts { counts_in self.new ≡ counted_change result (counts_in self.old) }
        ensures cause { CountsFailure (IsErrOf result DiskFault.Failed)
            (faults_in self.old) (faults_in self.new) }
        ensures fails { IsErrOf result DiskFault.Failed → FailsNext self.old }
        ensures done { OnOk result (¬ (FailsNext self.old)) }
    {
        let fails = self.begin();
        self.table.rename(*from, *to)?;
        self.end_change(fails)
    }

    fn remove(&mut self, place: &Place) -> Result<(), DiskFault>
        requires { IsSome (standing (state_in self.old) place.now) }
        ensures state { state_in self.new
            ≡ if_done result (removed place.now (state_in self.old)) (state_in self.old) }
        ensures counts { counts_in self.new ≡ counted_change result (counts_in self.old) }
        ensures cause { CountsFailure (IsErrOf result DiskFault.Failed)
            (faults_in self.old) (faults_in self.new) }
        ensures fails { IsErrOf result DiskFault.Failed → FailsNext self.old }
        ensures done { OnOk result (¬ (FailsNext self.old)) }
    {
        let fails = self.begin();
        self.table.remove(*place)?;
        self.end_change(fails)
    }

    fn entries(&mut self, out: &mut Names) -> Result<(), DiskFault>
        ensures sorted { OnOk result (AreSorted out.new) }
        ensures names { OnOk result (AreEntries (state_in self.old) out.new) }
        ensures state { state_in self.new ≡ state_in self.old }
        ensures counts { counts_in self.new ≡ counted_look result (counts_in self.old) }
        ensures cause { CountsFailure (IsErrOf result DiskFault.Failed)
            (faults_in self.old) (faults_in self.new) }
        ensures fails { IsErrOf result DiskFault.Failed → FailsNext self.old }
        ensures done { OnOk result (¬ (FailsNext self.old)) }
    {
        if self.begin_list() {
            return Err(DiskFault::Failed);
        }
        *out = self.table.entries()?;
        Ok(())
    }

    fn doomed(&mut self, out: &mut Numbers) -> Result<(), DiskFault>
        ensures sorted { OnOk result (AreSortedNumbers out.new) }
        ensures numbers { OnOk result (AreDoomed (state_in self.old) out.new) }
        ensures state { state_in self.new ≡ state_in self.old }
        ensures counts { counts_in self.new ≡ counted_look result (counts_in self.old) }
        ensures cause { CountsFailure (IsErrOf result DiskFault.Failed)
            (faults_in self.old) (faults_in self.new) }
        ensures fails { IsErrOf result DiskFault.Failed → FailsNext self.old }
        ensures done { OnOk result (¬ (FailsNext self.old)) }
    {
        if self.begin_list() {
            return Err(DiskFault::Failed);
        }
        *out = self.table.doomed()?;
        Ok(())
    }
}

// Fills the buffer's beginning from `from` on.
fn copy_part(content: &[u8], from: u64, buf: &mut [u8]) -> usize
    ensures len { result ≡ length (take (length buf.old) (drop from content.now)) }
    ensures bytes { buf.new ≡ take (length buf.old) (drop from content.now) ++ drop result buf.old }
{
    if from >= content.len() as u64 {
        return 0;
    }
    let rest = &content[from as usize..];
    if rest.len() < buf.len() {
        buf[..rest.len()].copy_from_slice(rest);
        rest.len()
    } else {
        buf.copy_from_slice(&rest[..buf.len()]);
        buf.len()
    }
}
