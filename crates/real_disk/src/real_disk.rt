//! A folder of the machine as a disk.

ghost use Rattle.std.specs.Prelude.{◌≡◌, IfOk, OnOk, OnErr, IsErr, IsErrOf, false};
ghost use Rattle.cache_base.specs.Causes.{CountsFailure};
ghost use Rattle.disk_theory.specs.Calls.{no_counts};
ghost use Rattle.disk_theory.specs.Silent.{nothing, never, never_finite};

use crate::folder::Folder;
use cache_base::{Names, Numbers};
use disk_theory::{Disk, DiskFault, Place};
use machine_files::{Machine, rising};
use std::fs::File;
use std::io::{self, ErrorKind};
use std::rt::{Clock, Files};

/// A folder of the machine, with the folders `entries` and `doomed` and the files of the index in it.
///
/// The folder, and those above it, are made with the first file. Folders are made with the mode 0700 and files with
/// 0600. Files with other names are left alone, and so is what is no regular file, as a folder or a link: it is not
/// listed, and at a place each call that asks for its size, reads or writes fails.
///
/// A process that was killed may have left changes that wait in the system's memory. So the first sync also covers
/// every file that stands and every folder, unless the index tells that the cache was closed, or an earlier process has
/// left the note, the file `synced`, that all was synced. A change takes the note away.
///
/// What stands at a place is looked at before it is opened and once more when it is open. So a link that was put there
/// is not followed, and a pipe is not waited for.
///
/// A read of bytes that the file does not have fails: who asks for them was told a size that had them. At `clear` alone,
/// where a mark may be shorter or missing, fewer bytes are read, or none.
///
/// One run at a time has the folder. The first call asks for its lock, for some ten seconds where another run has it, and
/// fails then, having touched nothing. The lock is held until the disk is dropped or the process ends. Where the file
/// system has no locks the run goes on without.
///
/// Each call that fails raises the count of faults by one. Where the system has no memory the call answers so, and
/// no fault is counted. Contracts are told nothing of what the folder holds, but that after a sync no change waits.
#[derive(Drop)]
pub struct RealDisk<'a, R: Files + AllocGlobal> {
    folder: Folder<'a, R>,
    faults: u64,
}

impl<'a, R: Machine<File = File> + AllocGlobal + Clock + Clone + Drop> RealDisk<'a, R> {
    ghost use Rattle.real_disk.specs.Handed.{KeepsAllOpen};

    /// Makes no call of the machine.
    pub fn new(rt: &'a R, dir: String) -> Self
        ensures faults { ⟦<RealDisk<'a, R> as Disk>⟧.faults result ≡ 0 }
    {
        RealDisk {
            folder: Folder::new(rt, dir),
            faults: 0,
        }
    }

    /// The last call. Where all that stands is synced and the cache was not closed, it leaves a note of that, so that
    /// the next process does not sync it all again. Nothing is told of whether it could.
    pub fn leave(&mut self)
        ensures kept { KeepsAllOpen self.old self.new }
        ensures faults { let f = ⟦<RealDisk<'a, R> as Disk>⟧.faults in f self.new ≡ f self.old }
    {
        self.folder.leave_note();
    }
}

impl<R: Files + AllocGlobal> RealDisk<'_, R> {
    // The answer of a call. Here alone a failure is counted.
    fn answer<T>(&mut self, outcome: io::Result<T>) -> Result<T, DiskFault>
        ensures value { IfOk result (λ value. outcome ≡ Ok value) }
        ensures failed { OnErr result (IsErr outcome) }
        ensures folder { self.new.folder ≡ self.old.folder }
        ensures cause { CountsFailure (IsErrOf result DiskFault.Failed) self.old.faults self.new.faults }
    {
        match outcome {
            Ok(value) => Ok(value),
            Err(error) if error.kind() == ErrorKind::OutOfMemory => Err(DiskFault::Memory),
            Err(_) => {
                self.faults = self.faults.saturating_add(1);
                Err(DiskFault::Failed)
            }
        }
    }
}

impl<R: Machine<File = File> + AllocGlobal + Clock + Clone + Drop> Disk for RealDisk<'_, R> {
    ghost use Rattle.std.specs.Prelude.{IsSome, IsTrue, ◌≢◌, ◌≤◌, ◌^◌, ◌++◌, length, take, drop};
    ghost use Rattle.std.specs.Option.{option_map};
    ghost use Rattle.disk_theory.specs.State.{settled};
    ghost use Rattle.disk_theory.specs.Calls.{if_ok, counted_look, counted_read, counted_sync, HoldsPart, MayWriteAt};
    ghost use Rattle.cache_base.specs.Names.{AreSorted};
    ghost use Rattle.disk_theory.specs.Listing.{AreDoomed, AreEntries, AreSortedNumbers};
    ghost use Rattle.disk_theory.specs.declared.place.Place.TheVariants.{Clear};
    ghost use Rattle.disk_theory.specs.State.{created, part_of, removed, renamed, standing, wrote};
    ghost use Rattle.disk_theory.specs.State.Write.{End, Patch};
    ghost use Rattle.disk_theory.specs.Calls.{counted_change, if_done};
    ghost use Rattle.real_disk.specs.Handed.{ClosesIdle, CreatesAt, EndsKept, KeepsAllOpen, KeepsElsewhere, KeepsOrCloses, KeepsOthersOpen, KeepsOwnFile, KeepsSameFiles, PatchesKept, ReadsKept, RemovesAt, RenamesTo, ToldAt};
    ghost use Rattle.real_disk.specs.Pending.{NothingPending};

    ghost tells = { false };

    ghost state = { λ _. nothing };

    ghost counts = { λ _. no_counts };

    ghost faults = { λ d. d.faults };

    ghost sound = { λ _ told. never told };

    ghost finite = { λ _ told. never_finite told };

    fn sync(&mut self) -> Result<(), DiskFault>
        ensures synced { OnOk result (NothingPending self.new) }
        ensures files { KeepsSameFiles self.old self.new }
        ensures state { IsTrue false → nothing ≡ if_ok result (settled nothing) nothing }
        ensures counts { IsTrue false → no_counts ≡ counted_sync result no_counts }
        ensures cause { CountsFailure (IsErrOf result DiskFault.Failed) self.old.faults self.new.faults }
    {
        let outcome = self.folder.sync();
        self.answer(outcome)
    }

    fn size(&mut self, place: &Place) -> Result<Option<u64>, DiskFault>
        ensures told { IfOk result (ToldAt R.Machine place.now self.old) }
        ensures failed { OnErr result (KeepsAllOpen self.old self.new) }
        ensures own { KeepsOwnFile R.Machine place.now self.old self.new }
        ensures others { ClosesIdle place.now self.old self.new }
        ensures size { IfOk result (λ size. IsTrue false →
            size ≡ option_map length (standing nothing place.now)) }
        ensures state { IsTrue false → nothing ≡ nothing }
        ensures counts { IsTrue false → no_counts ≡ counted_read result place.now no_counts }
        ensures cause { CountsFailure (IsErrOf result DiskFault.Failed) self.old.faults self.new.faults }
    {
        let outcome = self.folder.size(place);
        self.answer(outcome)
    }

    fn read(&mut self, place: &Place, from: u64, buf: &mut [u8]) -> Result<usize, DiskFault>
        ensures used { IfOk result (λ n.
            ReadsKept R.Machine place.now from (take n buf.new) self.old self.new) }
        ensures own { KeepsOwnFile R.Machine place.now self.old self.new }
        ensures others { ClosesIdle place.now self.old self.new }
        ensures whole { place.now ≢ Clear → IfOk result (λ n. n ≡ length buf.old) }
        ensures len { IfOk result (λ n. n ≤ length buf.old) }
        ensures bytes { IfOk result (λ n. IsTrue false →
            let part = part_of from (length buf.old) (standing nothing place.now) in
            (n ≡ length part) × (buf.new ≡ part ++ drop n buf.old)) }
        ensures state { IsTrue false → nothing ≡ nothing }
        ensures counts { IsTrue false → no_counts ≡ counted_read result place.now no_counts }
        ensures cause { CountsFailure (IsErrOf result DiskFault.Failed) self.old.faults self.new.faults }
    {
        let outcome = self.folder.read(place, from, buf);
        self.answer(outcome)
    }

    fn create(&mut self, place: &Place) -> Result<(), DiskFault>
        ensures made { OnOk result (CreatesAt R.Machine place.now self.old self.new) }
        ensures failed { OnErr result (KeepsOrCloses place.now self.old self.new) }
        ensures others { KeepsElsewhere R.Machine place.now self.old self.new }
        ensures state { IsTrue false →
            nothing ≡ if_done result (created place.now nothing) nothing }
        ensures counts { IsTrue false → no_counts ≡ counted_change result no_counts }
        ensures cause { CountsFailure (IsErrOf result DiskFault.Failed) self.old.faults self.new.faults }
    {
        let outcome = self.folder.create(place);
        self.answer(outcome)
    }

    fn write_end(&mut self, place: &Place, from: u64, bytes: &[u8]) -> Result<(), DiskFault>
        requires limit { from ≤ 2 ^ 40 }
        requires told { IsTrue false → MayWriteAt (standing nothing place.now) from }
        ensures used { OnOk result (EndsKept R.Machine place.now from bytes.now self.old self.new) }
        ensures own { KeepsOwnFile R.Machine place.now self.old self.new }
        ensures others { KeepsElsewhere R.Machine place.now self.old self.new }
        ensures state { IsTrue false → nothing
            ≡ if_done result (wrote place.now (End from bytes.now) nothing) nothing }
        ensures counts { IsTrue false → no_counts ≡ counted_change result no_counts }
        ensures cause { CountsFailure (IsErrOf result DiskFault.Failed) self.old.faults self.new.faults }
    {
        let outcome = self.folder.write_end(place, from, bytes);
        self.answer(outcome)
    }

    fn patch(&mut self, place: &Place, from: u64, bytes: &[u8]) -> Result<(), DiskFault>
        requires limit { from ≤ 2 ^ 40 }
        requires told { IsTrue false → HoldsPart (standing nothing place.now) from
            (length bytes.now) }
        ensures used { OnOk result
            (PatchesKept R.Machine place.now from bytes.now self.old self.new) }
        ensures own { KeepsOwnFile R.Machine place.now self.old self.new }
        ensures others { KeepsElsewhere R.Machine place.now self.old self.new }
        ensures state { IsTrue false → nothing
            ≡ if_done result (wrote place.now (Patch from bytes.now) nothing) nothing }
        ensures counts { IsTrue false → no_counts ≡ counted_change result no_counts }
        ensures cause { CountsFailure (IsErrOf result DiskFault.Failed) self.old.faults self.new.faults }
    {
        let outcome = self.folder.patch(place, from, bytes);
        self.answer(outcome)
    }

    fn rename(&mut self, from: &Place, to: &Place) -> Result<(), DiskFault>
        requires stands { IsTrue false → IsSome (standing nothing from.now) }
        requires differ { IsTrue false → from.now ≢ to.now }
        ensures renamed { OnOk result (RenamesTo R.Machine from.now to.now self.old self.new) }
        ensures failed { OnErr result (KeepsAllOpen self.old self.new) }
        ensures state { IsTrue false →
            nothing ≡ if_done result (renamed from.now to.now nothing) nothing }
        ensures counts { IsTrue false → no_counts ≡ counted_change result no_counts }
        ensures cause { CountsFailure (IsErrOf result DiskFault.Failed) self.old.faults self.new.faults }
    {
        let outcome = self.folder.rename(from, to);
        self.answer(outcome)
    }

    fn remove(&mut self, place: &Place) -> Result<(), DiskFault>
        requires { IsTrue false → IsSome (standing nothing place.now) }
        ensures removed { OnOk result (RemovesAt R.Machine place.now self.old self.new) }
        ensures failed { OnErr result (KeepsOrCloses place.now self.old self.new) }
        ensures others { KeepsOthersOpen place.now self.old self.new }
        ensures state { IsTrue false →
            nothing ≡ if_done result (removed place.now nothing) nothing }
        ensures counts { IsTrue false → no_counts ≡ counted_change result no_counts }
        ensures cause { CountsFailure (IsErrOf result DiskFault.Failed) self.old.faults self.new.faults }
    {
        let outcome = self.folder.remove(place);
        self.answer(outcome)
    }

    fn entries(&mut self, out: &mut Names) -> Result<(), DiskFault>
        ensures kept { KeepsAllOpen self.old self.new }
        ensures sorted { OnOk result (AreSorted out.new) }
        ensures names { OnOk result (IsTrue false → AreEntries nothing out.new) }
        ensures state { IsTrue false → nothing ≡ nothing }
        ensures counts { IsTrue false → no_counts ≡ counted_look result no_counts }
        ensures cause { CountsFailure (IsErrOf result DiskFault.Failed) self.old.faults self.new.faults }
    {
        let outcome = self.folder.entries();
        let names = self.answer(outcome)?;
        *out = rising(self.folder.alloc(), names)?;
        Ok(())
    }

    fn doomed(&mut self, out: &mut Numbers) -> Result<(), DiskFault>
        ensures kept { KeepsAllOpen self.old self.new }
        ensures sorted { OnOk result (AreSortedNumbers out.new) }
        ensures numbers { OnOk result (IsTrue false → AreDoomed nothing out.new) }
        ensures state { IsTrue false → nothing ≡ nothing }
        ensures counts { IsTrue false → no_counts ≡ counted_look result no_counts }
        ensures cause { CountsFailure (IsErrOf result DiskFault.Failed) self.old.faults self.new.faults }
    {
        let outcome = self.folder.doomed();
        let numbers = self.answer(outcome)?;
        *out = rising(self.folder.alloc(), numbers)?;
        Ok(())
    }
}
