// The names and files of a disk in memory.

ghost use Rattle.std.specs.Prelude.{◌≡◌, ◌≤◌, ◌<◌, ◌+◌, ℕ, OnOk, OnErr, IfOk, IfSome, length, reverse, None, Some};
ghost use Rattle.disk_theory.specs.State.{names_after, with_file};
ghost use Rattle.disk_theory.specs.Sound.{IsSound};
ghost use Rattle.disk_model.specs.MemFile.{nth_file, at_rest};
ghost use Rattle.disk_model.specs.MemSlots.{names_in, synced_names_in};
ghost use Rattle.disk_model.specs.MemState.{state_from, stepped, ArePending};

use crate::mem_file::MemFile;
use crate::mem_listing::{doomed_numbers, entry_names};
use crate::mem_slots::{
    Slot, file_at, make_slot, make_slots, put_file, settle_names, synced_at, take_step,
};
use cache_base::{Names, NoMemory, Numbers};
use disk_theory::{NameStep, Place};
use std::alloc::{AllocError, Global};
use std::collections::BTreeMap;

/// The names at the last sync and now, and the name steps between them, the oldest first; all files ever made, by
/// number, and the numbers of those that may have writes since the sync.
#[derive(Drop)]
pub(crate) struct Table {
    pub alloc: Global,
    pub slots: BTreeMap<Place, Slot>,
    pub steps: Vec<NameStep>,
    pub files: Vec<MemFile>,
    pub written: Vec<usize>,
    ghost names: { names_in slots ≡ names_after (synced_names_in slots) (reverse steps.items) },
    ghost pending: { ArePending files.items written.items },
    ghost sound: { IsSound (state_from slots steps.items files.items) },
}

// What the file of this number holds now is synced.
fn settle_file(files: &mut [MemFile], number: usize)
    ensures len { length files.new ≡ length files.old }
    ensures files { nth_file files.new
        ≡ with_file number (at_rest (nth_file files.old number)) (nth_file files.old) }
{
    if number < files.len() {
        files[number].settle();
    }
}

// What these files hold now is synced.
fn settle_files(files: &mut [MemFile], written: &[usize])
    requires { ArePending files.old written.now }
    ensures len { length files.new ≡ length files.old }
    ensures files { (k : ℕ) → nth_file files.new k ≡ at_rest (nth_file files.old k) }
{
    for number in written {
        settle_file(files, *number);
    }
}

impl Table {
    ghost use Rattle.disk_theory.specs.State.{names_now, content, standing, created, renamed, removed, settled, written_to};
    ghost use Rattle.cache_base.specs.Names.{AreSorted};
    ghost use Rattle.disk_theory.specs.Listing.{AreEntries, AreDoomed, AreSortedNumbers};
    ghost use Rattle.disk_theory.specs.Standing.{PutsContent};
    ghost use Rattle.disk_theory.specs.State.Write.{End, Patch};
    ghost use Rattle.disk_theory.specs.Sound.{IsQuiet};
    ghost use Rattle.disk_theory.specs.declared.place.Place.{Place as Where};
    ghost use Rattle.disk_model.specs.MemTable.{state_of};

    /// A table in which no file stands anywhere, with nothing pending.
    pub fn new(alloc: Global) -> Table
        ensures quiet { IsQuiet (state_of result) }
        ensures empty { (p : Where) → standing (state_of result) p ≡ None }
    {
        Table {
            alloc,
            slots: BTreeMap::new(alloc),
            steps: Vec::new(alloc),
            files: Vec::new(alloc),
            written: Vec::new(alloc),
        }
    }

    /// The file that stands at a place.
    pub fn find(&self, place: &Place) -> Option<usize>
        ensures at { result ≡ names_now (state_of self.now) place.now }
        ensures made { IfSome result (λ file. file < length self.now.files.items) }
    {
        file_at(&self.slots, place)
    }

    /// The file that stood at a place at the last sync.
    pub fn find_synced(&self, place: &Place) -> Option<usize>
        ensures at { result ≡ (state_of self.now).names place.now }
        ensures made { IfSome result (λ file. file < length self.now.files.items) }
    {
        synced_at(&self.slots, place)
    }

    // One name step more.
    fn step(&mut self, step: NameStep) -> Result<(), AllocError>
        requires { IsSound (stepped step (state_of self.old)) }
        ensures ok { OnOk result (state_of self.new ≡ stepped step (state_of self.old)) }
        ensures err { OnErr result (state_of self.new ≡ state_of self.old) }
    {
        make_slots(&mut self.slots, &step)?;
        self.steps.reserve(1)?;
        take_step(&mut self.slots, &step);
        self.steps.push_reserved(step);
        Ok(())
    }

    /// No file stands at the place any more.
    pub fn remove(&mut self, place: Place) -> Result<(), AllocError>
        ensures ok { OnOk result (state_of self.new ≡ removed place (state_of self.old)) }
        ensures err { OnErr result (state_of self.new ≡ state_of self.old) }
    {
        self.step(NameStep::Remove(place))
    }

    /// The file of the first place takes the second.
    pub fn rename(&mut self, from: Place, to: Place) -> Result<(), AllocError>
        ensures ok { OnOk result (state_of self.new ≡ renamed from to (state_of self.old)) }
        ensures err { OnErr result (state_of self.new ≡ state_of self.old) }
    {
        self.step(NameStep::Rename(from, to))
    }

    /// A new empty file takes the place.
    pub fn create(&mut self, place: Place) -> Result<(), AllocError>
        ensures ok { OnOk result (state_of self.new ≡ created place (state_of self.old)) }
        ensures err { OnErr result (state_of self.new ≡ state_of self.old) }
    {
        let number = self.files.len();
        let step = NameStep::Create(place, number);
        make_slots(&mut self.slots, &step)?;
        self.steps.reserve(1)?;
        self.files.push(MemFile::new(self.alloc))?;
        take_step(&mut self.slots, &step);
        self.steps.push_reserved(step);
        Ok(())
    }

    /// A synced file takes the place.
    pub fn put(&mut self, place: Place, bytes: &[u8]) -> Result<(), AllocError>
        requires { IsQuiet (state_of self.old) }
        ensures quiet { IsQuiet (state_of self.new) }
        ensures ok { OnOk result
            (PutsContent place (Some bytes.now) (state_of self.old) (state_of self.new)) }
        ensures err { OnErr result (state_of self.new ≡ state_of self.old) }
    {
        let file = MemFile::synced(self.alloc, bytes)?;
        make_slot(&mut self.slots, &place)?;
        let number = self.files.len();
        self.files.push(file)?;
        put_file(&mut self.slots, &place, number);
        Ok(())
    }

    /// The names under which entry files stand.
    pub fn entries(&self) -> Result<Names, NoMemory>
        ensures sorted { IfOk result AreSorted }
        ensures names { IfOk result (AreEntries (state_of self.now)) }
    {
        entry_names(self.alloc, &self.slots)
    }

    /// The numbers under which files of doomed entries stand.
    pub fn doomed(&self) -> Result<Numbers, NoMemory>
        ensures sorted { IfOk result AreSortedNumbers }
        ensures numbers { IfOk result (AreDoomed (state_of self.now)) }
    {
        doomed_numbers(self.alloc, &self.slots)
    }

    /// The content of a file.
    pub fn content(&self, file: usize) -> &[u8]
        requires { file < length self.now.files.items }
        ensures { result.now ≡ content ((state_of self.now).files file) }
    {
        &self.files[file].current
    }

    /// The content of a file at the last sync.
    pub fn synced_content(&self, file: usize) -> &[u8]
        requires { file < length self.now.files.items }
        ensures { result.now ≡ ((state_of self.now).files file).synced }
    {
        self.files[file].synced_bytes()
    }

    /// Writes the bytes at an offset of a file, which then ends after them.
    pub fn write_end(&mut self, file: usize, from: usize, bytes: &[u8]) -> Result<(), AllocError>
        requires stands { file < length self.old.files.items }
        requires inside { from ≤ length (content ((state_of self.old).files file)) }
        ensures ok { OnOk result
            (state_of self.new ≡ written_to file (End from bytes.now) (state_of self.old)) }
        ensures err { OnErr result (state_of self.new ≡ state_of self.old) }
    {
        self.written.push(file)?;
        self.files[file].write_end(self.alloc, from, bytes)
    }

    /// Writes the bytes inside a file, whose length stays.
    pub fn patch(&mut self, file: usize, from: usize, bytes: &[u8]) -> Result<(), AllocError>
        requires stands { file < length self.old.files.items }
        requires inside { from + length bytes.now
            ≤ length (content ((state_of self.old).files file)) }
        ensures ok { OnOk result
            (state_of self.new ≡ written_to file (Patch from bytes.now) (state_of self.old)) }
        ensures err { OnErr result (state_of self.new ≡ state_of self.old) }
    {
        self.written.push(file)?;
        self.files[file].patch(self.alloc, from, bytes)
    }

    /// What stands now is synced. The work goes by the steps and writes since the last sync.
    pub fn sync(&mut self)
        ensures { state_of self.new ≡ settled (state_of self.old) }
    {
        settle_names(&mut self.slots, &self.steps);
        settle_files(&mut self.files, &self.written);
        self.steps.clear();
        self.written.clear();
    }
}
