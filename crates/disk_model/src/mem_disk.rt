//! A disk in memory.

ghost use Rattle.std.specs.Prelude.{◌≡◌, ◌≤◌, ◌-◌, ◌^◌, ◌↔◌, if◌then◌else◌, length, IfOk, OnOk, OnErr, IsTrue, IsErrOf, MatchBool};
ghost use Rattle.cache_base.specs.Causes.{one_more, CountsFailure, RoseOnce};
ghost use Rattle.disk_theory.specs.Calls.{counted_look, counted_read, no_counts};
ghost use Rattle.disk_theory.specs.declared.disk.DiskFault.TheVariants.{Failed};

use crate::mem_image::{ImageFault, image};
use crate::mem_table::Table;
use cache_base::{Bytes, NoMemory, Numbers};
use disk_theory::{DiskFault, Place};
use std::alloc::Global;

mod calls;

/// A disk in memory, whose calls fail as planned. It tells all that it holds, so that tests and proofs see what a
/// caller of a disk leaves.
#[derive(Drop)]
pub struct MemDisk {
    table: Table,
    calls: u64,
    // Each call above this number fails.
    stop: u64,
    // So do the calls of these numbers.
    planned: Numbers,
    failed_change: u64,
    failed_sync: u64,
    // The number of the last look that failed, or 0.
    failed_look: u64,
    entry_reads: u64,
    syncs: u64,
    // The number of the last sync, or 0.
    last_sync: u64,
    faults: u64,
}

impl MemDisk {
    ghost use Rattle.std.specs.Prelude.{None, [], MatchOption};
    ghost use Rattle.disk_theory.specs.State.{standing, synced_at};
    ghost use Rattle.disk_theory.specs.Sound.{IsQuiet};
    ghost use Rattle.disk_theory.specs.Standing.{PutsContent};
    ghost use Rattle.disk_model.specs.MemImage.{image_of, MayLeave};
    ghost use Rattle.disk_theory.specs.declared.place.Place.{Place as Where};
    ghost use Rattle.disk_model.specs.MemDisk.{state_in, counts_in, faults_in, stop_in, planned_in, look_answer, FailsNext};

    /// A disk on which nothing stands, with no faults planned.
    pub fn new(alloc: Global) -> MemDisk
        ensures quiet { IsQuiet (state_in result) }
        ensures empty { (place : Where) → standing (state_in result) place ≡ None }
        ensures counts { counts_in result ≡ no_counts }
        ensures faults { faults_in result ≡ 0 }
        ensures stop { stop_in result ≡ 2 ^ 64 - 1 }
        ensures planned { planned_in result ≡ [] }
    {
        MemDisk::with(Table::new(alloc))
    }

    /// Puts a synced file at a place, or leaves the disk as it was. This is no call of the disk.
    pub fn put_file(&mut self, place: Place, bytes: Bytes) -> Result<(), NoMemory>
        requires { IsQuiet (state_in self.old) }
        ensures quiet { IsQuiet (state_in self.new) }
        ensures ok { OnOk result
            (PutsContent place (Some bytes) (state_in self.old) (state_in self.new)) }
        ensures err { OnErr result (state_in self.new ≡ state_in self.old) }
        ensures counts { counts_in self.new ≡ counts_in self.old }
        ensures faults { faults_in self.new ≡ faults_in self.old }
        ensures stop { stop_in self.new ≡ stop_in self.old }
        ensures planned { planned_in self.new ≡ planned_in self.old }
    {
        self.table.put(place, bytes.as_slice())?;
        Ok(())
    }

    /// Lets the calls with these numbers fail, from 1 on, and no others but those past a stop.
    pub fn fail_at(&mut self, calls: Numbers)
        ensures planned { planned_in self.new ≡ calls }
        ensures state { state_in self.new ≡ state_in self.old }
        ensures counts { counts_in self.new ≡ counts_in self.old }
        ensures faults { faults_in self.new ≡ faults_in self.old }
        ensures stop { stop_in self.new ≡ stop_in self.old }
    {
        self.planned = calls;
    }

    /// Lets every call with a number above `k` fail: the machine stops within call `k + 1`.
    pub fn stop_after(&mut self, k: u64)
        ensures stop { stop_in self.new ≡ k }
        ensures state { state_in self.new ≡ state_in self.old }
        ensures counts { counts_in self.new ≡ counts_in self.old }
        ensures faults { faults_in self.new ≡ faults_in self.old }
        ensures planned { planned_in self.new ≡ planned_in self.old }
    {
        self.stop = k;
    }

    /// How many calls were made.
    pub fn calls(&self) -> u64
        ensures { result ≡ (counts_in self.now).calls }
    {
        self.calls
    }

    /// What the file at a place holds now, or none where no file stands there.
    pub fn file(&self, place: &Place) -> Option<&[u8]>
        ensures { MatchOption result (standing (state_in self.now) place.now ≡ None) (λ bytes.
            standing (state_in self.now) place.now ≡ Some bytes.now) }
    {
        match self.table.find(place) {
            None => None,
            Some(file) => Some(self.table.content(file)),
        }
    }

    /// What the file at a place held at the last sync, or none where no file stood there then.
    pub fn synced_file(&self, place: &Place) -> Option<&[u8]>
        ensures { MatchOption result (synced_at (state_in self.now) place.now ≡ None) (λ bytes.
            synced_at (state_in self.now) place.now ≡ Some bytes.now) }
    {
        match self.table.find_synced(place) {
            None => None,
            Some(file) => Some(self.table.synced_content(file)),
        }
    }

    /// How many names were made, moved or removed since the last sync.
    pub fn name_steps(&self) -> usize
        ensures { result ≡ length (state_in self.now).steps }
    {
        self.table.steps.len()
    }

    /// The disk that a crash leaves with these contents, with the names after the first `names` name steps since the
    /// last sync: all is synced, no call is counted and no fault planned.
    pub fn image(&self, names: usize, contents: Vec<(Place, Bytes)>) -> Result<MemDisk, ImageFault>
        ensures image { OnOk result (MayLeave (state_in self.now) names contents.items) }
        ensures refused { result ≡ Err ImageFault.NotAnImage →
            ¬ (MayLeave (state_in self.now) names contents.items) }
        ensures stands { IfOk result (λ disk. (place : Where) →
            standing (state_in disk) place ≡ image_of contents.items place) }
        ensures quiet { IfOk result (λ disk. IsQuiet (state_in disk)) }
        ensures counts { IfOk result (λ disk. counts_in disk ≡ no_counts) }
        ensures faults { IfOk result (λ disk. faults_in disk ≡ 0) }
        ensures stop { IfOk result (λ disk. stop_in disk ≡ 2 ^ 64 - 1) }
        ensures planned { IfOk result (λ disk. planned_in disk ≡ []) }
    {
        let table = image(&self.table, names, &contents)?;
        Ok(MemDisk::with(table))
    }

    // A disk with this table, no call counted and no fault planned.
    fn with(table: Table) -> MemDisk
        ensures table { result.table ≡ table }
        ensures counts { counts_in result ≡ no_counts }
        ensures faults { faults_in result ≡ 0 }
        ensures stop { stop_in result ≡ 2 ^ 64 - 1 }
        ensures planned { planned_in result ≡ [] }
    {
        let planned = Numbers::new(table.alloc);
        MemDisk {
            table,
            calls: 0,
            stop: u64::MAX,
            planned,
            failed_change: 0,
            failed_sync: 0,
            failed_look: 0,
            entry_reads: 0,
            syncs: 0,
            last_sync: 0,
            faults: 0,
        }
    }

    // Counts a call, and tells whether it is to fail.
    fn begin(&mut self) -> bool
        ensures fails { IsTrue result ↔ FailsNext self.old }
        ensures rest { self.new ≡ record self.old { calls = one_more self.old.calls } }
    {
        self.calls = self.calls.saturating_add(1);
        self.calls > self.stop || self.planned.has(self.calls)
    }

    // The same of a call that looks at a place. One that fails is counted as a fault.
    fn begin_read(&mut self, place: &Place) -> bool
        ensures fails { IsTrue result ↔ FailsNext self.old }
        ensures table { self.new.table ≡ self.old.table }
        ensures counts { counts_in self.new
            ≡ counted_read (look_answer result) place.now (counts_in self.old) }
        ensures later { self.old.faults ≤ self.new.faults }
        ensures faults { MatchBool result (RoseOnce self.old.faults self.new.faults)
            (self.new.faults ≡ self.old.faults) }
    {
        let fails = self.begin();
        if let Place::Entry(_) = place {
            self.entry_reads = self.entry_reads.saturating_add(1);
        }
        if fails {
            self.faults = self.faults.saturating_add(1);
            self.failed_look = self.calls;
        }
        fails
    }

    // The same of a call that lists names.
    fn begin_list(&mut self) -> bool
        ensures fails { IsTrue result ↔ FailsNext self.old }
        ensures table { self.new.table ≡ self.old.table }
        ensures counts { counts_in self.new ≡ counted_look (look_answer result) (counts_in self.old) }
        ensures later { self.old.faults ≤ self.new.faults }
        ensures faults { MatchBool result (RoseOnce self.old.faults self.new.faults)
            (self.new.faults ≡ self.old.faults) }
    {
        let fails = self.begin();
        if fails {
            self.faults = self.faults.saturating_add(1);
            self.failed_look = self.calls;
        }
        fails
    }

    // Answers a change that is done.
    fn end_change(&mut self, fails: bool) -> Result<(), DiskFault>
        ensures answer { result ≡ (if fails then Err Failed else Ok tt) }
        ensures table { self.new.table ≡ self.old.table }
        ensures calls { self.new.calls ≡ self.old.calls }
        ensures failed_change { self.new.failed_change
            ≡ (if fails then self.old.calls else self.old.failed_change) }
        ensures failed_sync { self.new.failed_sync ≡ self.old.failed_sync }
        ensures failed_look { self.new.failed_look ≡ self.old.failed_look }
        ensures entry_reads { self.new.entry_reads ≡ self.old.entry_reads }
        ensures syncs { self.new.syncs ≡ self.old.syncs }
        ensures last_sync { self.new.last_sync ≡ self.old.last_sync }
        ensures cause { CountsFailure (IsErrOf result DiskFault.Failed) self.old.faults self.new.faults }
    {
        if fails {
            self.failed_change = self.calls;
            self.faults = self.faults.saturating_add(1);
            return Err(DiskFault::Failed);
        }
        Ok(())
    }

    // Counts a sync that fails.
    fn fail_sync(&mut self)
        ensures table { self.new.table ≡ self.old.table }
        ensures calls { self.new.calls ≡ self.old.calls }
        ensures failed_change { self.new.failed_change ≡ self.old.failed_change }
        ensures failed_sync { self.new.failed_sync ≡ self.old.calls }
        ensures failed_look { self.new.failed_look ≡ self.old.failed_look }
        ensures entry_reads { self.new.entry_reads ≡ self.old.entry_reads }
        ensures syncs { self.new.syncs ≡ self.old.syncs }
        ensures last_sync { self.new.last_sync ≡ self.old.last_sync }
        ensures later { self.old.faults ≤ self.new.faults }
        ensures rose { RoseOnce self.old.faults self.new.faults }
    {
        self.failed_sync = self.calls;
        self.faults = self.faults.saturating_add(1);
    }
}
