//! The names that an update has still to read.

ghost use Rattle.std.specs.Prelude.{◌≡◌, ◌≢◌, ◌↔◌, [], IfOk, IsTrue, OnErr, OnOk, drop, length, take};
ghost use Rattle.cache_base.specs.Names.{AreSorted, has_name};
ghost use Rattle.disk_theory.specs.Account.{Looks, ending};
ghost use Rattle.disk_theory.specs.Calls.{counted_look};
ghost use Rattle.disk_theory.specs.Listing.{AreEntries};
ghost use Rattle.index_map.specs.Known.{SameBase};
ghost use Rattle.index_theory.specs.Ever.{entries_on};
ghost use Rattle.index_update.specs.Reads.{ReadsSome};
ghost use Rattle.index_update.specs.Rest.{without};
ghost use Rattle.index_update.specs.Slices.{LooksAtNames, ReadsSlice};
ghost use Rattle.index_update.specs.Tells.{GoesOnTelling};

use crate::entry_records::read_each;
use crate::names::{first_of, take_off};
use cache_base::{Name, Names, NoMemory, name_set};
use disk_theory::{Disk, DiskFault};
use index_map::RecordMap;
use std::alloc::Global;
use std::collections::BTreeSet;
use std::marker::Model;

/// An update of the index: its rest, which is the names of the entries that it has still to read, in name order. It has
/// ended when none is left.
#[derive(Drop)]
pub struct Update {
    names: BTreeSet<Name>,
    alloc: Global,
}

impl Model for Update {
    ghost use Rattle.std.specs.Prelude.{List};
    ghost use Rattle.cache_base.specs.declared.name.Name.{Name as AName};

    ghost Value = { List AName };

    ghost view = { λ u. u.names.keys };
}

// With an empty rest, takes the records out that were not seen.
fn end(names: &BTreeSet<Name>, map: &mut RecordMap)
    ensures ended { names.now.keys ≡ [] → map.new ≡ record map.old { records = map.old.seen } }
    ensures goes_on { names.now.keys ≢ [] → map.new ≡ map.old }
    ensures seen { map.new.seen ≡ map.old.seen }
    ensures base { map.new.base ≡ map.old.base }
    ensures has_base { map.new.has_base ≡ map.old.has_base }
{
    if names.is_empty() {
        map.drop_unseen();
    }
}

impl Update {
    /// An update that has ended.
    pub fn none(alloc: Global) -> Update
        ensures { result ≡ [] }
    {
        Update {
            names: BTreeSet::new(alloc),
            alloc,
        }
    }

    /// An update whose rest is the names of all entries.
    pub fn begin<D: Disk>(alloc: Global, disk: &mut D) -> Result<Update, DiskFault>
        ensures rest { IfOk result (λ update. IsTrue D.tells →
            AreEntries (D.state disk.old) update) }
        ensures sorted { IfOk result (λ update. AreSorted update) }
        ensures counts { IsTrue D.tells → D.counts disk.new ≡ counted_look result
            (D.counts disk.old) }
        ensures looks { Looks D.Disk (ending result) disk.old disk.new }
    {
        let mut listed = Names::new(alloc);
        disk.entries(&mut listed)?;
        Ok(Update {
            names: name_set(alloc, listed.as_slice())?,
            alloc,
        })
    }

    // Reads the first n names of the rest, or all.
    fn read_first<D: Disk>(
        &mut self,
        disk: &mut D,
        n: usize,
        map: &mut RecordMap,
    ) -> Result<(), DiskFault>
        ensures rest { OnOk result (self.new ≡ drop n self.old) }
        ensures kept { OnErr result (self.new ≡ self.old) }
        ensures slice { let es = entries_on (D.state disk.old) in OnOk result (IsTrue D.tells →
            ReadsSlice es (take n self.old) self.old self.new map.old map.new) }
        ensures ended { OnOk result (self.new ≡ [] → map.new.records ≡ map.new.seen) }
        ensures some { let es = entries_on (D.state disk.old) in
            OnErr result (IsTrue D.tells → ReadsSome es (take n self.old) map.old map.new) }
        ensures base { SameBase map.old map.new }
        ensures tells { let es = entries_on (D.state disk.old) in IsTrue D.tells →
            GoesOnTelling es map.old self.old map.new self.new }
        ensures looks { let names = length (take n self.old) in
            LooksAtNames D.Disk (ending result) names disk.old disk.new }
    {
        let first = first_of(self.alloc, &self.names, n)?;
        read_each(self.alloc, disk, first.as_slice(), map)?;
        take_off(&mut self.names, first.len());
        end(&self.names, map);
        Ok(())
    }

    /// Reads the files of the first n names of the rest, or of all, in their order, sets their records to what stands
    /// there, or removes them where no file fits, and takes the names off. With an empty rest then, it takes the
    /// records out that were not seen. After a fault the rest is unchanged, and the records of some first names are
    /// set.
    pub fn step<D: Disk>(
        &mut self,
        disk: &mut D,
        n: u32,
        map: &mut RecordMap,
    ) -> Result<(), DiskFault>
        // The rest, and the records.
        ensures rest { OnOk result (self.new ≡ drop n self.old) }
        ensures kept { OnErr result (self.new ≡ self.old) }
        ensures slice { let es = entries_on (D.state disk.old) in OnOk result (IsTrue D.tells →
            ReadsSlice es (take n self.old) self.old self.new map.old map.new) }
        ensures ended { OnOk result (self.new ≡ [] → map.new.records ≡ map.new.seen) }
        ensures some { let es = entries_on (D.state disk.old) in
            OnErr result (IsTrue D.tells → ReadsSome es (take n self.old) map.old map.new) }
        ensures base { SameBase map.old map.new }
        // The records that were seen go on to tell what stands outside the rest.
        ensures tells { let es = entries_on (D.state disk.old) in IsTrue D.tells →
            GoesOnTelling es map.old self.old map.new self.new }
        // The disk.
        ensures looks { let names = length (take n self.old) in
            LooksAtNames D.Disk (ending result) names disk.old disk.new }
    {
        self.read_first(disk, n as usize, map)
    }

    /// Reads all names that are left, as a step that is large enough, and so ends the update.
    pub fn finish<D: Disk>(&mut self, disk: &mut D, map: &mut RecordMap) -> Result<(), DiskFault>
        // The rest, and the records.
        ensures rest { OnOk result (self.new ≡ []) }
        ensures kept { OnErr result (self.new ≡ self.old) }
        ensures slice { let es = entries_on (D.state disk.old) in OnOk result (IsTrue D.tells →
            ReadsSlice es self.old self.old self.new map.old map.new) }
        ensures ended { OnOk result (map.new.records ≡ map.new.seen) }
        ensures some { let es = entries_on (D.state disk.old) in
            OnErr result (IsTrue D.tells → ReadsSome es self.old map.old map.new) }
        ensures base { SameBase map.old map.new }
        // The records that were seen go on to tell what stands outside the rest.
        ensures tells { let es = entries_on (D.state disk.old) in IsTrue D.tells →
            GoesOnTelling es map.old self.old map.new self.new }
        // The disk.
        ensures looks { LooksAtNames D.Disk (ending result) (length self.old) disk.old disk.new }
    {
        let n = self.names.len();
        self.read_first(disk, n, map)
    }

    /// Takes a name off the rest, if it is there. Where it was the last, the update has ended, which `ended` tells, and
    /// the caller drops the records that were not seen.
    pub fn seen(&mut self, name: &Name)
        ensures rest { self.new ≡ without name.now self.old }
        ensures sorted { AreSorted self.new }
    {
        // The names are in order.
        let _len = self.names.len();
        let _was = self.names.remove(name);
    }

    /// Whether the name is in the rest.
    pub fn waits_for(&self, name: &Name) -> bool
        ensures waits { result ≡ has_name self.now name.now }
        ensures sorted { AreSorted self.now }
    {
        // The names are in order.
        let _len = self.names.len();
        self.names.contains(name)
    }

    /// The number of names in the rest.
    pub fn rest(&self) -> usize
        ensures rest { result ≡ length self.now }
        ensures sorted { AreSorted self.now }
    {
        self.names.len()
    }

    /// Whether no name is left.
    pub fn ended(&self) -> bool
        ensures ended { IsTrue result ↔ (self.now ≡ []) }
        ensures sorted { AreSorted self.now }
    {
        // The names are in order.
        let _len = self.names.len();
        self.names.is_empty()
    }

    /// An update with the same rest.
    pub fn copy(&self) -> Result<Update, NoMemory>
        ensures { IfOk result (λ update. update ≡ self.now) }
    {
        Ok(Update {
            names: self.names.clone()?,
            alloc: self.alloc,
        })
    }
}
