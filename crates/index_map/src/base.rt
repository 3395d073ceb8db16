//! The records of the file `index` in name order, each with a mark that says what became of it.

ghost use Rattle.std.specs.List.{filter_map};
ghost use Rattle.std.specs.Map.{lookup, values_of};
ghost use Rattle.std.specs.Option.{option_map};
ghost use Rattle.std.specs.Prelude.{◌≡◌, ◌++◌, [], IfOk, IsSome, OnOk, option_and_then};
ghost use Rattle.cache_base.specs.declared.name.Name.{Name as AName};
ghost use Rattle.record_list.specs.Lists.{HasNames, record_at, same_name};
ghost use Rattle.index_map.specs.Known.{ArePlain};

use crate::counts::{Counts, MOST, count_marked, with_marked, without_marked};
use crate::listing::{push_changes, push_current};
use crate::mark::{Mark, first_mark, held_of, keep_seen, mark_written};
use crate::name_order::{in_order, place_of};
use crate::slot::Held;
use cache_base::{Name, NoMemory};
use index_record::{IndexRecord, Records};
use std::alloc::Global;
use std::marker::Model;

/// The records of the base in name order, a mark for each, and the counts of their slots. They stay in the memory in
/// which they were read, and a mark takes a byte.
#[derive(Drop)]
pub(crate) struct Base {
    records: Records,
    marks: Vec<Mark>,
    counts: Counts,
}

impl Model for Base {
    ghost use Rattle.std.specs.Prelude.{List};
    ghost use Rattle.cache_base.specs.declared.name.Name.{Name as AName};
    ghost use Rattle.index_map.specs.Slots.{IsBase, Slot, marked_in};

    ghost Value = { List (AName × Slot) };

    ghost view = { λ b. marked_in b.records b.marks.items };

    ghost invariant = { λ b. IsBase b.records b.marks.items b.counts };
}

impl Base {
    ghost use Rattle.index_map.specs.Slots as spec;

    /// The base without records, which takes no memory.
    pub fn new(alloc: Global) -> Base
        ensures slots { result ≡ [] }
    {
        Base {
            records: Records::new(alloc),
            marks: Vec::new(alloc),
            counts: Counts::NONE,
        }
    }

    /// The base of these records, all of them seen or none. They stay in their memory, where they are sorted by name.
    pub fn over(alloc: Global, records: Records, seen: bool) -> Result<Base, NoMemory>
        requires names { HasNames records }
        requires plain { ArePlain records }
        ensures slots { IfOk result (λ base. (q : AName) →
            lookup (same_name q) base ≡ option_map (spec.base_slot seen) (record_at records q)) }
        ensures table { IfOk result spec.IsTable }
    {
        let records = in_order(records);
        let count = records.as_slice().len();
        if count >= MOST {
            return Err(NoMemory);
        }
        let marks = vec![in alloc; first_mark(seen); count]?;
        let counts = count_marked(records.as_slice(), marks.as_slice());
        Ok(Base {
            records,
            marks,
            counts,
        })
    }

    /// The slot of a name.
    pub fn get(&self, name: &Name) -> Option<Held>
        ensures slot { option_map (spec.slot_of name.now) result
            ≡ lookup (same_name name.now) self.now }
        ensures table { spec.IsTable self.now }
    {
        let records = self.records.as_slice();
        match place_of(records, name) {
            Some(i) => held_of(&records[i], self.marks[i]),
            None => None,
        }
    }

    /// The counts of the slots.
    pub fn counts(&self) -> Counts
        ensures counts { result ≡ spec.counts_of (values_of self.now) }
        ensures few { spec.AreFew result }
        ensures table { spec.IsTable self.now }
    {
        self.counts
    }

    /// Gives the slot of a name another mark.
    pub fn mark(&mut self, name: &Name, mark: Mark)
        requires { IsSome (lookup (same_name name.now) self.old) }
        ensures marked { spec.PutsSlot self.old self.new name.now
            (option_and_then (spec.remarked mark) (lookup (same_name name.now) self.old)) }
        ensures table { spec.IsTable self.new }
    {
        let records = self.records.as_slice();
        match place_of(records, name) {
            Some(i) => {
                let counts = with_marked(&self.counts, &records[i], mark);
                self.counts = without_marked(&counts, &records[i], self.marks[i]);
                self.marks[i] = mark;
            }
            None => {}
        }
    }

    /// Adds the records now, in name order.
    pub fn push_records(&self, list: &mut Vec<IndexRecord>) -> Result<(), NoMemory>
        ensures records { OnOk result
            (list.new.items ≡ list.old.items ++ spec.current_in (values_of self.now)) }
        ensures table { spec.IsTable self.now }
    {
        push_current(list, self.records.as_slice(), self.marks.as_slice())
    }

    /// Adds what a journal has to say, in name order.
    pub fn push_changes(&self, list: &mut Vec<IndexRecord>) -> Result<(), NoMemory>
        ensures changes { OnOk result
            (list.new.items ≡ list.old.items ++ filter_map spec.change_in (values_of self.now)) }
        ensures table { spec.IsTable self.now }
    {
        push_changes(list, self.records.as_slice(), self.marks.as_slice())
    }

    /// Takes the unseen records out.
    pub fn keep_seen(&mut self)
        ensures slots { self.new ≡ spec.rewritten spec.seen_only self.old }
        ensures was_table { spec.IsTable self.old }
        ensures table { spec.IsTable self.new }
    {
        keep_seen(&mut self.marks);
        self.counts = count_marked(self.records.as_slice(), self.marks.as_slice());
    }

    /// Makes the records now those of the base, and takes out the slots that hold no record then.
    pub fn mark_written(&mut self)
        ensures slots { self.new ≡ spec.rewritten spec.written self.old }
        ensures was_table { spec.IsTable self.old }
        ensures table { spec.IsTable self.new }
    {
        mark_written(&mut self.marks);
        self.counts = count_marked(self.records.as_slice(), self.marks.as_slice());
    }
}
