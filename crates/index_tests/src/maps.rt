ghost use Rattle.std.specs.Prelude.{◌≡◌, IfOk};
ghost use Rattle.record_list.specs.Lists.{HasNames};
ghost use Rattle.record_list.specs.Stored.{AreClean};
ghost use Rattle.index_map.specs.Known.{ArePlain, IsPlain};

use cache_base::{Bytes, Name, NoMemory};
use index_journal::{apply, parse};
use index_map::{RecordMap, Totals};
use index_record::{INITIALIZED, IndexRecord, NO_TIME, Records, removed, write};
use jenkins_hash::hash;
use std::alloc::Global;
use std::test::Fail;

const ONE: Name = Name([1; 20]);

const TWO: Name = Name([2; 20]);

const THREE: Name = Name([3; 20]);

// The record of a file of so many KB.
fn record(name: Name, kb: u16) -> IndexRecord
    ensures name { result.name ≡ name }
    ensures plain { IsPlain result }
{
    IndexRecord {
        name,
        frecency: 7,
        origin: 5,
        on_start: 1,
        on_stop: NO_TIME,
        content: 2,
        flags: INITIALIZED + u32::from(kb),
    }
}

// The records of two names, the greater one first.
fn pair(alloc: Global, one: u16, two: u16) -> Result<Records, NoMemory>
    ensures names { IfOk result HasNames }
    ensures plain { IfOk result ArePlain }
    ensures clean { IfOk result AreClean }
{
    let mut list = Records::new(alloc);
    list.push(record(TWO, two))?;
    list.push(record(ONE, one))?;
    Ok(list)
}

// A journal by which the first name is gone.
fn one_gone(alloc: Global) -> Result<Records, NoMemory>
    ensures names { IfOk result HasNames }
    ensures clean { IfOk result AreClean }
{
    let mut list = Records::new(alloc);
    list.push(removed(&ONE))?;
    Ok(list)
}

// A map over a base with files of 1 and 2 KB, with the same records but for the second's size.
fn two_records(alloc: Global, two: u16) -> Result<RecordMap, NoMemory> {
    let base = pair(alloc, 1, 2)?;
    let changes = pair(alloc, 1, two)?;
    RecordMap::with_journal(alloc, base, &changes)
}

// A map over the same base, after the journal by which the first name is gone.
fn after_gone(alloc: Global) -> Result<RecordMap, NoMemory> {
    let base = pair(alloc, 1, 2)?;
    let changes = one_gone(alloc)?;
    RecordMap::with_journal(alloc, base, &changes)
}

/// A map over the same base, whose records were seen or not.
pub(crate) fn over_base(alloc: Global, seen: bool) -> Result<RecordMap, NoMemory> {
    RecordMap::with_base(alloc, pair(alloc, 1, 2)?, seen)
}

// A new map in place of the old one, a change of the map, or what it tells.
#[derive(Clone, Copy)]
enum Step<'a> {
    New,
    Base(bool),
    // The KB of the second file.
    Journal(u16),
    Gone,
    Set(Name, u16),
    Remove(Name),
    DropUnseen,
    MarkWritten,
    HasBase(bool),
    // The number of records, the KB of their files, and the number of changed names.
    Numbers(u64, u128, u64),
    Gives(Name, u16),
    GivesNone(Name),
    // The KB of each name, or that it is removed.
    Records(&'a [(Name, Option<u16>)]),
    // The same of the list in no fixed order, of one record.
    Unordered(&'a [(Name, Option<u16>)]),
    Diff(&'a [(Name, Option<u16>)]),
}

fn begin(alloc: Global, map: &mut RecordMap, step: Step<'_>) -> Result<bool, NoMemory> {
    match step {
        Step::New => *map = RecordMap::new(alloc),
        Step::Base(seen) => *map = over_base(alloc, seen)?,
        Step::Journal(kb) => *map = two_records(alloc, kb)?,
        Step::Gone => *map = after_gone(alloc)?,
        _ => return Ok(false),
    }
    Ok(true)
}

fn take(map: &mut RecordMap, step: Step<'_>) -> Result<bool, NoMemory> {
    match step {
        Step::Set(name, kb) => map.set(record(name, kb))?,
        Step::Remove(name) => map.remove(&name),
        Step::DropUnseen => map.drop_unseen(),
        Step::MarkWritten => map.mark_written(),
        _ => return Ok(false),
    }
    Ok(true)
}

fn numbers(map: &RecordMap) -> (u64, u128, u64) {
    let Totals { count, kilobytes } = map.totals();
    (count, kilobytes, map.changed())
}

fn are(list: &[IndexRecord], due: &[(Name, Option<u16>)]) -> bool {
    if list.len() != due.len() {
        return false;
    }
    for index in 0..due.len() {
        let (name, kb) = due[index];
        let wanted = match kb {
            Some(kb) => record(name, kb),
            None => removed(&name),
        };
        if list[index] != wanted {
            return false;
        }
    }
    true
}

fn tells(map: &RecordMap, step: Step<'_>) -> Result<bool, NoMemory> {
    Ok(match step {
        Step::HasBase(due) => map.has_base() == due,
        Step::Numbers(count, kilobytes, changed) => numbers(map) == (count, kilobytes, changed),
        Step::Gives(name, kb) => map.get(&name) == Some(record(name, kb)),
        Step::GivesNone(name) => map.get(&name).is_none(),
        Step::Records(due) => are(map.records()?.as_slice(), due),
        Step::Unordered(due) => are(map.unordered()?.as_slice(), due),
        Step::Diff(due) => are(map.diff()?.as_slice(), due),
        _ => false,
    })
}

// How many steps are taken and told so, up to the first that is not.
fn steps_held(alloc: Global, map: &mut RecordMap, steps: &[Step<'_>]) -> Result<usize, NoMemory> {
    for index in 0..steps.len() {
        let step = steps[index];
        if !begin(alloc, map, step)? && !take(map, step)? && !tells(map, step)? {
            return Ok(index);
        }
    }
    Ok(steps.len())
}

fn all_held(alloc: Global, steps: &[Step<'_>]) -> Result<usize, NoMemory> {
    let mut map = RecordMap::new(alloc);
    steps_held(alloc, &mut map, steps)
}

#[test]
fn records_are_set_replaced_and_removed(rt: HostRuntime) {
    let steps = [
        // a new map is empty
        Step::New,
        Step::HasBase(false),
        Step::Numbers(0, 0, 0),
        Step::GivesNone(ONE),
        Step::Records(&[]),
        Step::Diff(&[]),
        // records are set and replaced
        Step::New,
        Step::Set(TWO, 3),
        Step::Set(ONE, 1),
        Step::Set(TWO, 10),
        Step::Numbers(2, 11, 2),
        Step::Gives(TWO, 10),
        Step::Records(&[(ONE, Some(1)), (TWO, Some(10))]),
        Step::Diff(&[(ONE, Some(1)), (TWO, Some(10))]),
        // records are removed
        Step::New,
        Step::Set(TWO, 3),
        Step::Set(ONE, 1),
        Step::Remove(TWO),
        Step::Remove(THREE),
        Step::Numbers(1, 1, 1),
        Step::GivesNone(TWO),
    ];
    let held = all_held(rt.alloc(), &steps);
    assert_eq!(rt; held, Ok(steps.len()));
}

#[test]
fn a_base_is_seen_and_changed(rt: HostRuntime) {
    let steps = [
        // only what was seen is given
        Step::Base(false),
        Step::HasBase(true),
        Step::Numbers(2, 3, 0),
        Step::GivesNone(ONE),
        Step::Set(TWO, 2),
        Step::Gives(TWO, 2),
        Step::Numbers(2, 3, 0),
        // what was not seen is dropped
        Step::Base(false),
        Step::Set(TWO, 2),
        Step::DropUnseen,
        Step::Numbers(1, 2, 1),
        Step::Records(&[(TWO, Some(2))]),
        Step::Unordered(&[(TWO, Some(2))]),
        Step::Diff(&[(ONE, None)]),
        // what was written is the base
        Step::Base(true),
        Step::Remove(ONE),
        Step::Set(THREE, 4),
        Step::MarkWritten,
        Step::Numbers(2, 6, 0),
        Step::Diff(&[]),
        Step::Remove(TWO),
        Step::Remove(ONE),
        Step::Numbers(1, 4, 1),
        Step::Diff(&[(TWO, None)]),
    ];
    let held = all_held(rt.alloc(), &steps);
    assert_eq!(rt; held, Ok(steps.len()));
}

#[test]
fn a_journal_changes_the_base(rt: HostRuntime) {
    let steps = [
        // a difference has each changed name
        Step::Journal(9),
        Step::Gives(ONE, 1),
        Step::Set(THREE, 4),
        Step::Remove(ONE),
        Step::Numbers(2, 13, 3),
        Step::Diff(&[(ONE, None), (TWO, Some(9)), (THREE, Some(4))]),
        // what is as in the base is not changed
        Step::Journal(9),
        Step::Set(THREE, 4),
        Step::Remove(ONE),
        Step::Set(ONE, 1),
        Step::Set(TWO, 2),
        Step::Remove(THREE),
        Step::Numbers(2, 3, 0),
        Step::Diff(&[]),
        // a name may be gone
        Step::Gone,
        Step::HasBase(true),
        Step::Numbers(1, 2, 1),
        Step::GivesNone(ONE),
        Step::Gives(TWO, 2),
        Step::Diff(&[(ONE, None)]),
    ];
    let held = all_held(rt.alloc(), &steps);
    assert_eq!(rt; held, Ok(steps.len()));
}

// The number that stands at a place of a journal of 300 names in no order: none of them is so large that it wraps.
fn shuffled(place: u16) -> u16 {
    place.wrapping_mul(77) % 300
}

// What that journal says of a number: each fourth name is gone.
fn change(number: u16) -> IndexRecord {
    let [high, low] = number.to_be_bytes();
    let mut name = Name([9; 20]);
    name.0[0] = high;
    name.0[1] = low;
    if number % 4 == 0 {
        removed(&name)
    } else {
        record(name, number)
    }
}

fn long_journal(alloc: Global) -> Result<Bytes, NoMemory> {
    let mut bytes = Bytes::new(alloc);
    for place in 0..300 {
        bytes.extend(&write(&change(shuffled(place))))?;
    }
    let sum = hash(bytes.as_slice());
    bytes.extend(&sum.to_be_bytes())?;
    Ok(bytes)
}

// The first number of the journal whose name has not the record in the map that it says.
fn first_wrong(map: &RecordMap) -> Option<u16> {
    for number in 0..300 {
        let due = change(number);
        let wanted = if number % 4 == 0 { None } else { Some(due) };
        if map.get(&due.name) != wanted {
            return Some(number);
        }
    }
    None
}

#[test]
fn a_journal_of_many_names_in_no_order_changes_the_base(rt: HostRuntime) -> Result<(), Fail> {
    let alloc = rt.alloc();
    let changes = parse(alloc, long_journal(alloc)?.as_slice())?;
    let map = RecordMap::with_journal(alloc, pair(alloc, 1, 2)?, &changes)?;
    let due = apply(alloc, &pair(alloc, 1, 2)?, &changes)?;
    assert!(rt; map.records()?.as_slice() == due.as_slice());
    assert_eq!(rt; first_wrong(&map), None);
    // the two of the base, and those of the journal that are not gone
    assert_eq!(rt; numbers(&map).0, 227);
    assert_eq!(rt; map.changed(), 225);
    Ok(())
}
