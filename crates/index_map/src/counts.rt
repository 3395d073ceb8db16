//! The counts that a table keeps.

ghost use Rattle.std.specs.Prelude.{◌≡◌, ◌+◌, ◌-◌, ◌<◌, ◌≤◌, ◌^◌, length, map};
ghost use Rattle.std.specs.Map.{values_of};
ghost use Rattle.index_map.specs.Slots as spec;

use crate::mark::Mark;
use crate::slot::{Held, differs};
use cache_base::Name;
use index_record::{IndexRecord, SIZE_MAX, size_kb};

/// The number of records, and the sum of the sizes of their files.
#[derive(Clone, Copy, Debug, PartialEq, Eq)]
pub struct Totals {
    /// The number of records.
    pub count: u64,
    /// The sum of the sizes in KB.
    pub kilobytes: u128,
}

/// Fewer records than these stand in a list, since more fit in no memory. So the counts of all lists can be added up.
pub(crate) const MOST: usize = 0x4000_0000_0000_0000;

/// The counts of a table's slots.
#[derive(Clone, Copy)]
pub(crate) struct Counts {
    /// The records now.
    pub records: u64,
    /// The sum of the sizes of their files, in KB.
    pub kilobytes: u128,
    /// The names whose record now differs from the base's.
    pub changed: u64,
}

impl Counts {
    /// Those of no slots.
    pub const NONE: Counts = Counts {
        records: 0,
        kilobytes: 0,
        changed: 0,
    };
}

fn kilobytes(slot: &Held) -> u32
    ensures value { result ≡ spec.kilobytes_of (spec.bare slot.now) }
    ensures bound { result < 2 ^ 24 }
{
    match slot.current {
        Some(facts) => facts.flags % (SIZE_MAX + 1),
        None => 0,
    }
}

/// The counts with one slot more.
pub(crate) fn with(counts: &Counts, slot: &Held) -> Counts
    requires records { counts.now.records < 2 ^ 63 }
    requires kilobytes { counts.now.kilobytes < 2 ^ 127 }
    requires changed { counts.now.changed < 2 ^ 63 }
    ensures records { result.records ≡ counts.now.records + spec.records_of (spec.bare slot.now) }
    ensures kilobytes { result.kilobytes
        ≡ counts.now.kilobytes + spec.kilobytes_of (spec.bare slot.now) }
    ensures changed { result.changed ≡ counts.now.changed + spec.changed_of (spec.bare slot.now) }
{
    Counts {
        records: counts.records + u64::from(slot.current.is_some()),
        kilobytes: counts.kilobytes + u128::from(kilobytes(slot)),
        changed: counts.changed + u64::from(differs(slot)),
    }
}

/// The counts with one slot less.
pub(crate) fn without(counts: &Counts, slot: &Held) -> Counts
    requires records { spec.records_of (spec.bare slot.now) ≤ counts.now.records }
    requires kilobytes { spec.kilobytes_of (spec.bare slot.now) ≤ counts.now.kilobytes }
    requires changed { spec.changed_of (spec.bare slot.now) ≤ counts.now.changed }
    ensures records { result.records ≡ counts.now.records - spec.records_of (spec.bare slot.now) }
    ensures kilobytes { result.kilobytes
        ≡ counts.now.kilobytes - spec.kilobytes_of (spec.bare slot.now) }
    ensures changed { result.changed ≡ counts.now.changed - spec.changed_of (spec.bare slot.now) }
{
    Counts {
        records: counts.records - u64::from(slot.current.is_some()),
        kilobytes: counts.kilobytes - u128::from(kilobytes(slot)),
        changed: counts.changed - u64::from(differs(slot)),
    }
}

/// The counts of these slots.
pub(crate) fn count(slots: &[Held]) -> Counts
    requires { length slots.now < 2 ^ 63 }
    ensures { result ≡ spec.counts_of (map spec.bare slots.now) }
{
    let mut counts = Counts::NONE;
    for slot in slots {
        counts = with(&counts, slot);
    }
    counts
}

/// The counts of what stands at places.
pub(crate) fn count_places(places: &[(Name, Held)]) -> Counts
    requires { length places.now < 2 ^ 63 }
    ensures { result ≡ spec.counts_of (map spec.bare (values_of places.now)) }
{
    let mut counts = Counts::NONE;
    for place in places {
        counts = with(&counts, &place.1);
    }
    counts
}

// What a record of the base adds to the number of records.
fn records_in(r: &IndexRecord, mark: Mark) -> u64
    ensures value { result ≡ spec.weigh spec.records_of (spec.marked r.now mark) }
    ensures bound { result < 2 }
{
    match mark {
        Mark::Unseen => 1,
        Mark::Seen => 1,
        Mark::Gone => 0,
        Mark::Away => 0,
    }
}

// What it adds to the sum of the sizes.
fn kilobytes_in(r: &IndexRecord, mark: Mark) -> u32
    ensures value { result ≡ spec.weigh spec.kilobytes_of (spec.marked r.now mark) }
{
    match mark {
        Mark::Unseen => size_kb(r),
        Mark::Seen => size_kb(r),
        Mark::Gone => 0,
        Mark::Away => 0,
    }
}

// What it adds to the number of names that changed.
fn changed_in(r: &IndexRecord, mark: Mark) -> u64
    ensures value { result ≡ spec.weigh spec.changed_of (spec.marked r.now mark) }
    ensures bound { result < 2 }
{
    match mark {
        Mark::Unseen => 0,
        Mark::Seen => 0,
        Mark::Gone => 1,
        Mark::Away => 0,
    }
}

/// The counts with one record of the base more.
pub(crate) fn with_marked(counts: &Counts, r: &IndexRecord, mark: Mark) -> Counts
    requires records { counts.now.records < 2 ^ 63 }
    requires kilobytes { counts.now.kilobytes < 2 ^ 127 }
    requires changed { counts.now.changed < 2 ^ 63 }
    ensures records { result.records
        ≡ counts.now.records + spec.weigh spec.records_of (spec.marked r.now mark) }
    ensures kilobytes { result.kilobytes
        ≡ counts.now.kilobytes + spec.weigh spec.kilobytes_of (spec.marked r.now mark) }
    ensures changed { result.changed
        ≡ counts.now.changed + spec.weigh spec.changed_of (spec.marked r.now mark) }
{
    Counts {
        records: counts.records + records_in(r, mark),
        kilobytes: counts.kilobytes + u128::from(kilobytes_in(r, mark)),
        changed: counts.changed + changed_in(r, mark),
    }
}

/// The counts with one record of the base less.
pub(crate) fn without_marked(counts: &Counts, r: &IndexRecord, mark: Mark) -> Counts
    requires records { spec.weigh spec.records_of (spec.marked r.now mark) ≤ counts.now.records }
    requires kilobytes { spec.weigh spec.kilobytes_of (spec.marked r.now mark)
        ≤ counts.now.kilobytes }
    requires changed { spec.weigh spec.changed_of (spec.marked r.now mark) ≤ counts.now.changed }
    ensures records { result.records
        ≡ counts.now.records - spec.weigh spec.records_of (spec.marked r.now mark) }
    ensures kilobytes { result.kilobytes
        ≡ counts.now.kilobytes - spec.weigh spec.kilobytes_of (spec.marked r.now mark) }
    ensures changed { result.changed
        ≡ counts.now.changed - spec.weigh spec.changed_of (spec.marked r.now mark) }
{
    Counts {
        records: counts.records - records_in(r, mark),
        kilobytes: counts.kilobytes - u128::from(kilobytes_in(r, mark)),
        changed: counts.changed - changed_in(r, mark),
    }
}

/// The counts of the records of a base.
pub(crate) fn count_marked(records: &[IndexRecord], marks: &[Mark]) -> Counts
    requires long { length marks.now ≡ length records.now }
    requires small { length records.now < 2 ^ 63 }
    ensures { result ≡ spec.counts_of (values_of (spec.marked_in records.now marks.now)) }
{
    let mut counts = Counts::NONE;
    for i in 0..records.len() {
        counts = with_marked(&counts, &records[i], marks[i]);
    }
    counts
}

/// The two counts together.
pub(crate) fn both(a: Counts, b: Counts) -> Counts
    requires records { a.records + b.records < 2 ^ 64 }
    requires kilobytes { a.kilobytes + b.kilobytes < 2 ^ 128 }
    requires changed { a.changed + b.changed < 2 ^ 64 }
    ensures records { result.records ≡ a.records + b.records }
    ensures kilobytes { result.kilobytes ≡ a.kilobytes + b.kilobytes }
    ensures changed { result.changed ≡ a.changed + b.changed }
{
    Counts {
        records: a.records + b.records,
        kilobytes: a.kilobytes + b.kilobytes,
        changed: a.changed + b.changed,
    }
}
