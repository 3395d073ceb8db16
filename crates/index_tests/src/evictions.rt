use cache_base::{Name, Names, NoMemory};
use evictor::{order, order_sorts, same_in_any_order, victims, victims_of, victims_suffice};
use index_record::{INITIALIZED, IndexRecord, NO_TIME, PINNED, Records};
use std::alloc::Global;

// The record of a file of so many KB, whose name ends in this number.
fn record(name: u8, frecency: u32, flags: u32) -> IndexRecord {
    IndexRecord {
        name: Name([
            0, 0, 0, 0, 0, 0, 0, 0, 0, 0, 0, 0, 0, 0, 0, 0, 0, 0, 0, name,
        ]),
        frecency,
        origin: 0,
        on_start: NO_TIME,
        on_stop: NO_TIME,
        content: 0,
        flags: INITIALIZED | flags,
    }
}

fn list(alloc: Global, all: &[IndexRecord]) -> Result<Records, NoMemory> {
    let mut records = Records::new(alloc);
    for one in all {
        records.push(*one)?;
    }
    Ok(records)
}

fn ordered(alloc: Global, all: &[IndexRecord], due: &[IndexRecord]) -> Result<bool, NoMemory> {
    let mut records = list(alloc, all)?;
    order(alloc, &mut records)?;
    Ok(records.as_slice() == due)
}

#[test]
fn low_frecencies_come_first_and_zero_last(rt: HostRuntime) {
    let all = [
        record(1, 0, 1),
        record(9, 5, 1),
        record(4, 3, 1),
        record(2, 5, 1),
    ];
    let expected = [
        record(4, 3, 1),
        record(2, 5, 1),
        record(9, 5, 1),
        record(1, 0, 1),
    ];
    assert!(rt; ordered(rt.alloc(), &all, &expected) == Ok(true));
}

// The names that end in these numbers.
fn names(alloc: Global, last: &[u8]) -> Result<Names, NoMemory> {
    let mut names = Names::new(alloc);
    for one in last {
        names.push(record(*one, 0, 0).name)?;
    }
    Ok(names)
}

// Whether the names of the victims among the records end in these numbers, whether the records are lent or handed over.
fn chooses(
    alloc: Global,
    all: &[IndexRecord],
    in_use: &[u8],
    limit: u64,
    due: &[u8],
) -> Result<bool, NoMemory> {
    let records = list(alloc, all)?;
    let in_use = names(alloc, in_use)?;
    let due = names(alloc, due)?;
    let lent = victims(alloc, &records, &in_use, limit)?;
    let taken = victims_of(alloc, records, &in_use, limit)?;
    Ok(lent.as_slice() == due.as_slice() && taken.as_slice() == due.as_slice())
}

#[test]
fn the_shortest_prefix_that_is_enough_goes(rt: HostRuntime) {
    let free = [
        record(1, 0, 1),
        record(9, 5, 1),
        record(4, 3, 1),
        record(2, 5, 1),
    ];
    let pinned = [
        record(1, 0, 1),
        record(9, 5, 1),
        record(4, 3, PINNED | 1),
        record(2, 5, 1),
    ];
    for (all, in_use, limit, expected) in [
        (&free, [].as_slice(), u64::MAX, [].as_slice()),
        (&free, &[], 4, &[]),
        (&free, &[], 3, &[4]),
        (&free, &[], 2, &[4, 2]),
        (&free, &[], 1, &[4, 2, 9]),
        (&free, &[], 0, &[4, 2, 9, 1]),
        // pinned and open entries stay and count
        (&pinned, &[2], 4, &[]),
        (&pinned, &[2], 3, &[9]),
        (&pinned, &[2], 2, &[9, 1]),
        (&pinned, &[2], 0, &[9, 1]),
    ] {
        let chosen = chooses(rt.alloc(), all, in_use, limit, expected);
        assert!(rt; chosen == Ok(true), "{} open, at {limit}", in_use.len());
    }
}

#[test]
fn laws_are_called() {
    order_sorts();
    victims_suffice();
    same_in_any_order();
}
