use super::*;

// The names with these numbers.
const NAME_7: Name = Name([0, 7, 0, 0, 0, 0, 0, 0, 0, 0, 0, 0, 0, 0, 0, 0, 0, 0, 0, 0]);

const NAME_9: Name = Name([0, 9, 0, 0, 0, 0, 0, 0, 0, 0, 0, 0, 0, 0, 0, 0, 0, 0, 0, 0]);

const NAME_258: Name = Name([1, 2, 0, 0, 0, 0, 0, 0, 0, 0, 0, 0, 0, 0, 0, 0, 0, 0, 0, 0]);

const LISTED: &[Row<'static>] = &[
    (Call::Make(Place::Entry(NAME_258), b"b"), Answer::Done),
    (Call::Make(Place::Doomed(9), b"d"), Answer::Done),
    (Call::Make(Place::Index, b"i"), Answer::Done),
    (Call::Make(Place::Clear, b"m"), Answer::Done),
    (Call::Make(Place::Entry(NAME_7), b"a"), Answer::Done),
    (Call::Make(Place::Doomed(2), b"c"), Answer::Done),
    (Call::Make(Place::Entry(NAME_9), b"gone"), Answer::Done),
    (Call::Remove(Place::Entry(NAME_9)), Answer::Done),
    (Call::Entries, Answer::Names(&[NAME_7, NAME_258])),
    (Call::Doomed, Answer::Numbers(&[2, 9])),
];

#[test]
fn lists_rise_and_have_what_stands(rt: HostRuntime) -> Result<(), Fail> {
    all_answered(&rt, rt.alloc(), LISTED)
}

const FAILING: &[Row<'static>] = &[
    (Call::FailAt(&[1, 2]), Answer::Done),
    (Call::Entries, Answer::Failed),
    (Call::Doomed, Answer::Failed),
    (Call::Doomed, Answer::Numbers(&[])),
    (Call::Calls, Answer::Number(3)),
];

#[test]
fn a_list_fails_as_planned(rt: HostRuntime) -> Result<(), Fail> {
    all_answered(&rt, rt.alloc(), FAILING)
}

// The name with these first bytes.
fn name(number: u16) -> Name {
    let mut name = [0; 20];
    let [high, low] = number.to_be_bytes();
    name[0] = high;
    name[1] = low;
    Name(name)
}

// Fills a disk with 2000 entries, each synced. Whether all are listed then, up to the last.
fn are_filled_and_listed<D: Disk>(disk: &mut D, names: &mut Names) -> Result<bool, DiskFault> {
    for number in 0..2000 {
        make(disk, &Place::Entry(name(number)), b"content")?;
        disk.sync()?;
    }
    disk.entries(names)?;
    let listing = names.as_slice();
    Ok(listing.len() == 2000 && listing[1999] == name(1999))
}

// A table that looks through all its steps or copies all its files would not end in time.
#[test]
fn thousands_of_entries_are_filled_listed_and_synced(rt: HostRuntime) -> Result<(), Fail> {
    let mut disk = MemDisk::new(rt.alloc());
    let mut names = Names::new(rt.alloc());
    assert!(rt; are_filled_and_listed(&mut disk, &mut names)?);
    Ok(())
}
