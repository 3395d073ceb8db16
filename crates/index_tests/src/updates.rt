ghost use Rattle.std.specs.Prelude.{IfOk};
ghost use Rattle.record_list.specs.Lists.{HasNames};
ghost use Rattle.index_map.specs.Known.{ArePlain, IsPlain};

use crate::examples::record;
use cache_base::{Name, NoMemory, Numbers};
use disk_model::MemDisk;
use disk_theory::{Disk, DiskFault, Place};
use index_map::RecordMap;
use index_record::{IndexRecord, Records};
use index_update::Update;
use std::alloc::Global;
use std::mem;
use std::test::Fail;

// Files with empty bodies, made at the moment 1000, under the keys `:c`, `:d`, `:e`, `:a`, `:b` and `:f`, and the SHA-1
// of the keys, in name order.
const FIRST: Name = Name(
    *b"\x51\x69\x57\xe6\x53\xd8\xf6\xbe\x0e\xc7\xa7\x66\x87\x02\x97\x98\x02\x90\xfa\xac",
);

const FIRST_FILE: &[u8] =
    b"\xcd\x83\x52\x18\0\0\0\x03\0\0\0\x01\0\0\x03\xe8\0\0\x03\xe8\0\0\x03\xe8\xff\xff\xff\xff\0\0\0\x02\0\0\0\0:c\0\0\0\0\0";

const SECOND: Name = Name(
    *b"\x5f\x09\x10\x18\x9e\x71\x08\x62\xc8\xfd\xaf\xbb\x4c\xe8\xe4\x77\x26\x40\xc9\x17",
);

const SECOND_FILE: &[u8] =
    b"\xcb\x8e\x87\x76\0\0\0\x03\0\0\0\x01\0\0\x03\xe8\0\0\x03\xe8\0\0\x03\xe8\xff\xff\xff\xff\0\0\0\x02\0\0\0\0:d\0\0\0\0\0";

const THIRD: Name = Name(
    *b"\x85\x0d\xc0\xd5\x96\x97\x72\xaa\x28\x6e\xf3\x80\xf1\x8b\xe2\x71\x4c\xdd\x51\xf5",
);

const THIRD_FILE: &[u8] =
    b"\xb3\xdb\xd1\xe2\0\0\0\x03\0\0\0\x01\0\0\x03\xe8\0\0\x03\xe8\0\0\x03\xe8\xff\xff\xff\xff\0\0\0\x02\0\0\0\0:e\0\0\0\0\0";

const FOURTH: Name = Name(
    *b"\xa4\x83\x9e\xdb\xf0\x20\xb8\xc1\xac\x39\x8f\xa1\x19\x97\x9f\xc5\x38\x4f\x52\xd4",
);

const FOURTH_FILE: &[u8] =
    b"\x5c\x55\x6f\x51\0\0\0\x03\0\0\0\x01\0\0\x03\xe8\0\0\x03\xe8\0\0\x03\xe8\xff\xff\xff\xff\0\0\0\x02\0\0\0\0:a\0\0\0\0\0";

const FIFTH: Name = Name(
    *b"\xb9\x3c\xce\xfa\x28\x58\x5e\x03\x21\xe5\x7b\xd4\x39\xd5\x21\x34\x76\x71\xff\xf9",
);

const FIFTH_FILE: &[u8] =
    b"\x6e\xe5\xbf\x3e\0\0\0\x03\0\0\0\x01\0\0\x03\xe8\0\0\x03\xe8\0\0\x03\xe8\xff\xff\xff\xff\0\0\0\x02\0\0\0\0:b\0\0\0\0\0";

const SIXTH: Name = Name(
    *b"\xb9\xbe\x52\xd8\xbb\xb8\x5a\xd8\x9e\xa4\x8e\x62\x0c\x77\x50\xcb\xc8\x16\xc1\xc4",
);

const SIXTH_FILE: &[u8] =
    b"\xa2\xad\x5a\x83\0\0\0\x03\0\0\0\x01\0\0\x03\xe8\0\0\x03\xe8\0\0\x03\xe8\xff\xff\xff\xff\0\0\0\x02\0\0\0\0:f\0\0\0\0\0";

fn make<D: Disk>(disk: &mut D, name: Name, bytes: &[u8]) -> Result<(), DiskFault> {
    disk.create(&Place::Entry(name))?;
    disk.write_end(&Place::Entry(name), 0, bytes)
}

// Dooms the file of a name, if one stands.
fn doom<D: Disk>(disk: &mut D, name: Name) -> Result<(), DiskFault> {
    match disk.size(&Place::Entry(name))? {
        None => Ok(()),
        Some(_) => disk.rename(&Place::Entry(name), &Place::Doomed(0)),
    }
}

// Five of the files, out of order.
const FIVE: [(Name, &[u8]); 5] = [
    (THIRD, THIRD_FILE),
    (FIFTH, FIFTH_FILE),
    (FIRST, FIRST_FILE),
    (FOURTH, FOURTH_FILE),
    (SECOND, SECOND_FILE),
];

// Makes these files, each by two calls.
fn make_all<D: Disk>(disk: &mut D, files: &[(Name, &[u8])]) -> Result<(), DiskFault> {
    for index in 0..files.len() {
        let (name, bytes) = files[index];
        make(disk, name, bytes)?;
    }
    Ok(())
}

// The list of one record.
fn one(alloc: Global, r: IndexRecord) -> Result<Records, NoMemory>
    requires { IsPlain r }
    ensures names { IfOk result HasNames }
    ensures plain { IfOk result ArePlain }
{
    let mut list = Records::new(alloc);
    list.push(r)?;
    Ok(list)
}

// A map with the record of this name, which was not seen, or a map without records and base.
fn unseen(alloc: Global, name: Option<Name>) -> Result<RecordMap, NoMemory> {
    match name {
        None => Ok(RecordMap::new(alloc)),
        Some(name) => {
            let records = one(alloc, record(name, 1))?;
            RecordMap::with_base(alloc, records, false)
        }
    }
}

// The call of this number fails, if there is one.
fn fail_at(alloc: Global, disk: &mut MemDisk, call: Option<u32>) -> Result<(), NoMemory> {
    let mut calls = Numbers::new(alloc);
    if let Some(call) = call {
        calls.push(call)?;
    }
    disk.fail_at(calls);
    Ok(())
}

const NAMES: [Name; 6] = [FIRST, SECOND, THIRD, FOURTH, FIFTH, SIXTH];

// What is done to a disk, a map and an update.
#[derive(Clone, Copy)]
enum Act<'a> {
    Nothing,
    // So many names are read.
    Step(u32),
    StepFails(u32),
    Finish,
    Doom(Name),
    // An entry goes, or is made, while the update is on.
    Gone(Name),
    Made(Name, &'a [u8]),
    // A copy that was made at the beginning and the update change places.
    Swap,
    // So many calls of the disk were made.
    Calls(u64),
}

// What is done; then how many names the update has left and how many records the map has; and of each of the six names,
// whether its record was seen, and whether the update waits for it.
type Row<'a> = (Act<'a>, usize, u64, &'a [u8; 6], &'a [u8; 6]);

fn is_gone<D: Disk>(disk: &mut D, map: &mut RecordMap, update: &mut Update, name: Name) -> bool {
    let is_doomed = doom(disk, name).is_ok();
    map.remove(&name);
    update.seen(&name);
    is_doomed
}

fn is_made<D: Disk>(
    disk: &mut D,
    map: &mut RecordMap,
    update: &mut Update,
    name: Name,
    bytes: &[u8],
) -> bool {
    let is_set = make(disk, name, bytes).is_ok() && map.set(record(name, 1000)).is_ok();
    update.seen(&name);
    is_set
}

fn is_done(
    disk: &mut MemDisk,
    map: &mut RecordMap,
    update: &mut Update,
    copy: &mut Update,
    act: Act<'_>,
) -> bool {
    match act {
        Act::Nothing => true,
        Act::Step(n) => update.step(disk, n, map).is_ok(),
        Act::StepFails(n) => update.step(disk, n, map) == Err(DiskFault::Failed),
        Act::Finish => update.finish(disk, map).is_ok(),
        Act::Doom(name) => doom(disk, name).is_ok(),
        Act::Gone(name) => is_gone(disk, map, update, name),
        Act::Made(name, bytes) => is_made(disk, map, update, name, bytes),
        Act::Swap => {
            mem::swap(update, copy);
            true
        }
        Act::Calls(calls) => disk.calls() == calls,
    }
}

// Whether the record of the name was seen, or none was.
fn is_seen(map: &RecordMap, name: Name, seen: bool) -> bool {
    match map.get(&name) {
        Some(found) => seen && found == record(name, 1000),
        None => !seen,
    }
}

fn stands_so(map: &RecordMap, update: &Update, row: &Row<'_>) -> bool {
    let (_, rest, count, seen, waits) = *row;
    for index in 0..6 {
        let name = NAMES[index];
        if !is_seen(map, name, seen[index] == b'1')
            || update.waits_for(&name) != (waits[index] == b'1')
        {
            return false;
        }
    }
    update.rest() == rest && update.ended() == (rest == 0) && map.totals().count == count
}

// How many rows hold, up to the first that does not.
fn rows_held(
    disk: &mut MemDisk,
    map: &mut RecordMap,
    update: &mut Update,
    copy: &mut Update,
    rows: &[Row<'_>],
) -> usize {
    for index in 0..rows.len() {
        let row = &rows[index];
        if !is_done(disk, map, update, copy, row.0) || !stands_so(map, update, row) {
            return index;
        }
    }
    rows.len()
}

// The same of an update that begins with a copy, over the record of the name alone, or over none.
fn run(
    alloc: Global,
    disk: &mut MemDisk,
    name: Option<Name>,
    rows: &[Row<'_>],
) -> Result<usize, DiskFault> {
    let mut map = unseen(alloc, name)?;
    let mut update = Update::begin(alloc, disk)?;
    let mut copy = update.copy()?;
    Ok(rows_held(disk, &mut map, &mut update, &mut copy, rows))
}

// What comes of a run over these files, once they are made, in which a call fails, if there is such a number.
fn run_over(
    alloc: Global,
    files: &[(Name, &[u8])],
    fails: Option<u32>,
    name: Option<Name>,
    rows: &[Row<'_>],
) -> Result<Result<usize, DiskFault>, DiskFault> {
    let mut disk = MemDisk::new(alloc);
    make_all(&mut disk, files)?;
    fail_at(alloc, &mut disk, fails)?;
    Ok(run(alloc, &mut disk, name, rows))
}

// The name of a number.
fn numbered(n: u32) -> Name {
    let [a, b, c, d] = n.to_be_bytes();
    Name([a, b, c, d, 0, 0, 0, 0, 0, 0, 0, 0, 0, 0, 0, 0, 0, 0, 0, 0])
}

// Makes 20000 empty files.
fn make_many<D: Disk>(disk: &mut D) -> Result<(), DiskFault> {
    for n in 0..20000u32 {
        disk.create(&Place::Entry(numbered(n)))?;
    }
    Ok(())
}

// Takes 20000 names off; for how many of them the update waited.
fn take_many_off(update: &mut Update) -> u32 {
    let mut waited = 0u32;
    for n in 0..20000u32 {
        // 7919 has no divisor in common with 20000: each name comes once.
        let name = numbered(n * 7919 % 20000);
        waited = waited.saturating_add(u32::from(update.waits_for(&name)));
        update.seen(&name);
    }
    waited
}

// How many names there were, for how many of them the update waited, and whether it then ended.
fn taken_off<D: Disk>(alloc: Global, disk: &mut D) -> Result<(usize, u32, bool), DiskFault> {
    make_many(disk)?;
    let mut update = Update::begin(alloc, disk)?;
    let rest = update.rest();
    let waited = take_many_off(&mut update);
    Ok((rest, waited, update.ended()))
}

// Reads twenty slices; whether the update then ended, and how many records there are.
fn read_slices<D: Disk>(
    disk: &mut D,
    update: &mut Update,
    map: &mut RecordMap,
) -> Result<(bool, u64), DiskFault> {
    for _ in 0..20 {
        update.step(disk, 1000, map)?;
    }
    Ok((update.ended(), map.totals().count))
}

fn read_many<D: Disk>(alloc: Global, disk: &mut D) -> Result<(bool, u64), DiskFault> {
    make_many(disk)?;
    let mut map = RecordMap::new(alloc);
    let mut update = Update::begin(alloc, disk)?;
    read_slices(disk, &mut update, &mut map)
}

#[test]
fn an_update_of_nothing_has_ended(rt: HostRuntime) -> Result<(), Fail> {
    let rows = [(Act::Calls(1), 0, 0, b"000000", b"000000")];
    assert_eq!(rt;
        run_over(rt.alloc(), &[], None, None, &rows)?,
        Ok(rows.len())
    );
    assert!(rt; Update::none(rt.alloc()).ended());
    Ok(())
}

// Between the slices the entry of the fourth name goes, and a sixth one is made. The record of a file that is long gone
// was never seen, and is dropped in the end.
#[test]
fn five_names_in_slices_of_two(rt: HostRuntime) -> Result<(), Fail> {
    let long_gone = Some(Name([9; 20]));
    let rows = [
        (Act::Nothing, 5, 1, b"000000", b"111110"),
        (Act::Step(2), 3, 3, b"110000", b"001110"),
        (Act::Gone(FOURTH), 2, 3, b"110000", b"001010"),
        (Act::Made(SIXTH, SIXTH_FILE), 2, 4, b"110001", b"001010"),
        (Act::Step(2), 0, 5, b"111011", b"000000"),
    ];
    assert_eq!(rt;
        run_over(rt.alloc(), &FIVE, None, long_gone, &rows)?,
        Ok(rows.len())
    );
    Ok(())
}

#[test]
fn a_file_that_does_not_fit_has_no_record(rt: HostRuntime) -> Result<(), Fail> {
    let files = [
        (FIRST, &FIRST_FILE[1..]),
        (SECOND, THIRD_FILE),
        (FIFTH, FIFTH_FILE),
    ];
    let rows = [
        (Act::Step(2), 1, 0, b"000000", b"000010"),
        (Act::Step(1), 0, 1, b"000010", b"000000"),
    ];
    assert_eq!(rt;
        run_over(rt.alloc(), &files, None, Some(FIRST), &rows)?,
        Ok(rows.len())
    );
    Ok(())
}

#[test]
fn a_file_that_is_gone_has_no_record(rt: HostRuntime) -> Result<(), Fail> {
    let rows = [
        (Act::Step(9), 0, 5, b"111110", b"000000"),
        (Act::Doom(THIRD), 0, 5, b"111110", b"000000"),
        (Act::Swap, 5, 5, b"111110", b"111110"),
        (Act::Step(3), 2, 4, b"110110", b"000110"),
    ];
    assert_eq!(rt;
        run_over(rt.alloc(), &FIVE, None, None, &rows)?,
        Ok(rows.len())
    );
    Ok(())
}

#[test]
fn a_failed_read_leaves_the_rest(rt: HostRuntime) -> Result<(), Fail> {
    // The size of the first file is the 12th call, and a read follows.
    let rows = [
        (Act::StepFails(9), 5, 1, b"100000", b"111110"),
        (Act::Calls(15), 5, 1, b"100000", b"111110"),
        (Act::Finish, 0, 5, b"111110", b"000000"),
        (Act::Calls(25), 0, 5, b"111110", b"000000"),
    ];
    assert_eq!(rt;
        run_over(rt.alloc(), &FIVE, Some(15), None, &rows)?,
        Ok(rows.len())
    );
    Ok(())
}

#[test]
fn a_copy_has_its_own_rest(rt: HostRuntime) -> Result<(), Fail> {
    let rows = [
        (Act::Swap, 5, 0, b"000000", b"111110"),
        (Act::Step(9), 0, 5, b"111110", b"000000"),
        (Act::Swap, 5, 5, b"111110", b"111110"),
    ];
    assert_eq!(rt;
        run_over(rt.alloc(), &FIVE, None, None, &rows)?,
        Ok(rows.len())
    );
    Ok(())
}

#[test]
fn a_failed_list_begins_nothing(rt: HostRuntime) -> Result<(), Fail> {
    let answer = run_over(rt.alloc(), &FIVE, Some(11), None, &[])?;
    assert_eq!(rt; answer, Err(DiskFault::Failed));
    Ok(())
}

#[test]
fn many_names_are_taken_off_one_by_one(rt: HostRuntime) -> Result<(), Fail> {
    let mut disk = MemDisk::new(rt.alloc());
    let taken = taken_off(rt.alloc(), &mut disk)?;
    assert!(rt; taken == (20000, 20000, true));
    Ok(())
}

#[test]
fn many_names_are_read_in_slices(rt: HostRuntime) -> Result<(), Fail> {
    let mut disk = MemDisk::new(rt.alloc());
    let read = read_many(rt.alloc(), &mut disk)?;
    assert!(rt; read == (true, 0));
    Ok(())
}
