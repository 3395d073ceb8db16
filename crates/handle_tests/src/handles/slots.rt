use super::*;
use disk_theory::Disk;
use entry_name::text_of;
use std::alloc::Global;

// By its number a slot has a new entry, one that stands, or one of both that is doomed then. In these tables its
// number is 0, and its key X.
const FILLED: [&[Row<'static>]; 4] = [
    &[(Call::Create(0, X, 5), Answer::Gone(X))],
    &[(Call::Open(0, X), Answer::Done)],
    &[
        (Call::Create(0, X, 5), Answer::Gone(X)),
        (Call::Doom(X), Answer::Gone(X)),
    ],
    &[
        (Call::Open(0, X), Answer::Done),
        (Call::Doom(X), Answer::Gone(X)),
    ],
];

const MADE: &[Row<'static>] = &[
    (Call::Create(0, X, 5), Answer::Gone(X)),
    (Call::Append(0, b"old"), Answer::Done),
    (Call::Close(0), Answer::Wrote(5, 0, 1)),
];

// The entries that stand before.
const STANDING: [&[Row<'static>]; 4] = [&[], MADE, &[], MADE];

const WRITER: &[Row<'static>] = &[
    (Call::Create(0, X, 5), Answer::Refused(Refusal::SlotTaken)),
    (Call::Open(0, X), Answer::Refused(Refusal::SlotTaken)),
    (Call::Append(0, b"new"), Answer::Done),
    (Call::Read(0, 0, 9), Answer::Bytes(b"new")),
    (Call::Set(0, b"n", b"v"), Answer::Same),
    (Call::Element(0, b"n"), Answer::Bytes(b"v")),
];

const READER: &[Row<'static>] = &[
    (Call::Create(0, X, 5), Answer::Refused(Refusal::SlotTaken)),
    (Call::Open(0, X), Answer::Refused(Refusal::SlotTaken)),
    (Call::Append(0, b"new"), Answer::Refused(Refusal::NotWriter)),
    (Call::Read(0, 0, 9), Answer::Bytes(b"old")),
    (Call::Set(0, b"n", b"v"), Answer::Wrote(5, 0, 1)),
    (Call::Element(0, b"n"), Answer::Bytes(b"v")),
];

const DOOMED_READER: &[Row<'static>] = &[
    (Call::Append(0, b"new"), Answer::Refused(Refusal::NotWriter)),
    (Call::Read(0, 0, 9), Answer::Bytes(b"old")),
    (Call::Set(0, b"n", b"v"), Answer::Same),
    (Call::Element(0, b"n"), Answer::Bytes(b"v")),
];

const WORKED: [&[Row<'static>]; 4] = [WRITER, READER, WRITER, DOOMED_READER];

const UNCHANGED: &[Row<'static>] = &[(Call::Close(0), Answer::Same)];

const CLOSED: [&[Row<'static>]; 4] = [
    &[(Call::Close(0), Answer::Wrote(5, 0, 1))],
    UNCHANGED,
    UNCHANGED,
    UNCHANGED,
];

const FOUND: &[Row<'static>] = &[
    (Call::Find(X), Answer::Found(1, 5, 5, 3)),
    (Call::Close(0), Answer::Refused(Refusal::NoSlot)),
];

const ABSENT: &[Row<'static>] = &[
    (Call::Find(X), Answer::Refused(Refusal::Absent)),
    (Call::Close(0), Answer::Refused(Refusal::NoSlot)),
];

// What is left of each.
const LEFT: [&[Row<'static>]; 4] = [FOUND, FOUND, ABSENT, ABSENT];

// The key of a slot has three bytes.
fn key_of(alloc: Global, slot: u8) -> Result<String, Fail> {
    let number = u64::from(slot).wrapping_add(10);
    Ok(format!(in alloc; ":{number}")?)
}

// The call of a table at a slot and its key.
fn call_at<'a>(call: &Call<'a>, slot: u8, key: &'a [u8]) -> Call<'a> {
    match *call {
        Call::Create(_, _, now) => Call::Create(slot, key, now),
        Call::Open(_, _) => Call::Open(slot, key),
        Call::Append(_, bytes) => Call::Append(slot, bytes),
        Call::Set(_, name, value) => Call::Set(slot, name, value),
        Call::Element(_, name) => Call::Element(slot, name),
        Call::Read(_, from, len) => Call::Read(slot, from, len),
        Call::Close(_) => Call::Close(slot),
        Call::Doom(_) => Call::Doom(key),
        Call::Find(_) => Call::Find(key),
        other => other,
    }
}

fn answer_at<'a>(answer: &Answer<'a>, key: &'a [u8]) -> Answer<'a> {
    match *answer {
        Answer::Gone(_) => Answer::Gone(key),
        Answer::Wrote(moment, content, size_kb) => {
            Answer::WroteUnder(key, moment, content, size_kb)
        }
        other => other,
    }
}

// Whether the rows are answered so at a slot.
fn slot_goes(
    rt: &HostRuntime,
    handles: &mut Handles,
    disk: &mut HostDisk<'_>,
    rows: &[Row<'_>],
    slot: u8,
    key: &[u8],
) -> bool {
    for index in 0..rows.len() {
        let (call, wanted) = rows[index];
        let row: Row<'_> = (call_at(&call, slot, key), answer_at(&wanted, key));
        if !is_answered(rt, handles, disk, &row) {
            return false;
        }
    }
    true
}

// Whether the rows are answered so at all slots, each so many after the last.
fn slots_go(
    rt: &HostRuntime,
    handles: &mut Handles,
    disk: &mut HostDisk<'_>,
    tables: &[&[Row<'_>]; 4],
    step: u8,
) -> Result<bool, Fail> {
    for turn in 0..64u8 {
        let slot = turn.wrapping_mul(step) % 64;
        let key = key_of(rt.alloc(), slot)?;
        let rows = tables[usize::from(slot % 4)];
        if !slot_goes(rt, handles, disk, rows, slot, key.as_bytes()) {
            return Ok(false);
        }
    }
    Ok(true)
}

// Whether so many names are open, and so many of them are being written.
fn has_names(alloc: Global, handles: &Handles, open: usize, writing: usize) -> Result<bool, Fail> {
    let names = handles.open_names(alloc)?;
    let written = handles.writing_names(alloc)?;
    Ok(names.as_slice().len() == open && written.as_slice().len() == writing)
}

// Whether the files of the entries that are left have their length, the others are gone, and no doomed file is there.
fn has_files(rt: &HostRuntime) -> Result<bool, Fail> {
    let alloc = rt.alloc();
    for slot in 0..64u8 {
        let name = text_of(alloc, &name_of(key_of(alloc, slot)?.as_bytes()))?;
        let path = format!(in alloc; "cache/entries/{name}")?;
        let due = if slot % 4 < 2 {
            Answer::Number(53)
        } else {
            Answer::Nothing
        };
        let number = u64::from(slot);
        let doomed = format!(in alloc; "cache/doomed/{number}")?;
        if !has_len(rt, &path, &due) || !has_len(rt, &doomed, &Answer::Nothing) {
            return Ok(false);
        }
    }
    Ok(true)
}

fn count_of<D: Disk>(alloc: Global, disk: &mut D) -> Option<usize> {
    let mut names = Names::new(alloc);
    match disk.entries(&mut names) {
        Ok(()) => Some(names.as_slice().len()),
        Err(_) => None,
    }
}

// Whether all slots are filled, worked in and closed in different orders, as the tables say, over entries that stand.
fn goes_through(
    rt: &HostRuntime,
    handles: &mut Handles,
    disk: &mut HostDisk<'_>,
) -> Result<bool, Fail> {
    Ok(
        slots_go(rt, handles, disk, &STANDING, 1)?
            && slots_go(rt, handles, disk, &FILLED, 1)?
            && has_names(rt.alloc(), handles, 32, 16)?
            && slots_go(rt, handles, disk, &WORKED, 27)?
            && slots_go(rt, handles, disk, &CLOSED, 37)?
            && has_names(rt.alloc(), handles, 0, 0)?
            && slots_go(rt, handles, disk, &LEFT, 1)?,
    )
}

// All 64 slots are in use at once: a quarter has new entries, a quarter such that stood, and the others both, doomed.
#[test]
fn all_slots_are_worked_in(rt: HostRuntime) -> Result<(), Fail> {
    let _ = fs::remove_dir_all(&rt, "cache");
    let mut disk = RealDisk::new(&rt, String::from_str(rt.alloc(), "cache")?);
    let mut handles = Handles::new(rt.alloc())?;
    assert!(rt; goes_through(&rt, &mut handles, &mut disk)?);
    assert!(rt; has_files(&rt)?);
    assert!(rt; count_of(rt.alloc(), &mut disk) == Some(32));
    Ok(())
}
