//! The handles over a folder of the machine: tables of calls, each with its answer.

ghost use Rattle.std.specs.Prelude.{◌<◌};

mod chunks;
mod doomed;
mod elements;
mod given;
mod pins;
mod refusals;
mod sessions;
mod slots;
mod users;

use cache_base::{Bytes, Moment, Name, Names, NoMemory};
use disk_theory::DiskFault;
use entry_metadata::Meta;
use entry_name::name_of;
use entry_parts::{Elements, Header};
use file_handles::{Effect, HandleFault, Handles, Refusal};
use index_record::{INITIALIZED, IndexRecord, NO_TIME, PINNED};
use real_disk::RealDisk;
use std::test::Fail;
use std::{fs, mem};

type HostDisk<'a> = RealDisk<'a, HostRuntime>;

const X: &[u8] = b":https://x/";

const X_PATH: &str = "cache/entries/FFA483082FB38F7A9B0622078DC25FC6BF89E7A3";

// The name of this key begins with the lesser byte.
const Y: &[u8] = b":https://y/";

// A call of the handles, or a look at the folder or a change of it that they do not see.
#[derive(Clone, Copy)]
enum Call<'a> {
    Create(u8, &'a [u8], Moment),
    // Each slot writes an entry: the first that of the key `:!`.
    CreateAll,
    Open(u8, &'a [u8]),
    Append(u8, &'a [u8]),
    // A whole chunk of this byte.
    AppendChunk(u8, u8),
    Finish(u8),
    // With this header, and elements of these bytes.
    FinishAs(u8, Header, &'a [u8]),
    // With this header, and an element whose value has so many bytes.
    FinishLong(u8, Header, usize),
    Set(u8, &'a [u8], &'a [u8]),
    Unset(u8, &'a [u8]),
    Element(u8, &'a [u8]),
    BodyLen(u8),
    // So many bytes from this place on.
    Read(u8, u64, u64),
    Use(u8, Moment),
    Pin(u8),
    Unpin(u8),
    Close(u8),
    // All handles are closed, and others go on over the same folder.
    CloseAll,
    Doom(&'a [u8]),
    // What stands under the name of the key.
    DoomName(&'a [u8]),
    Find(&'a [u8]),
    // Where no slot uses the entry.
    Evict(&'a [u8]),
    Users(&'a [u8]),
    OpenNames,
    // Those that a clearing of the origin with this hash takes.
    OpenOf(u64),
    WritingNames,
    FileLen(&'a str),
    ChangeFirstByte(&'a str),
    RemoveFile(&'a str),
}

// What is answered.
#[derive(Clone, Copy)]
enum Answer<'a> {
    Done,
    // The index learns nothing.
    Same,
    Gone(&'a [u8]),
    // The record of the key X: its moment, content type and size.
    Wrote(Moment, u8, u32),
    // The same of an entry that is pinned.
    WrotePinned(Moment, u8, u32),
    // The same of this key.
    WroteUnder(&'a [u8], Moment, u8, u32),
    // Fetch count, last modified, frecency, and the length of the body.
    Found(u32, Moment, Moment, u32),
    Bytes(&'a [u8]),
    Number(u64),
    Keys(&'a [&'a [u8]]),
    Nothing,
    Refused(Refusal),
}

type Row<'a> = (Call<'a>, Answer<'a>);

// The record of an entry whose key has no origin, and so the hash of none. The size has the flags beside it.
fn wrote(key: &[u8], frecency: Moment, content: u8, size_kb: u32) -> Option<Effect> {
    Some(Effect::Wrote(IndexRecord {
        name: name_of(key),
        frecency,
        origin: 0xDA39_A3EE_5E6B_4B0D,
        on_start: NO_TIME,
        on_stop: NO_TIME,
        content,
        flags: INITIALIZED | size_kb,
    }))
}

// What the index has to learn, where the answer is that.
fn effect_of(answer: &Answer<'_>) -> Option<Effect> {
    match *answer {
        Answer::Same => Some(Effect::Same),
        Answer::Gone(key) => Some(Effect::Gone(name_of(key))),
        Answer::Wrote(frecency, content, size_kb) => wrote(X, frecency, content, size_kb),
        Answer::WrotePinned(frecency, content, size_kb) => {
            wrote(X, frecency, content, PINNED | size_kb)
        }
        Answer::WroteUnder(key, frecency, content, size_kb) => {
            wrote(key, frecency, content, size_kb)
        }
        _ => None,
    }
}

fn is_refused(fault: HandleFault, wanted: &Answer<'_>) -> bool {
    match (fault, *wanted) {
        (HandleFault::Refused(refusal), Answer::Refused(due)) => refusal == due,
        _ => false,
    }
}

fn learns(answered: Result<Effect, HandleFault>, wanted: &Answer<'_>) -> bool {
    match answered {
        Ok(effect) => effect_of(wanted) == Some(effect),
        Err(fault) => is_refused(fault, wanted),
    }
}

fn is_done(answered: Result<(), HandleFault>, wanted: &Answer<'_>) -> bool {
    match answered {
        Ok(()) => matches!(*wanted, Answer::Done),
        Err(fault) => is_refused(fault, wanted),
    }
}

fn unsets(answered: Result<Option<Effect>, HandleFault>, wanted: &Answer<'_>) -> bool {
    match answered {
        Ok(Some(effect)) => effect_of(wanted) == Some(effect),
        Ok(None) => matches!(*wanted, Answer::Nothing),
        Err(fault) => is_refused(fault, wanted),
    }
}

fn gives(found: Option<&[u8]>, wanted: &Answer<'_>) -> bool {
    match (found, *wanted) {
        (Some(bytes), Answer::Bytes(due)) => bytes == due,
        (None, Answer::Nothing) => true,
        _ => false,
    }
}

fn is_number(number: u64, wanted: &Answer<'_>) -> bool {
    matches!(*wanted, Answer::Number(due) if due == number)
}

fn finds(meta: &Meta, wanted: &Answer<'_>) -> bool {
    let header = meta.header;
    match *wanted {
        Answer::Found(count, modified, frecency, len) => {
            header.fetch_count == count
                && header.last_modified == modified
                && header.frecency == frecency
                && meta.offset == len
        }
        _ => false,
    }
}

fn are_names(names: Result<Names, NoMemory>, wanted: &Answer<'_>) -> bool {
    let (Ok(names), Answer::Keys(keys)) = (names, *wanted) else {
        return false;
    };
    let found = names.as_slice();
    found.len() == keys.len()
        && found.iter().zip(keys).all(|(name, key)| {
            let key = *key;
            *name == name_of(key)
        })
}

fn is_read(
    rt: &HostRuntime,
    handles: &mut Handles,
    disk: &mut HostDisk<'_>,
    slot: u8,
    from: u64,
    len: u64,
    wanted: &Answer<'_>,
) -> bool
    requires { slot < 64 }
{
    match handles.read_part(rt.alloc(), disk, slot, from, len) {
        Ok(part) => gives(Some(part), wanted),
        Err(fault) => is_refused(fault, wanted),
    }
}

fn is_found(
    rt: &HostRuntime,
    handles: &mut Handles,
    disk: &mut HostDisk<'_>,
    key: &[u8],
    wanted: &Answer<'_>,
) -> bool {
    match handles.find(rt.alloc(), disk, key) {
        Ok(meta) => finds(&meta, wanted),
        Err(fault) => is_refused(fault, wanted),
    }
}

fn append_chunk(
    rt: &HostRuntime,
    handles: &mut Handles,
    disk: &mut HostDisk<'_>,
    slot: u8,
    byte: u8,
) -> Result<(), HandleFault>
    requires { slot < 64 }
{
    match vec![in rt.alloc(); byte; 262_144] {
        Ok(chunk) => handles.append(disk, slot, &chunk),
        Err(_) => Err(HandleFault::Memory),
    }
}

fn finish_as(
    rt: &HostRuntime,
    handles: &mut Handles,
    disk: &mut HostDisk<'_>,
    slot: u8,
    header: Header,
    bytes: &[u8],
) -> Result<Effect, HandleFault>
    requires { slot < 64 }
{
    match Elements::parse(rt.alloc(), bytes) {
        Ok(elements) => handles.finish_as(rt.alloc(), disk, slot, header, elements),
        Err(_) => Err(HandleFault::Memory),
    }
}

// An element of the name `e` and so many bytes.
fn long_element(rt: &HostRuntime, len: usize) -> Result<Bytes, NoMemory> {
    let mut bytes = Bytes::new(rt.alloc());
    bytes.extend(b"e\0")?;
    bytes.extend(&vec![in rt.alloc(); b'v'; len]?)?;
    bytes.push(0)?;
    Ok(bytes)
}

fn finish_long(
    rt: &HostRuntime,
    handles: &mut Handles,
    disk: &mut HostDisk<'_>,
    slot: u8,
    header: Header,
    len: usize,
) -> Result<Effect, HandleFault>
    requires { slot < 64 }
{
    match long_element(rt, len) {
        Ok(bytes) => finish_as(rt, handles, disk, slot, header, bytes.as_slice()),
        Err(_) => Err(HandleFault::Memory),
    }
}

// Makes an entry for each slot, whose keys differ in their last byte.
fn create_all(
    rt: &HostRuntime,
    handles: &mut Handles,
    disk: &mut HostDisk<'_>,
) -> Result<(), HandleFault> {
    for slot in 0..64 {
        let _effect = handles.create(rt.alloc(), disk, slot, &[b':', b'!' + slot], 1)?;
    }
    Ok(())
}

// Evicts an entry, if no slot uses it.
fn evict_unused(
    handles: &mut Handles,
    disk: &mut HostDisk<'_>,
    name: &Name,
) -> Result<(), DiskFault> {
    if handles.users(name) == 0 {
        handles.evict(disk, name)
    } else {
        Err(DiskFault::Failed)
    }
}

fn are_closed(rt: &HostRuntime, handles: &mut Handles, disk: &mut HostDisk<'_>) -> bool {
    match Handles::new(rt.alloc()) {
        Ok(others) => mem::replace(handles, others).close_all(disk).is_ok(),
        Err(_) => false,
    }
}

// Whether a call on a slot is answered so.
fn slot_answers(
    rt: &HostRuntime,
    handles: &mut Handles,
    disk: &mut HostDisk<'_>,
    slot: u8,
    call: &Call<'_>,
    wanted: &Answer<'_>,
) -> bool
    requires { slot < 64 }
{
    let alloc = rt.alloc();
    match *call {
        Call::Create(_, key, now) => learns(handles.create(alloc, disk, slot, key, now), wanted),
        Call::Open(_, key) => is_done(handles.open(alloc, disk, slot, key), wanted),
        Call::Append(_, bytes) => is_done(handles.append(disk, slot, bytes), wanted),
        Call::AppendChunk(_, byte) => is_done(append_chunk(rt, handles, disk, slot, byte), wanted),
        Call::Finish(_) => learns(handles.finish(alloc, disk, slot), wanted),
        Call::FinishAs(_, header, bytes) => {
            learns(finish_as(rt, handles, disk, slot, header, bytes), wanted)
        }
        Call::FinishLong(_, header, len) => {
            learns(finish_long(rt, handles, disk, slot, header, len), wanted)
        }
        Call::Set(_, name, value) => {
            learns(handles.set_element(alloc, disk, slot, name, value), wanted)
        }
        Call::Unset(_, name) => unsets(handles.unset_element(alloc, disk, slot, name), wanted),
        Call::Use(_, now) => learns(handles.use_entry(alloc, disk, slot, now), wanted),
        Call::Pin(_) => learns(handles.set_pin(alloc, disk, slot, true), wanted),
        Call::Unpin(_) => learns(handles.set_pin(alloc, disk, slot, false), wanted),
        Call::Close(_) => learns(handles.close(alloc, disk, slot), wanted),
        Call::Read(_, from, len) => is_read(rt, handles, disk, slot, from, len, wanted),
        _ => false,
    }
}

// Whether what is only looked up of a slot is answered so.
fn slot_tells(handles: &Handles, slot: u8, call: &Call<'_>, wanted: &Answer<'_>) -> bool
    requires { slot < 64 }
{
    match *call {
        Call::Element(_, name) => match handles.element(slot, name) {
            Ok(found) => gives(found, wanted),
            Err(refusal) => is_refused(HandleFault::Refused(refusal), wanted),
        },
        Call::BodyLen(_) => match handles.body_len(slot) {
            Ok(len) => is_number(u64::from(len), wanted),
            Err(refusal) => is_refused(HandleFault::Refused(refusal), wanted),
        },
        _ => false,
    }
}

fn slot_of(call: &Call<'_>) -> Option<u8> {
    match *call {
        Call::Create(slot, _, _)
        | Call::Open(slot, _)
        | Call::Append(slot, _)
        | Call::AppendChunk(slot, _)
        | Call::Finish(slot)
        | Call::FinishAs(slot, _, _)
        | Call::FinishLong(slot, _, _)
        | Call::Set(slot, _, _)
        | Call::Unset(slot, _)
        | Call::Element(slot, _)
        | Call::BodyLen(slot)
        | Call::Read(slot, _, _)
        | Call::Use(slot, _)
        | Call::Pin(slot)
        | Call::Unpin(slot)
        | Call::Close(slot) => Some(slot),
        _ => None,
    }
}

fn is_changed(rt: &HostRuntime, path: &str) -> bool {
    match fs::read(rt, path) {
        Ok(mut bytes) => {
            if let Some(first) = bytes.first_mut() {
                *first ^= 2;
            }
            fs::write(rt, path, &bytes).is_ok()
        }
        Err(_) => false,
    }
}

// Whether a file has so many bytes, or is missing.
fn has_len(rt: &HostRuntime, path: &str, wanted: &Answer<'_>) -> bool {
    match fs::metadata(rt, path) {
        Ok(found) => is_number(found.len(), wanted),
        Err(_) => matches!(*wanted, Answer::Nothing),
    }
}

// Whether a look at the folder, or a change of it, goes so.
fn folder_answers(rt: &HostRuntime, call: &Call<'_>, wanted: &Answer<'_>) -> bool {
    match *call {
        Call::FileLen(path) => has_len(rt, path, wanted),
        Call::ChangeFirstByte(path) => is_changed(rt, path),
        Call::RemoveFile(path) => fs::remove_file(rt, path).is_ok(),
        _ => false,
    }
}

// Whether a call on no slot is answered so.
fn answers(
    rt: &HostRuntime,
    handles: &mut Handles,
    disk: &mut HostDisk<'_>,
    call: &Call<'_>,
    wanted: &Answer<'_>,
) -> bool {
    let alloc = rt.alloc();
    match *call {
        Call::CreateAll => is_done(create_all(rt, handles, disk), wanted),
        Call::CloseAll => are_closed(rt, handles, disk),
        Call::Doom(key) => learns(handles.doom(alloc, disk, key), wanted),
        Call::DoomName(key) => learns(handles.doom_name(disk, &name_of(key)), wanted),
        Call::Find(key) => is_found(rt, handles, disk, key, wanted),
        Call::Evict(key) => {
            evict_unused(handles, disk, &name_of(key)).is_ok() == matches!(*wanted, Answer::Done)
        }
        Call::Users(key) => is_number(handles.users(&name_of(key)) as u64, wanted),
        Call::OpenNames => are_names(handles.open_names(alloc), wanted),
        Call::OpenOf(origin) => are_names(handles.open_of(alloc, origin), wanted),
        Call::WritingNames => are_names(handles.writing_names(alloc), wanted),
        _ => folder_answers(rt, call, wanted),
    }
}

fn is_answered(
    rt: &HostRuntime,
    handles: &mut Handles,
    disk: &mut HostDisk<'_>,
    row: &Row<'_>,
) -> bool {
    let (call, wanted) = *row;
    match slot_of(&call) {
        None => answers(rt, handles, disk, &call, &wanted),
        Some(slot) if slot < 64 => {
            slot_answers(rt, handles, disk, slot, &call, &wanted)
                || slot_tells(handles, slot, &call, &wanted)
        }
        Some(_) => false,
    }
}

// How many rows are answered so, one after the other in an empty folder, up to the first that is not. Tests run in one
// folder, and what another one left goes first.
fn rows_answered(rt: &HostRuntime, rows: &[Row<'_>]) -> Result<usize, Fail> {
    let _ = fs::remove_dir_all(rt, "cache");
    let mut disk = RealDisk::new(rt, String::from_str(rt.alloc(), "cache")?);
    let mut handles = Handles::new(rt.alloc())?;
    for index in 0..rows.len() {
        if !is_answered(rt, &mut handles, &mut disk, &rows[index]) {
            return Ok(index);
        }
    }
    Ok(rows.len())
}
