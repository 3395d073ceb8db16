ghost use Rattle.std.specs.Prelude.{◌≡◌, ◌≤◌, ◌+◌, length, IfOk, IsTrue};
ghost use Rattle.cache_base.specs.declared.limits.TheConstants.{BODY_MAX};
ghost use Rattle.disk_theory.specs.State.{standing};
ghost use Rattle.entry_file.specs.Held.{held};
ghost use Rattle.entry_file.specs.NewEntry.{IsItsFile};
ghost use Rattle.entry_parts.specs.Elements.{elements_bytes};

use super::*;
use entry_file::{NewEntry, begin};
use entry_metadata::{Meta, parse};
use std::test::Fail;

// The metadata of the file of `hello`, which have few bytes.
fn hello_meta(alloc: Global) -> Result<Meta, Fail>
    ensures { IfOk result (λ meta. length meta.key + length (elements_bytes meta.elements) ≤ 100) }
{
    let meta = parse(alloc, &HELLO[5..65], 5)?;
    if meta.key.as_slice().len() > 50 || meta.elements.len() > 50 {
        return Err(Fail::from("they have many"));
    }
    Ok(meta)
}

// A body of so many bytes.
pub(super) fn body_of(alloc: Global, len: usize) -> Result<Vec<u8>, Fail>
    ensures { IfOk result (λ body. length body.items ≡ len) }
{
    Ok(vec![in alloc; b'x'; len]?)
}

// A new entry whose body comes in three pieces.
pub(super) fn grow<D: Disk>(
    alloc: Global,
    disk: &mut D,
    place: &Place,
    first: &[u8],
    second: &[u8],
    third: &[u8],
) -> Result<NewEntry, DiskFault>
    requires { length first.now + (length second.now + length third.now) ≤ BODY_MAX }
    ensures { IfOk result (λ entry. IsTrue D.tells →
        IsItsFile (held entry) (standing (D.state disk.new) place.now)) }
{
    let mut entry = begin(alloc, disk, place)?;
    entry.append(disk, place, first)?;
    entry.append(disk, place, second)?;
    entry.append(disk, place, third)?;
    Ok(entry)
}

// Finishes the entry with the metadata of `hello`. Gives what is read before and after.
pub(super) fn finish<D: Disk>(
    alloc: Global,
    disk: &mut D,
    place: &Place,
    entry: NewEntry,
) -> Result<(Seen, Seen), Fail>
    requires { IsTrue D.tells → IsItsFile (held entry) (standing (D.state disk.old) place.now) }
{
    let Meta {
        header,
        key,
        elements,
        ..
    } = hello_meta(alloc)?;
    let before = seen_at(alloc, disk, place, &NAME)?;
    entry.finish(alloc, disk, place, header, key, elements)?;
    Ok((before, seen_at(alloc, disk, place, &NAME)?))
}

// An entry before it is finished: how long its body is, which bytes it holds, and how many bytes
// stand at its place after how many calls.
#[derive(Clone, Copy)]
struct Grown<'a> {
    len: u32,
    held: &'a [u8],
    stands: usize,
    calls: u64,
}

// Whether the entry and the disk are so. What stands is nothing or ends with the stop tail.
fn is_grown(disk: &MemDisk, place: &Place, entry: &NewEntry, grown: &Grown<'_>) -> bool {
    let stands = match disk.file(place) {
        Some(file) => file.len() == grown.stands
            && (file.is_empty() || file.ends_with(b"\xff\xff\xff\xff")),
        None => false,
    };
    stands && entry.len() == grown.len && entry.rest() == grown.held && disk.calls() == grown.calls
}

// Makes the file of a body in three pieces, and gives what stands before and after the end.
fn make(
    alloc: Global,
    disk: &mut MemDisk,
    place: &Place,
    first: &[u8],
    second: &[u8],
    third: &[u8],
    grown: &Grown<'_>,
) -> Result<(Seen, Seen), Fail>
    requires { length first.now + (length second.now + length third.now) ≤ BODY_MAX }
{
    let entry = grow(alloc, disk, place, first, second, third)?;
    if !is_grown(disk, place, &entry, grown) {
        return Err(Fail::from("it has not grown so"));
    }
    finish(alloc, disk, place, entry)
}

// Whether no entry's file stood there before the end, and then one of these lengths.
fn became(seen: (Seen, Seen), body: u32, len: u64) -> bool {
    seen.0 == Seen::Unfit(Unfit::Short) && seen.1 == Seen::Fits(body, len)
}

#[test]
fn a_body_in_pieces_makes_the_file_of_the_whole(rt: HostRuntime) -> Result<(), Fail> {
    let grown = Grown {
        len: 5,
        held: b"hello",
        stands: 0,
        calls: 1,
    };
    let mut disk = MemDisk::new(rt.alloc());
    let seen = make(rt.alloc(), &mut disk, &PLACE, b"he", b"", b"llo", &grown)?;
    assert!(rt; became(seen, 5, 69) && disk.calls() == 5);
    assert!(rt; disk.file(&PLACE) == Some(HELLO));
    Ok(())
}

#[test]
fn an_empty_body_has_no_hash(rt: HostRuntime) -> Result<(), Fail> {
    let grown = Grown {
        len: 0,
        held: b"",
        stands: 0,
        calls: 1,
    };
    let mut disk = MemDisk::new(rt.alloc());
    let seen = make(
        rt.alloc(),
        &mut disk,
        &Place::Doomed(7),
        b"",
        b"",
        b"",
        &grown,
    )?;
    assert!(rt; became(seen, 0, 62));
    Ok(())
}

// Makes the file of a body of a whole chunk and a little more, of which the chunk is written before the end.
fn make_with_chunk(alloc: Global, disk: &mut MemDisk, body: &[u8]) -> Result<(Seen, Seen), Fail>
    requires chunk { 262144 ≤ length body.now }
    requires limit { length body.now ≤ BODY_MAX }
{
    let (first, more) = body.split_at(1);
    let (second, third) = more.split_at(262_142);
    let grown = Grown {
        len: body.len() as u32,
        held: &third[1..],
        stands: 262_148,
        calls: 2,
    };
    make(alloc, disk, &PLACE, first, second, third, &grown)
}

#[test]
fn a_whole_chunk_is_written_at_once(rt: HostRuntime) -> Result<(), Fail> {
    let body = body_of(rt.alloc(), 262_144)?;
    let mut disk = MemDisk::new(rt.alloc());
    let seen = make_with_chunk(rt.alloc(), &mut disk, &body)?;
    assert!(rt; became(seen, 262_144, 262_208) && disk.calls() == 7);
    Ok(())
}

fn begins_with(disk: &MemDisk, bytes: &[u8]) -> bool {
    match disk.file(&PLACE) {
        Some(file) => file.starts_with(bytes),
        None => false,
    }
}

#[test]
fn a_chunk_is_written_before_what_follows(rt: HostRuntime) -> Result<(), Fail> {
    let body = body_of(rt.alloc(), 262_145)?;
    let mut disk = MemDisk::new(rt.alloc());
    let seen = make_with_chunk(rt.alloc(), &mut disk, &body)?;
    assert!(rt; became(seen, 262_145, 262_211) && begins_with(&disk, &body));
    Ok(())
}

// Whether the third call fails, when the first chunk is written with the stop tail.
fn fails_in_the_middle(alloc: Global, disk: &mut MemDisk, body: &[u8]) -> bool
    requires { length body.now ≡ 600000 }
{
    let grown = grow(alloc, disk, &PLACE, body, b"y", b"");
    let ends = match disk.file(&PLACE) {
        Some(file) => file.ends_with(b"\xff\xff\xff\xff"),
        None => false,
    };
    matches!(grown, Err(DiskFault::Failed)) && disk.calls() == 3 && ends
}

#[test]
fn a_disk_that_fails_in_the_middle_is_answered(rt: HostRuntime) -> Result<(), Fail> {
    let body = body_of(rt.alloc(), 600_000)?;
    let mut disk = MemDisk::new(rt.alloc());
    disk.stop_after(2);
    assert!(rt; fails_in_the_middle(rt.alloc(), &mut disk, &body));
    Ok(())
}
