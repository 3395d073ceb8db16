ghost use Rattle.std.specs.Prelude.{◌≡◌, ◌≤◌, length, IfOk, IfSome, IsTrue};
ghost use Rattle.cache_base.specs.declared.limits.TheConstants.{BODY_MAX};
ghost use Rattle.disk_theory.specs.State.{standing};
ghost use Rattle.entry_file.specs.Rewriting.{StoresBody};
ghost use Rattle.entry_metadata.specs.Meta.{meta_of};
ghost use Rattle.entry_parts.specs.Elements.{elements_bytes};

use super::new_entry::{body_of, finish, grow};
use super::*;
use cache_base::Buffer;
use entry_file::{check_body, rewrite_meta};
use entry_metadata::Meta;
use entry_parts::Elements;
use std::test::Fail;

// What stands after the body in the file of `hello` where the element `a` is `bc`.
const HELLO_END: &[u8] = b"\xa9\xf8\xdf\xcb\x39\x9e\
    \0\0\0\x03\0\0\0\x01\0\0\x03\xe8\0\0\x03\xe8\0\0\x03\xe8\xff\xff\xff\xff\0\0\0\x15\0\0\0\0\
    :https://example.com/\0a\0bc\0\0\0\0\x05";

// The same after 262,145 times `x`.
const LONG_END: &[u8] = b"\xef\xfc\xd6\xc1\xf9\xb4\xaf\x33\
    \0\0\0\x03\0\0\0\x01\0\0\x03\xe8\0\0\x03\xe8\0\0\x03\xe8\xff\xff\xff\xff\0\0\0\x15\0\0\0\0\
    :https://example.com/\0a\0bc\0\0\x04\0\x01";

// Puts the entry of this body on the disk.
pub(super) fn put(alloc: Global, disk: &mut MemDisk, body: &[u8]) -> Result<(), Fail>
    requires { length body.now ≤ BODY_MAX }
{
    let entry = grow(alloc, disk, &PLACE, body, b"", b"")?;
    finish(alloc, disk, &PLACE, entry)?;
    Ok(())
}

// The metadata of an entry whose body is undamaged, if one stands there.
pub(super) fn find_undamaged<D: Disk>(
    alloc: Global,
    disk: &mut D,
    place: &Place,
    buf: &mut Buffer,
) -> Result<Option<Meta>, DiskFault>
    ensures { IfOk result (λ found. IfSome found (λ meta. IsTrue D.tells
        → StoresBody (standing (D.state disk.new) place.now) (meta_of meta))) }
{
    let EntryRead::Fits { meta, .. } = read_meta(alloc, disk, place, &NAME)? else {
        return Ok(None);
    };
    match check_body(disk, place, &meta, buf)? {
        None => Ok(Some(meta)),
        Some(_) => Ok(None),
    }
}

// The metadata of an entry whose body is undamaged.
pub(super) fn undamaged<D: Disk>(
    alloc: Global,
    disk: &mut D,
    place: &Place,
    buf: &mut Buffer,
) -> Result<Meta, Fail>
    ensures { IfOk result (λ meta. IsTrue D.tells →
        StoresBody (standing (D.state disk.new) place.now) (meta_of meta)) }
{
    match find_undamaged(alloc, disk, place, buf)? {
        Some(meta) => Ok(meta),
        None => Err(Fail::from("it does not fit, or is damaged")),
    }
}

// The elements with the element `a`, which have few bytes.
fn with_element(elements: Elements, value: &[u8]) -> Result<Elements, Fail>
    ensures { IfOk result (λ new. length (elements_bytes new) ≤ 50) }
{
    let mut elements = elements;
    elements.set(b"a", value)?;
    if elements.len() > 50 {
        return Err(Fail::from("they have many"));
    }
    Ok(elements)
}

// The metadata with the element `a`.
fn changed(meta: Meta, value: &[u8]) -> Result<Meta, Fail>
    ensures offset { IfOk result (λ new. new.offset ≡ meta.offset) }
    ensures hashes { IfOk result (λ new. new.hashes ≡ meta.hashes) }
{
    if meta.key.as_slice().len() > 50 || meta.hashes.as_slice().len() > 50 {
        return Err(Fail::from("they have many"));
    }
    let Meta {
        header,
        key,
        elements,
        hashes,
        offset,
    } = meta;
    let elements = with_element(elements, value)?;
    Ok(Meta {
        header,
        key,
        elements,
        hashes,
        offset,
    })
}

// Whether the element `a` has this value.
fn has_value(meta: &Meta, value: &[u8]) -> bool {
    meta.elements.get(b"a") == Some(value)
}

// Gives the element `a` of an entry this value. Tells whether it is read then.
fn set<D: Disk>(
    alloc: Global,
    disk: &mut D,
    place: &Place,
    buf: &mut Buffer,
    value: &[u8],
) -> Result<bool, Fail> {
    let meta = changed(undamaged(alloc, disk, place, buf)?, value)?;
    rewrite_meta(alloc, disk, place, &meta)?;
    Ok(has_value(&undamaged(alloc, disk, place, buf)?, value))
}

// Whether the file is this body with this end.
pub(super) fn is_file(disk: &MemDisk, body: &[u8], end: &[u8]) -> bool {
    match disk.file(&PLACE) {
        Some(file) => file.starts_with(body)
            && file.ends_with(end)
            && file.len() == body.len() + end.len(),
        None => false,
    }
}

// Whether an entry of one chunk is made and rewritten, by twelve calls.
fn is_rewritten(alloc: Global, disk: &mut MemDisk, buf: &mut Buffer) -> Result<bool, Fail> {
    put(alloc, disk, b"hello")?;
    let set = set(alloc, disk, &PLACE, buf, b"bc")?;
    Ok(set && is_file(disk, b"hello", HELLO_END) && disk.calls() == 12)
}

#[test]
fn the_metadata_of_one_chunk_are_written_anew(rt: HostRuntime) -> Result<(), Fail> {
    let mut buf = Buffer::new(rt.alloc())?;
    let mut disk = MemDisk::new(rt.alloc());
    assert!(rt; is_rewritten(rt.alloc(), &mut disk, &mut buf)?);
    Ok(())
}

// Whether an entry of two chunks is made, and rewritten with a longer end and then a shorter one.
fn is_rewritten_twice(
    alloc: Global,
    disk: &mut MemDisk,
    buf: &mut Buffer,
    body: &[u8],
) -> Result<bool, Fail>
    requires { length body.now ≤ BODY_MAX }
{
    put(alloc, disk, body)?;
    let long = set(alloc, disk, &PLACE, buf, b"some more bytes")?;
    let short = set(alloc, disk, &PLACE, buf, b"bc")?;
    Ok(long && short && is_file(disk, body, LONG_END))
}

#[test]
fn the_metadata_of_two_chunks_are_written_anew(rt: HostRuntime) -> Result<(), Fail> {
    let body = body_of(rt.alloc(), 262_145)?;
    let mut buf = Buffer::new(rt.alloc())?;
    let mut disk = MemDisk::new(rt.alloc());
    assert!(rt; is_rewritten_twice(rt.alloc(), &mut disk, &mut buf, &body)?);
    Ok(())
}

// Whether this file of an older version is rewritten as version 3.
fn is_made_new(alloc: Global, old: &[u8], buf: &mut Buffer) -> Result<bool, Fail> {
    let mut disk = disk_with(alloc, old)?;
    let set = set(alloc, &mut disk, &PLACE, buf, b"bc")?;
    Ok(set && is_file(&disk, b"hello", HELLO_END))
}

#[test]
fn an_old_file_is_rewritten_as_version_3(rt: HostRuntime) -> Result<(), Fail> {
    let mut buf = Buffer::new(rt.alloc())?;
    assert!(rt; is_made_new(rt.alloc(), HELLO_FIRST, &mut buf)?);
    assert!(rt; is_made_new(rt.alloc(), HELLO_SECOND, &mut buf)?);
    Ok(())
}
