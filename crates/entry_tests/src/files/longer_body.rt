ghost use Rattle.std.specs.Prelude.{◌≡◌, ◌≤◌, length, IfOk, IfSome, IsTrue};
ghost use Rattle.cache_base.specs.declared.limits.TheConstants.{BODY_MAX};
ghost use Rattle.disk_theory.specs.State.{standing};
ghost use Rattle.entry_file.specs.LongerBody.{StoresShorter};
ghost use Rattle.entry_file.specs.Rewriting.{StoresBody};
ghost use Rattle.entry_metadata.specs.Meta.{meta_of};
ghost use Rattle.entry_parts.specs.Elements.{elements_bytes};

use super::new_entry::body_of;
use super::rewriting::{find_undamaged, is_file, put, undamaged};
use super::*;
use alt_data::{ALT_DATA, AltInfo, alt_value, grown_hashes, info};
use cache_base::{ALT_MAX, BODY_MAX, Buffer};
use disk_model::ImageFault;
use entry_file::grow_body;
use entry_metadata::Meta;
use entry_parts::Elements;
use std::test::Fail;

// How many times `x` a body has, and what stands after it in its file where `XY` of the kind `wasm` is
// put there.
type Row<'a> = (usize, &'a [u8]);

const ROWS: &[Row<'static>] = &[
    (
        0,
        b"XY\x7f\x90\xef\xa23q\
        \0\0\0\x03\0\0\0\x01\0\0\x03\xe8\0\0\x03\xe8\0\0\x03\xe8\xff\xff\xff\xff\0\0\0\x15\0\0\0\0\
        :https://example.com/\0alt-data\01;0,wasm\0\0\0\0\x02",
    ),
    (
        1,
        b"XY\xb7\xde\xe2\x83Q\xfc\
        \0\0\0\x03\0\0\0\x01\0\0\x03\xe8\0\0\x03\xe8\0\0\x03\xe8\xff\xff\xff\xff\0\0\0\x15\0\0\0\0\
        :https://example.com/\0alt-data\01;1,wasm\0\0\0\0\x03",
    ),
    (
        262_143,
        b"XYw'EW\x96\xd6S\x82\
        \0\0\0\x03\0\0\0\x01\0\0\x03\xe8\0\0\x03\xe8\0\0\x03\xe8\xff\xff\xff\xff\0\0\0\x15\0\0\0\0\
        :https://example.com/\0alt-data\01;262143,wasm\0\0\x04\0\x01",
    ),
    (
        262_144,
        b"XYx\x80c}\xf9\xb43q\
        \0\0\0\x03\0\0\0\x01\0\0\x03\xe8\0\0\x03\xe8\0\0\x03\xe8\xff\xff\xff\xff\0\0\0\x15\0\0\0\0\
        :https://example.com/\0alt-data\01;262144,wasm\0\0\x04\0\x02",
    ),
    (
        262_145,
        b"XY\xc1'\x97\xd4\xf9\xb4Q\xfc\
        \0\0\0\x03\0\0\0\x01\0\0\x03\xe8\0\0\x03\xe8\0\0\x03\xe8\xff\xff\xff\xff\0\0\0\x15\0\0\0\0\
        :https://example.com/\0alt-data\01;262145,wasm\0\0\x04\0\x03",
    ),
];

// The elements with alternative data from the offset on, if they have few bytes.
fn with_alt(alloc: Global, elements: Elements, offset: u32) -> Result<Option<Elements>, DiskFault>
    ensures { IfOk result (λ new. IfSome new (λ es. length (elements_bytes es) ≤ 50)) }
{
    let value = alt_value(alloc, offset, b"wasm")?;
    let mut elements = elements;
    if elements.set(ALT_DATA, value.as_slice()).is_err() || elements.len() > 50 {
        return Ok(None);
    }
    Ok(Some(elements))
}

// The metadata of an entry with alternative data after its body, if they have few bytes.
fn lengthened<D: Disk>(
    alloc: Global,
    disk: &mut D,
    place: &Place,
    meta: Meta,
    alt: &[u8],
) -> Result<Option<Meta>, DiskFault>
    requires { IsTrue D.tells → StoresBody (standing (D.state disk.old) place.now) (meta_of meta) }
    ensures len { IfOk result (λ new. IfSome new (λ meta. length alt.now ≤ meta.offset)) }
    ensures told { IfOk result (λ new. IfSome new (λ meta. IsTrue D.tells
        → StoresShorter (standing (D.state disk.new) place.now) (meta_of meta) alt.now)) }
{
    if meta.key.as_slice().len() > 50 {
        return Ok(None);
    }
    if alt.len() > BODY_MAX {
        return Ok(None);
    }
    if meta.offset as usize > BODY_MAX - alt.len() {
        return Ok(None);
    }
    let Meta {
        header,
        key,
        elements,
        hashes,
        offset,
    } = meta;
    let hashes = grown_hashes(alloc, disk, place, offset, &hashes, alt)?;
    if hashes.as_slice().len() > 250 {
        return Ok(None);
    }
    let Some(elements) = with_alt(alloc, elements, offset)? else {
        return Ok(None);
    };
    let offset = offset + alt.len() as u32;
    Ok(Some(Meta {
        header,
        key,
        elements,
        hashes,
        offset,
    }))
}

// Puts alternative data after the body of an entry. Tells whether that was done.
fn put_after<D: Disk>(
    alloc: Global,
    disk: &mut D,
    place: &Place,
    buf: &mut Buffer,
    alt: &[u8],
) -> Result<bool, DiskFault> {
    let Some(meta) = find_undamaged(alloc, disk, place, buf)? else {
        return Ok(false);
    };
    let Some(meta) = lengthened(alloc, disk, place, meta, alt)? else {
        return Ok(false);
    };
    grow_body(alloc, disk, place, &meta, alt)?;
    Ok(true)
}

// Whether the elements tell of the kind `wasm` from this offset on.
fn tells(meta: &Meta, offset: usize) -> bool {
    match info(&meta.elements, meta.offset) {
        Some(
            AltInfo {
                offset: found,
                kind,
            },
        ) => found as usize == offset && kind == b"wasm".as_slice(),
        None => false,
    }
}

// Whether `XY` is put after such a body, and found there.
fn is_put(
    alloc: Global,
    disk: &mut MemDisk,
    buf: &mut Buffer,
    row: &Row<'_>,
) -> Result<bool, Fail> {
    if row.0 > BODY_MAX {
        return Ok(false);
    }
    let body = body_of(alloc, row.0)?;
    put(alloc, disk, &body)?;
    let put = put_after(alloc, disk, &PLACE, buf, b"XY")?;
    let meta = undamaged(alloc, disk, &PLACE, buf)?;
    Ok(put && tells(&meta, row.0) && is_file(disk, &body, row.1))
}

#[test]
fn a_finished_body_grows_at_the_edges_of_chunks(rt: HostRuntime) -> Result<(), Fail> {
    let mut buf = Buffer::new(rt.alloc())?;
    for row in ROWS {
        let mut disk = MemDisk::new(rt.alloc());
        assert!(rt; is_put(rt.alloc(), &mut disk, &mut buf, row)?);
    }
    Ok(())
}

// Whether a crash may leave the file with another byte at this place.
fn leaves_changed(alloc: Global, disk: &MemDisk, at: usize) -> Result<bool, Fail> {
    let Some(file) = disk.file(&PLACE) else {
        return Err(Fail::from("no file stands there"));
    };
    let mut bytes = Vec::from_slice(alloc, file)?;
    if let Some(there) = bytes.get_mut(at) {
        *there = b'!';
    }
    let mut files = Vec::new(alloc);
    files.push((PLACE, Bytes::from_vec(bytes)))?;
    match disk.image(0, files) {
        Ok(_) => Ok(true),
        Err(ImageFault::NotAnImage) => Ok(false),
        Err(ImageFault::Memory) => Err(Fail::from("out of memory")),
    }
}

// The calls of a growth: two for the metadata, one for the only chunk, one for its hash, and the write.
const CALLS: u64 = 5;

// Whether a disk that stops after so many calls of a growth has the body in each image, and whether only
// the body once the write began.
fn is_kept(
    alloc: Global,
    disk: &mut MemDisk,
    buf: &mut Buffer,
    body: &[u8],
    alt: &[u8],
    calls: u64,
) -> Result<bool, Fail>
    requires { length body.now ≤ BODY_MAX }
{
    put(alloc, disk, body)?;
    disk.sync()?;
    let before = disk.calls();
    disk.stop_after(before.saturating_add(calls));
    let grown = put_after(alloc, disk, &PLACE, buf, alt) == Ok(true);
    let first = leaves_changed(alloc, disk, 0)?;
    let last = leaves_changed(alloc, disk, body.len().saturating_sub(1))?;
    let after = leaves_changed(alloc, disk, body.len())?;
    let began = calls.saturating_add(1) >= CALLS;
    Ok(!first && !last && after == began && grown == (calls >= CALLS))
}

// How many stops keep the body, up to the first that does not.
fn stops_kept(alloc: Global, buf: &mut Buffer, body: &[u8], alt: &[u8]) -> Result<u64, Fail>
    requires { length body.now ≤ BODY_MAX }
{
    for calls in 0..CALLS + 1 {
        let mut disk = MemDisk::new(alloc);
        if !is_kept(alloc, &mut disk, buf, body, alt, calls)? {
            return Ok(calls);
        }
    }
    Ok(CALLS + 1)
}

#[test]
fn a_stop_at_each_call_keeps_the_body(rt: HostRuntime) -> Result<(), Fail> {
    let mut buf = Buffer::new(rt.alloc())?;
    let body = body_of(rt.alloc(), 262_143)?;
    let alt = vec![in rt.alloc(); b'y'; ALT_MAX]?;
    assert_eq!(rt; stops_kept(rt.alloc(), &mut buf, &body, &alt)?, 6);
    assert_eq!(rt; stops_kept(rt.alloc(), &mut buf, b"hello", b"XY")?, 6);
    Ok(())
}
