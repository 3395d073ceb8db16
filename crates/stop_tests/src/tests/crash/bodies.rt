//! Bodies that are whole entry files: none is found as one.

use super::*;
use std::test::Fail;

// A script that makes an entry with a body of these bytes, and flushes before it is finished.
fn script_with(alloc: Global, body: &[u8]) -> Result<Bytes, Fail> {
    let mut script = bytes(alloc, b"create 0 :https://example.com/\nappend 0 262145\n")?;
    script.extend(body)?;
    script.extend(b"\nflush\n")?;
    Ok(script)
}

// A body that is a whole entry file of a chunk's length, and a byte.
fn imitating_body(alloc: Global) -> Result<Bytes, Fail> {
    let inner = vec![in alloc; b'i'; 262_080]?;
    let mut disk = MemDisk::new(alloc);
    let mut body = put_on(alloc, &mut disk, &inner)?;
    body.push(b'x')?;
    Ok(body)
}

// A disk that stopped as soon as the body was appended.
fn appended(alloc: Global, body: &[u8]) -> Result<MemDisk, Fail> {
    let script = script_with(alloc, body)?;
    stopped_when(alloc, None, "1000 run", script.as_slice(), b"ok\nok\n")
}

// Whether there is an image with the chunk, in which there is no entry, and which a `get` leaves
// without it.
fn reopens_without(alloc: Global, disk: &MemDisk) -> Result<bool, Fail> {
    match image_of(alloc, disk, false, &[(KEY, None)])? {
        Some(mut image) => Ok(
            prints(alloc, &mut image, GET, ABSENT)? && image.file(&Place::Doomed(0)).is_none(),
        ),
        None => Ok(false),
    }
}

// Whether a chunk and the stop tail stand aside, and an image with them has no entry.
fn holds_no_entry(alloc: Global, disk: &MemDisk) -> Result<bool, Fail> {
    match disk.file(&Place::Doomed(0)) {
        Some(left) => Ok(
            left.len() == 262_148
                && disk.file(&place_of(KEY)).is_none()
                && reopens_without(alloc, disk)?,
        ),
        None => Ok(false),
    }
}

fn leaves_no_entry(alloc: Global, body: &[u8]) -> Result<bool, Fail> {
    let disk = appended(alloc, body)?;
    Ok(body.len() == 262_145 && holds_no_entry(alloc, &disk)?)
}

// The first chunk of the body is a whole entry file of the same key. It stands aside, with the stop
// tail after it, and the reopening removes it.
#[test]
fn a_body_that_imitates_an_entry_is_none(rt: HostRuntime) -> Result<(), Fail> {
    let body = imitating_body(rt.alloc())?;
    assert!(rt; leaves_no_entry(rt.alloc(), body.as_slice())?);
    Ok(())
}

// The entry file of a body of so many bytes.
fn inner_file(alloc: Global, len: usize) -> Result<Bytes, Fail> {
    let inner = vec![in alloc; b'x'; len]?;
    let mut disk = MemDisk::new(alloc);
    put_on(alloc, &mut disk, &inner)
}

// What a `get` prints of it.
fn text_of_inner(alloc: Global, file: &[u8]) -> Result<Bytes, Fail> {
    let mut disk = disk_with(alloc, KEY, file)?;
    let (_, text) = ends(alloc, &mut disk, GET, b"")?;
    Ok(text)
}

// No file, what stands at the place, or the inner file.
fn choice<'a>(disk: &'a MemDisk, place: &Place, inner: &'a [u8], which: u32) -> Option<&'a [u8]> {
    match which {
        0 => None,
        1 => disk.file(place),
        _ => Some(inner),
    }
}

// Whether nothing stands at the place, so that the first two choices are one.
fn repeats(disk: &MemDisk, place: &Place, which: u32) -> bool {
    which == 1 && disk.file(place).is_none()
}

// Whether two choices give no file at all, or the same as others.
fn is_needless(disk: &MemDisk, entry: u32, aside: u32) -> bool {
    (entry == 0 && aside == 0)
        || repeats(disk, &place_of(KEY), entry)
        || repeats(disk, &Place::Doomed(0), aside)
}

// Whether a `get` prints another text, where there is an image with these files of the entry and aside.
fn image_hides(
    alloc: Global,
    disk: &MemDisk,
    names: usize,
    entry: Option<&[u8]>,
    aside: Option<&[u8]>,
    text: &[u8],
) -> Result<bool, Fail> {
    let mut files = Vec::new(alloc);
    add_file(alloc, &mut files, place_of(KEY), entry)?;
    add_file(alloc, &mut files, Place::Doomed(0), aside)?;
    for place in [Place::Index, Place::Log, Place::Tmp] {
        add_file(alloc, &mut files, place, disk.file(&place))?;
    }
    match disk.image(names, files) {
        Ok(mut image) => Ok(!prints(alloc, &mut image, GET, text)?),
        Err(_) => Ok(true),
    }
}

// The same of two choices.
fn choice_hides(
    alloc: Global,
    disk: &MemDisk,
    names: usize,
    inner: &[u8],
    which: (u32, u32),
    text: &[u8],
) -> Result<bool, Fail> {
    let (entry, aside) = which;
    if is_needless(disk, entry, aside) {
        return Ok(true);
    }
    let entry = choice(disk, &place_of(KEY), inner, entry);
    let aside = choice(disk, &Place::Doomed(0), inner, aside);
    image_hides(alloc, disk, names, entry, aside, text)
}

// Whether all of them do, with these names.
fn images_hide(
    alloc: Global,
    disk: &MemDisk,
    names: usize,
    inner: &[u8],
    text: &[u8],
) -> Result<bool, Fail> {
    for entry in 0..3u32 {
        for aside in 0..3u32 {
            if !choice_hides(alloc, disk, names, inner, (entry, aside), text)? {
                return Ok(false);
            }
        }
    }
    Ok(true)
}

// Whether no image of a `put` that stops after so many calls has the inner file's entry; whether it
// stopped at all.
fn stop_hides(
    alloc: Global,
    body: &[u8],
    inner: &[u8],
    text: &[u8],
    stop: u64,
) -> Result<(bool, bool), Fail> {
    let mut disk = MemDisk::new(alloc);
    disk.stop_after(stop);
    let (status, _) = ends(alloc, &mut disk, PUT, body)?;
    let names = disk.name_steps();
    let hides = images_hide(alloc, &disk, 0, inner, text)?
        && (names == 0 || images_hide(alloc, &disk, names, inner, text)?);
    Ok((status == Status::Disk, hides))
}

// Whether no stop of a `put` of a whole entry file and a byte has an image with that entry.
fn inner_is_hidden(alloc: Global, len: usize) -> Result<bool, Fail> {
    let inner = inner_file(alloc, len)?;
    let text = text_of_inner(alloc, inner.as_slice())?;
    let mut body = bytes(alloc, inner.as_slice())?;
    body.push(b'x')?;
    for stop in 0..100u64 {
        let (stops, hides) = stop_hides(
            alloc,
            body.as_slice(),
            inner.as_slice(),
            text.as_slice(),
            stop,
        )?;
        if !hides {
            return Ok(false);
        }
        if !stops {
            return Ok(body.as_slice().len().wrapping_sub(len) == 65);
        }
    }
    Ok(false)
}

// The first number of bytes, of these, with which an inner file's entry is found, where there is one.
fn first_found(alloc: Global, from: usize, to: usize) -> Result<Option<usize>, Fail> {
    for len in from..to {
        if !inner_is_hidden(alloc, len)? {
            return Ok(Some(len));
        }
    }
    Ok(None)
}

// A body that is a whole entry file, which a torn write might cut at just its end, is never found in
// place of the entry that it is the body of.
#[test]
fn a_short_inner_entry_is_never_found(rt: HostRuntime) -> Result<(), Fail> {
    let found = first_found(rt.alloc(), 1, 101)?;
    assert!(rt; found == None, "at {found:?}");
    Ok(())
}

#[test]
fn a_longer_inner_entry_is_never_found(rt: HostRuntime) -> Result<(), Fail> {
    let found = first_found(rt.alloc(), 101, 201)?;
    assert!(rt; found == None, "at {found:?}");
    Ok(())
}

#[test]
fn a_long_inner_entry_is_never_found(rt: HostRuntime) -> Result<(), Fail> {
    let found = first_found(rt.alloc(), 201, 301)?;
    assert!(rt; found == None, "at {found:?}");
    Ok(())
}
