//! Images that a stop may leave, and what runs over them print.

use super::*;
use std::test::Fail;

// Whether a `get` or a `list` prints this.
pub(super) fn prints(
    alloc: Global,
    disk: &mut MemDisk,
    line: &str,
    text: &[u8],
) -> Result<bool, Fail> {
    let (_, printed) = ends(alloc, disk, line, b"")?;
    Ok(printed.as_slice() == text)
}

// What stands at a place, or what was synced.
pub(super) fn content_of<'a>(disk: &'a MemDisk, synced: bool, place: &Place) -> Option<&'a [u8]> {
    if synced {
        disk.synced_file(place)
    } else {
        disk.file(place)
    }
}

// Adds a file to those of an image, where there is one.
pub(super) fn add_file(
    alloc: Global,
    files: &mut Vec<(Place, Bytes)>,
    place: Place,
    content: Option<&[u8]>,
) -> Result<(), Fail> {
    if let Some(content) = content {
        files.push((place, bytes(alloc, content)?))?;
    }
    Ok(())
}

// What stands under a key in an image.
pub(super) type Content<'a> = (&'a str, Option<&'a [u8]>);

// Adds these contents of the keys' files, and the files of the index and those that stand aside, as
// they read or as they were synced.
fn add_files(
    alloc: Global,
    disk: &MemDisk,
    synced: bool,
    contents: &[Content<'_>],
    files: &mut Vec<(Place, Bytes)>,
) -> Result<(), Fail> {
    for index in 0..contents.len() {
        let (key, content) = contents[index];
        add_file(alloc, files, place_of(key), content)?;
    }
    for place in [
        Place::Index,
        Place::Log,
        Place::Tmp,
        Place::Doomed(0),
        Place::Doomed(1),
    ] {
        let content = content_of(disk, synced, &place);
        add_file(alloc, files, place, content)?;
    }
    Ok(())
}

// The image with all names as they are, or as they were synced, with these contents of the keys' files.
pub(super) fn image_of(
    alloc: Global,
    disk: &MemDisk,
    synced: bool,
    contents: &[Content<'_>],
) -> Result<Option<MemDisk>, Fail> {
    let mut files = Vec::new(alloc);
    add_files(alloc, disk, synced, contents, &mut files)?;
    let names = if synced { 0 } else { disk.name_steps() };
    Ok(disk.image(names, files).ok())
}

// A disk on which this file stands, or none.
fn disk_of(alloc: Global, file: Option<&[u8]>) -> Result<MemDisk, Fail> {
    match file {
        Some(file) => disk_with(alloc, KEY, file),
        None => Ok(MemDisk::new(alloc)),
    }
}

// What was printed before the lines that tell of failed looks at a disk that has stopped.
pub(super) fn before_faults(text: &[u8]) -> &[u8] {
    let mut front = text;
    for _ in 0..10 {
        match front.strip_suffix(b"fault\n") {
            Some(shorter) => front = shorter,
            None => break,
        }
    }
    front
}

// Whether a run over these bytes stops after so many calls, when it has printed this text.
fn stops_when(
    alloc: Global,
    disk: &mut MemDisk,
    stop: u64,
    line: &str,
    input: &[u8],
    printed: &[u8],
) -> Result<bool, Fail> {
    disk.stop_after(stop);
    let (status, text) = ends(alloc, disk, line, input)?;
    Ok(status == Status::Disk && before_faults(text.as_slice()) == printed)
}

// A disk on which this file stands, or none, and which stopped as soon as a run over these bytes had printed this text.
pub(super) fn stopped_when(
    alloc: Global,
    file: Option<&[u8]>,
    line: &str,
    input: &[u8],
    printed: &[u8],
) -> Result<MemDisk, Fail> {
    for stop in 0..100u64 {
        let mut disk = disk_of(alloc, file)?;
        if stops_when(alloc, &mut disk, stop, line, input, printed)? {
            return Ok(disk);
        }
    }
    Err(Fail::from("no stop prints this"))
}

// Whether there is an image with this file of the key.
pub(super) fn is_image(
    alloc: Global,
    disk: &MemDisk,
    synced: bool,
    file: Option<&[u8]>,
) -> Result<bool, Fail> {
    Ok(image_of(alloc, disk, synced, &[(KEY, file)])?.is_some())
}

// Whether there is one, in which a `get` prints this.
pub(super) fn image_prints(
    alloc: Global,
    disk: &MemDisk,
    synced: bool,
    file: Option<&[u8]>,
    text: &[u8],
) -> Result<bool, Fail> {
    match image_of(alloc, disk, synced, &[(KEY, file)])? {
        Some(mut image) => prints(alloc, &mut image, GET, text),
        None => Ok(false),
    }
}

// Whether a `list` prints this after all entries are read anew.
fn lists_anew(alloc: Global, disk: &mut MemDisk, text: &[u8]) -> Result<bool, Fail> {
    ends(alloc, disk, "1002 rebuild", b"")?;
    prints(alloc, disk, "1002 list", text)
}

// Whether it prints the same before and after that.
pub(super) fn lists_what_stands(alloc: Global, disk: &mut MemDisk) -> Result<bool, Fail> {
    let (_, before) = ends(alloc, disk, "1002 list", b"")?;
    lists_anew(alloc, disk, before.as_slice())
}
