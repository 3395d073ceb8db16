use super::*;

// One of the contents that a file of the index had since the sync, or none.
fn content(disk: &MemDisk, which: usize) -> Option<&[u8]> {
    match which {
        0 => disk.file(&Place::Index),
        1 => disk.synced_file(&Place::Index),
        2 => disk.file(&Place::Log),
        3 => disk.synced_file(&Place::Log),
        4 => disk.file(&Place::Tmp),
        _ => None,
    }
}

fn add(
    alloc: Global,
    files: &mut Vec<(Place, Bytes)>,
    place: Place,
    bytes: Option<&[u8]>,
) -> Result<(), NoMemory> {
    if let Some(b) = bytes {
        let mut file = Bytes::new(alloc);
        file.extend(b)?;
        files.push((place, file))?;
    }
    Ok(())
}

fn add_all(
    alloc: Global,
    files: &mut Vec<(Place, Bytes)>,
    disk: &MemDisk,
    pick: usize,
) -> Result<(), NoMemory> {
    add(alloc, files, Place::Index, content(disk, pick % 6))?;
    add(alloc, files, Place::Log, content(disk, pick / 6 % 6))?;
    add(alloc, files, Place::Tmp, content(disk, pick / 36))
}

// The image with the names after so many name steps and these contents at the three places, if it is one.
fn image_of(
    alloc: Global,
    disk: &MemDisk,
    names: usize,
    pick: usize,
) -> Result<Option<MemDisk>, NoMemory> {
    let mut files = Vec::new(alloc);
    add_all(alloc, &mut files, disk, pick)?;
    Ok(disk.image(names, files).ok())
}

// How many records an opening trusts, if it trusts the index.
fn trusted<D: Disk>(alloc: Global, disk: &mut D) -> Result<Option<u64>, DiskFault> {
    let opened = open_index(alloc, disk)?;
    if opened.start == Start::Ready {
        Ok(Some(opened.map.totals().count))
    } else {
        Ok(None)
    }
}

// How many records an opening of this image trusts, if it is an image and its index is trusted.
fn trusted_in(
    alloc: Global,
    disk: &MemDisk,
    names: usize,
    pick: usize,
) -> Result<Option<u64>, DiskFault> {
    match image_of(alloc, disk, names, pick)? {
        None => Ok(None),
        Some(mut image) => trusted(alloc, &mut image),
    }
}

// How many images have an index that is trusted with so many records; or none, where one is trusted with others.
fn trusted_images(alloc: Global, disk: &MemDisk, records: u64) -> Result<Option<u64>, DiskFault> {
    let mut found = 0u64;
    for names in 0..=disk.name_steps() {
        for pick in 0..216 {
            match trusted_in(alloc, disk, names, pick)? {
                None => {}
                Some(count) if count == records => found = found.saturating_add(1),
                Some(_) => return Ok(None),
            }
        }
    }
    Ok(Some(found))
}

// The same, where the machine stops after so many calls of a session in which one of two entries goes.
fn images_after(alloc: Global, calls: u64, records: u64) -> Result<Option<u64>, DiskFault> {
    let mut disk = MemDisk::new(alloc);
    put_all(alloc, &mut disk, &(Some(TWO), Some(CHANGES), None))?;
    disk.stop_after(calls);
    let _answer = forget_one(alloc, &mut disk);
    trusted_images(alloc, &disk, records)
}

// For a stop after 0, 1, 2 .. calls, how many records each trusted index has, and whether some image has one.
const STOPS: [(u64, bool); 15] = [
    // Until the sync of the opening, which is the eighth call, an image may have the old index, with two records.
    (2, true),
    (2, true),
    (2, true),
    (2, true),
    (2, true),
    (2, true),
    (2, true),
    (2, true),
    // From then on to the last call but one, which clears the flag, no image has an index that is trusted.
    (1, false),
    (1, false),
    (1, false),
    (1, false),
    // At the end an image has the new index, or none that is trusted.
    (1, true),
    (1, true),
    (1, true),
];

// How many rows hold, up to the first that does not.
fn rows_held(alloc: Global, rows: &[(u64, bool)]) -> Result<usize, DiskFault> {
    for calls in 0..rows.len() {
        let (records, some) = rows[calls];
        match images_after(alloc, calls as u64, records)? {
            Some(n) if (n > 0) == some => {}
            _ => return Ok(calls),
        }
    }
    Ok(rows.len())
}

#[test]
fn a_stop_leaves_the_old_index_or_the_new_or_none(rt: HostRuntime) -> Result<(), Fail> {
    assert_eq!(rt; rows_held(rt.alloc(), &STOPS)?, STOPS.len());
    Ok(())
}
