use cache_base::{Bytes, Name, NoMemory, Numbers};
use disk_model::MemDisk;
use disk_theory::{Disk, DiskFault, Place};
use doom_area::{clear, doom, release};
use std::alloc::Global;
use std::test::Fail;

const NAME: Name = Name([7; 20]);

fn make<D: Disk>(disk: &mut D, place: &Place, bytes: &[u8]) -> Result<(), DiskFault> {
    disk.create(place)?;
    disk.write_end(place, 0, bytes)
}

// A disk with the file of an entry, an index, and doomed files of these numbers.
fn disk_with(alloc: Global, doomed: &[u32]) -> Result<MemDisk, DiskFault> {
    let mut disk = MemDisk::new(alloc);
    make(&mut disk, &Place::Entry(NAME), b"entry")?;
    make(&mut disk, &Place::Index, b"index")?;
    for number in doomed {
        make(&mut disk, &Place::Doomed(*number), b"doomed")?;
    }
    Ok(disk)
}

// Whether these bytes stand at the place.
fn holds(disk: &MemDisk, place: &Place, bytes: &[u8]) -> bool {
    match disk.file(place) {
        Some(file) => file == bytes,
        None => false,
    }
}

// Dooms the entry, if its file stands.
fn doom_there<D: Disk>(disk: &mut D, in_use: &[u32]) -> Result<Option<u32>, DiskFault> {
    if in_use.len() >= 64 {
        return Ok(None);
    }
    match disk.size(&Place::Entry(NAME))? {
        None => Ok(None),
        Some(_) => Ok(Some(doom(disk, &NAME, in_use)?)),
    }
}

// Releases the doomed entry, if its file stands.
fn release_there<D: Disk>(disk: &mut D, number: u32) -> Result<bool, DiskFault> {
    match disk.size(&Place::Doomed(number))? {
        None => Ok(false),
        Some(_) => {
            release(disk, number)?;
            Ok(true)
        }
    }
}

// The call of this number fails.
fn plan(alloc: Global, call: u32) -> Result<Numbers, NoMemory> {
    let mut calls = Numbers::new(alloc);
    calls.push(call)?;
    Ok(calls)
}

#[test]
fn the_least_free_number_is_taken(rt: HostRuntime) -> Result<(), Fail> {
    let mut disk = disk_with(rt.alloc(), &[0, 1, 3])?;
    let number = doom_there(&mut disk, &[3, 0, 1])?;
    assert_eq!(rt; number, Some(2));
    assert!(rt; disk.file(&Place::Entry(NAME)).is_none());
    assert!(rt; holds(&disk, &Place::Doomed(2), b"entry"));
    assert!(rt; holds(&disk, &Place::Doomed(3), b"doomed"));
    Ok(())
}

#[test]
fn a_release_removes_the_file(rt: HostRuntime) -> Result<(), Fail> {
    let mut disk = disk_with(rt.alloc(), &[4, 5])?;
    let released = release_there(&mut disk, 4)?;
    assert!(rt; released);
    assert!(rt; disk.file(&Place::Doomed(4)).is_none());
    assert!(rt; disk.file(&Place::Doomed(5)).is_some());
    Ok(())
}

#[test]
fn a_clear_leaves_all_but_the_doomed(rt: HostRuntime) -> Result<(), Fail> {
    let mut disk = disk_with(rt.alloc(), &[9, 0, 4_294_967_295])?;
    let made = disk.calls();
    clear(rt.alloc(), &mut disk)?;
    assert_eq!(rt; disk.calls().saturating_sub(made), 4);
    for number in [0, 9, 4_294_967_295] {
        assert!(rt; disk.file(&Place::Doomed(number)).is_none());
    }
    assert!(rt; holds(&disk, &Place::Entry(NAME), b"entry"));
    assert!(rt; holds(&disk, &Place::Index, b"index"));
    Ok(())
}

#[test]
fn no_call_follows_one_that_fails(rt: HostRuntime) -> Result<(), Fail> {
    let mut disk = disk_with(rt.alloc(), &[1, 2, 3])?;
    assert_eq!(rt; disk.calls(), 10);
    disk.fail_at(plan(rt.alloc(), 13)?);
    assert_eq!(rt; clear(rt.alloc(), &mut disk), Err(DiskFault::Failed));
    assert_eq!(rt; disk.calls(), 13);
    assert!(rt; disk.file(&Place::Doomed(1)).is_none());
    assert!(rt; disk.file(&Place::Doomed(3)).is_some());
    Ok(())
}

#[test]
fn a_failed_list_clears_nothing(rt: HostRuntime) -> Result<(), Fail> {
    let mut disk = disk_with(rt.alloc(), &[1])?;
    disk.fail_at(plan(rt.alloc(), 7)?);
    assert_eq!(rt; clear(rt.alloc(), &mut disk), Err(DiskFault::Failed));
    assert_eq!(rt; disk.calls(), 7);
    assert!(rt; disk.file(&Place::Doomed(1)).is_some());
    Ok(())
}

#[test]
fn a_failed_move_is_a_fault(rt: HostRuntime) -> Result<(), Fail> {
    let mut disk = disk_with(rt.alloc(), &[])?;
    disk.fail_at(plan(rt.alloc(), 6)?);
    assert_eq!(rt; doom_there(&mut disk, &[]), Err(DiskFault::Failed));
    assert_eq!(rt; disk.calls(), 6);
    Ok(())
}
