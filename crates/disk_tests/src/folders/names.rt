use super::*;
use cache_base::{Names, NoMemory, Numbers};
use std::test::Fail;

const STRANGE_LAST: &str = "strange/entries/FFFFFFFFFFFFFFFFFFFFFFFFFFFFFFFFFFFFFFFF";

fn are_written(rt: &HostRuntime, paths: &[&str]) -> bool {
    paths
        .iter()
        .all(|path| fs::write(rt, *path, b"foreign").is_ok())
}

// The lists that the disk gives hold nothing of what they held before.
fn entries_of(rt: &HostRuntime, disk: &mut HostDisk<'_>) -> Result<Names, DiskFault> {
    let mut names = Names::new(rt.alloc());
    names.push(Name([7; 20]))?;
    disk.entries(&mut names)?;
    Ok(names)
}

fn doomed_of(rt: &HostRuntime, disk: &mut HostDisk<'_>) -> Result<Numbers, DiskFault> {
    let mut numbers = Numbers::new(rt.alloc());
    numbers.push(7)?;
    disk.doomed(&mut numbers)?;
    Ok(numbers)
}

#[test]
fn a_missing_folder_has_no_names(rt: HostRuntime) -> Result<(), Fail> {
    let mut disk = disk_in(&rt, "nowhere")?;
    assert!(rt; entries_of(&rt, &mut disk).is_ok_and(|names| names.as_slice().is_empty()));
    assert!(rt; doomed_of(&rt, &mut disk).is_ok_and(|numbers| numbers.as_slice().is_empty()));
    assert!(rt; is_missing(&rt, "nowhere"));
    Ok(())
}

#[test]
fn entries_are_seen_in_order(rt: HostRuntime) -> Result<(), Fail> {
    let mut disk = disk_in(&rt, "listed")?;
    assert_eq!(rt; make(&mut disk, &LAST, b"last"), Ok(()));
    assert_eq!(rt; make(&mut disk, &FIRST, b"first"), Ok(()));
    assert!(rt;
        are_written(
            &rt,
            &[
                "listed/entries/0123456789ABCDEF000000000000000000000000",
                "listed/entries/0123456789abcdef000000000000000000000000",
                "listed/entries/0123456789ABCDEF00000000000000000000000",
                "listed/entries/0123456789ABCDEF0000000000000000000000000",
                "listed/entries/0123456789ABCDEG000000000000000000000000",
                "listed/entries/.hidden",
            ]
        )
    );
    let middle = Name([
        1, 35, 69, 103, 137, 171, 205, 239, 0, 0, 0, 0, 0, 0, 0, 0, 0, 0, 0, 0,
    ]);
    let wanted = [Name([0; 20]), middle, Name([255; 20])];
    let found = entries_of(&rt, &mut disk);
    assert!(rt; found.is_ok_and(|names| names.as_slice() == wanted.as_slice()));
    assert!(rt; holds(&rt, "listed/entries/.hidden", b"foreign"));
    Ok(())
}

#[test]
fn doomed_numbers_are_seen_in_order(rt: HostRuntime) -> Result<(), Fail> {
    let mut disk = disk_in(&rt, "numbered")?;
    for number in [4_294_967_295, 10, 9, 0] {
        assert_eq!(rt; make(&mut disk, &Place::Doomed(number), b"doomed"), Ok(()));
    }
    assert!(rt;
        are_written(
            &rt,
            &[
                "numbered/doomed/007",
                "numbered/doomed/00",
                "numbered/doomed/-1",
                "numbered/doomed/+1",
                "numbered/doomed/1 ",
                "numbered/doomed/4294967296",
            ]
        )
    );
    let wanted = [0, 9, 10, 4_294_967_295];
    let found = doomed_of(&rt, &mut disk);
    assert!(rt; found.is_ok_and(|numbers| numbers.as_slice() == wanted.as_slice()));
    assert!(rt; holds(&rt, "numbered/doomed/007", b"foreign"));
    Ok(())
}

// A folder, and a link to a file that is listed.
#[test]
fn what_is_no_file_is_not_listed(rt: HostRuntime) -> Result<(), Fail> {
    let mut disk = disk_in(&rt, "strange")?;
    assert_eq!(rt; make(&mut disk, &Place::Doomed(3), b"doomed"), Ok(()));
    assert_eq!(rt; make(&mut disk, &FIRST, b"first"), Ok(()));
    assert!(rt; fs::create_dir(&rt, "strange/doomed/7").is_ok());
    assert!(rt; symlink(&rt, "3", "strange/doomed/8").is_ok());
    assert!(rt; fs::create_dir(&rt, STRANGE_LAST).is_ok());
    let numbers = doomed_of(&rt, &mut disk);
    assert!(rt; numbers.is_ok_and(|numbers| numbers.as_slice() == [3].as_slice()));
    let names = entries_of(&rt, &mut disk);
    assert!(rt; names.is_ok_and(|names| names.as_slice() == [Name([0; 20])].as_slice()));
    Ok(())
}

// Whether a disk makes two files there, beside the folders.
fn two_are_made(rt: &HostRuntime, dir: &str) -> Result<bool, AllocError> {
    let mut disk = disk_in(rt, dir)?;
    let is_empty = doomed_of(rt, &mut disk).is_ok_and(|found| found.as_slice().is_empty());
    Ok(
        is_empty
            && make(&mut disk, &Place::Doomed(0), b"first") == Ok(())
            && make(&mut disk, &Place::Doomed(1), b"second") == Ok(())
            && disk.sync() == Ok(()),
    )
}

// Whether a second disk lists these two, and removes the first.
fn two_are_listed(rt: &HostRuntime, dir: &str) -> Result<bool, AllocError> {
    let mut disk = disk_in(rt, dir)?;
    let listed = doomed_of(rt, &mut disk).is_ok_and(|found| found.as_slice() == [0, 1].as_slice());
    Ok(listed && disk.remove(&Place::Doomed(0)) == Ok(()))
}

#[test]
fn doomed_files_pass_over_the_numbers_of_folders(rt: HostRuntime) -> Result<(), Fail> {
    for path in [
        "passed",
        "passed/doomed",
        "passed/doomed/0",
        "passed/doomed/2",
    ] {
        assert!(rt; fs::create_dir(&rt, path).is_ok());
    }
    assert!(rt; two_are_made(&rt, "passed")?);
    assert!(rt; holds(&rt, "passed/doomed/1", b"first"));
    assert!(rt; holds(&rt, "passed/doomed/3", b"second"));
    assert!(rt; two_are_listed(&rt, "passed")?);
    assert!(rt; is_missing(&rt, "passed/doomed/1"));
    Ok(())
}
