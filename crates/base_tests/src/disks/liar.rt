//! What a disk that makes its answers up says.

use super::*;
use disk_model::LiarDisk;

type Seen = (
    Result<(), DiskFault>,
    Result<(), DiskFault>,
    Result<Option<u64>, DiskFault>,
    Result<usize, DiskFault>,
    [u8; 5],
);

// What is answered to a remove, a write, a size and a read, and the buffer after.
fn calls(disk: &mut LiarDisk) -> Seen {
    let mut buf = [1; 5];
    let removed = disk.remove(&ENTRY);
    let written = disk.write_end(&ENTRY, 0, b"hello");
    let size = disk.size(&ENTRY);
    let count = disk.read(&ENTRY, 4096, &mut buf);
    (removed, written, size, count, buf)
}

// Whether a list that is filled twice has one name, and another one number.
fn are_short(
    disk: &mut LiarDisk,
    names: &mut Names,
    numbers: &mut Numbers,
) -> Result<bool, DiskFault> {
    disk.entries(names)?;
    disk.entries(names)?;
    disk.doomed(numbers)?;
    Ok(names.as_slice() == [Name([0; 20])].as_slice() && numbers.as_slice() == [0].as_slice())
}

#[test]
fn answers_do_not_depend_on_what_was_done(rt: HostRuntime) -> Result<(), Fail> {
    let mut disk = LiarDisk::new(4096, 7);
    let due = (Ok(()), Ok(()), Ok(Some(4096)), Ok(3), [7, 7, 7, 1, 1]);
    assert!(rt; calls(&mut disk) == due);
    let mut names = Names::new(rt.alloc());
    let mut numbers = Numbers::new(rt.alloc());
    assert!(rt; are_short(&mut disk, &mut names, &mut numbers)?);
    Ok(())
}
