//! Calls that fail while a clearing is resumed, or before one.

use super::six::{LIST, LIST_OF_OTHERS, SIX, are_found, six_and_mark, six_entries};
use super::*;
use std::test::Fail;

// Where the call of this number fails alone, the run ends there and prints nothing, or all of its reply where that was
// the closing's. The next run finds none of the four. Whether it failed.
fn ends_and_goes_on(alloc: Global, made: &MemDisk, number: u32) -> Result<(bool, bool), Fail> {
    let mut disk = six_and_mark(alloc, made)?;
    disk.fail_at(one_number(alloc, number)?);
    let (status, text) = ends(alloc, &mut disk, LIST, b"")?;
    let is_met = status == Status::Disk;
    let ends_there = !is_met || disk.calls() == u64::from(number);
    let is_due = text.as_slice() == LIST_OF_OTHERS || (is_met && text.as_slice().is_empty());
    let goes_on = !is_met || prints(alloc, &mut disk, LIST, LIST_OF_OTHERS)?;
    Ok((
        ends_there && is_due && goes_on && disk.file(&Place::Clear).is_none(),
        is_met,
    ))
}

// A look that fails while a clearing is resumed is answered by no line, and neither is a change. The mark stays.
#[test]
fn each_failing_call_of_resuming_ends_the_run(rt: HostRuntime) -> Result<(), Fail> {
    let mut made = MemDisk::new(rt.alloc());
    comes_so(rt.alloc(), &mut made, &SIX)?;
    let mut failed = 0usize;
    for number in 1..100u32 {
        let (so, is_met) = ends_and_goes_on(rt.alloc(), &made, number)?;
        assert!(rt; so, "at call {number}");
        if !is_met {
            break;
        }
        failed = failed.wrapping_add(1);
    }
    assert!(rt; failed > 25 && failed < 99, "{failed}");
    Ok(())
}

// Whether nothing of a clearing stands, and no entry is gone.
fn leaves_all(alloc: Global, disk: &mut MemDisk) -> Result<bool, Fail> {
    let is_unmarked = disk.file(&Place::Clear).is_none() && disk.file(&Place::Doomed(64)).is_none();
    Ok(is_unmarked && are_found(alloc, disk, true)?)
}

// Where the call of this number fails alone: the clearing is told to have failed and left all, or the run ended there.
// Whether it was told.
fn is_told(alloc: Global, made: &MemDisk, number: u32) -> Result<(bool, bool), Fail> {
    let mut disk = six_entries(alloc, made)?;
    disk.fail_at(one_number(alloc, number)?);
    let (status, text) = ends(alloc, &mut disk, "1001 run", b"clear ^a\nstate\n")?;
    let ends_there = disk.calls() == u64::from(number);
    match status {
        Status::Done => {
            let is_due = text.as_slice() == b"fault\nupdating 6\n".as_slice();
            Ok((is_due && leaves_all(alloc, &mut disk)?, true))
        }
        Status::Disk => Ok((ends_there, false)),
        _ => Ok((false, false)),
    }
}

// How many calls the clearing takes without an index.
fn calls_without_index(alloc: Global, made: &MemDisk) -> Result<u64, Fail> {
    let mut disk = six_entries(alloc, made)?;
    ends(alloc, &mut disk, "1001 run", b"clear ^a\nstate\n")?;
    Ok(disk.calls())
}

// All looks come before the mark, those of the update and the one at the folder. One that fails changes nothing.
#[test]
fn a_failed_look_clears_nothing(rt: HostRuntime) -> Result<(), Fail> {
    let mut made = MemDisk::new(rt.alloc());
    comes_so(rt.alloc(), &mut made, &SIX)?;
    let calls = calls_without_index(rt.alloc(), &made)?;
    let mut told = 0usize;
    for number in 1..100u32 {
        if u64::from(number) > calls {
            break;
        }
        let (so, is_one) = is_told(rt.alloc(), &made, number)?;
        assert!(rt; so, "at call {number}");
        if is_one {
            told = told.wrapping_add(1);
        }
    }
    assert!(rt; told > 6, "{told}");
    Ok(())
}
