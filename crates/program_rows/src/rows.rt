//! Rows of runs, and how they end.

use crate::disks::{holds, place_of, put_file};
use crate::runs::ends;
use cache_base::Status;
use disk_model::MemDisk;
use std::alloc::Global;
use std::test::Fail;

/// Words, the bytes of the source, and how they end: the status, and what is printed.
pub type Row<'a> = (&'a str, &'a [u8], Status, &'a [u8]);

/// Whether a row ends as it says. It and the others here fail only where memory ran out for a run's words or
/// bytes.
pub fn comes_so(alloc: Global, disk: &mut MemDisk, row: &Row<'_>) -> Result<bool, Fail> {
    let (line, input, status, text) = *row;
    let (came, printed) = ends(alloc, disk, line, input)?;
    Ok(came == status && printed.as_slice() == text)
}

/// How many rows end as they say, one after the other, up to the first that does not.
pub fn rows_so(alloc: Global, disk: &mut MemDisk, rows: &[Row<'_>]) -> Result<usize, Fail> {
    for index in 0..rows.len() {
        if !comes_so(alloc, disk, &rows[index])? {
            return Ok(index);
        }
    }
    Ok(rows.len())
}

/// The same on an empty disk.
pub fn rows_on_empty(alloc: Global, rows: &[Row<'_>]) -> Result<usize, Fail> {
    let mut disk = MemDisk::new(alloc);
    rows_so(alloc, &mut disk, rows)
}

/// Whether all rows end as they say, and then this file stands at the place of the key, or none.
pub fn rows_leave(
    alloc: Global,
    disk: &mut MemDisk,
    rows: &[Row<'_>],
    key: &str,
    file: Option<&[u8]>,
) -> Result<bool, Fail> {
    let count = rows_so(alloc, disk, rows)?;
    Ok(count == rows.len() && holds(disk, key, file))
}

/// The same on a disk on which nothing stood, or only a file at that place.
pub fn rows_turn(
    alloc: Global,
    key: &str,
    before: Option<&[u8]>,
    rows: &[Row<'_>],
    after: Option<&[u8]>,
) -> Result<bool, Fail> {
    let mut disk = MemDisk::new(alloc);
    if let Some(file) = before {
        put_file(alloc, &mut disk, place_of(key), file)?;
    }
    rows_leave(alloc, &mut disk, rows, key, after)
}
