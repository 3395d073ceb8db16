//! What the tests of the whole program share: runs over disks in memory, files of entries, and rows of runs.
#![tactic(auto)]

mod disks;
mod entries;
mod rows;
mod runs;
mod texts;

pub use disks::{copy_file, copy_index, disk_with, file_of, holds, place_of, put_file};
pub use entries::{
    ABSENT, DAMAGED, DUMPED, FILE, FIRST, FOUND, FOUND_USED, GET, HEAD_OF_TWO_CHUNKS, KEY, PINNED,
    PUT, SECOND, USED, file_of_two_chunks, put_on,
};
pub use rows::{Row, comes_so, rows_leave, rows_on_empty, rows_so, rows_turn};
pub use runs::{OPENING, call, ends, ends_cut, ends_starved, fails_at};
pub use texts::{bytes, joined, one_number, repeated, words_of};
