//! The verbs and scripts of the program on a disk in memory.

mod alt;
mod chunks;
mod dump;
mod evict;
mod fill;
mod get;
mod load;
mod one;
mod put;
mod script;
mod slots;
mod verify;

use cache_base::{Bytes, NoMemory, Status};
use disk_model::MemDisk;
use disk_theory::Place;
use program_rows::{
    ABSENT, DAMAGED, DUMPED, FILE, FIRST, FOUND, FOUND_USED, GET, HEAD_OF_TWO_CHUNKS, KEY, OPENING,
    PINNED, PUT, Row, SECOND, USED, bytes, call, comes_so, copy_file, copy_index, disk_with, ends,
    ends_cut, ends_starved, fails_at, file_of, file_of_two_chunks, holds, joined, one_number,
    place_of, put_file, repeated, rows_leave, rows_on_empty, rows_so, rows_turn,
};
use std::alloc::Global;
