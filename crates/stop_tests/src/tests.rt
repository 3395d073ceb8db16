//! What stops, faults and clearings leave on a disk in memory.

mod alt;
mod clear;
mod crash;
mod fault;
mod hostile;
mod images;
mod liar;

use cache_base::{Bytes, NoMemory, Status};
use disk_model::MemDisk;
use disk_theory::Place;
use program_rows::{
    ABSENT, DAMAGED, DUMPED, FILE, FIRST, FOUND, FOUND_USED, GET, HEAD_OF_TWO_CHUNKS, KEY, OPENING,
    PINNED, PUT, Row, USED, bytes, call, comes_so, copy_file, copy_index, disk_with, ends,
    file_of_two_chunks, holds, joined, one_number, place_of, put_file, put_on, repeated,
    rows_leave, rows_on_empty, rows_so, rows_turn, words_of,
};
use std::alloc::Global;
