//! What a clearing of one origin needs: which records of the index it takes, and its mark. The mark is the file
//! `clear`, which is to stand from before the first entry goes until the last one is gone. A stop leaves it whole or
//! not at all, so an opening that finds it knows which origin is left to clear.
#![tactic(auto)]

mod laws;
mod mark;
mod mark_file;
mod origin_records;

pub use laws::{mark_is_read, mark_is_spelled};
pub use mark_file::{end, store, stored};
pub use origin_records::{covers, victims};
