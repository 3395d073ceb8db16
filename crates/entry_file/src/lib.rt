//! Entry files: a body, its metadata block and the block's offset. The laws say what a file reads as; `read_meta`
//! reads all but the body, and `check_body` holds the body against its hashes, or `check_chunk_at` one chunk of it.
//! `begin` and `NewEntry` write a file whose body comes in pieces: until it is finished it is no entry, and by one
//! write it becomes one. `rewrite_meta` writes the block of a file anew, and `grow_body` makes the body of a finished
//! file longer. A block that is read has version 1, 2 or 3 of the format, and one that is written version 3.
#![tactic(auto)]

mod beginning;
mod body;
mod chunk_hashes;
mod entry_read;
mod finishing;
mod growing;
mod laws;
mod longer_body;
mod new_entry;
mod reading;
mod rewriting;

pub use beginning::begin;
pub use body::{check_body, check_chunk_at};
pub use chunk_store::Damage;
pub use entry_read::{EntryRead, Unfit};
pub use laws::{
    file_begins, file_reads_whole, fits_exactly, reads_by_damage, reads_whole_exactly,
    rewrites_to_version, stores_whole, unfinished_is_short,
};
pub use longer_body::grow_body;
pub use new_entry::NewEntry;
pub use reading::read_meta;
pub use rewriting::rewrite_meta;
