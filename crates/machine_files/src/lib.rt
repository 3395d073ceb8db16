//! The calls of the machine on files and folders. A word of the trait `Machine` says what each of them has done, and
//! the functions over it say the rest by these words: which file was opened, what of it was read and written, which
//! names were listed, and that each of a set was synced.
//!
//! What a folder of the machine holds is told nowhere.
#![tactic(auto)]

mod contents;
mod listing;
mod machine;
mod opening;
mod syncing;

pub use contents::{after_change, read_at};
pub use listing::{Found, read_names, rising};
pub use machine::{Machine, Stamp};
pub use opening::{
    Seen, is_missing, open_regular, read_and_write, read_only, same_opened, seen_at,
};
pub use syncing::{
    AllSynced, PermittedSynced, is_permitted, sync_each, sync_listed, sync_permitted,
};
