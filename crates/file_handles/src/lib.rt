//! The commands on entries that are in use, over the table of handles. Each of 64 slots may have an entry: one that it
//! writes, or one that was opened and is read. Several slots may share one. An entry that is doomed while it is in use
//! stays usable, with its file among the doomed files, until its last slot is closed.
#![tactic(auto)]

mod append;
mod change;
mod close;
mod create;
mod doom;
mod elements;
mod evict;
mod fault;
mod find;
mod finish;
mod handles;
mod laws;
mod open;
mod pin;
mod put_alt;
mod read;
mod use_entry;

pub use cache_theory::Refusal;
pub use fault::{Effect, HandleFault};
pub use handles::Handles;
pub use laws::{learnt_is_scanned, learnt_leaves_rest};
