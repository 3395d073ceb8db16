//! A session of the cache: the store is opened at a moment, performs commands one after the other, each with its
//! reply, and is closed.
#![tactic(auto)]

mod attempt;
mod clear;
mod command;
mod dump;
mod evict;
mod fault;
mod finishing;
mod found_body;
mod handle_answers;
mod index_answers;
mod index_commands;
mod kilobytes;
mod laws;
mod learn;
mod look_faults;
mod opening;
mod outcome;
mod read;
mod resume;
mod shown;
mod store;
mod verify;

pub use cache_replies::Verdict;
pub use fault::StoreFault;
pub use laws::{clearing_leaves_none, few_leave_index, stopped_clearing_is_none_or_all};
pub use memory_index::records_at_end_are_one;
pub use outcome::Outcome;
pub use store::Store;
