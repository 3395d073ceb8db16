//! What the program does: `run` reads the words of the command line and performs them, over any disk, source and sink.
//! Its contract has the theorem of this project, and `theorem` has what follows from it in the words of a reader.
#![tactic(auto)]

mod fill;
mod last_reply;
mod laws;
mod load;
mod one;
mod piece;
mod program;
mod put;
mod script;
mod session;
mod theorem;
mod words;

pub use laws::{lies_are_no_faults, words_are_of_table};
pub use program::run;
pub use theorem::{
    cleared_stays_gone, put_is_all_or_nothing, put_is_got, stopped_clearing_is_done,
    touched_is_gone_or_whole, trusted_index_agrees, untouched_is_intact,
};
