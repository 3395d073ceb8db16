//! The doomed entries: entries that are still in use after their name was given up. The file of one stands in the
//! folder `doomed` under a number, as does that of an entry that is not finished. This crate gives out the least free
//! number, moves a file there by one call of the disk, removes it when the entry is let go, and clears the folder of
//! what an earlier run left.
#![tactic(auto)]

mod clearing;
mod dooming;

pub use clearing::clear;
pub use dooming::{doom, least, release};
