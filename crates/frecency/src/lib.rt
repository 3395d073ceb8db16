//! Frecency: how often and how lately an entry was used, as one number in seconds. A first use gives the moment of
//! that use; each further one runs ahead of its moment, the more so the closer the uses lie together. `next` gives
//! the number after one more use, and equals its definition at every pair of numbers. The whole-number form is this
//! project's own; Firefox computes its frecency in floating point. No call takes memory.
#![tactic(auto)]

mod after_use;
mod laws;
mod points;

pub use after_use::next;
pub use laws::{known_frecencies, table_rises};
