//! The index in memory: the records of the entries, and the update with the names whose files are still to be read. Its
//! records tell of the entries, before, during and after an update.
#![tactic(auto)]

mod laws;
mod memory_index;

pub use laws::records_at_end_are_one;
pub use memory_index::{MemoryIndex, scan};
