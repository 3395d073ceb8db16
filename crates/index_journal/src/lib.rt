//! The file `index.log` of the cache, the journal of Firefox's CacheIndex.cpp: records of what changed since the index
//! was written, and the hash of the records' bytes. What is parsed is what the bytes spell, and a fault is the first
//! failing check. What is printed stands in name order, and is parsed as the same again. A journal that is applied to
//! its index gives the records now.
#![tactic(auto)]

mod applying;
mod fault;
mod laws;
mod printing;
mod reading;

pub use applying::apply;
pub use fault::JournalFault;
pub use laws::{journal_fits_exactly, journal_reads_back};
pub use printing::print;
pub use reading::parse;
use record_list::HASH;

/// The fewest bytes of a journal: the hash of no records.
pub const LEAST: usize = HASH;
