//! The file `index` of the cache (`CacheIndex` of Firefox's CacheIndex.cpp): a header of four numbers, the records, and
//! the hash of the records' bytes. What is parsed is what the bytes spell, and a fault is the first failing check. What
//! is printed stands in name order, and is parsed as the same again. A removed record of the file is checked like all
//! others and then left out.
#![tactic(auto)]

mod fault;
mod image;
mod laws;
mod printing;
mod reading;

pub use fault::IndexFault;
pub use image::IndexImage;
pub use laws::{index_fits_exactly, index_reads_back, version_is};
pub use printing::print;
pub use reading::parse;
use record_list::HASH;

/// The version of an index (`kIndexVersion` of CacheIndex.cpp).
pub const VERSION: u32 = 0xA;

/// The bytes of an index's header.
pub const HEADER: usize = 16;

/// Where the timestamp stands in the header: four bytes, the moment at which the index was written.
pub const TIMESTAMP_AT: usize = 4;

/// Where the flag stands in the header: four bytes that are 0 where the index is up to date.
pub const FLAG_AT: usize = 8;

/// The fewest bytes of an index: its header and the hash of no records.
pub const LEAST: usize = HEADER + HASH;
