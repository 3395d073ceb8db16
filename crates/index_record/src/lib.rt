//! The 41-byte records of Firefox's index (`CacheIndexRecord` of CacheIndex.h), which say what is known of an entry
//! without its file. The bits of the flags are this project's profile. A record that is written is read back, but for
//! its dirty and fresh bits, and the record of an entry follows from its metadata and its file's size.
#![tactic(auto)]

mod bytes;
mod filling;
mod laws;
mod record;
mod records;

pub use bytes::{read, write};
pub use filling::of_meta;
pub use laws::{record_reads_back, record_spells};
pub use record::{
    ALT_DATA, ANONYMOUS, DIRTY, FRESH, INITIALIZED, IndexRecord, NO_TIME, PINNED, REMOVED,
    SIZE_MAX, is_pinned, is_removed, removed, size_kb,
};
pub use records::Records;

/// The bytes of a record.
pub const RECORD: usize = 41;
