//! What an index says.

use index_record::Records;

/// What an index says: when it was written, whether changes may be missing from it, and its records in the order of
/// the file, without those that are removed.
#[derive(Drop)]
pub struct IndexImage {
    /// The moment at which the index was written.
    pub timestamp: u32,
    /// Whether the cache was in use when the index was written, so that it may be out of date.
    pub dirty: bool,
    /// The records, none of which is removed or has the dirty or the fresh bit.
    pub records: Records,
}
