//! Lists of records.

use crate::IndexRecord;
use cache_base::Items;

/// A list of records that grows at its end, and that contracts see as a list.
pub type Records = Items<IndexRecord>;
