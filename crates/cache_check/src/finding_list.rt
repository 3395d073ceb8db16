//! Lists of findings.

use crate::Finding;
use cache_base::Items;

/// A list of findings that grows at its end, and that contracts see as a list.
pub type FindingList = Items<Finding>;
