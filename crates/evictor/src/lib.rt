//! Which entries have to go, so that the cache's files take at most so many KB (the eviction of Firefox's
//! CacheIndex.cpp, which walks its records by frecency). The victims are the shortest prefix of the records that may be
//! evicted, in this order, which is enough.
#![tactic(auto)]

mod choosing;
mod laws;
mod ordering;

pub use choosing::{victims, victims_of};
pub use laws::{order_sorts, same_in_any_order, victims_suffice};
pub use ordering::order;
