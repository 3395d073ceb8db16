//! The cache of chunks: the bytes of the chunks of bodies that were used last, so that a part of a body that is read
//! again costs no call of the disk. A contract sees the cache as the list of its chunks, the most recent first.
#![tactic(auto)]

mod cache;
mod laws;

pub use cache::ChunkCache;
pub use laws::{forget_drops_all, found_exactly, keep_adds_one, look_only_moves, stays_cache};
