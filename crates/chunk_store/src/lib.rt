//! The chunks of a body and their hashes.
#![tactic(auto)]

mod appending;
mod checking;
mod damage;
mod reading;

pub use appending::append_chunk;
pub use checking::{ChunkAnswer, check_chunk, chunk_hash};
pub use damage::Damage;
pub use reading::{read_chunk, read_chunk_into};
