//! What every crate of the cache shares: names, moments, limits and exit statuses, small lists that contracts see
//! as lists, a buffer for one chunk, big-endian numbers in bytes, and the words in which an answer is tied to a count
//! of faults.
#![tactic(auto)]

mod big_endian;
mod buffer;
mod bytes;
mod items;
mod laws;
mod limits;
mod name;
mod names;
mod numbers;
mod status;

pub use big_endian::{u16_at, u32_at};
pub use buffer::Buffer;
pub use bytes::bytes_fit;
pub use items::{Bytes, Hashes, Items, Names, NoMemory, Numbers};
pub use laws::limits_are;
pub use limits::{
    ALT_MAX, BLOCK_MAX, BODY_MAX, BUFFER_MAX, CACHED, CHANGED_MAX, CHUNK, ELEMENTS_MAX, KEY_MAX,
    LINE_MAX, PIECE_MAX, SCRIPT_MAX, SLOTS, chunks,
};
pub use name::{Moment, Name};
pub use names::{has_name, listed, name_set};
pub use numbers::number;
pub use status::Status;
