//! Alternative data: compiled code or another form of a body, kept after the main body in the same file. The element
//! `alt-data` says where they begin and of which kind they are. `info` reads it, `alt_value` spells it, and
//! `grown_hashes` gives the chunk hashes of a body to which they are added.
#![tactic(auto)]

mod element;
mod hashes;
mod laws;

pub use element::{ALT_DATA, AltInfo, alt_value, info};
pub use hashes::grown_hashes;
pub use laws::{alt_is_put, alt_is_read, alt_is_spelled};
