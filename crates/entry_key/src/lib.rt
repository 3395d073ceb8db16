//! The grammar of keys: tags with rising letters, then `:` and the address. A key is read in place, so what is lent
//! is a part of it, and no call takes memory. What is parsed is what the key reads as, and a fault is the first from
//! the left.
#![tactic(auto)]

mod key_fault;
mod laws;
mod origin;
mod tags;
mod value;
mod writing;

pub use key_fault::KeyFault;
pub use laws::{reads_exactly, reads_or_fails};
pub use origin::{hash_of_origin, origin_hash};
pub use tags::{KeyTags, parse};
pub use writing::may_write;
