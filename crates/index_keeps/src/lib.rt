//! What the changes at the places of the index keep of the entries: a crash may leave of them what it might leave
//! before, and a scan of them is one of the machine's shelf. No function here does anything: their contracts are the
//! laws.
#![tactic(auto)]

mod laws;

pub use laws::{left_is_safe, spared_is_safe, stands_scan};
