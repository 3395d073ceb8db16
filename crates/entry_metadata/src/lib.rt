//! The metadata block of an entry's file: a hash of all that follows, the hashes of the body's chunks, the header, the
//! key and a zero byte, and the elements. What is parsed is what the block spells, and a fault is the first failing
//! check. What is printed is parsed as the same again. Blocks of versions 1 and 2 are parsed too, as what they say in
//! version 3, and version 3 is printed.
#![tactic(auto)]

mod checks;
mod fault;
mod laws;
mod meta;
mod printing;
mod reading;

pub use fault::MetaFault;
pub use laws::{block_fits_exactly, block_reads_back};
pub use meta::Meta;
pub use printing::{block_len, block_len_of, print};
pub use reading::parse;
