//! The parts of an entry's metadata: the header, which is eight numbers, and the elements, which are named values.
//! Each is read from its bytes and written as its bytes, and what one does the other undoes.
#![tactic(auto)]

mod comparing;
mod elements;
mod fault;
mod header;
mod laws;
mod setting;
mod storing;

pub use elements::Elements;
pub use fault::PartsFault;
pub use header::{Header, VERSION};
pub use laws::{
    elements_read_back, elements_spell, header_reads_back, header_spells, numbers_spell, version_is,
};
pub use storing::parts_fit;
