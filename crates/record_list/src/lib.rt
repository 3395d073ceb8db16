//! Lists of the index's records, as they stand in the files `index` and `index.log`: the bytes of the records, and a
//! hash of these bytes. What is parsed is what the bytes spell, and a fault is the first failing check; what is printed
//! stands in name order. What a journal of changes says, applied to the records that changed, gives the records now.
#![tactic(auto)]

mod fault;
mod laws;
mod name_order;
mod printing;
mod reading;

pub use fault::RecordsFault;
pub use laws::{
    by_name_keeps, clean_reads_same, diff_then_apply, rising_has_names, stored_fits_exactly,
    stored_reads_back,
};
pub use name_order::{by_name, rise};
pub use printing::print;
pub use reading::{parse, parse_present};

/// The bytes of the hash after the records.
pub const HASH: usize = 4;
