//! The records of the index in memory: the records now, each with a mark that says whether it was seen, and the base,
//! which is the list of records in the file `index`. The totals, and the number of names that a journal has to speak
//! of, are kept as records come and go. The names of the file `index` and of its journal are searched by their order.
//! Only what a run learns by itself stands in a table by a hash, so no choice of names in these files makes a map slow.
#![tactic(auto)]

mod all_slots;
mod base;
mod counts;
mod filling;
mod journal;
mod layers;
mod listing;
mod map;
mod mark;
mod name_order;
mod reading;
mod slot;
mod table;

pub use counts::Totals;
pub use map::RecordMap;
