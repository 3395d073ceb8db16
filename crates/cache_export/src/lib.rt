//! A dump of the cache: its entries one after another in one stream of bytes. A reader takes a dump from a source, part
//! by part, and holds no more than one part; an item that is damaged gets a fault in place of its block. What stands in
//! an item around its body is written to a sink. A dump has one list of entries.
#![tactic(auto)]

mod front;
mod item;
mod laws;
mod limits;
mod parts;
mod progress;
mod reader;
mod reading;
mod writing;

pub use item::{DumpFault, Item};
pub use laws::{dump_is_parts, dump_of_is_dump, dumps_are_one, held_is, limit_is};
pub use limits::{DUMP_MAX, HEAD, HELD_MAX};
pub use reader::DumpReader;
pub use writing::{item_back, item_front};
