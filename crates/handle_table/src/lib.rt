//! The table of handles, which knows no disk: the entries in use at their places, the use that each of 64 slots makes
//! of one, and the chunks of bodies that are held. What it tells holds of every machine that the handles stand for: the
//! undoomed entry of a name or a key, how many slots use it, the names in use. It gives a new entry a place, lets one go
//! with its last slot, and finds the least free number for a file that stands aside.
#![tactic(auto)]

mod aside;
mod chunks;
mod find;
mod object;
mod seats;
mod table;
mod users;

pub use aside::{DoomedNumbers, doomed_numbers};
pub use object::{Draft, Entry, Label, Object, Parts, Use};
pub use table::{HandleTable, Rows};
