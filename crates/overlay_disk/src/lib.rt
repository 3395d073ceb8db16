//! A disk over another one that is only looked at: what changes stays in memory, and goes with it.
//!
//! The disk below stands in a wrapper that has no call which changes or syncs something, so nothing here can make one.
#![tactic(auto)]

mod layer;
mod listing;
mod over;
mod overlay_disk;
mod read_only;
mod slots;

pub use overlay_disk::OverlayDisk;
