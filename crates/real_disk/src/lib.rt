//! The disk over a folder of the machine. Each place is a file there, and a sync makes durable what has changed: the
//! files first, and then the folders that name them. The first one covers what an earlier process may have left.
//!
//! Nothing is told of contents. What is proved is that each failure is counted, that what changes is noted until a call
//! has synced it, that the file of a place is the one that is read and written and the one that is kept, that a length is
//! what the machine told of the path of the place, and that lists of names rise.
#![tactic(auto)]

mod claim;
mod earlier;
mod folder;
mod making;
mod real_disk;
mod standing;
mod sync_note;
mod tree;

pub use folder_paths::paths_are_apart;
pub use machine_files::Machine;
pub use real_disk::RealDisk;
