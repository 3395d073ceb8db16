//! The disk as the cache sees it: names and contents at the last sync, the steps since, and what stands now; the
//! trait whose calls are said over that state; and the images that a crash may leave.
#![tactic(auto)]

mod disk;
mod laws;
mod place;

pub use disk::{Disk, DiskFault};
pub use laws::{reads_as_image, unreached_is_kept};
pub use place::{NameStep, Place};
