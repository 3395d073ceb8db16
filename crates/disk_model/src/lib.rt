//! A disk in memory that keeps all that a crash may leave, and a disk that says of itself what is not so. The model
//! that both follow, and the trait, are of `disk_theory`, and are named here, too.
#![tactic(auto)]

mod liar_disk;
mod mem_disk;
mod mem_file;
mod mem_image;
mod mem_listing;
mod mem_slots;
mod mem_table;

pub use disk_theory::{Disk, DiskFault, NameStep, Place, reads_as_image, unreached_is_kept};
pub use liar_disk::LiarDisk;
pub use mem_disk::MemDisk;
pub use mem_image::ImageFault;
