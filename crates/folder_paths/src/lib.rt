//! Where the files of a cache stand below its folder: the path of each place, and the numbers in the names of doomed
//! files, which pass over those of folders.
//!
//! No two places have one path, and no file is given the number of a folder that stood there.
#![tactic(auto)]

mod laws;
mod numbers;
mod paths;

pub use laws::paths_are_apart;
pub use numbers::Folders;
pub use paths::{
    Area, CLEAR, DOOMED, ENTRIES, INDEX, LOG, TMP, area_of, path_in, path_of, path_of_area,
};
