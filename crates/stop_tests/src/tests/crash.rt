//! What a stop leaves of an entry.

mod bodies;
mod changes;
mod doomed;
mod renewals;

use super::images::{
    add_file, before_faults, content_of, image_of, image_prints, is_image, lists_what_stands,
    prints, stopped_when,
};
use super::*;
