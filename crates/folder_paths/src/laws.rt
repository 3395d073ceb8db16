//! What paths of places have in common.

ghost use Rattle.folder_paths.specs.Paths.{HaveOwnPaths};

use disk_theory::Place;

/// No two places have one path, whatever folders stand among the doomed files.
pub fn paths_are_apart(_one: &Place, _other: &Place)
    ensures { HaveOwnPaths _one.now _other.now }
{}
