//! What an index must learn of a command on entries is how a full scan changes.

ghost use Rattle.file_handles.specs.Effects.{LearntIsScanned, LearntLeavesRest};

/// What an index must learn of a command on entries is how the scan of the shelf changes.
pub fn learnt_is_scanned()
    ensures { LearntIsScanned }
{}

/// A command on entries takes the name that an index learns of off the rest of the update, and no other.
pub fn learnt_leaves_rest()
    ensures { LearntLeavesRest }
{}
