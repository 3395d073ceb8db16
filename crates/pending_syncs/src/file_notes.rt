//! The notes of files that have changed since the last sync, by their places.

ghost use Rattle.std.specs.Prelude.{IfOk, OnOk, OnErr, IsTrue};
ghost use Rattle.std.specs.BTreeSet.{IsUnchanged};
ghost use Rattle.pending_syncs.specs.Files.{IsNoted, NotesNew, PutsBack, KeepsNote, KeepsOthers, KeepsAllBut};

use disk_theory::Place;
use std::alloc::{AllocError, Global};
use std::cmp::Ordering;
use std::collections::BTreeSet;

/// Notes the file of the place, if it is `wanted`, and answers whether the note is new.
pub fn note_if(
    files: &mut BTreeSet<Place, Global>,
    place: &Place,
    wanted: bool,
) -> Result<bool, AllocError>
    ensures wanted { IsTrue wanted → OnOk result (IsNoted files.new place.now) }
    ensures noted { IfOk result (λ is_new. NotesNew is_new place.now files.old files.new) }
    ensures err { OnErr result (IsUnchanged files.old files.new) }
{
    if !wanted {
        return Ok(false);
    }
    Ok(files.insert(*place)?)
}

/// Takes back a note, if it is new, where the step for which it was made has failed.
pub fn take_back(files: &mut BTreeSet<Place, Global>, place: &Place, is_new: bool)
    ensures others { KeepsOthers place.now files.old files.new }
    ensures back { PutsBack is_new place.now files.old files.new }
{
    if is_new {
        files.remove(place);
    }
}

/// What went from the first place to the second is noted under the second alone, where it `has_changed`, and else
/// under neither.
pub fn move_note(files: &mut BTreeSet<Place, Global>, from: &Place, to: &Place, has_changed: bool)
    ensures kept { IsTrue has_changed → KeepsNote to.now files.old files.new }
    ensures others { KeepsAllBut from.now to.now files.old files.new }
{
    if from.cmp(to) == Ordering::Equal {
        return;
    }
    files.remove(from);
    if !has_changed {
        files.remove(to);
    }
}
