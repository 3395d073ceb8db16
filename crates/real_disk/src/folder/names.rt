//! The calls that give a file another name, or take its name.

ghost use Rattle.std.specs.Prelude.{◌≡◌, OnOk, OnErr, None, false};
ghost use Rattle.folder_paths.specs.Areas.{area_in};
ghost use Rattle.real_disk.specs.Changes.{IsMoved, IsRemoved};
ghost use Rattle.pending_syncs.specs.Kept.{opened_at, MovesKept, SameElsewhere, StaysOrGoes};
ghost use Rattle.pending_syncs.specs.Files.{KeepsOthers, KeepsAllBut, KeepsAll, MovesNote};
ghost use Rattle.pending_syncs.specs.Folders.{NoneLost, HasNote};
ghost use Rattle.real_disk.specs.Claims.{IsClaimed};
ghost use Rattle.real_disk.specs.Earlier.{HasLooked};

use super::Folder;
use disk_theory::Place;
use folder_paths::area_of;
use machine_files::Machine;
use pending_syncs::{move_note, note_if, take_back};
use std::fs::File;
use std::io;
use std::rt::Clock;

impl<R: Machine<File = File> + AllocGlobal + Clock> Folder<'_, R> {
    /// A file that has changed is to be synced under its new name. It is noted there before, so that a note that
    /// finds no memory leaves all as it was. What stood there has nothing to sync any more.
    pub(crate) fn rename(&mut self, from: &Place, to: &Place) -> io::Result<()>
        ensures renamed { OnOk result (IsMoved R.Machine self.old.tree from.now to.now) }
        ensures followed { OnOk result (MovesKept from.now to.now self.old.kept self.new.kept) }
        ensures failed { OnErr result (self.new.kept ≡ self.old.kept) }
        ensures moved { OnOk result (MovesNote from.now to.now self.old.files self.new.files) }
        ensures from_folder { OnOk result (HasNote self.new.tree.folders (area_in from.now)) }
        ensures to_folder { OnOk result (HasNote self.new.tree.folders (area_in to.now)) }
        ensures kept { OnErr result (KeepsAll self.old.files self.new.files) }
        ensures others { KeepsAllBut from.now to.now self.old.files self.new.files }
        ensures folders { NoneLost self.old.tree.folders self.new.tree.folders }
        ensures claimed { OnOk result (IsClaimed self.new.claim) }
        ensures unnoted { OnOk result (self.new.has_sync_note ≡ false) }
        ensures looked { IsClaimed self.new.claim → HasLooked self.old.earlier self.new.earlier }
    {
        self.begin_change()?;
        let old = self.tree.path(from)?;
        let new = self.tree.path(to)?;
        let has_changed = self.files.contains(from);
        let is_new = note_if(&mut self.files, to, has_changed)?;
        let areas = (area_of(from), area_of(to));
        if let Err(error) = self.tree.rename(areas, old.as_str(), new.as_str()) {
            take_back(&mut self.files, to, is_new);
            return Err(error);
        }
        move_note(&mut self.files, from, to, has_changed);
        self.kept.follow(from, to);
        Ok(())
    }

    /// A removed file has nothing to sync but its folder.
    pub(crate) fn remove(&mut self, place: &Place) -> io::Result<()>
        ensures removed { OnOk result (IsRemoved R.Machine self.old.tree place.now) }
        ensures closed { OnOk result (opened_at self.new.kept place.now ≡ None) }
        ensures failed { OnErr result (StaysOrGoes place.now self.old.kept self.new.kept) }
        ensures elsewhere { SameElsewhere place.now self.old.kept self.new.kept }
        ensures folder { OnOk result (HasNote self.new.tree.folders (area_in place.now)) }
        ensures kept { OnErr result (KeepsAll self.old.files self.new.files) }
        ensures others { KeepsOthers place.now self.old.files self.new.files }
        ensures folders { NoneLost self.old.tree.folders self.new.tree.folders }
        ensures claimed { OnOk result (IsClaimed self.new.claim) }
        ensures unnoted { OnOk result (self.new.has_sync_note ≡ false) }
        ensures looked { IsClaimed self.new.claim → HasLooked self.old.earlier self.new.earlier }
    {
        self.begin_change()?;
        let path = self.tree.path(place)?;
        self.kept.forget(place);
        self.tree.remove_file(area_of(place), path.as_str())?;
        self.files.remove(place);
        Ok(())
    }
}
