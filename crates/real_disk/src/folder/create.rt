//! The making of a file at a place.

ghost use Rattle.std.specs.Prelude.{◌≡◌, IfOk, OnOk, OnErr, false};
ghost use Rattle.folder_paths.specs.Areas.{area_in};
ghost use Rattle.real_disk.specs.Changes.{KeepsMade};
ghost use Rattle.pending_syncs.specs.Kept.{ClosesElsewhere, IsSettled, StaysOrGoes};
ghost use Rattle.pending_syncs.specs.Files.{IsNoted, KeepsOthers, KeepsAll, Owes};
ghost use Rattle.pending_syncs.specs.Folders.{NoneLost, HasNote};
ghost use Rattle.real_disk.specs.Claims.{IsClaimed};
ghost use Rattle.real_disk.specs.Earlier.{HasLooked};

use super::Folder;
use disk_theory::Place;
use folder_paths::{Area, area_of};
use machine_files::{Machine, after_change};
use pending_syncs::{Opened, note_if, take_back};
use std::fs::File;
use std::io::{self, ErrorKind};
use std::rt::Clock;

impl<R: Machine<File = File> + AllocGlobal + Clock> Folder<'_, R> {
    /// A file that stood there loses its name and is not cut, so that a crash may still show all of it.
    pub(crate) fn create(&mut self, place: &Place) -> io::Result<()>
        ensures made { OnOk result (KeepsMade R.Machine self.old.tree place.now self.new.kept) }
        ensures failed { OnErr result (StaysOrGoes place.now self.old.kept self.new.kept) }
        ensures elsewhere { ClosesElsewhere (IsSettled R.Machine self.old.tree.rt.now)
            place.now self.old.kept self.new.kept }
        ensures noted { OnOk result (IsNoted self.new.files place.now) }
        ensures folder { OnOk result (HasNote self.new.tree.folders (area_in place.now)) }
        ensures owed { Owes place.now self.old.files self.new.files self.new.tree.folders }
        ensures others { KeepsOthers place.now self.old.files self.new.files }
        ensures folders { NoneLost self.old.tree.folders self.new.tree.folders }
        ensures claimed { OnOk result (IsClaimed self.new.claim) }
        ensures unnoted { OnOk result (self.new.has_sync_note ≡ false) }
        ensures looked { IsClaimed self.new.claim → HasLooked self.old.earlier self.new.earlier }
    {
        self.claim_made()?;
        self.begin_change()?;
        let path = self.tree.path(place)?;
        self.kept.make_room(self.tree.rt, place)?;
        self.kept.forget(place);
        let file = match self.make_where_none(place, path.as_str()) {
            Err(error) if error.kind() == ErrorKind::AlreadyExists => {
                self.make_in_place(place, path.as_str())?
            }
            outcome => outcome?,
        };
        self.keep_changed(place, Opened::made(file))
    }

    // A new file where none stands, which is noted before. Where that fails the notes are as they were.
    fn make_where_none(&mut self, place: &Place, path: &str) -> io::Result<R::File>
        ensures made { IfOk result (λ file. R.Machine.made self.old.tree.rt.now path.now file) }
        ensures rt { self.new.tree.rt ≡ self.old.tree.rt }
        ensures kept_open { self.new.kept ≡ self.old.kept }
        ensures noted { OnOk result (IsNoted self.new.files place.now) }
        ensures folder { OnOk result (HasNote self.new.tree.folders (area_in place.now)) }
        ensures kept { OnErr result (KeepsAll self.old.files self.new.files) }
        ensures others { KeepsOthers place.now self.old.files self.new.files }
        ensures folders { NoneLost self.old.tree.folders self.new.tree.folders }
        ensures note { self.new.has_sync_note ≡ self.old.has_sync_note }
        ensures claim { self.new.claim ≡ self.old.claim }
        ensures earlier { self.new.earlier ≡ self.old.earlier }
    {
        let is_new = note_if(&mut self.files, place, true)?;
        match self.tree.make_file(area_of(place), path) {
            Ok(file) => Ok(file),
            Err(error) => {
                take_back(&mut self.files, place, is_new);
                Err(error)
            }
        }
    }

    // A new file in the place of one that stands, which loses its name.
    fn make_in_place(&mut self, place: &Place, path: &str) -> io::Result<R::File>
        ensures made { IfOk result (λ file. R.Machine.made self.old.tree.rt.now path.now file) }
        ensures kept_open { self.new.kept ≡ self.old.kept }
        ensures noted { OnOk result (IsNoted self.new.files place.now) }
        ensures folder { OnOk result (HasNote self.new.tree.folders (area_in place.now)) }
        ensures owed { Owes place.now self.old.files self.new.files self.new.tree.folders }
        ensures others { KeepsOthers place.now self.old.files self.new.files }
        ensures folders { NoneLost self.old.tree.folders self.new.tree.folders }
        ensures note { self.new.has_sync_note ≡ self.old.has_sync_note }
        ensures claim { self.new.claim ≡ self.old.claim }
        ensures earlier { self.new.earlier ≡ self.old.earlier }
    {
        let area = area_of(place);
        self.tree.remove_file(area, path)?;
        let made = self.make_noted(place, area, path);
        match after_change(made) {
            Ok(file) => Ok(file),
            Err(error) => {
                // No file stands there any more.
                self.files.remove(place);
                Err(error)
            }
        }
    }

    // A new file, which is noted before.
    fn make_noted(&mut self, place: &Place, area: Area, path: &str) -> io::Result<R::File>
        ensures made { IfOk result (λ file. R.Machine.made self.old.tree.rt.now path.now file) }
        ensures kept_open { self.new.kept ≡ self.old.kept }
        ensures noted { OnOk result (IsNoted self.new.files place.now) }
        ensures folder { OnOk result (HasNote self.new.tree.folders area) }
        ensures others { KeepsOthers place.now self.old.files self.new.files }
        ensures folders { NoneLost self.old.tree.folders self.new.tree.folders }
        ensures note { self.new.has_sync_note ≡ self.old.has_sync_note }
        ensures claim { self.new.claim ≡ self.old.claim }
        ensures earlier { self.new.earlier ≡ self.old.earlier }
    {
        self.files.insert(*place)?;
        self.tree.make_file(area, path)
    }
}
