//! The calls of the machine that make, move and remove files by their paths.

ghost use Rattle.std.specs.Prelude.{◌≡◌, OnOk, IfOk, string_bytes};
ghost use Rattle.std.specs.List.{All};
ghost use Rattle.pending_syncs.specs.OpenFolders.{SyncsFolder};
ghost use Rattle.pending_syncs.specs.Folders.{noted_areas, NoneLost, NoneLeft, HasNote};
ghost use Rattle.real_disk.specs.Roots.{HasSameRoot};
ghost use Rattle.folder_paths.specs.Paths.{IsPathOf};

use disk_theory::Place;
use folder_paths::{Area, Folders, path_of};
use machine_files::{Machine, open_regular};
use pending_syncs::{FolderNotes, OpenFolders};
use std::fs::{self, OpenOptions};
use std::io::{self, ErrorKind};
use std::rt::Files;

/// The file system of the machine below the folder `dir`, and what is to be synced of its folders.
#[derive(Drop)]
pub(crate) struct Tree<'a, R: Files + AllocGlobal> {
    pub(crate) rt: &'a R,
    pub(crate) dir: String,
    pub(crate) folders: FolderNotes,
    pub(crate) opened: OpenFolders<R::File>,
    pub(crate) numbers: Folders,
}

impl<'a, R: Machine + AllocGlobal> Tree<'a, R> {
    pub(crate) fn new(rt: &'a R, dir: String) -> Self {
        Tree {
            rt,
            dir,
            folders: FolderNotes::none(rt.alloc()),
            opened: OpenFolders::none(rt.alloc()),
            numbers: Folders::unknown(),
        }
    }

    pub(crate) fn path(&self, place: &Place) -> io::Result<String>
        ensures { IfOk result (λ path. IsPathOf (string_bytes self.now.dir) self.now.numbers place.now
            (string_bytes path)) }
    {
        path_of(self.rt, self.dir.as_str(), &self.numbers, place)
    }

    /// Makes a file where none stands. Folders are missing only the first time, so they are made only then.
    pub(crate) fn make_file(&mut self, area: Area, path: &str) -> io::Result<R::File>
        ensures made { IfOk result (λ file. R.Machine.made self.old.rt.now path.now file) }
        ensures noted { OnOk result (HasNote self.new.folders area) }
        ensures kept { NoneLost self.old.folders self.new.folders }
        ensures root { HasSameRoot self.old self.new }
    {
        match self.open_new(area, path) {
            Err(error) if error.kind() == ErrorKind::NotFound => {
                self.make_area(area)?;
                self.open_new(area, path)
            }
            outcome => outcome,
        }
    }

    fn open_new(&mut self, area: Area, path: &str) -> io::Result<R::File>
        ensures made { IfOk result (λ file. R.Machine.made self.old.rt.now path.now file) }
        ensures noted { OnOk result (HasNote self.new.folders area) }
        ensures kept { NoneLost self.old.folders self.new.folders }
        ensures root { HasSameRoot self.old self.new }
    {
        self.folders.note(area)?;
        self.rt.make_at(path)
    }

    /// Removes a file.
    pub(crate) fn remove_file(&mut self, area: Area, path: &str) -> io::Result<()>
        ensures removed { OnOk result (R.Machine.removed self.old.rt.now path.now) }
        ensures noted { OnOk result (HasNote self.new.folders area) }
        ensures kept { NoneLost self.old.folders self.new.folders }
        ensures root { HasSameRoot self.old self.new }
    {
        self.folders.note(area)?;
        self.rt.remove_at(path)
    }

    /// The file of the first path takes the second. They lie in these folders, and the second is made where it is
    /// missing.
    pub(crate) fn rename(&mut self, areas: (Area, Area), from: &str, to: &str) -> io::Result<()>
        ensures moved { OnOk result (R.Machine.moved self.old.rt.now from.now to.now) }
        ensures from { OnOk result (HasNote self.new.folders areas.0) }
        ensures to { OnOk result (HasNote self.new.folders areas.1) }
        ensures kept { NoneLost self.old.folders self.new.folders }
    {
        match self.rename_once(areas, from, to) {
            Err(error) if error.kind() == ErrorKind::NotFound && fs::exists(self.rt, from)? => {
                self.make_area(areas.1)?;
                self.rename_once(areas, from, to)
            }
            outcome => outcome,
        }
    }

    fn rename_once(&mut self, areas: (Area, Area), from: &str, to: &str) -> io::Result<()>
        ensures moved { OnOk result (R.Machine.moved self.old.rt.now from.now to.now) }
        ensures from { OnOk result (HasNote self.new.folders areas.0) }
        ensures to { OnOk result (HasNote self.new.folders areas.1) }
        ensures kept { NoneLost self.old.folders self.new.folders }
        ensures root { HasSameRoot self.old self.new }
    {
        self.folders.note(areas.0)?;
        self.folders.note(areas.1)?;
        self.rt.move_to(from, to)
    }

    /// Opens the file that stands there. What is no regular file, such as a folder or a link, is not opened.
    pub(crate) fn open(&self, how: &OpenOptions, path: &str) -> io::Result<R::File>
        ensures { IfOk result (λ file. R.Machine.opened self.now.rt.now path.now file) }
    {
        open_regular(self.rt, how, path)
    }

    /// Syncs each folder.
    pub(crate) fn sync(&mut self) -> io::Result<()>
        ensures left { OnOk result (NoneLeft self.new.folders) }
        ensures synced { OnOk result (All (SyncsFolder R.Machine self.old.rt.now
            (string_bytes self.old.dir) self.new.opened) (noted_areas self.old.folders)) }
    {
        let dir = self.dir.as_str();
        self.opened.open_noted(self.rt, dir, &self.folders)?;
        self.folders.sync(self.rt, dir, &self.opened)
    }
}
