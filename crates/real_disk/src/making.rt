//! The making of folders.

ghost use Rattle.pending_syncs.specs.Folders.{NoneLost};
ghost use Rattle.real_disk.specs.Roots.{HasSameRoot};

use crate::tree::Tree;
use folder_paths::{Area, path_of_area};
use machine_files::Machine;
use std::fs::{self, DirBuilder};
use std::io::{self, ErrorKind};
use std::os::unix::fs::DirBuilderExt;

const FOLDER_MODE: u32 = 0o700;

impl<R: Machine + AllocGlobal> Tree<'_, R> {
    /// Makes a folder and those above it, where they are missing.
    pub(crate) fn make_area(&mut self, area: Area) -> io::Result<()>
        ensures kept { NoneLost self.old.folders self.new.folders }
        ensures root { HasSameRoot self.old self.new }
    {
        self.opened.forget(&area);
        match area {
            Area::Top => self.make_top(),
            Area::Entries => self.make_below_top(area),
            Area::Doomed => self.make_below_top(area),
        }
    }

    fn make_below_top(&mut self, area: Area) -> io::Result<()>
        ensures kept { NoneLost self.old.folders self.new.folders }
        ensures root { HasSameRoot self.old self.new }
    {
        let path = path_of_area(self.rt, self.dir.as_str(), &area)?;
        self.folders.note(Area::Top)?;
        match make_folder(self.rt, path.as_str()) {
            Err(error) if error.kind() == ErrorKind::NotFound => {
                self.make_top()?;
                make_folder(self.rt, path.as_str())
            }
            outcome => outcome,
        }
    }

    fn make_top(&mut self) -> io::Result<()>
        ensures kept { NoneLost self.old.folders self.new.folders }
        ensures root { HasSameRoot self.old self.new }
    {
        self.opened.forget(&Area::Top);
        let top = path_of_area(self.rt, self.dir.as_str(), &Area::Top)?;
        self.make_with_those_above(top.as_str())
    }

    fn make_with_those_above(&mut self, folder: &str) -> io::Result<()>
        ensures kept { NoneLost self.old.folders self.new.folders }
        ensures root { HasSameRoot self.old self.new }
    {
        match self.make_above(folder) {
            Err(error) if error.kind() == ErrorKind::NotFound => {}
            outcome => return outcome,
        }
        'above: for (end, _) in folder.match_indices('/') {
            if end > 0
                && let Some(above) = folder.get(..end)
            {
                self.make_above(above)?;
            }
        }
        self.make_above(folder)
    }

    // The folder that this one lies in may be nobody's to read, and is noted only where a folder is to be made in it.
    fn make_above(&mut self, folder: &str) -> io::Result<()>
        ensures kept { NoneLost self.old.folders self.new.folders }
        ensures root { HasSameRoot self.old self.new }
    {
        if is_folder(self.rt, folder) {
            return Ok(());
        }
        self.folders.note_above(self.rt.alloc(), parent_of(folder))?;
        make_folder(self.rt, folder)
    }
}

// A folder that is there already is as good.
fn make_folder<R: Machine>(rt: &R, folder: &str) -> io::Result<()> {
    match DirBuilder::new().mode(FOLDER_MODE).create(rt, folder) {
        Err(_) if is_folder(rt, folder) => Ok(()),
        outcome => outcome,
    }
}

fn is_folder<R: Machine>(rt: &R, path: &str) -> bool {
    fs::metadata(rt, path).is_ok_and(|found| found.is_dir())
}

/// The folder that a path lies in.
pub(crate) fn parent_of(path: &str) -> &str {
    match path.rsplit_once('/') {
        None => ".",
        Some(("", _)) => "/",
        Some((parent, _)) => parent,
    }
}
