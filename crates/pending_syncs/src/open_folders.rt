//! The folders of the cache that are kept open to be synced.

ghost use Rattle.std.specs.Prelude.{◌≡◌, ◌≢◌, OnOk, OnErr, None, Some};
ghost use Rattle.folder_paths.specs.declared.paths.Area.TheVariants.{Top};
ghost use Rattle.std.specs.Option.{option_copied};
ghost use Rattle.pending_syncs.specs.OpenFolders.{folder_at, IsClosed, KeepsOtherFolders, OpensNoted, OpensAt, SyncsFolder};

use crate::notes::{FolderNotes, sync_folder};
use folder_paths::{Area, path_of_area};
use machine_files::{Machine, read_only};
use std::alloc::{AllocError, Global};
use std::collections::BTreeMap;
use std::io::{self, ErrorKind};

/// The folders that were synced before, each open.
#[derive(Drop)]
pub struct OpenFolders<F: Drop> {
    folders: BTreeMap<Area, F, Global>,
}

impl<F: Drop> OpenFolders<F> {
    /// No folder is open yet.
    pub fn none(alloc: Global) -> Self
        ensures { IsClosed result }
    {
        OpenFolders {
            folders: BTreeMap::new(alloc),
        }
    }

    fn folder_of(&self, area: &Area) -> Option<&F>
        ensures { option_copied result ≡ folder_at self.now area.now }
    {
        self.folders.get(area)
    }

    fn keep(&mut self, area: &Area, folder: F) -> Result<(), AllocError>
        ensures kept { OnOk result (folder_at self.new area.now ≡ Some folder) }
        ensures closed { OnErr result (folder_at self.new area.now ≡ None) }
        ensures others { KeepsOtherFolders area.now self.old self.new }
    {
        self.folders.insert(*area, folder)?;
        Ok(())
    }

    /// A folder is about to be made there, so the one that is open is not the one that stands, and nor are those in it.
    pub fn forget(&mut self, area: &Area)
        ensures closed { folder_at self.new area.now ≡ None }
        ensures all { area.now ≡ Top → IsClosed self.new }
        ensures others { area.now ≢ Top → KeepsOtherFolders area.now self.old self.new }
    {
        match area {
            Area::Top => self.folders.clear(),
            Area::Entries | Area::Doomed => {
                self.folders.remove(area);
            }
        }
    }
}

impl<F: Drop> OpenFolders<F> {
    /// Opens each folder that is noted and not open yet.
    pub fn open_noted<R: Machine<File = F> + AllocGlobal>(
        &mut self,
        rt: &R,
        dir: &str,
        notes: &FolderNotes,
    ) -> io::Result<()>
        ensures { OpensNoted R.Machine rt.now dir.now self.old self.new }
    {
        self.open_if_noted(rt, dir, notes, Area::Entries)?;
        self.open_if_noted(rt, dir, notes, Area::Doomed)?;
        self.open_if_noted(rt, dir, notes, Area::Top)
    }

    fn open_if_noted<R: Machine<File = F> + AllocGlobal>(
        &mut self,
        rt: &R,
        dir: &str,
        notes: &FolderNotes,
        area: Area,
    ) -> io::Result<()>
        ensures opened { OpensAt R.Machine rt.now dir.now area self.old self.new }
        ensures others { KeepsOtherFolders area self.old self.new }
    {
        if !notes.has(area) || self.folder_of(&area).is_some() {
            return Ok(());
        }
        let path = path_of_area(rt, dir, &area)?;
        match rt.open_at(&read_only(), path.as_str()) {
            Ok(folder) => Ok(self.keep(&area, folder)?),
            Err(error) if error.kind() == ErrorKind::NotFound => Ok(()),
            Err(error) => Err(error),
        }
    }

    /// Syncs the folder, where it is open by the descriptor that is.
    pub fn sync<R: Machine<File = F> + AllocGlobal>(
        &self,
        rt: &R,
        dir: &str,
        area: &Area,
    ) -> io::Result<()>
        ensures { OnOk result (SyncsFolder R.Machine rt.now dir.now self.now area.now) }
    {
        match self.folder_of(area) {
            Some(folder) => rt.sync(folder),
            None => sync_folder(rt, path_of_area(rt, dir, area)?.as_str()),
        }
    }
}
