//! The folders in which names have changed since the last sync.

ghost use Rattle.std.specs.Prelude.{OnOk, IsTrue, ◌↔◌, string_bytes};
ghost use Rattle.machine_files.specs.Called.{IsSyncedOrMissing};
ghost use Rattle.std.specs.List.{All};
ghost use Rattle.pending_syncs.specs.OpenFolders.{SyncsFolder};
ghost use Rattle.pending_syncs.specs.Folders.{noted_above, noted_areas, AllNoted, HasNote, HasNoteAbove, NoneLeft, NoneLost};

use crate::open_folders::OpenFolders;
use folder_paths::Area;
use machine_files::{Machine, read_only, sync_each};
use std::alloc::{AllocError, Global};
use std::collections::BTreeSet;
use std::io::{self, ErrorKind};

/// The folders that are to be synced.
#[derive(Drop)]
pub struct FolderNotes {
    areas: BTreeSet<Area, Global>,
    // Folders outside the cache, in which one was made that leads to it.
    above: BTreeSet<String, Global>,
}

impl FolderNotes {
    /// No folder is to be synced yet.
    pub fn none(alloc: Global) -> Self
        ensures { NoneLeft result }
    {
        FolderNotes {
            areas: BTreeSet::new(alloc),
            above: BTreeSet::new(alloc),
        }
    }

    /// Notes the folder of the cache.
    pub fn note(&mut self, area: Area) -> Result<(), AllocError>
        ensures noted { OnOk result (HasNote self.new area) }
        ensures kept { NoneLost self.old self.new }
    {
        self.areas.insert(area)?;
        Ok(())
    }

    /// Notes each folder of the cache.
    pub fn note_all(&mut self) -> Result<(), AllocError>
        ensures noted { OnOk result (AllNoted self.new) }
        ensures kept { NoneLost self.old self.new }
    {
        self.note(Area::Top)?;
        self.note(Area::Entries)?;
        self.note(Area::Doomed)
    }

    /// Notes a folder outside the cache.
    pub fn note_above(&mut self, alloc: Global, folder: &str) -> Result<(), AllocError>
        ensures noted { OnOk result (HasNoteAbove self.new folder.now) }
        ensures kept { NoneLost self.old self.new }
    {
        let folder = String::from_str(alloc, folder)?;
        self.above.insert(folder)?;
        Ok(())
    }

    /// Whether the folder is noted.
    pub fn has(&self, area: Area) -> bool
        ensures { IsTrue result ↔ HasNote self.now area }
    {
        self.areas.contains(&area)
    }

    /// Whether nothing is noted.
    pub fn are_none(&self) -> bool
        ensures { IsTrue result → NoneLeft self.now }
    {
        self.areas.is_empty() && self.above.is_empty()
    }

    /// Syncs each folder.
    pub fn sync<R: Machine + AllocGlobal>(
        &mut self,
        rt: &R,
        dir: &str,
        opened: &OpenFolders<R::File>,
    ) -> io::Result<()>
        ensures left { OnOk result (NoneLeft self.new) }
        ensures areas { OnOk result (All (SyncsFolder R.Machine rt.now dir.now opened.now)
            (noted_areas self.old)) }
        ensures above { OnOk result (All (λ folder. IsSyncedOrMissing R.Machine rt.now
            (string_bytes folder)) (noted_above self.old)) }
    {
        sync_each(&mut self.areas, |area| opened.sync(rt, dir, area))?;
        sync_each(&mut self.above, |folder| sync_folder(rt, folder.as_str()))
    }
}

/// A folder is noted before a name in it is made, which may fail. Where it is missing there is no name to sync.
pub fn sync_folder<R: Machine>(rt: &R, path: &str) -> io::Result<()>
    ensures { OnOk result (IsSyncedOrMissing R.Machine rt.now path.now) }
{
    match rt.open_at(&read_only(), path) {
        Ok(folder) => rt.sync(&folder),
        Err(error) if error.kind() == ErrorKind::NotFound => Ok(()),
        Err(error) => Err(error),
    }
}
