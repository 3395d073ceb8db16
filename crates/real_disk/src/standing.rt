//! The files that stand in the folders of the cache, and the syncing of all of them.

ghost use Rattle.std.specs.Prelude.{◌≡◌, OnOk};
ghost use Rattle.pending_syncs.specs.Files.{SyncsPlace};
ghost use Rattle.folder_paths.specs.Numbers.{AreKnown, KeepsNumbers};

use crate::tree::Tree;
use cache_base::{Name, number};
use disk_theory::Place;
use entry_name::read_text;
use folder_paths::{Area, Folders, path_of, path_of_area};
use machine_files::{
    AllSynced, Found, Machine, PermittedSynced, is_permitted, open_regular, read_names, read_only,
    sync_listed, sync_permitted,
};
use pending_syncs::sync_folder;
use std::alloc::Global;
use std::collections::BTreeSet;
use std::fs;
use std::io::{self, ErrorKind};
use std::os::unix::fs::MetadataExt;

/// Says that all that stands was synced. Only `Tree::sync_standing` makes it.
#[derive(Drop)]
pub(crate) struct Standing {
    entries: PermittedSynced<Name>,
    doomed: AllSynced<u32>,
    top: AllSynced<Place>,
}

impl Standing {
    /// Whether no file was passed over.
    pub(crate) fn is_whole(&self) -> bool {
        self.entries.is_whole
    }
}

impl<R: Machine + AllocGlobal + Clone + Drop> Tree<'_, R> {
    pub(crate) fn entries(&self) -> io::Result<BTreeSet<Name, Global>> {
        let path = path_of_area(self.rt, self.dir.as_str(), &Area::Entries)?;
        Ok(read_names(self.rt, path.as_str(), |text| read_text(text))?.files)
    }

    /// Each opening lists these first. So what leads out of the folder of the cache is met here, before all else, and
    /// so are the folders whose numbers no file takes.
    pub(crate) fn list_doomed(&mut self) -> io::Result<BTreeSet<u32, Global>>
        ensures rt { self.new.rt ≡ self.old.rt }
        ensures dir { self.new.dir ≡ self.old.dir }
        ensures folders { self.new.folders ≡ self.old.folders }
        ensures numbers { KeepsNumbers self.old.numbers self.new.numbers }
        ensures known { OnOk result (AreKnown self.new.numbers) }
    {
        let found = self.find_doomed()?;
        self.numbers.learn(found.folders);
        self.numbers_of(found.files)
    }

    fn doomed(&self) -> io::Result<BTreeSet<u32, Global>> {
        self.numbers_of(self.find_doomed()?.files)
    }

    // What stands there, by the numbers in the names.
    fn find_doomed(&self) -> io::Result<Found<u32>> {
        self.refuse_foreign()?;
        let path = path_of_area(self.rt, self.dir.as_str(), &Area::Doomed)?;
        read_names(self.rt, path.as_str(), |text| number(text.as_bytes()))
    }

    // Refuses a folder that is none of the cache's. One of another file system is none: no file moves there.
    fn refuse_foreign(&self) -> io::Result<()> {
        let top = path_of_area(self.rt, self.dir.as_str(), &Area::Top)?;
        let device = match fs::metadata(self.rt, top.as_str()) {
            Ok(found) => found.dev(),
            Err(error) if error.kind() == ErrorKind::NotFound => return Ok(()),
            Err(error) => return Err(error),
        };
        'areas: for area in [Area::Entries, Area::Doomed] {
            let path = path_of_area(self.rt, self.dir.as_str(), &area)?;
            refuse_elsewhere(self.rt, path.as_str(), device)?;
        }
        Ok(())
    }

    fn numbers_of(&self, named: BTreeSet<u32, Global>) -> io::Result<BTreeSet<u32, Global>> {
        let mut found = BTreeSet::new(self.rt.alloc());
        'named: for name in &named {
            if let Some(number) = self.numbers.number_of(*name) {
                found.insert(number)?;
            }
        }
        Ok(found)
    }

    // The places in the folder of the cache itself at which a file stands.
    fn top_files(&self) -> io::Result<BTreeSet<Place, Global>> {
        let mut found = BTreeSet::new(self.rt.alloc());
        'places: for place in [Place::Index, Place::Log, Place::Tmp, Place::Clear] {
            match fs::symlink_metadata(self.rt, self.path(&place)?.as_str()) {
                Ok(there) if there.is_file() => {
                    found.insert(place)?;
                }
                Ok(_) => {}
                Err(error) if error.kind() == ErrorKind::NotFound => {}
                Err(error) => return Err(error),
            }
        }
        Ok(found)
    }

    /// Syncs each file that stands, and the folders that lead to that of the cache. It holds the names of one folder at
    /// a time. An entry's file that may not be opened is passed over: no process of this user has changed it.
    pub(crate) fn sync_standing(&self) -> io::Result<Standing> {
        let rt = self.rt;
        let dir = self.dir.as_str();
        let numbers = &self.numbers;
        let standing = Standing {
            entries: sync_permitted(self.entries()?, |name| {
                is_permitted(sync_at(rt, dir, numbers, &Place::Entry(*name)))
            })?,
            doomed: sync_listed(self.doomed()?, |number| {
                sync_at(rt, dir, numbers, &Place::Doomed(*number))
            })?,
            top: sync_listed(self.top_files()?, |place| {
                sync_at(rt, dir, numbers, place)
            })?,
        };
        self.sync_above()?;
        Ok(standing)
    }

    // Syncs the folders that lead to that of the cache.
    fn sync_above(&self) -> io::Result<()> {
        let top = path_of_area(self.rt, self.dir.as_str(), &Area::Top)?;
        sync_leading(self.rt, if top.starts_with('/') { "/" } else { "." })?;
        'above: for (end, _) in top.match_indices('/') {
            if end > 0
                && let Some(above) = top.get(..end)
            {
                sync_leading(self.rt, above)?;
            }
        }
        Ok(())
    }
}

// Where a link stands in the place of a folder of the cache, the files that it leads to are not the cache's.
fn refuse_elsewhere<R: Machine>(rt: &R, path: &str, device: u64) -> io::Result<()> {
    match fs::symlink_metadata(rt, path) {
        Ok(found) if found.is_symlink() => Err(ErrorKind::Other.into()),
        Ok(found) if found.dev() != device => Err(ErrorKind::CrossesDevices.into()),
        Ok(_) => Ok(()),
        Err(error) if error.kind() == ErrorKind::NotFound => Ok(()),
        Err(error) => Err(error),
    }
}

/// Syncs the file of the place. What is no regular file is not opened: that of a pipe would wait for a writer.
pub(crate) fn sync_at<R: Machine + AllocGlobal>(
    rt: &R,
    dir: &str,
    numbers: &Folders,
    place: &Place,
) -> io::Result<()>
    ensures { OnOk result (SyncsPlace R.Machine rt.now dir.now numbers.now place.now) }
{
    let path = path_of(rt, dir, numbers, place)?;
    let file = open_regular(rt, &read_only(), path.as_str())?;
    rt.sync(&file)
}

// A folder above the cache may be nobody's to read, or lie on a file system that has no sync.
fn sync_leading<R: Machine>(rt: &R, folder: &str) -> io::Result<()> {
    match sync_folder(rt, folder) {
        Err(error) if error.kind() == ErrorKind::PermissionDenied => Ok(()),
        Err(error) if error.kind() == ErrorKind::InvalidInput => Ok(()),
        outcome => outcome,
    }
}
