//! The sync of what has changed, and the note that all was synced.

ghost use Rattle.std.specs.Prelude.{◌≡◌, ◌⊎◌, OnOk, OnErr, IsTrue, string_bytes};
ghost use Rattle.std.specs.BTreeSet.{btree_set_len};
ghost use Rattle.pending_syncs.specs.Kept.{SameFiles};
ghost use Rattle.pending_syncs.specs.Files.{SyncsFile};
ghost use Rattle.pending_syncs.specs.Folders.{NoneLost, NoneLeft, AllNoted};
ghost use Rattle.real_disk.specs.Settled.{IsAllSynced};
ghost use Rattle.machine_files.specs.Taken.{TakesOff};
ghost use Rattle.std.specs.List.{All};
ghost use Rattle.real_disk.specs.Claims.{IsAsked};
ghost use Rattle.real_disk.specs.Earlier.{HasLooked, IsSynced};
ghost use Rattle.pending_syncs.specs.OpenFolders.{SyncsNoted};
ghost use Rattle.real_disk.specs.declared.earlier.Earlier.TheVariants.{Unsynced};

use super::Folder;
use crate::earlier::{Covered, Earlier, was_closed};
use crate::standing::sync_at;
use crate::sync_note;
use crate::tree::Tree;
use disk_theory::Place;
use machine_files::{Machine, sync_each};
use pending_syncs::Kept;
use std::alloc::Global;
use std::collections::BTreeSet;
use std::fs::File;
use std::io;
use std::rt::Clock;

impl<R: Machine<File = File> + AllocGlobal + Clock + Clone + Drop> Folder<'_, R> {
    /// The files before the names that lead to them.
    pub(crate) fn sync(&mut self) -> io::Result<()>
        ensures files { OnOk result (btree_set_len self.new.files ≡ 0) }
        ensures synced { OnOk result (All (SyncsFile R.Machine self.old.tree.rt.now
            (string_bytes self.old.tree.dir) self.old.tree.numbers self.old.kept) self.old.files.keys) }
        ensures kept { SameFiles self.old.kept self.new.kept }
        ensures names { OnOk result (NoneLeft self.new.tree.folders) }
        ensures folders { OnOk result (SyncsNoted R.Machine self.old.tree.rt.now
            (string_bytes self.old.tree.dir) self.new.tree.opened self.old.tree.folders) }
        ensures order { (btree_set_len self.new.files ≡ 0) ⊎ (self.new.tree ≡ self.old.tree) }
        ensures earlier { OnOk result (IsSynced self.new.earlier) }
        ensures owed { OnErr result
            (IsAsked self.new.claim → HasLooked self.old.earlier self.new.earlier) }
    {
        self.claim()?;
        self.look_for_earlier();
        let tree = &self.tree;
        let kept = &self.kept;
        sync_files(&mut self.files, tree, kept)?;
        self.kept.close_synced();
        let was_synced = self.earlier.is_synced();
        let covered = self.cover_earlier()?;
        self.tree.sync()?;
        self.earlier = Earlier::Synced(covered);
        if !was_synced && self.earlier.wants_note() {
            self.make_note();
        }
        Ok(())
    }

    // Syncs the files of an earlier process, and notes its folders.
    fn cover_earlier(&mut self) -> io::Result<Covered>
        ensures noted { OnOk result (self.old.earlier ≡ Unsynced → AllNoted self.new.tree.folders) }
        ensures rt { self.new.tree.rt ≡ self.old.tree.rt }
        ensures dir { self.new.tree.dir ≡ self.old.tree.dir }
        ensures kept { self.new.kept ≡ self.old.kept }
        ensures files { self.new.files ≡ self.old.files }
        ensures folders { NoneLost self.old.tree.folders self.new.tree.folders }
        ensures earlier { self.new.earlier ≡ self.old.earlier }
    {
        if let Earlier::Synced(covered) = self.earlier {
            return Ok(covered);
        }
        let standing = self.tree.sync_standing()?;
        self.tree.folders.note_all()?;
        Ok(Covered::by_sync(standing))
    }
}

impl<R: Machine<File = File> + AllocGlobal + Clock> Folder<'_, R> {
    /// Leaves the note that all was synced, where that is so, unless the cache is closed.
    pub(crate) fn leave_note(&mut self)
        ensures honest { IsTrue self.new.has_sync_note → IsTrue self.old.has_sync_note
            ⊎ IsAllSynced self.old.files self.old.tree.folders self.old.earlier }
        ensures kept { self.new.kept ≡ self.old.kept }
        ensures files { self.new.files ≡ self.old.files }
        ensures folders { self.new.tree ≡ self.old.tree }
        ensures earlier { self.new.earlier ≡ self.old.earlier }
    {
        if !self.has_sync_note && self.is_settled() && self.earlier.wants_note() {
            self.make_note();
        }
    }

    // One that could not be made whole is not believed. Where the folder is not this run's own nothing is made in it.
    fn make_note(&mut self)
        requires { IsAllSynced self.old.files self.old.tree.folders self.old.earlier }
        ensures kept { self.new.kept ≡ self.old.kept }
        ensures files { self.new.files ≡ self.old.files }
        ensures folders { self.new.tree ≡ self.old.tree }
        ensures earlier { self.new.earlier ≡ self.old.earlier }
    {
        if !self.claim.is_held() {
            return;
        }
        if let Ok(true) = was_closed(self.tree.rt, self.tree.dir.as_str()) {
            return;
        }
        self.has_sync_note = true;
        let _outcome = sync_note::leave(self.tree.rt, self.tree.dir.as_str());
    }

    // Whether nothing that this process changed waits for a sync.
    fn is_settled(&self) -> bool
        ensures files { IsTrue result → btree_set_len self.now.files ≡ 0 }
        ensures folders { IsTrue result → NoneLeft self.now.tree.folders }
    {
        self.files.is_empty() && self.tree.folders.are_none()
    }
}

// Syncs each noted file.
fn sync_files<R: Machine + AllocGlobal>(
    files: &mut BTreeSet<Place, Global>,
    tree: &Tree<'_, R>,
    kept: &Kept<R::File>,
) -> io::Result<()>
    ensures all { OnOk result (btree_set_len files.new ≡ 0) }
    ensures synced { TakesOff (SyncsFile R.Machine tree.now.rt.now (string_bytes tree.now.dir)
        tree.now.numbers kept.now) files.old files.new }
{
    sync_each(files, |place| sync_file(tree, kept, place))
}

fn sync_file<R: Machine + AllocGlobal>(
    tree: &Tree<'_, R>,
    kept: &Kept<R::File>,
    place: &Place,
) -> io::Result<()>
    ensures { OnOk result (SyncsFile R.Machine tree.now.rt.now (string_bytes tree.now.dir)
        tree.now.numbers kept.now place.now) }
{
    match kept.file_of(place) {
        Some(file) => tree.rt.sync(file),
        None => sync_at(tree.rt, tree.dir.as_str(), &tree.numbers, place),
    }
}
