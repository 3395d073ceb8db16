//! The folder by its places, and how each call on it begins.

ghost use Rattle.std.specs.Prelude.{◌≡◌, OnOk, OnErr, false, string_bytes};
ghost use Rattle.folder_paths.specs.Numbers.{AreKnown, KeepsNumbers};
ghost use Rattle.real_disk.specs.Roots.{HasSameRoot};
ghost use Rattle.pending_syncs.specs.Folders.{NoneLost};
ghost use Rattle.real_disk.specs.Claims.{IsAsked, IsClaimed};
ghost use Rattle.real_disk.specs.Earlier.{HasLooked, IsKnown, IsSynced};
ghost use Rattle.real_disk.specs.Reasons.{HasReason};

use crate::claim::{Claim, ask, ask_made};
use crate::earlier::Earlier;
use crate::sync_note;
use crate::tree::Tree;
use cache_base::Name;
use disk_theory::Place;
use folder_paths::Area;
use machine_files::Machine;
use pending_syncs::Kept;
use std::alloc::Global;
use std::collections::BTreeSet;
use std::fs::File;
use std::io::{self, ErrorKind};
use std::rt::{Clock, Files};

mod create;
mod look;
mod names;
mod sync;
mod write;

/// The folder, and what is to be synced of it.
#[derive(Drop)]
pub(crate) struct Folder<'a, R: Files + AllocGlobal> {
    tree: Tree<'a, R>,
    claim: Claim<R::File>,
    // The places whose files were made or written since the last sync.
    files: BTreeSet<Place, Global>,
    kept: Kept<R::File>,
    // What waits for a sync without a note here.
    earlier: Earlier,
    // Whether the note that all was synced may stand in the folder.
    has_sync_note: bool,
}

impl<'a, R: Machine + AllocGlobal> Folder<'a, R> {
    pub(crate) fn new(rt: &'a R, dir: String) -> Self {
        Folder {
            tree: Tree::new(rt, dir),
            claim: Claim::Unasked,
            files: BTreeSet::new(rt.alloc()),
            kept: Kept::none(rt.alloc()),
            earlier: Earlier::Unknown,
            has_sync_note: true,
        }
    }
}

impl<R: Machine<File = File> + AllocGlobal + Clock> Folder<'_, R> {
    pub(crate) fn alloc(&self) -> Global {
        self.tree.rt.alloc()
    }

    // Each call begins so: the folder is asked for, unless that was done.
    fn claim(&mut self) -> io::Result<()>
        ensures asked { OnOk result (IsAsked self.new.claim) }
        ensures failed { OnErr result (IsAsked self.new.claim → ⊥) }
        ensures unclaimed { OnErr result (IsClaimed self.new.claim → ⊥) }
        ensures kept { self.new.kept ≡ self.old.kept }
        ensures files { self.new.files ≡ self.old.files }
        ensures folders { self.new.tree ≡ self.old.tree }
        ensures note { self.new.has_sync_note ≡ self.old.has_sync_note }
        ensures earlier { self.new.earlier ≡ self.old.earlier }
    {
        if !self.claim.is_asked() {
            self.claim = ask(self.tree.rt, self.tree.dir.as_str())?;
        }
        Ok(())
    }

    // A call that makes a file begins so: the folder is made where it is missing, and is then this run's own.
    fn claim_made(&mut self) -> io::Result<()>
        ensures claimed { OnOk result (IsClaimed self.new.claim) }
        ensures failed { OnErr result (IsClaimed self.new.claim → ⊥) }
        ensures files { self.new.files ≡ self.old.files }
        ensures kept { self.new.kept ≡ self.old.kept }
        ensures root { HasSameRoot self.old.tree self.new.tree }
        ensures folders { NoneLost self.old.tree.folders self.new.tree.folders }
        ensures note { self.new.has_sync_note ≡ self.old.has_sync_note }
        ensures earlier { self.new.earlier ≡ self.old.earlier }
    {
        self.claim()?;
        if self.claim.is_held() {
            return Ok(());
        }
        self.tree.make_area(Area::Top)?;
        self.claim = ask_made(self.tree.rt, self.tree.dir.as_str())?;
        Ok(())
    }

    // Each call that changes something begins so: the folder is this run's own, and the note that all was synced is taken
    // away. Where the folder is missing there is nothing to be changed.
    fn begin_change(&mut self) -> io::Result<()>
        ensures claimed { OnOk result (IsClaimed self.new.claim) }
        ensures unnoted { OnOk result (self.new.has_sync_note ≡ false) }
        ensures looked { IsClaimed self.new.claim → HasLooked self.old.earlier self.new.earlier }
        ensures kept { self.new.kept ≡ self.old.kept }
        ensures files { self.new.files ≡ self.old.files }
        ensures folders { self.new.tree ≡ self.old.tree }
    {
        self.claim()?;
        if !self.claim.is_held() {
            return Err(ErrorKind::NotFound.into());
        }
        self.look_for_earlier();
        if self.has_sync_note {
            sync_note::take_away(self.tree.rt, self.tree.dir.as_str())?;
            self.has_sync_note = false;
        }
        Ok(())
    }

    // Looks what an earlier process has left, unless that was done.
    fn look_for_earlier(&mut self)
        ensures claim { self.new.claim ≡ self.old.claim }
        ensures looked { HasLooked self.old.earlier self.new.earlier }
        ensures reason { (IsKnown self.old.earlier → ⊥) → IsSynced self.new.earlier
            → HasReason R.Machine self.old.tree.rt.now (string_bytes self.old.tree.dir) }
        ensures kept { self.new.kept ≡ self.old.kept }
        ensures files { self.new.files ≡ self.old.files }
        ensures folders { self.new.tree ≡ self.old.tree }
    {
        self.earlier = self
            .earlier
            .after_look(self.tree.rt, self.tree.dir.as_str());
    }
}

impl<R: Machine<File = File> + AllocGlobal + Clock + Clone + Drop> Folder<'_, R> {
    pub(crate) fn entries(&mut self) -> io::Result<BTreeSet<Name, Global>>
        ensures kept { self.new.kept ≡ self.old.kept }
        ensures files { self.new.files ≡ self.old.files }
        ensures folders { self.new.tree ≡ self.old.tree }
        ensures earlier { self.new.earlier ≡ self.old.earlier }
    {
        self.claim()?;
        self.tree.entries()
    }

    pub(crate) fn doomed(&mut self) -> io::Result<BTreeSet<u32, Global>>
        ensures kept { self.new.kept ≡ self.old.kept }
        ensures files { self.new.files ≡ self.old.files }
        ensures folders { self.new.tree.folders ≡ self.old.tree.folders }
        ensures numbers { KeepsNumbers self.old.tree.numbers self.new.tree.numbers }
        ensures known { OnOk result (AreKnown self.new.tree.numbers) }
        ensures earlier { self.new.earlier ≡ self.old.earlier }
    {
        self.claim()?;
        self.tree.list_doomed()
    }
}
