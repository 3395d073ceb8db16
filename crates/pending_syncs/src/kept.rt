//! The files that are kept open.

ghost use Rattle.std.specs.Prelude.{◌≡◌, IfSome, OnOk, OnErr, None, Some, false, true};
ghost use Rattle.std.specs.Option.{option_copied};
ghost use Rattle.pending_syncs.specs.Kept.{file_at, opened_at, waits, waits_at, ClosesAll, ClosesElsewhere, IsIdle, IsSettled, KeepsNone, MovesKept, SameElsewhere, SameFiles};

use disk_theory::Place;
use machine_files::Machine;
use std::alloc::{AllocError, Global};
use std::collections::BTreeMap;
use std::io;

// So many files that wait for a sync are kept open at most. A process may have few open: some systems allow 128.
const WRITTEN_MAX: usize = 32;

/// An open file.
#[derive(Drop)]
pub struct Opened<F: Drop> {
    /// The file of the machine.
    pub file: F,
    /// It may be written.
    pub writable: bool,
    // It was written and not synced since.
    unsynced: bool,
    /// It was just made: it has no bytes, and was neither read nor written.
    pub is_new: bool,
}

impl<F: Drop> Opened<F> {
    /// One that is about to be read.
    pub fn to_read(file: F) -> Self
        ensures file { result.file ≡ file }
        ensures writable { result.writable ≡ false }
        ensures waits { waits (Some result) ≡ false }
        ensures new { result.is_new ≡ false }
    {
        Opened {
            file,
            writable: false,
            unsynced: false,
            is_new: false,
        }
    }

    /// One that is about to be written.
    pub fn to_write(file: F) -> Self
        ensures file { result.file ≡ file }
        ensures writable { result.writable ≡ true }
        ensures waits { waits (Some result) ≡ true }
        ensures new { result.is_new ≡ false }
    {
        Opened {
            file,
            writable: true,
            unsynced: true,
            is_new: false,
        }
    }

    /// One that was just made, and has no bytes.
    pub fn made(file: F) -> Self
        ensures file { result.file ≡ file }
        ensures writable { result.writable ≡ true }
        ensures waits { waits (Some result) ≡ true }
        ensures new { result.is_new ≡ true }
    {
        Opened {
            file,
            writable: true,
            unsynced: true,
            is_new: true,
        }
    }

    // The same, once it was synced.
    fn once_synced(self) -> Self
        ensures { result.file ≡ self.file }
    {
        Opened {
            file: self.file,
            writable: self.writable,
            unsynced: false,
            is_new: self.is_new,
        }
    }
}

/// The open files by their places: the one that was last used, so that it is opened once, and those that wait for a
/// sync. A file is synced by the descriptor that wrote it, so that no error of an earlier write is lost.
#[derive(Drop)]
pub struct Kept<F: Drop> {
    files: BTreeMap<Place, Opened<F>, Global>,
    // The place of the one that was last used and may not wait for a sync.
    idle: Option<Place>,
}

impl<F: Drop> Kept<F> {
    /// No file is open yet.
    pub fn none(alloc: Global) -> Self
        ensures { KeepsNone result }
    {
        Kept {
            files: BTreeMap::new(alloc),
            idle: None,
        }
    }

    /// Keeps the file, which is the caller's to put back, in the place of what is kept. Where there is no memory for it,
    /// it is closed.
    pub fn keep(&mut self, place: &Place, opened: Opened<F>) -> Result<(), AllocError>
        ensures kept { OnOk result (opened_at self.new place.now ≡ Some opened) }
        ensures closed { OnErr result (opened_at self.new place.now ≡ None) }
        ensures others { ClosesElsewhere IsIdle place.now self.old self.new }
    {
        if !opened.unsynced {
            self.close_idle();
            self.idle = Some(*place);
        }
        self.files.insert(*place, opened)?;
        Ok(())
    }

    // Closes the file that was used before, unless it waits for a sync.
    fn close_idle(&mut self)
        ensures { ClosesAll IsIdle self.old self.new }
    {
        if let Some(place) = self.idle
            && !self.is_unsynced(&place)
        {
            self.forget(&place);
        }
    }

    fn is_unsynced(&self, place: &Place) -> bool
        ensures { result ≡ waits_at self.now place.now }
    {
        match self.files.get(place) {
            Some(opened) => opened.unsynced,
            None => false,
        }
    }

    /// Lends the file of the place.
    pub fn file_of(&self, place: &Place) -> Option<&F>
        ensures { option_copied result ≡ file_at self.now place.now }
    {
        match self.files.get(place) {
            Some(opened) => Some(&opened.file),
            None => None,
        }
    }

    /// Takes the file of the place. The caller puts it back.
    pub fn take(&mut self, place: &Place) -> Option<Opened<F>>
        ensures taken { result ≡ opened_at self.old place.now }
        ensures gone { opened_at self.new place.now ≡ None }
        ensures others { SameElsewhere place.now self.old self.new }
    {
        self.files.remove(place)
    }

    /// The same, if it may be written.
    pub fn take_to_write(&mut self, place: &Place) -> Option<Opened<F>>
        ensures taken { IfSome result (λ opened. opened_at self.old place.now ≡ Some opened) }
        ensures gone { opened_at self.new place.now ≡ None }
        ensures others { SameElsewhere place.now self.old self.new }
    {
        match self.take(place) {
            Some(opened) if opened.writable => Some(opened),
            _ => None,
        }
    }

    /// Closes the file of the place.
    pub fn forget(&mut self, place: &Place)
        ensures gone { opened_at self.new place.now ≡ None }
        ensures others { SameElsewhere place.now self.old self.new }
    {
        let _gone = self.take(place);
    }

    /// The file of the first place has taken the second. Where there is no memory to keep it, it is closed, and is synced
    /// by its path.
    pub fn follow(&mut self, from: &Place, to: &Place)
        ensures { MovesKept from.now to.now self.old self.new }
    {
        let taken = self.take(from);
        self.forget(to);
        if let Some(opened) = taken {
            let _outcome = self.keep(to, opened);
        }
    }

    /// All files were synced. Of them one stays open.
    pub fn close_synced(&mut self)
        ensures { SameFiles self.old self.new }
    {
        let last = self.files.pop_last();
        self.files.clear();
        if let Some((place, opened)) = last {
            let _outcome = self.keep(&place, opened.once_synced());
        }
    }

    /// Makes room for the file of the place, which is about to be written. Where too many others are open, one of them is
    /// synced and closed.
    pub fn make_room<R: Machine<File = F>>(&mut self, rt: &R, place: &Place) -> io::Result<()>
        ensures { ClosesAll (IsSettled R.Machine rt.now) self.old self.new }
    {
        if self.files.len() > WRITTEN_MAX && !self.is_unsynced(place) {
            self.close_first(rt)?;
        }
        Ok(())
    }

    fn close_first<R: Machine<File = F>>(&mut self, rt: &R) -> io::Result<()>
        ensures { ClosesAll (IsSettled R.Machine rt.now) self.old self.new }
    {
        let first = match self.files.first_key_value() {
            Some((place, _)) => *place,
            None => return Ok(()),
        };
        self.sync_waiting(rt, &first)?;
        self.forget(&first);
        Ok(())
    }

    // Syncs the file of the place, if it waits for that.
    fn sync_waiting<R: Machine<File = F>>(&self, rt: &R, place: &Place) -> io::Result<()>
        ensures { OnOk result
            (IfSome (opened_at self.now place.now) (IsSettled R.Machine rt.now)) }
    {
        match self.files.get(place) {
            None => Ok(()),
            Some(opened) => sync_if_waits(rt, opened),
        }
    }
}

fn sync_if_waits<R: Machine>(rt: &R, opened: &Opened<R::File>) -> io::Result<()>
    ensures { OnOk result (IsSettled R.Machine rt.now opened.now) }
{
    if opened.unsynced {
        rt.sync(&opened.file)
    } else {
        Ok(())
    }
}
