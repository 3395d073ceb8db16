//! The calls that ask for the length of a file or read it.

ghost use Rattle.std.specs.Prelude.{◌≡◌, ◌⊎◌, IfOk, IfSome, None, OnErr, length, take, ◌≢◌, ◌≤◌, string_bytes};
ghost use Rattle.disk_theory.specs.declared.place.Place.TheVariants.{Clear};
ghost use Rattle.pending_syncs.specs.Kept.{opened_at, ClosesElsewhere, IsIdle, SameElsewhere};
ghost use Rattle.real_disk.specs.Opening.{IsFileOf, IsOpenedAt};
ghost use Rattle.real_disk.specs.Used.{IsToldOf, KeepsOwn, KeepsRead};

use super::Folder;
use disk_theory::Place;
use machine_files::{Machine, Seen, read_at, read_only, same_opened, seen_at};
use pending_syncs::Opened;
use std::fs::File;
use std::io::{self, ErrorKind};
use std::rt::Clock;

impl<R: Machine<File = File> + AllocGlobal + Clock> Folder<'_, R> {
    /// The length of the file, which is then kept open, since it is mostly read next. A missing file has none.
    pub(crate) fn size(&mut self, place: &Place) -> io::Result<Option<u64>>
        ensures told { IfOk result (IsToldOf R.Machine self.old.tree place.now) }
        ensures failed { OnErr result (self.new.kept ≡ self.old.kept) }
        ensures own { KeepsOwn R.Machine self.old.tree place.now self.old.kept self.new.kept }
        ensures here { (opened_at self.new.kept place.now ≡ opened_at self.old.kept place.now)
            ⊎ IfSome (opened_at self.new.kept place.now) (λ opened. IsOpenedAt R.Machine
            self.old.tree.rt.now (string_bytes self.old.tree.dir) self.old.tree.numbers place.now opened.file) }
        ensures others { ClosesElsewhere IsIdle place.now self.old.kept self.new.kept }
        ensures files { self.new.files ≡ self.old.files }
        ensures folders { self.new.tree ≡ self.old.tree }
        ensures earlier { self.new.earlier ≡ self.old.earlier }
    {
        self.claim()?;
        let path = self.tree.path(place)?;
        let seen = match seen_at(self.tree.rt, path.as_str()) {
            Ok(seen) => seen,
            Err(error) if error.kind() == ErrorKind::NotFound => return Ok(None),
            Err(error) => return Err(error),
        };
        self.keep_to_read(place, path.as_str(), &seen);
        Ok(Some(seen.len))
    }

    // Opens the file that was seen at the path of the place, unless it is kept already. One that cannot be opened has a
    // length all the same, and the call that reads it fails.
    fn keep_to_read(&mut self, place: &Place, path: &str, seen: &Seen)
        ensures here { (opened_at self.new.kept place.now ≡ opened_at self.old.kept place.now)
            ⊎ IfSome (opened_at self.new.kept place.now)
            (λ opened. R.Machine.opened self.old.tree.rt.now path.now opened.file) }
        ensures others { ClosesElsewhere IsIdle place.now self.old.kept self.new.kept }
        ensures files { self.new.files ≡ self.old.files }
        ensures folders { self.new.tree ≡ self.old.tree }
        ensures earlier { self.new.earlier ≡ self.old.earlier }
    {
        if self.kept.file_of(place).is_some() {
            return;
        }
        if let Ok(file) = same_opened(self.tree.rt, &read_only(), path, seen) {
            // Where there is no memory to keep it, it is opened once more.
            let _outcome = self.kept.keep(place, Opened::to_read(file));
        }
    }

    /// Fills the buffer from the offset on, and tells how many bytes that are. It fails where the file does not have
    /// them all; but what stands at `clear` is read as far as it goes, and where no file stands there, that is nowhere.
    pub(crate) fn read(&mut self, place: &Place, from: u64, buf: &mut [u8]) -> io::Result<usize>
        ensures len { IfOk result (λ n. n ≤ length buf.old) }
        ensures whole { place.now ≢ Clear → IfOk result (λ n. n ≡ length buf.old) }
        ensures used { IfOk result (λ n. KeepsRead R.Machine self.old.tree place.now from
            (take n buf.new) self.old.kept self.new.kept) }
        ensures own { KeepsOwn R.Machine self.old.tree place.now self.old.kept self.new.kept }
        ensures others { ClosesElsewhere IsIdle place.now self.old.kept self.new.kept }
        ensures files { self.new.files ≡ self.old.files }
        ensures folders { self.new.tree ≡ self.old.tree }
        ensures earlier { self.new.earlier ≡ self.old.earlier }
    {
        self.claim()?;
        let mut opened = match self.open_to_read(place) {
            Err(error) if *place == Place::Clear && error.kind() == ErrorKind::NotFound => {
                return Ok(0);
            }
            outcome => outcome?,
        };
        opened.is_new = false;
        let outcome = read_at(self.tree.rt, place, &opened.file, from, buf);
        let _outcome = self.kept.keep(place, opened);
        outcome
    }

    // The file that is kept of the place, or else the one at its path.
    fn open_to_read(&mut self, place: &Place) -> io::Result<Opened<R::File>>
        ensures file { IfOk result (λ opened. IsFileOf R.Machine self.old.tree.rt.now
            (string_bytes self.old.tree.dir) self.old.tree.numbers self.old.kept place.now opened) }
        ensures gone { opened_at self.new.kept place.now ≡ None }
        ensures others { SameElsewhere place.now self.old.kept self.new.kept }
        ensures files { self.new.files ≡ self.old.files }
        ensures folders { self.new.tree ≡ self.old.tree }
        ensures earlier { self.new.earlier ≡ self.old.earlier }
    {
        if let Some(opened) = self.kept.take(place) {
            return Ok(opened);
        }
        let path = self.tree.path(place)?;
        let file = self.tree.open(&read_only(), path.as_str())?;
        Ok(Opened::to_read(file))
    }
}
