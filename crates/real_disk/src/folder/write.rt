//! The writing of a file, which is then kept open.

ghost use Rattle.std.specs.Prelude.{◌≡◌, IfOk, OnOk, OnErr, None, Some, false, string_bytes};
ghost use Rattle.pending_syncs.specs.Kept.{opened_at, ClosesElsewhere, IsIdle, IsSettled, StaysOrGoes};
ghost use Rattle.real_disk.specs.Opening.{IsFileOf};
ghost use Rattle.real_disk.specs.Used.{KeepsEnded, KeepsOwn, KeepsWritten};
ghost use Rattle.pending_syncs.specs.Files.{IsNoted, KeepsNote, KeepsOthers};
ghost use Rattle.real_disk.specs.Claims.{IsClaimed};
ghost use Rattle.real_disk.specs.Earlier.{HasLooked};

use super::Folder;
use disk_theory::Place;
use machine_files::{Machine, read_and_write};
use pending_syncs::Opened;
use std::fs::File;
use std::io::{self, ErrorKind};
use std::rt::Clock;

impl<R: Machine<File = File> + AllocGlobal + Clock> Folder<'_, R> {
    /// The file then ends after the bytes.
    pub(crate) fn write_end(&mut self, place: &Place, from: u64, bytes: &[u8]) -> io::Result<()>
        ensures used { OnOk result (KeepsEnded R.Machine self.old.tree place.now from bytes.now
            self.old.kept self.new.kept) }
        ensures own { KeepsOwn R.Machine self.old.tree place.now self.old.kept self.new.kept }
        ensures elsewhere { ClosesElsewhere (IsSettled R.Machine self.old.tree.rt.now)
            place.now self.old.kept self.new.kept }
        ensures noted { OnOk result (IsNoted self.new.files place.now) }
        ensures kept { KeepsNote place.now self.old.files self.new.files }
        ensures others { KeepsOthers place.now self.old.files self.new.files }
        ensures folders { self.new.tree ≡ self.old.tree }
        ensures claimed { OnOk result (IsClaimed self.new.claim) }
        ensures unnoted { OnOk result (self.new.has_sync_note ≡ false) }
        ensures looked { IsClaimed self.new.claim → HasLooked self.old.earlier self.new.earlier }
    {
        self.begin_change()?;
        let Opened { file, is_new, .. } = self.open_to_write(place)?;
        let outcome = self.tree.rt.write_end(&file, is_new, from, bytes);
        let kept = self.keep_changed(place, Opened::to_write(file));
        outcome?;
        kept
    }

    /// The file keeps what lies after the bytes.
    pub(crate) fn patch(&mut self, place: &Place, from: u64, bytes: &[u8]) -> io::Result<()>
        ensures used { OnOk result (KeepsWritten R.Machine self.old.tree place.now from bytes.now
            self.old.kept self.new.kept) }
        ensures own { KeepsOwn R.Machine self.old.tree place.now self.old.kept self.new.kept }
        ensures elsewhere { ClosesElsewhere (IsSettled R.Machine self.old.tree.rt.now)
            place.now self.old.kept self.new.kept }
        ensures noted { OnOk result (IsNoted self.new.files place.now) }
        ensures kept { KeepsNote place.now self.old.files self.new.files }
        ensures others { KeepsOthers place.now self.old.files self.new.files }
        ensures folders { self.new.tree ≡ self.old.tree }
        ensures claimed { OnOk result (IsClaimed self.new.claim) }
        ensures unnoted { OnOk result (self.new.has_sync_note ≡ false) }
        ensures looked { IsClaimed self.new.claim → HasLooked self.old.earlier self.new.earlier }
    {
        self.begin_change()?;
        let file = self.open_to_write(place)?.file;
        let outcome = self.tree.rt.write_over(&file, from, bytes);
        let kept = self.keep_changed(place, Opened::to_write(file));
        outcome?;
        kept
    }

    // Keeps open the file that was made or written. Where that finds no memory the call has failed.
    pub(super) fn keep_changed(&mut self, place: &Place, opened: Opened<R::File>) -> io::Result<()>
        ensures kept { OnOk result (opened_at self.new.kept place.now ≡ Some opened) }
        ensures closed { OnErr result (opened_at self.new.kept place.now ≡ None) }
        ensures others { ClosesElsewhere IsIdle place.now self.old.kept self.new.kept }
        ensures files { self.new.files ≡ self.old.files }
        ensures folders { self.new.tree ≡ self.old.tree }
        ensures note { self.new.has_sync_note ≡ self.old.has_sync_note }
        ensures claim { self.new.claim ≡ self.old.claim }
        ensures earlier { self.new.earlier ≡ self.old.earlier }
    {
        match self.kept.keep(place, opened) {
            Ok(()) => Ok(()),
            Err(_) => Err(ErrorKind::Other.into()),
        }
    }

    // The file of the place, which is noted as changed before it is written.
    fn open_to_write(&mut self, place: &Place) -> io::Result<Opened<R::File>>
        ensures file { IfOk result (λ opened. IsFileOf R.Machine self.old.tree.rt.now
            (string_bytes self.old.tree.dir) self.old.tree.numbers self.old.kept place.now opened) }
        ensures elsewhere { ClosesElsewhere (IsSettled R.Machine self.old.tree.rt.now)
            place.now self.old.kept self.new.kept }
        ensures failed { OnErr result (StaysOrGoes place.now self.old.kept self.new.kept) }
        ensures noted { OnOk result (IsNoted self.new.files place.now) }
        ensures kept { KeepsNote place.now self.old.files self.new.files }
        ensures others { KeepsOthers place.now self.old.files self.new.files }
        ensures folders { self.new.tree ≡ self.old.tree }
        ensures note { self.new.has_sync_note ≡ self.old.has_sync_note }
        ensures claim { self.new.claim ≡ self.old.claim }
        ensures earlier { self.new.earlier ≡ self.old.earlier }
    {
        self.kept.make_room(self.tree.rt, place)?;
        let opened = match self.kept.take_to_write(place) {
            Some(opened) => opened,
            None => {
                let path = self.tree.path(place)?;
                Opened::to_write(self.tree.open(&read_and_write(), path.as_str())?)
            }
        };
        self.files.insert(*place)?;
        Ok(opened)
    }
}
