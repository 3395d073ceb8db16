//! Closes the index.

ghost use Rattle.std.specs.Prelude.{◌≡◌, IfOk, IsTrue, OnOk, false, if◌then◌else◌, true};
ghost use Rattle.cache_base.specs.Bytes.{be32};
ghost use Rattle.disk_theory.specs.Calls.{HoldsPart, if_ok};
ghost use Rattle.disk_theory.specs.Sound.{IsQuiet};
ghost use Rattle.disk_theory.specs.State.{settled, standing};
ghost use Rattle.disk_theory.specs.declared.place.Place.TheVariants.{Index};
ghost use Rattle.index_file.specs.Index.{flag_at};
ghost use Rattle.index_map.specs.Known.{IsKnown};
ghost use Rattle.index_theory.specs.Apart.{IsApart};
ghost use Rattle.index_theory.specs.Closing.{closed, flagged, log_synced};
ghost use Rattle.disk_theory.specs.Told.{Told};
ghost use Rattle.index_theory.specs.Unclean.{IsUnclean};
ghost use Rattle.disk_theory.specs.Account.{OnlyChanges, ending, one_sync};
ghost use Rattle.startup_read.specs.Closing as spec;
ghost use Rattle.startup_read.specs.Kept.{KeepsIndex};
ghost use Rattle.startup_read.specs.Spares.{SparesEntries};

use crate::index_refresh::refresh_index;
use cache_base::{Bytes, Moment, NoMemory};
use disk_theory::{Disk, DiskFault, Place};
use index_file::FLAG_AT;
use index_map::RecordMap;
use std::alloc::Global;

// The flag of an index that is up to date, together with its journal.
const UP_TO_DATE: u32 = 0;

// The bytes of a journal with what has changed since the index was written.
fn print_changes(alloc: Global, map: &RecordMap) -> Result<Bytes, NoMemory>
    ensures { IfOk result (spec.PrintsChanges map.now) }
{
    let changes = map.diff()?;
    index_journal::print(alloc, &changes)
}

// Writes the journal, and syncs it.
fn write_log<D: Disk>(disk: &mut D, bytes: &[u8]) -> Result<(), DiskFault>
    ensures written { OnOk result
        (Told D.Disk (λ s t. t ≡ log_synced bytes.now s) disk.old disk.new) }
    ensures amid { Told D.Disk (spec.IsAmidLogging bytes.now) disk.old disk.new }
    ensures disk { OnlyChanges D.Disk (ending result) one_sync disk.old disk.new }
{
    disk.create(&Place::Log)?;
    disk.write_end(&Place::Log, 0, bytes)?;
    disk.sync()
}

// Clears the flag of the index, and syncs that.
fn clear_flag<D: Disk>(disk: &mut D) -> Result<(), DiskFault>
    requires { IsTrue D.tells → HoldsPart (standing (D.state disk.old) Index) flag_at 4 }
    ensures cleared { OnOk result
        (Told D.Disk (λ s t. t ≡ settled (flagged (be32 0) s)) disk.old disk.new) }
    ensures amid { Told D.Disk spec.IsAmidClearing disk.old disk.new }
    ensures disk { OnlyChanges D.Disk (ending result) one_sync disk.old disk.new }
{
    disk.patch(&Place::Index, FLAG_AT as u64, &UP_TO_DATE.to_be_bytes())?;
    disk.sync()
}

// Writes the journal, and then clears the flag of the index.
fn log_and_clear<D: Disk>(disk: &mut D, bytes: &[u8]) -> Result<(), DiskFault>
    requires { IsTrue D.tells → HoldsPart (standing (D.state disk.old) Index) flag_at 4 }
    ensures closed { OnOk result (Told D.Disk (λ s t. t ≡ closed bytes.now s) disk.old disk.new) }
    ensures amid { Told D.Disk (spec.IsAmidLogging bytes.now) disk.old disk.new }
    ensures disk { OnlyChanges D.Disk (ending result) 2 disk.old disk.new }
{
    write_log(disk, bytes)?;
    clear_flag(disk)
}

// Closes the index, where the records now are those of all entries.
fn close_ended<D: Disk>(
    alloc: Global,
    disk: &mut D,
    map: &mut RecordMap,
    now: Moment,
) -> Result<(), DiskFault>
    requires { IsTrue D.tells → KeepsIndex (D.state disk.old) map.old }
    ensures map { OnOk result (map.new ≡ spec.after_refresh map.old) }
    ensures known { map.old.has_base ≡ true → IsKnown map.old }
    ensures closed { OnOk result (Told D.Disk (spec.ClosesIndex map.old now) disk.old disk.new) }
    ensures amid { Told D.Disk (spec.IsAmidClosing map.old now) disk.old disk.new }
    ensures disk { OnlyChanges D.Disk (ending result) 3 disk.old disk.new }
{
    refresh_index(alloc, disk, map, now)?;
    let bytes = print_changes(alloc, map)?;
    log_and_clear(disk, bytes.as_slice())
}

/// Closes the index. Where the update has `ended`, so that the records now are those of all entries, the whole index
/// is written if there is no base or if at least `CHANGED_MAX` records differ from it; then the journal with what
/// differs, which is synced; and then the flag of the index is cleared and the disk synced, so that the next opening
/// trusts both. Where it has not ended the disk is synced, and the index stays dirty.
pub fn close_index<D: Disk>(
    alloc: Global,
    disk: &mut D,
    map: &mut RecordMap,
    now: Moment,
    ended: bool,
) -> Result<(), DiskFault>
    requires { IsTrue D.tells → KeepsIndex (D.state disk.old) map.old }

    // The map.
    ensures map { OnOk result (map.new ≡ (if ended then spec.after_refresh map.old else map.old)) }
    ensures known { ended ≡ true → map.old.has_base ≡ true → IsKnown map.old }

    // The changes, in their order, and what they leave.
    ensures closed { ended ≡ true →
        OnOk result (Told D.Disk (spec.ClosesIndex map.old now) disk.old disk.new) }
    ensures amid { ended ≡ true → Told D.Disk (spec.IsAmidClosing map.old now) disk.old disk.new }
    ensures synced { ended ≡ false →
        Told D.Disk (λ s t. t ≡ if_ok result (settled s) s) disk.old disk.new }
    ensures quiet { OnOk result (IsTrue D.tells → IsQuiet (D.state disk.new)) }
    ensures entries { Told D.Disk (λ s t. IsApart s → SparesEntries s t) disk.old disk.new }

    // A crash at any moment leaves an honest directory, where the records say what a scan would; and after an Ok the
    // next opening trusts the index. Before the end of the update, no crash leaves a trusted index.
    ensures honest { Told D.Disk (spec.ClosesHonest ended map.old.records) disk.old disk.new }
    ensures trusted { ended ≡ true →
        OnOk result (Told D.Disk (spec.LeavesTrusted map.old.records) disk.old disk.new) }
    ensures unclean { ended ≡ false →
        Told D.Disk (λ s t. IsUnclean s → IsUnclean t) disk.old disk.new }

    // Calls and faults.
    ensures disk { OnlyChanges D.Disk (ending result) (spec.closing_syncs ended) disk.old disk.new }
{
    if ended {
        close_ended(alloc, disk, map, now)
    } else {
        disk.sync()
    }
}
