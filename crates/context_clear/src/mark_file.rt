//! The mark on the disk, the file `clear`.

ghost use Rattle.std.specs.Prelude.{◌≡◌, IfOk, IsSome, IsTrue, None, OnOk};
ghost use Rattle.disk_theory.specs.Account.{Looks, LooksAtNoEntry, OnlyChanges, ending, one_sync};
ghost use Rattle.disk_theory.specs.Calls.{counted_look};
ghost use Rattle.disk_theory.specs.Standing.{PutsContent};
ghost use Rattle.disk_theory.specs.State.{standing};
ghost use Rattle.disk_theory.specs.Told.{Told};
ghost use Rattle.disk_theory.specs.declared.place.Place.TheVariants.{Clear, Doomed};
ghost use Rattle.context_clear.specs.Mark.{TellsMark, mark_bytes, mark_of};
ghost use Rattle.context_clear.specs.MarkFile as spec;

use crate::mark::{MARK_LEN, read_mark, write_mark};
use cache_base::bytes_fit;
use disk_theory::{Disk, DiskFault, Place};

// Writes these bytes to a new file among the doomed, which is synced and then takes the place `clear`.
fn place_mark<D: Disk>(disk: &mut D, number: u32, bytes: &[u8]) -> Result<(), DiskFault>
    ensures placed { OnOk result
        (Told D.Disk (spec.StoresMark number bytes.now) disk.old disk.new) }
    ensures amid { Told D.Disk (spec.IsAmidStoring number bytes.now) disk.old disk.new }
    ensures disk { OnlyChanges D.Disk (ending result) one_sync disk.old disk.new }
{
    disk.create(&Place::Doomed(number))?;
    disk.write_end(&Place::Doomed(number), 0, bytes)?;
    disk.sync()?;
    disk.rename(&Place::Doomed(number), &Place::Clear)
}

/// Stores the mark of the origin with this hash. It is written to a new file among the doomed, under a number that no
/// entry uses, synced, and then moved to `clear`.
pub fn store<D: Disk>(disk: &mut D, origin: u64, number: u32) -> Result<(), DiskFault>
    requires { IsTrue D.tells → standing (D.state disk.old) (Doomed number) ≡ None }

    // The changes, in their order, and what then stands.
    ensures placed { OnOk result
        (Told D.Disk (spec.StoresMark number (mark_bytes origin)) disk.old disk.new) }
    ensures amid { Told D.Disk (spec.IsAmidStoring number (mark_bytes origin)) disk.old disk.new }
    ensures stands { OnOk result (Told D.Disk (spec.PutsMark origin) disk.old disk.new) }

    // What a crash leaves at any exit.
    ensures whole { Told D.Disk (spec.LeavesWholeMark origin) disk.old disk.new }

    // Calls and faults.
    ensures disk { OnlyChanges D.Disk (ending result) one_sync disk.old disk.new }
{
    place_mark(disk, number, &write_mark(origin))
}

/// The hash of the origin whose mark stands at `clear`, or none where no mark does: where no file stands there, or
/// another one. It makes one call of the disk.
pub fn stored<D: Disk>(disk: &mut D) -> Result<Option<u64>, DiskFault>
    // What is found.
    ensures origin { IfOk result (λ found.
        IsTrue D.tells → found ≡ mark_of (standing (D.state disk.old) Clear)) }
    ensures exact { IfOk result (λ found.
        IsTrue D.tells → TellsMark (standing (D.state disk.old) Clear) found) }

    // Calls and faults.
    ensures one_call { IsTrue D.tells → D.counts disk.new ≡ counted_look result (D.counts disk.old) }
    ensures looks { Looks D.Disk (ending result) disk.old disk.new }
    ensures no_entry { LooksAtNoEntry D.Disk disk.old disk.new }
{
    // One byte more than a mark has, so that a longer file is told from one.
    let mut bytes = [0; MARK_LEN + 1];
    let len = disk.read(&Place::Clear, 0, &mut bytes)?;
    bytes_fit(&bytes);
    Ok(read_mark(&bytes[..len]))
}

/// Removes the file at `clear`, and syncs this with all changes before it.
pub fn end<D: Disk>(disk: &mut D) -> Result<(), DiskFault>
    requires { IsTrue D.tells → IsSome (standing (D.state disk.old) Clear) }

    // The changes, in their order, and what then stands.
    ensures ended { OnOk result (Told D.Disk spec.RemovesFile disk.old disk.new) }
    ensures amid { Told D.Disk spec.IsAmidEnding disk.old disk.new }
    ensures stands { OnOk result (Told D.Disk (PutsContent Clear None) disk.old disk.new) }

    // What a crash leaves after an Ok.
    ensures gone { OnOk result (Told D.Disk spec.LeavesNoFile disk.old disk.new) }

    // Calls and faults.
    ensures disk { OnlyChanges D.Disk (ending result) one_sync disk.old disk.new }
{
    disk.remove(&Place::Clear)?;
    disk.sync()
}
