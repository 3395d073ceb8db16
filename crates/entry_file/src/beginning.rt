//! A new entry.

ghost use Rattle.std.specs.Prelude.{◌≡◌, [], IfOk, OnOk, IsTrue};
ghost use Rattle.disk_theory.specs.Account.{OnlyChanges, ending, no_sync};
ghost use Rattle.disk_theory.specs.State.{created};
ghost use Rattle.disk_theory.specs.Calls.{counted, if_done};
ghost use Rattle.entry_file.specs.NewEntry.{HasBody};
ghost use Rattle.entry_file.specs.Held.{held};

use crate::NewEntry;
use crate::chunk_hashes::ChunkHashes;
use cache_base::Buffer;
use disk_theory::{Disk, DiskFault, Place};
use std::alloc::Global;

/// A new entry with an empty body: a new empty file takes the place. The memory that its body takes while it grows is
/// taken first.
pub fn begin<D: Disk>(alloc: Global, disk: &mut D, place: &Place) -> Result<NewEntry, DiskFault>
    ensures body { IfOk result (λ entry. HasBody (held entry) []) }
    ensures state { IsTrue D.tells → D.state disk.new
        ≡ if_done result (created place.now (D.state disk.old)) (D.state disk.old) }
    ensures calls { OnOk result (IsTrue D.tells → D.counts disk.new ≡ counted (D.counts disk.old)) }
    ensures disk { OnlyChanges D.Disk (ending result) no_sync disk.old disk.new }
{
    let rest = Buffer::new(alloc)?;
    let hashes = ChunkHashes::new(alloc)?;
    disk.create(place)?;
    Ok(NewEntry { rest, hashes })
}
