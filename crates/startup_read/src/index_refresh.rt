//! Writes the index whole where that is due.

ghost use Rattle.std.specs.Prelude.{◌≡◌, OnErr, OnOk, false, true};
ghost use Rattle.index_map.specs.Known.{IsKnown};
ghost use Rattle.index_theory.specs.Apart.{IsApart};
ghost use Rattle.disk_theory.specs.Told.{Told};
ghost use Rattle.index_theory.specs.Unclean.{IsUnclean};
ghost use Rattle.disk_theory.specs.Account.{OnlyChanges, ending, one_sync};
ghost use Rattle.startup_read.specs.Refreshing as spec;
ghost use Rattle.startup_read.specs.Spares.{SparesEntries};

use crate::index_write::write_index;
use cache_base::{CHANGED_MAX, Moment};
use disk_theory::{Disk, DiskFault};
use index_map::RecordMap;
use std::alloc::Global;

fn is_due(map: &RecordMap) -> bool
    ensures due { result ≡ spec.is_due map.now }
    ensures known { map.now.has_base ≡ true → IsKnown map.now }
{
    !map.has_base() || map.changed() >= CHANGED_MAX as u64
}

/// Writes the whole index where that is due: where there is no base, or at least `CHANGED_MAX` records differ from it.
/// Else it does nothing. After a fault the map is unchanged.
pub fn refresh_index<D: Disk>(
    alloc: Global,
    disk: &mut D,
    map: &mut RecordMap,
    now: Moment,
) -> Result<(), DiskFault>
    // The map.
    ensures map { OnOk result (map.new ≡ spec.after_refresh map.old) }
    ensures map_stays { OnErr result (map.new ≡ map.old) }
    ensures known { map.old.has_base ≡ true → IsKnown map.old }
    ensures fresh { OnOk result (spec.is_due map.new ≡ false) }

    // The changes, in their order, and what they leave.
    ensures written { OnOk result (Told D.Disk (spec.Refreshes map.old now) disk.old disk.new) }
    ensures amid { Told D.Disk (spec.IsAmidRefresh map.old now) disk.old disk.new }
    ensures keeps { OnOk result (Told D.Disk (spec.KeepsOver map.old map.new) disk.old disk.new) }
    ensures based { OnOk result (map.new.has_base ≡ true) }
    ensures entries { Told D.Disk (λ s t. IsApart s → SparesEntries s t) disk.old disk.new }

    // A crash at any moment leaves no trusted index, where none could be left before.
    ensures unclean { Told D.Disk (λ s t. IsApart s → IsUnclean s → IsUnclean t) disk.old disk.new }
    ensures apart { Told D.Disk (λ s t. IsApart s → IsApart t) disk.old disk.new }

    // Calls and faults.
    ensures disk { OnlyChanges D.Disk (ending result) one_sync disk.old disk.new }
{
    if is_due(map) {
        write_index(alloc, disk, map, now)
    } else {
        Ok(())
    }
}
