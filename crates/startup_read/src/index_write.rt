//! Writes the index whole.

ghost use Rattle.std.specs.Prelude.{◌≡◌, IfOk, None, OnErr, OnOk, true};
ghost use Rattle.disk_theory.specs.State.{standing};
ghost use Rattle.disk_theory.specs.declared.place.Place.TheVariants.{Log};
ghost use Rattle.index_file.specs.Printed.{IsPrinted};
ghost use Rattle.index_map.specs.Known.{IsKnown, changed};
ghost use Rattle.index_theory.specs.Apart.{IsApart};
ghost use Rattle.disk_theory.specs.Told.{Told};
ghost use Rattle.index_theory.specs.Unclean.{IsUnclean};
ghost use Rattle.index_theory.specs.Writing.{index_placed};
ghost use Rattle.disk_theory.specs.Account.{OnlyChanges, ending, one_sync};
ghost use Rattle.startup_read.specs.Kept.{KeepsIndex, written_map};
ghost use Rattle.startup_read.specs.Spares.{SparesEntries};
ghost use Rattle.startup_read.specs.Writing as spec;

use cache_base::{Bytes, Moment, NoMemory};
use disk_theory::{Disk, DiskFault, Place};
use index_map::RecordMap;
use std::alloc::Global;

// The bytes of an index in use with the records now.
fn print_records(alloc: Global, map: &RecordMap, now: Moment) -> Result<Bytes, NoMemory>
    ensures printed { IfOk result (IsPrinted map.now.records now true) }
    ensures known { IsKnown map.now }
{
    let records = map.records()?;
    index_file::print(alloc, &records, now, true)
}

// Writes these bytes to a new file at `index.tmp`, which is synced and then takes the place `index`.
fn place_index<D: Disk>(disk: &mut D, bytes: &[u8]) -> Result<(), DiskFault>
    ensures placed { OnOk result
        (Told D.Disk (λ s t. t ≡ index_placed bytes.now s) disk.old disk.new) }
    ensures amid { Told D.Disk (spec.IsAmidPlacing bytes.now) disk.old disk.new }
    ensures disk { OnlyChanges D.Disk (ending result) one_sync disk.old disk.new }
{
    disk.create(&Place::Tmp)?;
    disk.write_end(&Place::Tmp, 0, bytes)?;
    disk.sync()?;
    disk.rename(&Place::Tmp, &Place::Index)
}

/// Writes an index of the records now, dirty and with the timestamp `now`, and makes these records the base. The file
/// is whole and synced before it takes the place `index`. After a fault the map is unchanged.
pub fn write_index<D: Disk>(
    alloc: Global,
    disk: &mut D,
    map: &mut RecordMap,
    now: Moment,
) -> Result<(), DiskFault>
    // The map.
    ensures map { OnOk result (map.new ≡ written_map map.old) }
    ensures unchanged { OnOk result (changed map.new.base map.new.records ≡ 0) }
    ensures map_stays { OnErr result (map.new ≡ map.old) }

    // The changes, in their order, and what they leave.
    ensures written { OnOk result
        (Told D.Disk (spec.WritesIndex map.old.records now) disk.old disk.new) }
    ensures amid { Told D.Disk (spec.IsAmidWriting map.old.records now) disk.old disk.new }
    ensures keeps { OnOk result
        (Told D.Disk (λ s t. standing s Log ≡ None → KeepsIndex t map.new) disk.old disk.new) }
    ensures entries { Told D.Disk (λ s t. IsApart s → SparesEntries s t) disk.old disk.new }

    // A crash at any moment leaves no trusted index, where none could be left before.
    ensures unclean { Told D.Disk (λ s t. IsApart s → IsUnclean s → IsUnclean t) disk.old disk.new }
    ensures apart { Told D.Disk (λ s t. IsApart s → IsApart t) disk.old disk.new }

    // Calls and faults.
    ensures disk { OnlyChanges D.Disk (ending result) one_sync disk.old disk.new }
{
    let bytes = print_records(alloc, map, now)?;
    place_index(disk, bytes.as_slice())?;
    map.mark_written();
    Ok(())
}
