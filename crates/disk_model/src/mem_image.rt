// The disks that a crash may leave.

ghost use Rattle.std.specs.Prelude.{◌≡◌, ◌≤◌, ◌-◌, ◌↔◌, length, reverse, IfOk, OnOk, IsTrue, MatchBool, Some, Err};
ghost use Rattle.disk_theory.specs.State.{names_after, standing};
ghost use Rattle.disk_theory.specs.Sound.{IsQuiet, names_before};
ghost use Rattle.disk_theory.specs.Image.{MayStand};
ghost use Rattle.disk_model.specs.MemFile.{nth_file};
ghost use Rattle.disk_model.specs.MemSlots.{names_in, synced_names_in};
ghost use Rattle.disk_model.specs.MemTable.{state_of};
ghost use Rattle.disk_model.specs.MemImage.{image_of, ArePlacesApart, MayLeave};
ghost use Rattle.disk_model.specs.MemFill.{IsAnywhere, IsNowhere, AreMade, MayStandAll, AreTaken};
ghost use Rattle.disk_theory.specs.declared.place.Place.{Place as Where};
ghost use Rattle.disk_model.specs.declared.mem_image.ImageFault.TheVariants.{Memory, NotAnImage};

use crate::mem_file::MemFile;
use crate::mem_slots::{Slot, file_at, make_slot, make_slots, set_file, synced_at, take_step};
use crate::mem_table::Table;
use cache_base::{Bytes, NoMemory};
use disk_theory::{NameStep, Place};
use std::alloc::{AllocError, Global};
use std::collections::BTreeMap;

/// Why contents make no disk.
#[derive(Clone, Copy, Debug, PartialEq, Eq)]
pub enum ImageFault {
    /// No crash leaves these contents after so many name steps.
    NotAnImage,
    /// Memory ran out.
    Memory,
}

impl From<AllocError> for ImageFault {
    ghost from_gives = { λ _ e. e ≡ Memory };

    fn from(_: AllocError) -> Self {
        ImageFault::Memory
    }
}

impl From<NoMemory> for ImageFault {
    ghost from_gives = { λ _ e. e ≡ Memory };

    fn from(_: NoMemory) -> Self {
        ImageFault::Memory
    }
}

// The slots of the same places at the last sync.
fn synced_slots(
    alloc: Global,
    slots: &BTreeMap<Place, Slot>,
) -> Result<BTreeMap<Place, Slot>, AllocError>
    ensures { IfOk result (λ synced. names_in synced ≡ synced_names_in slots.now) }
{
    let mut synced = BTreeMap::new(alloc);
    for place in slots.keys() {
        make_slot(&mut synced, place)?;
        set_file(&mut synced, place, synced_at(slots, place));
    }
    Ok(synced)
}

// Takes these name steps.
fn take_steps(slots: &mut BTreeMap<Place, Slot>, steps: &[NameStep]) -> Result<(), AllocError>
    ensures { OnOk result
        (names_in slots.new ≡ names_after (names_in slots.old) (reverse steps.now)) }
{
    for step in steps {
        make_slots(slots, step)?;
        take_step(slots, step);
    }
    Ok(())
}

// The names after the first `names` name steps.
fn names_then(table: &Table, names: usize) -> Result<BTreeMap<Place, Slot>, AllocError>
    requires { names ≤ length table.now.steps.items }
    ensures { IfOk result (λ stands. names_in stands
        ≡ names_before (state_of table.now) (length (state_of table.now).steps - names)) }
{
    let mut stands = synced_slots(table.alloc, &table.slots)?;
    take_steps(&mut stands, &table.steps[..names])?;
    Ok(stands)
}

// Whether a file stands somewhere.
fn any_stands(slots: &BTreeMap<Place, Slot>) -> bool
    ensures { MatchBool result (IsAnywhere (names_in slots.now)) (IsNowhere (names_in slots.now)) }
{
    for place in slots.keys() {
        if file_at(slots, place).is_some() {
            return true;
        }
    }
    false
}

// Whether the content may stand at the place.
fn may_stand(
    files: &[MemFile],
    stands: &BTreeMap<Place, Slot>,
    place: &Place,
    content: &[u8],
) -> bool
    requires { AreMade files.now (names_in stands.now) }
    ensures { IsTrue result
        ↔ MayStand (nth_file files.now) (names_in stands.now place.now) (Some content.now) }
{
    match file_at(stands, place) {
        None => false,
        Some(file) => files[file].may_hold(content),
    }
}

// A table with just these contents, all synced. The names of the files that they are of are taken off.
fn fill(
    alloc: Global,
    files: &[MemFile],
    stands: &mut BTreeMap<Place, Slot>,
    contents: &[(Place, Bytes)],
) -> Result<Table, ImageFault>
    requires { AreMade files.now (names_in stands.old) }
    ensures apart { OnOk result (ArePlacesApart contents.now) }
    ensures taken { OnOk result
        (AreTaken files.now (names_in stands.old) (names_in stands.new) contents.now) }
    ensures refused { result ≡ Err NotAnImage → ArePlacesApart contents.now →
        ¬ (MayStandAll files.now (names_in stands.old) contents.now) }
    ensures quiet { IfOk result (λ table. IsQuiet (state_of table)) }
    ensures stands { IfOk result (λ table. (place : Where) →
        standing (state_of table) place ≡ image_of contents.now place) }
{
    let mut table = Table::new(alloc);
    for (place, bytes) in contents {
        if !may_stand(files, stands, place, bytes.as_slice()) {
            return Err(ImageFault::NotAnImage);
        }
        set_file(stands, place, None);
        table.put(*place, bytes.as_slice())?;
    }
    Ok(table)
}

/// The table that a crash leaves with these contents, with the names after the first `names` name steps.
pub(crate) fn image(
    table: &Table,
    names: usize,
    contents: &[(Place, Bytes)],
) -> Result<Table, ImageFault>
    ensures image { OnOk result (MayLeave (state_of table.now) names contents.now) }
    ensures refused { result ≡ Err NotAnImage →
        ¬ (MayLeave (state_of table.now) names contents.now) }
    ensures quiet { IfOk result (λ left. IsQuiet (state_of left)) }
    ensures stands { IfOk result (λ left. (place : Where) →
        standing (state_of left) place ≡ image_of contents.now place) }
{
    if names > table.steps.len() {
        return Err(ImageFault::NotAnImage);
    }
    let mut stands = names_then(table, names)?;
    let left = fill(table.alloc, &table.files, &mut stands, contents)?;
    if any_stands(&stands) {
        return Err(ImageFault::NotAnImage);
    }
    Ok(left)
}
