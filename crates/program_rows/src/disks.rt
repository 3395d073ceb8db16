//! Disks in memory, and the files that stand on them.

ghost use Rattle.std.specs.Prelude.{◌≡◌, ◌↔◌, IfOk, IsTrue, MatchOption, None, Some};
ghost use Rattle.disk_model.specs.MemDisk.{state_in};
ghost use Rattle.disk_theory.specs.Sound.{IsQuiet};
ghost use Rattle.disk_theory.specs.State.{standing};
ghost use Rattle.disk_theory.specs.declared.place.Place.TheVariants.{Entry};
ghost use Rattle.entry_name.specs.EntryName.{file_name};

use crate::texts::bytes;
use cache_base::{Bytes, NoMemory};
use disk_model::MemDisk;
use disk_theory::Place;
use entry_name::name_of;
use std::alloc::Global;
use std::test::Fail;

/// The place of the entry of this key.
pub fn place_of(key: &str) -> Place
    ensures { result ≡ Entry (record { 0 = file_name key.now }) }
{
    Place::Entry(name_of(key.as_bytes()))
}

/// Whether this is the file at the place of the key, or none is there.
pub fn holds(disk: &MemDisk, key: &str, file: Option<&[u8]>) -> bool
    ensures { let stands = standing (state_in disk.now) (Entry (record { 0 = file_name key.now })) in
        MatchOption file.entry (IsTrue result ↔ stands ≡ None)
        (λ due. IsTrue result ↔ stands ≡ Some due.now) }
{
    match (disk.file(&place_of(key)), file) {
        (Some(found), Some(due)) => found == due,
        (None, None) => true,
        _ => false,
    }
}

/// The file that stands at the place of the key. Fails where none does, or memory ran out.
pub fn file_of(alloc: Global, disk: &MemDisk, key: &str) -> Result<Bytes, Fail>
    ensures { IfOk result (λ file.
        standing (state_in disk.now) (Entry (record { 0 = file_name key.now })) ≡ Some file) }
{
    match disk.file(&place_of(key)) {
        Some(file) => Ok(bytes(alloc, file)?),
        None => Err(Fail::from("no file")),
    }
}

/// Puts a file at a place of a disk that no session has begun on. Fails only where memory ran out.
pub fn put_file(
    alloc: Global,
    disk: &mut MemDisk,
    place: Place,
    file: &[u8],
) -> Result<(), NoMemory>
    requires { IsQuiet (state_in disk.old) }
    ensures { IsQuiet (state_in disk.new) }
{
    match bytes(alloc, file) {
        Ok(copy) => disk.put_file(place, copy),
        Err(fault) => Err(fault),
    }
}

/// Puts the file that stands at a place of another disk there, if one does. Fails only where memory ran out.
pub fn copy_file(
    alloc: Global,
    from: &MemDisk,
    to: &mut MemDisk,
    place: Place,
) -> Result<(), NoMemory>
    requires { IsQuiet (state_in to.old) }
    ensures { IsQuiet (state_in to.new) }
{
    match from.file(&place) {
        Some(file) => put_file(alloc, to, place, file),
        None => Ok(()),
    }
}

/// Puts the index and the journal of another disk there. Fails only where memory ran out.
pub fn copy_index(alloc: Global, from: &MemDisk, to: &mut MemDisk) -> Result<(), NoMemory>
    requires { IsQuiet (state_in to.old) }
    ensures { IsQuiet (state_in to.new) }
{
    copy_file(alloc, from, to, Place::Index)?;
    copy_file(alloc, from, to, Place::Log)
}

/// A disk on which this file stands at the place of the key. Fails only where memory ran out.
pub fn disk_with(alloc: Global, key: &str, file: &[u8]) -> Result<MemDisk, Fail>
    ensures { IfOk result (λ disk. IsQuiet (state_in disk)) }
{
    let mut disk = MemDisk::new(alloc);
    put_file(alloc, &mut disk, place_of(key), file)?;
    Ok(disk)
}
