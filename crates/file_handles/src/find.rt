//! Finds the entry of a key, and whether it is in use.

ghost use Rattle.std.specs.Prelude.{◌≡◌, ◌≢◌, ◌<◌, ◌≤◌, Err, None, false, IfOk, IfSome, IsTrue, OnOk, length, take};
ghost use Rattle.cache_base.specs.Limits.{chunks as chunks_of};
ghost use Rattle.cache_theory.specs.Machine.{is_entry};
ghost use Rattle.cache_theory.specs.declared.refusal.Refusal.TheVariants as refused;
ghost use Rattle.chunk_store.specs.Chunks.{chunk as chunk_of};
ghost use Rattle.disk_theory.specs.Account.{Looks, ending as disk_ending};
ghost use Rattle.disk_theory.specs.State.{standing};
ghost use Rattle.disk_theory.specs.declared.place.Place.TheVariants.{Entry as EntryAt};
ghost use Rattle.entry_file.specs.Damages.{HasMeta, first_damage};
ghost use Rattle.entry_file.specs.EntryFile.{read_for};
ghost use Rattle.entry_file.specs.EntryRead.{ReadsAs};
ghost use Rattle.entry_file.specs.Held.{IsLastOf};
ghost use Rattle.entry_file.specs.Rewriting.{StoresBody};
ghost use Rattle.entry_metadata.specs.Meta.{meta_of};
ghost use Rattle.entry_name.specs.EntryName.{file_name};
ghost use Rattle.file_handles.specs.Answers.{OnRefused, ending};
ghost use Rattle.file_handles.specs.Loading.{IsMetaFor, LoadsAs};

use crate::fault::look_fault;
use crate::{HandleFault, Handles};
use cache_base::{Buffer, Name, chunks};
use cache_theory::Refusal;
use chunk_store::{Damage, read_chunk};
use disk_theory::{Disk, DiskFault, Place};
use entry_file::{EntryRead, check_body, read_meta};
use entry_key::may_write;
use entry_metadata::Meta;
use entry_name::name_of;
use std::alloc::Global;

// What the file under a name reads as.
fn read_under<D: Disk>(alloc: Global, disk: &mut D, name: &Name) -> Result<EntryRead, HandleFault>
    ensures reads { IfOk result (λ read. IsTrue D.tells →
        ReadsAs name.now.0 (standing (D.state disk.old) (EntryAt name.now)) read) }
    ensures refused { OnRefused result (λ _. ⊥) }
    ensures no_change { result ≢ Err HandleFault.Disk }
    ensures looks { Looks D.Disk (ending result) disk.old disk.new }
{
    match read_meta(alloc, disk, &Place::Entry(*name), name) {
        Ok(read) => Ok(read),
        Err(fault) => Err(look_fault(fault)),
    }
}

/// The metadata of the file of a key, even if its body is damaged.
pub(crate) fn read_metadata<D: Disk>(
    alloc: Global,
    disk: &mut D,
    key: &[u8],
    name: &Name,
) -> Result<Meta, HandleFault>
    requires { name.now.0 ≡ file_name key.now }
    ensures found { let file = standing (D.state disk.old) (EntryAt name.now) in
        IfOk result (λ meta. IsTrue D.tells → IsMetaFor key.now file meta) }
    ensures refused { let file = standing (D.state disk.old) (EntryAt name.now) in
        OnRefused result (λ r. (r ≡ refused.Absent)
        × (IsTrue D.tells → is_entry (read_for key.now file) ≡ false)) }
    ensures no_change { result ≢ Err HandleFault.Disk }
    ensures looks { Looks D.Disk (ending result) disk.old disk.new }
{
    match read_under(alloc, disk, name)? {
        EntryRead::Fits { meta, .. } if meta.key.as_slice() == key => Ok(meta),
        _ => Err(HandleFault::Refused(Refusal::Absent)),
    }
}

// The first damage of the body of the file under a name, which has these metadata. Without one the last chunk is in the
// buffer.
fn check_under<D: Disk>(
    disk: &mut D,
    name: &Name,
    meta: &Meta,
    chunk: &mut Buffer,
) -> Result<Option<Damage>, HandleFault>
    requires { IsTrue D.tells →
        HasMeta (standing (D.state disk.old) (EntryAt name.now)) (meta_of meta.now) }
    ensures damage { let file = standing (D.state disk.old) (EntryAt name.now) in
        IfOk result (λ damage. IsTrue D.tells → IfSome file (λ content.
        damage ≡ first_damage (meta_of meta.now) content)) }
    ensures stores { let file = standing (D.state disk.old) (EntryAt name.now) in
        IfOk result (λ damage. IsTrue D.tells → damage ≡ None →
        StoresBody file (meta_of meta.now)) }
    ensures held { let file = standing (D.state disk.old) (EntryAt name.now) in
        IfOk result (λ damage. IsTrue D.tells → damage ≡ None →
        IsLastOf (chunks_of meta.now.offset) file meta.now.offset chunk.new) }
    ensures refused { OnRefused result (λ _. ⊥) }
    ensures no_change { result ≢ Err HandleFault.Disk }
    ensures looks { Looks D.Disk (ending result) disk.old disk.new }
{
    match check_body(disk, &Place::Entry(*name), meta, chunk) {
        Ok(damage) => Ok(damage),
        Err(fault) => Err(look_fault(fault)),
    }
}

/// The metadata of the file of a key, every chunk of which is checked against its hash. The last one is in the buffer.
pub(crate) fn load<D: Disk>(
    alloc: Global,
    disk: &mut D,
    key: &[u8],
    name: &Name,
    chunk: &mut Buffer,
) -> Result<Meta, HandleFault>
    requires { name.now.0 ≡ file_name key.now }
    ensures loads { let file = standing (D.state disk.old) (EntryAt name.now) in
        IsTrue D.tells → LoadsAs (read_for key.now file) result }
    ensures held { let file = standing (D.state disk.old) (EntryAt name.now) in
        IfOk result (λ meta. IsTrue D.tells →
        IsLastOf (chunks_of meta.offset) file meta.offset chunk.new) }
    ensures no_change { result ≢ Err HandleFault.Disk }
    ensures looks { Looks D.Disk (ending result) disk.old disk.new }
{
    let meta = read_metadata(alloc, disk, key, name)?;
    match check_under(disk, name, &meta, chunk)? {
        None => Ok(meta),
        Some(damage) => Err(HandleFault::Refused(Refusal::Damaged(damage))),
    }
}

impl Handles {
    ghost use Rattle.file_handles.specs.Cache.{cache};
    ghost use Rattle.file_handles.specs.Found.{Finds, HoldsLast, IsFoundUnder};
    ghost use Rattle.file_handles.specs.Kept.{kept, last_read};
    ghost use Rattle.file_handles.specs.Stands.{RepresentsSome};

    /// The metadata of the finished entry of a key. Every chunk is checked against its hash. The file stands under its
    /// name, and the last chunk is held for `read_found`.
    pub fn find<D: Disk>(
        &mut self,
        alloc: Global,
        disk: &mut D,
        key: &[u8],
    ) -> Result<Meta, HandleFault>
        requires told { IsTrue D.tells → RepresentsSome (cache D.Disk self.old disk.old) }
        ensures finds { IsTrue D.tells → Finds key.now result (cache D.Disk self.old disk.old) }
        ensures held { IfOk result (λ meta. IsTrue D.tells →
            HoldsLast (D.state disk.old) key.now meta.offset (last_read self.new)) }
        ensures kept { kept self.new ≡ kept self.old }
        ensures no_change { result ≢ Err HandleFault.Disk }
        ensures looks { Looks D.Disk (ending result) disk.old disk.new }
    {
        if !may_write(key) {
            return Err(HandleFault::Refused(Refusal::BadKey));
        }
        let name = name_of(key);
        if self.table.is_writing(&name, key) {
            return Err(HandleFault::Refused(Refusal::Unfinished));
        }
        load(alloc, disk, key, &name, &mut self.chunk)
    }

    /// The metadata of the entry that is found under a name, whatever its key: each chunk is checked against its
    /// hash, and the last one is held for `read_found`. None where nothing stands there, or what does is unfit or
    /// damaged.
    pub fn find_named<D: Disk>(
        &mut self,
        alloc: Global,
        disk: &mut D,
        name: &Name,
    ) -> Result<Option<Meta>, DiskFault>
        ensures found { let file = standing (D.state disk.old) (EntryAt name.now) in
            IfOk result (λ found. IsTrue D.tells → IsFoundUnder name.now.0 file found) }
        ensures held { let file = standing (D.state disk.old) (EntryAt name.now) in
            IfOk result (λ found. IsTrue D.tells → IfSome found (λ meta.
            IsLastOf (chunks_of meta.offset) file meta.offset (last_read self.new))) }
        ensures kept { kept self.new ≡ kept self.old }
        ensures looks { Looks D.Disk (disk_ending result) disk.old disk.new }
    {
        let place = Place::Entry(*name);
        let EntryRead::Fits { meta, .. } = read_meta(alloc, disk, &place, name)? else {
            return Ok(None);
        };
        match check_body(disk, &place, &meta, &mut self.chunk)? {
            None => Ok(Some(meta)),
            Some(_) => Ok(None),
        }
    }

    /// Makes the chunk `index` of the body of an entry that was just found the one to be printed, by one call of the
    /// disk. A body's only chunk is not read again: `find` read it to check it.
    pub fn read_found<D: Disk>(
        &mut self,
        disk: &mut D,
        place: &Place,
        len: u32,
        index: u32,
    ) -> Result<(), DiskFault>
        requires index { index < chunks_of len }
        requires held { IsTrue D.tells → chunks_of len ≡ 1 →
            IsLastOf 1 (standing (D.state disk.old) place.now) len (last_read self.old) }
        ensures chunk { OnOk result (IsTrue D.tells →
            IfSome (standing (D.state disk.old) place.now) (λ file. len ≤ length file →
            last_read self.new ≡ chunk_of (take len file) index)) }
        ensures once { chunks_of len ≡ 1 → disk.new ≡ disk.old }
        ensures kept { kept self.new ≡ kept self.old }
        ensures looks { Looks D.Disk (disk_ending result) disk.old disk.new }
    {
        if chunks(u64::from(len)) != 1 {
            read_chunk(disk, place, len, index, &mut self.chunk)?;
        }
        Ok(())
    }

    /// The chunk that was checked or read last for an entry that was found.
    pub fn chunk_read(&self) -> &[u8]
        ensures { result.now ≡ last_read self.now }
    {
        self.chunk.as_slice()
    }
}
