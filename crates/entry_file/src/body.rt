//! The body of an entry's file against its hashes.

ghost use Rattle.std.specs.Prelude.{◌≡◌, ◌<◌, ◌+◌, take, IfOk, IfSome, IsTrue, None, OnOk};
ghost use Rattle.cache_base.specs.Limits.{chunks as chunks_of};
ghost use Rattle.chunk_store.specs.Chunks.{damage_at};
ghost use Rattle.disk_theory.specs.Account.{Looks, ending};
ghost use Rattle.disk_theory.specs.State.{standing};
ghost use Rattle.entry_file.specs.Damages.{HasMeta, chunks_read, first_damage};
ghost use Rattle.entry_file.specs.Held.{IsLastOf};
ghost use Rattle.entry_file.specs.Looks.{LooksAtMost};
ghost use Rattle.entry_file.specs.Rewriting.{StoresBody};
ghost use Rattle.entry_metadata.specs.Meta.{meta_of};

use cache_base::{Buffer, chunks};
use chunk_store::{ChunkAnswer, Damage, check_chunk, read_chunk};
use disk_theory::{Disk, DiskFault, Place};
use entry_metadata::Meta;

/// The damage of one chunk of the body that stands at the place with these metadata, or none. The chunk is read into
/// the buffer, by one call of the disk, and held against its hash.
pub fn check_chunk_at<D: Disk>(
    disk: &mut D,
    place: &Place,
    meta: &Meta,
    index: u32,
    buf: &mut Buffer,
) -> Result<Option<Damage>, DiskFault>
    requires index { index < chunks_of meta.now.offset }
    requires told { IsTrue D.tells →
        HasMeta (standing (D.state disk.old) place.now) (meta_of meta.now) }
    ensures damage { IfOk result (λ damage. IsTrue D.tells →
        IfSome (standing (D.state disk.old) place.now) (λ content.
        damage ≡ damage_at meta.now.hashes (take meta.now.offset content) index)) }
    ensures held { OnOk result (IsTrue D.tells →
        IsLastOf (index + 1) (standing (D.state disk.old) place.now) meta.now.offset buf.new) }
    ensures calls { IsTrue D.tells → LooksAtMost 1 (D.counts disk.old) (D.counts disk.new) }
    ensures looks { Looks D.Disk (ending result) disk.old disk.new }
{
    read_chunk(disk, place, meta.offset, index, buf)?;
    match check_chunk(meta.hashes.as_slice()[index as usize], buf.as_slice()) {
        ChunkAnswer::Fits => Ok(None),
        ChunkAnswer::Differs { stored, found } => Ok(Some(Damage {
            chunk: index,
            stored,
            found,
        })),
    }
}

/// The first chunk that differs of the body that stands at the place with these metadata, or none. Each chunk up to
/// that one is read into the buffer, by one call of the disk, and none after it. Where none differs the file stores the
/// body, and the buffer holds its last chunk.
pub fn check_body<D: Disk>(
    disk: &mut D,
    place: &Place,
    meta: &Meta,
    buf: &mut Buffer,
) -> Result<Option<Damage>, DiskFault>
    requires { IsTrue D.tells → HasMeta (standing (D.state disk.old) place.now) (meta_of meta.now) }
    ensures damage { IfOk result (λ damage. IsTrue D.tells →
        IfSome (standing (D.state disk.old) place.now) (λ content.
        damage ≡ first_damage (meta_of meta.now) content)) }
    ensures stores { IfOk result (λ damage. IsTrue D.tells → damage ≡ None →
        StoresBody (standing (D.state disk.old) place.now) (meta_of meta.now)) }
    ensures held { IfOk result (λ damage. IsTrue D.tells → damage ≡ None →
        IsLastOf (chunks_of meta.now.offset)
        (standing (D.state disk.old) place.now) meta.now.offset buf.new) }
    ensures calls { IsTrue D.tells → LooksAtMost (chunks_read (meta_of meta.now) result)
        (D.counts disk.old) (D.counts disk.new) }
    ensures looks { Looks D.Disk (ending result) disk.old disk.new }
{
    for index in 0..chunks(u64::from(meta.offset)) as u32 {
        match check_chunk_at(disk, place, meta, index, buf)? {
            None => {}
            Some(damage) => return Ok(Some(damage)),
        }
    }
    Ok(None)
}
