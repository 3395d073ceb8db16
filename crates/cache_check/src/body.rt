//! The chunks of a body against their stored hashes.

ghost use Rattle.std.specs.Prelude.{map, option_to_list, OnOk, IfSome, IsTrue};
ghost use Rattle.cache_base.specs.Limits.{chunks as chunks_of};
ghost use Rattle.disk_theory.specs.Account.{Looks, ending};
ghost use Rattle.entry_file.specs.Damages.{HasMeta};
ghost use Rattle.entry_file.specs.Looks.{LooksAtMost};
ghost use Rattle.entry_metadata.specs.Meta.{meta_of};
ghost use Rattle.cache_check.specs.Checks as spec;
ghost use Rattle.cache_check.specs.Findings.{damaged};

use crate::{Finding, FindingList, What};
use cache_base::{Buffer, Name, NoMemory, chunks};
use disk_theory::{Disk, DiskFault, Place};
use entry_file::{Damage, check_chunk_at};
use entry_metadata::Meta;

// Adds a damage, if there is one.
fn add_damage(name: &Name, damage: Option<Damage>, out: &mut FindingList) -> Result<(), NoMemory>
    ensures { OnOk result
        (spec.AddsFindings name.now (map What.Damaged (option_to_list damage)) out.old out.new) }
{
    match damage {
        None => Ok(()),
        Some(damage) => out.push(Finding {
            name: *name,
            what: What::Damaged(damage),
        }),
    }
}

/// Adds each chunk that differs of the body that stands under the name with these metadata. Each chunk is read into the
/// buffer, by one call of the disk.
pub(crate) fn add_damages<D: Disk>(
    disk: &mut D,
    name: &Name,
    meta: &Meta,
    buf: &mut Buffer,
    out: &mut FindingList,
) -> Result<(), DiskFault>
    requires { IsTrue D.tells →
        HasMeta (spec.file_at (D.state disk.old) name.now) (meta_of meta.now) }
    ensures adds { OnOk result (IsTrue D.tells → IfSome (spec.file_at (D.state disk.old) name.now)
        (λ content. spec.AddsFindings name.now
        (damaged (meta_of meta.now) content) out.old out.new)) }
    ensures calls { IsTrue D.tells →
        LooksAtMost (chunks_of meta.now.offset) (D.counts disk.old) (D.counts disk.new) }
    ensures looks { Looks D.Disk (ending result) disk.old disk.new }
{
    for index in 0..chunks(u64::from(meta.offset)) as u32 {
        let damage = check_chunk_at(disk, &Place::Entry(*name), meta, index, buf)?;
        add_damage(name, damage, out)?;
    }
    Ok(())
}
