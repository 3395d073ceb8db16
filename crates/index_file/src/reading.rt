//! Reading an index.

ghost use Rattle.std.specs.Prelude.{◌≡◌, ℕ, Bool, IfErr, IfOk, List, None, OnOk};
ghost use Rattle.index_file.specs.Checks.{IsFirstFault, index_fault, index_in, is_dirty_in, timestamp_in};
ghost use Rattle.index_file.specs.Index.{IndexSpells};
ghost use Rattle.index_file.specs.declared.fault.IndexFault.TheVariants.{Memory};
ghost use Rattle.index_record.specs.declared.record.IndexRecord.{IndexRecord};
ghost use Rattle.record_list.specs.Change.{HasNoRemoved};
ghost use Rattle.record_list.specs.Lists.{HasNames};
ghost use Rattle.record_list.specs.Stored.{AreClean};

use crate::{FLAG_AT, HEADER, IndexFault, IndexImage, LEAST, TIMESTAMP_AT, VERSION};
use cache_base::u32_at;
use record_list::parse_present;
use std::alloc::Global;

fn read_all(alloc: Global, b: &[u8]) -> Result<IndexImage, IndexFault>
    ensures passes { OnOk result (index_fault b.now ≡ None) }
    ensures timestamp { IfOk result (λ image. image.timestamp ≡ timestamp_in b.now) }
    ensures dirty { IfOk result (λ image. image.dirty ≡ is_dirty_in b.now) }
    ensures records { IfOk result (λ image. image.records ≡ index_in b.now) }
    ensures distinct { IfOk result (λ image. HasNames image.records) }
    ensures clean { IfOk result (λ image. AreClean image.records) }
    ensures present { IfOk result (λ image. HasNoRemoved image.records) }
    ensures fault { IfErr result (IsFirstFault b.now) }
{
    if b.len() < LEAST {
        return Err(IndexFault::Short);
    }
    if u32_at(b, 0) != VERSION {
        return Err(IndexFault::Version);
    }
    let (_, part) = b.split_at(HEADER);
    let records = parse_present(alloc, part)?;
    Ok(IndexImage {
        timestamp: u32_at(b, TIMESTAMP_AT),
        dirty: u32_at(b, FLAG_AT) != 0,
        records,
    })
}

/// What the bytes of the file `index` say, or their first failing check. The kilobytes of the header are not read.
pub fn parse(alloc: Global, b: &[u8]) -> Result<IndexImage, IndexFault>
    // What is read is what the bytes spell.
    ensures spelled { IfOk result (λ image.
        IndexSpells b.now image.timestamp image.dirty image.records) }
    // Bytes that spell an index are refused only where memory ran out.
    ensures refused { (timestamp : ℕ) (dirty : Bool) (rs : List IndexRecord) →
        IndexSpells b.now timestamp dirty rs → IfErr result (λ f. f ≡ Memory) }
    ensures distinct { IfOk result (λ image. HasNames image.records) }
    ensures clean { IfOk result (λ image. AreClean image.records) }
    ensures present { IfOk result (λ image. HasNoRemoved image.records) }
    ensures fault { IfErr result (IsFirstFault b.now) }
{
    read_all(alloc, b)
}
