//! Judges the bytes of a whole part, and says what they are.

ghost use Rattle.std.specs.Prelude.{◌+◌, ◌≡◌, ◌≤◌, ◌↔◌, IfOk, IfErr, IsTrue, drop, length};
ghost use Rattle.cache_base.specs.declared.limits.TheConstants.{BODY_MAX};
ghost use Rattle.cache_export.specs.Parts.{Part, Spells, SpellsRest, Stage, left_of};
ghost use Rattle.cache_export.specs.PartRead.{IfPart, IsItemDue, IsBlockOf, IsWholeBlock, IsWholeKey, IsWholePart, IsWholeRest, MayFollow, SpellsNoRest, SpellsNone, before_at, part_fault_of};
ghost use Rattle.cache_export.specs.Stages.{stage_at};
ghost use Rattle.entry_metadata.specs.Checks.{header_place};
ghost use Rattle.entry_metadata.specs.Meta.{meta_of};

use crate::Item;
use crate::front::Due;
use cache_base::{Bytes, CHUNK, bytes_fit, u32_at};
use entry_key::may_write;
use entry_metadata::{Meta, MetaFault, parse};
use entry_name::name_of;
use std::alloc::Global;

// The version of the format that a dump has each block in.
const VERSION: u32 = 3;

/// Why a whole part is not read.
#[derive(Clone, Copy, Debug, PartialEq, Eq)]
pub(crate) enum PartFault {
    /// The part is bad.
    Bad,
    /// Memory ran out.
    Memory,
}

// The bytes after the first ones.
fn bytes_after(b: &[u8], n: usize) -> &[u8]
    requires { n ≤ length b.now }
    ensures { result.now ≡ drop n b.now }
{
    b.split_at(n).1
}

// Whether an item of this key may be the first of a dump, or follow the item of the last key.
fn may_follow(due: Due, last: &[u8], key: &[u8]) -> bool
    requires { IsItemDue due }
    ensures { IsTrue result ↔ MayFollow (before_at due last.now) key.now }
{
    if !may_write(key) {
        return false;
    }
    match due {
        Due::Head => true,
        _ => name_of(last).cmp(&name_of(key)).is_lt(),
    }
}

// What the bytes of a key say.
fn key_in(alloc: Global, due: Due, last: &[u8], part: &[u8]) -> Result<Item, PartFault>
    requires { IsWholeKey due part.now }
    ensures ok { IfOk result (λ item.
        IfPart item (λ p. Spells (Stage.AtItem (before_at due last.now)) p part.now)) }
    ensures bad { IfErr result (SpellsNone (Stage.AtItem (before_at due last.now)) part.now) }
{
    bytes_fit(part);
    let key = bytes_after(part, due.lead() + 5);
    if may_follow(due, last, key) {
        match Bytes::from_slice(alloc, key) {
            Ok(key) => Ok(Item::Key(key)),
            Err(_) => Err(PartFault::Memory),
        }
    } else {
        Err(PartFault::Bad)
    }
}

// Whether a block that says this is the one of this key and these hashes, in the version that a dump has.
fn is_of(meta: &Meta, block: &[u8], key: &[u8], hashes: &[u16]) -> bool
    requires { meta.now.hashes ≡ hashes.now →
        header_place (length hashes.now) + 4 ≤ length block.now }
    ensures { IsTrue result ↔ IsBlockOf (meta_of meta.now) block.now key.now hashes.now }
{
    if meta.key.as_slice() != key {
        return false;
    }
    if meta.hashes.as_slice() != hashes {
        return false;
    }
    u32_at(block, 4 + 2 * hashes.len()) == VERSION
}

// What a fault of a block is here.
fn part_fault(fault: MetaFault) -> PartFault
    ensures { result ≡ part_fault_of fault }
{
    match fault {
        MetaFault::Short => PartFault::Bad,
        MetaFault::TooBig => PartFault::Bad,
        MetaFault::Version => PartFault::Bad,
        MetaFault::KeyEnd => PartFault::Bad,
        MetaFault::Hash => PartFault::Bad,
        MetaFault::KeyForm => PartFault::Bad,
        MetaFault::Elements => PartFault::Bad,
        MetaFault::Memory => PartFault::Memory,
    }
}

// What a block says, after the pieces of a body of so many bytes.
fn block_in(
    alloc: Global,
    key: &[u8],
    len: u32,
    hashes: &[u16],
    part: &[u8],
) -> Result<Meta, PartFault>
    requires len { len ≤ BODY_MAX }
    requires left { left_of len (length hashes.now) ≡ 0 }
    requires part { IsWholeBlock part.now }
    ensures ok { IfOk result (λ meta.
        SpellsRest key.now len hashes.now (Part.BlockPart (meta_of meta)) part.now) }
    ensures bad { IfErr result (SpellsNoRest key.now len hashes.now part.now) }
{
    bytes_fit(part);
    let block = bytes_after(part, 4);
    match parse(alloc, block, len) {
        Err(fault) => Err(part_fault(fault)),
        Ok(meta) => {
            if is_of(&meta, block, key, hashes) {
                Ok(meta)
            } else {
                Err(PartFault::Bad)
            }
        }
    }
}

// What the bytes of a piece or of a block say.
fn rest_in(
    alloc: Global,
    key: &[u8],
    len: u32,
    hashes: &[u16],
    part: &[u8],
) -> Result<Item, PartFault>
    requires len { len ≤ BODY_MAX }
    requires part { IsWholeRest (left_of len (length hashes.now)) part.now }
    ensures ok { IfOk result (λ item.
        IfPart item (λ p. SpellsRest key.now len hashes.now p part.now)) }
    ensures bad { IfErr result (SpellsNoRest key.now len hashes.now part.now) }
{
    let given = hashes.len().saturating_mul(CHUNK);
    if len as usize > given {
        bytes_fit(part);
        return match Bytes::from_slice(alloc, part) {
            Ok(piece) => Ok(Item::Piece(piece)),
            Err(_) => Err(PartFault::Memory),
        };
    }
    match block_in(alloc, key, len, hashes, part) {
        Ok(meta) => Ok(Item::Block(meta)),
        Err(fault) => Err(fault),
    }
}

/// What the bytes of a whole part say. It is due after the last key, and in a body of so many bytes, after pieces of
/// these hashes.
pub(crate) fn part_in(
    alloc: Global,
    due: Due,
    last: &[u8],
    len: u32,
    hashes: &[u16],
    part: &[u8],
) -> Result<Item, PartFault>
    requires len { len ≤ BODY_MAX }
    requires part { IsWholePart due (left_of len (length hashes.now)) part.now }
    ensures ok { IfOk result (λ item.
        IfPart item (λ p. Spells (stage_at due last.now len hashes.now) p part.now)) }
    ensures bad { IfErr result (SpellsNone (stage_at due last.now len hashes.now) part.now) }
{
    match due {
        Due::Head => key_in(alloc, due, last, part),
        Due::Item => key_in(alloc, due, last, part),
        Due::Length => rest_in(alloc, last, u32_at(part, 0), &[], bytes_after(part, 4)),
        Due::Body => rest_in(alloc, last, len, hashes, part),
    }
}
