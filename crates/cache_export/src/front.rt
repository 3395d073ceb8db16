//! Tells by the lengths in a dump whether the part that is due is whole, wants more bytes or is bad.

ghost use Rattle.std.specs.Prelude.{◌≡◌, ◌≤◌, ◌^◌};
ghost use Rattle.cache_export.specs.Front.{block_front as block_front_of, body_front as body_front_of, front_at, head_front as head_front_of, item_front as item_front_of, key_front as key_front_of, lead_len, length_front as length_front_of, sized as sized_of};
ghost use Rattle.cache_export.specs.declared.limits.TheConstants.{DUMP_MAX};

use crate::limits::{DUMP_MAX, END, HEAD, ITEM};
use cache_base::{BLOCK_MAX, BODY_MAX, CHUNK, KEY_MAX, u32_at};

/// What stands at the beginning of some bytes of a dump.
#[derive(Clone, Copy, Debug, PartialEq, Eq)]
pub(crate) enum Front {
    /// A part of so many bytes, or a bad one of that length.
    Whole(usize),
    /// No whole part, but more bytes may complete one, or the end of the source the dump.
    More,
    /// A bad part, whatever bytes follow.
    Bad,
}

/// What is due in a dump.
#[derive(Clone, Copy, Debug, PartialEq, Eq)]
pub(crate) enum Due {
    /// The dump's head, and an item or the end after it.
    Head,
    /// An item or the end.
    Item,
    /// The length of a body, and what follows it.
    Length,
    /// A piece of a body or its block.
    Body,
}

// A part of so many bytes, after `used` of the dump.
fn sized(len: usize, used: u64, bytes: &[u8]) -> Front
    requires len { len ≤ 2 ^ 33 }
    requires short { used ≤ 2 ^ 41 }
    ensures { result ≡ sized_of len used bytes.now }
{
    if used + len as u64 > DUMP_MAX {
        return Front::Bad;
    }
    if bytes.len() < len {
        return Front::More;
    }
    Front::Whole(len)
}

// A key after its length.
#[tactic(auto, unfolding(crate::specs::Front::key_front))]
fn key_front(used: u64, bytes: &[u8]) -> Front
    requires short { used ≤ 2 ^ 41 }
    ensures { result ≡ key_front_of used bytes.now }
{
    if bytes.len() < 5 {
        return Front::More;
    }
    let len = u32_at(bytes, 1) as usize;
    if len == 0 || len > KEY_MAX {
        return Front::Bad;
    }
    sized(5 + len, used, bytes)
}

// An item or the end.
#[tactic(auto, unfolding(crate::specs::Front::item_front))]
fn item_front(used: u64, bytes: &[u8]) -> Front
    requires short { used ≤ 2 ^ 41 }
    ensures { result ≡ item_front_of used bytes.now }
{
    if used + 1 > DUMP_MAX {
        return Front::Bad;
    }
    if bytes.is_empty() {
        return Front::More;
    }
    if bytes[0] == END {
        return if bytes.len() == 1 {
            Front::More
        } else {
            Front::Bad
        };
    }
    if bytes[0] == ITEM {
        return key_front(used, bytes);
    }
    Front::Bad
}

// A block after its length.
#[tactic(auto, unfolding(crate::specs::Front::block_front))]
fn block_front(used: u64, bytes: &[u8]) -> Front
    requires short { used ≤ 2 ^ 41 }
    ensures { result ≡ block_front_of used bytes.now }
{
    if used + 4 > DUMP_MAX {
        return Front::Bad;
    }
    if bytes.len() < 4 {
        return Front::More;
    }
    let len = u32_at(bytes, 0) as usize;
    if len > BLOCK_MAX {
        return Front::Bad;
    }
    sized(4 + len, used, bytes)
}

// A piece or, where none is left, the block.
#[tactic(auto, unfolding(crate::specs::Front::body_front))]
fn body_front(left: usize, used: u64, bytes: &[u8]) -> Front
    requires short { used ≤ 2 ^ 41 }
    ensures { result ≡ body_front_of left used bytes.now }
{
    if left == 0 {
        return block_front(used, bytes);
    }
    sized(CHUNK.min(left), used, bytes)
}

// The head, and what follows it.
#[tactic(auto, unfolding(crate::specs::Front::head_front))]
fn head_front(used: u64, bytes: &[u8]) -> Front
    requires short { used ≤ DUMP_MAX }
    ensures { result ≡ head_front_of used bytes.now }
{
    if bytes.len() < 8 {
        return Front::More;
    }
    if bytes.starts_with(&HEAD) {
        return item_front(used + 8, &bytes[8..]);
    }
    Front::Bad
}

// A body's length, and what follows it.
#[tactic(auto, unfolding(crate::specs::Front::length_front))]
fn length_front(used: u64, bytes: &[u8]) -> Front
    requires short { used ≤ DUMP_MAX }
    ensures { result ≡ length_front_of used bytes.now }
{
    if used + 4 > DUMP_MAX {
        return Front::Bad;
    }
    if bytes.len() < 4 {
        return Front::More;
    }
    let len = u32_at(bytes, 0) as usize;
    if len > BODY_MAX {
        return Front::Bad;
    }
    body_front(len, used + 4, &bytes[4..])
}

/// What stands at the beginning of the bytes, after `used` bytes of the dump. So many bytes of a body are left, where
/// one was begun.
pub(crate) fn front_of(due: Due, left: usize, used: u64, bytes: &[u8]) -> Front
    requires short { used ≤ DUMP_MAX }
    ensures { result ≡ front_at due left used bytes.now }
{
    match due {
        Due::Head => head_front(used, bytes),
        Due::Item => item_front(used, bytes),
        Due::Length => length_front(used, bytes),
        Due::Body => body_front(left, used, bytes),
    }
}

impl Due {
    /// The bytes that stand before what `front_of` finds.
    pub(crate) fn lead(self) -> usize
        ensures { result ≡ lead_len self }
    {
        match self {
            Due::Head => 8,
            Due::Item => 0,
            Due::Length => 4,
            Due::Body => 0,
        }
    }
}
