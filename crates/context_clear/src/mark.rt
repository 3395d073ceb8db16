//! The twelve bytes of a mark.

ghost use Rattle.std.specs.Prelude.{◌≡◌, ◌++◌};
ghost use Rattle.cache_base.specs.Bytes.{be32};
ghost use Rattle.context_clear.specs.Mark.{mark_bytes, marked_in};

use byteorder::{BigEndian, ByteOrder};
use jenkins_hash::hash;

/// How many bytes a mark has.
pub(crate) const MARK_LEN: usize = 12;

// How many of them are the origin's hash.
const ORIGIN_LEN: usize = 8;

// An origin's bytes with a hash after them.
fn joined(origin: &[u8; 8], hash: u32) -> [u8; MARK_LEN]
    ensures { result ≡ origin.now ++ be32 hash }
{
    let mut out = [0; MARK_LEN];
    BigEndian::write_u32(&mut out[ORIGIN_LEN..], hash);
    out[..ORIGIN_LEN].copy_from_slice(origin);
    out
}

/// The mark of the origin with this hash.
#[tactic(auto, unfolding(crate::specs::Mark::mark_bytes))]
pub(crate) fn write_mark(origin: u64) -> [u8; MARK_LEN]
    ensures { result ≡ mark_bytes origin }
{
    let bytes = origin.to_be_bytes();
    joined(&bytes, hash(&bytes))
}

/// The hash of the origin whose mark the bytes are, or none where they are no mark.
#[tactic(auto, unfolding(crate::specs::Mark::marked_in))]
pub(crate) fn read_mark(b: &[u8]) -> Option<u64>
    ensures { result ≡ marked_in b.now }
{
    if b.len() != MARK_LEN {
        return None;
    }
    let (origin, stored) = b.split_at(ORIGIN_LEN);
    if BigEndian::read_u32(stored) != hash(origin) {
        return None;
    }
    Some(BigEndian::read_u64(origin))
}
