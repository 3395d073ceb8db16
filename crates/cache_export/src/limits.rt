//! The bytes that mark a dump, how long it may be, and how much of it is held.

/// What a dump begins with.
pub const HEAD: [u8; 8] = *b"C2DUMP01";

/// The bytes of the longest dump.
pub const DUMP_MAX: u64 = 1_099_511_627_776;

/// The bytes of a dump that a reader holds at most: a piece of a body or a block, and the two lengths that may stand
/// before it.
pub const HELD_MAX: usize = 262_152;

/// The byte before an item, and the one at the end.
pub(crate) const ITEM: u8 = 1;

pub(crate) const END: u8 = 0;
