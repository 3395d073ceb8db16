//! What a reader of a script holds.

use cache_base::{ALT_MAX, LINE_MAX, PIECE_MAX};

// The bytes that are read on after a whole command.
const READ_ON: usize = 65_536;

/// The bytes that fit: the longest command, and some of what follows it.
pub(crate) const ROOM: usize = LINE_MAX + 1 + ALT_MAX + 1 + READ_ON;

/// The part of it that is used until a command is read that is longer than any `append`.
pub(crate) const FIRST_ROOM: usize = LINE_MAX + 1 + PIECE_MAX + 1 + READ_ON;
