//! Sizes that bound what is written and what is held.

ghost use Rattle.std.specs.Prelude.{◌≡◌};
ghost use Rattle.cache_base.specs.Limits.{chunks as chunks_of};

/// The bytes of a whole chunk of a body (`kChunkSize` of Firefox's CacheFileChunk.h).
pub const CHUNK: usize = 262_144;

/// The bytes that a buffer has room for: a whole chunk, and the four bytes of a stop tail.
pub const BUFFER_MAX: usize = CHUNK + 4;

/// The bytes of the longest body that is written.
pub const BODY_MAX: usize = 52_428_800;

/// The bytes of the largest metadata block, without the final offset.
pub const BLOCK_MAX: usize = 262_144;

/// The bytes of the longest key that is written.
pub const KEY_MAX: usize = 16_384;

/// The bytes of an entry's elements after one is set.
pub const ELEMENTS_MAX: usize = 65_536;

/// The handles that may be open at once.
pub const SLOTS: usize = 64;

/// The bytes that one command may append to a body.
pub const PIECE_MAX: usize = 1_048_576;

/// The bytes of alternative data that one command may put after a body.
pub const ALT_MAX: usize = 4_194_304;

/// The bytes of the longest line of a script, without its newline.
pub const LINE_MAX: usize = 20_000;

/// The bytes of the longest script.
pub const SCRIPT_MAX: usize = 1_073_741_824;

/// With so many changed records the whole index is written, and with fewer the journal.
pub const CHANGED_MAX: usize = 300;

/// The chunks that are held in memory.
pub const CACHED: usize = 32;

/// The number of chunks of a body of this many bytes. Each but the last has `CHUNK` bytes, and an empty body
/// has none.
pub fn chunks(n: u64) -> u64
    ensures { result ≡ chunks_of n }
{
    n.div_ceil(CHUNK as u64)
}
