//! A record of the index, and what its flags say.

ghost use Rattle.std.specs.Prelude.{◌≡◌};
ghost use Rattle.index_record.specs.Record as spec;

use cache_base::Name;

/// The flag of a record that was filled.
pub const INITIALIZED: u32 = 1 << 31;

/// The flag of an entry that is anonymous: its key has the tag `a`.
pub const ANONYMOUS: u32 = 1 << 30;

/// The flag of a name that is gone.
pub const REMOVED: u32 = 1 << 29;

/// The flag of a record that changed since the index was written. It never goes to a file.
pub const DIRTY: u32 = 1 << 28;

/// The flag of a record that was made by this run. It never goes to a file.
pub const FRESH: u32 = 1 << 27;

/// The flag of an entry that is pinned.
pub const PINNED: u32 = 1 << 26;

/// The flag of an entry that has alternative data.
pub const ALT_DATA: u32 = 1 << 25;

/// The largest size in a record, in KB.
pub const SIZE_MAX: u32 = 0xFF_FFFF;

/// The response time of an entry that has none.
pub const NO_TIME: u16 = 0xFFFF;

// One more than the largest size: the size stands below this bit.
const SIZE_END: u32 = 1 << 24;

/// What the index knows of an entry.
#[derive(Clone, Copy, Debug, PartialEq, Eq)]
pub struct IndexRecord {
    /// The name of the entry's file.
    pub name: Name,
    /// How often and how lately the entry was used.
    pub frecency: u32,
    /// The first eight bytes of the SHA-1 of the origin in the entry's key.
    pub origin: u64,
    /// The milliseconds until the response began, at most 65,534, or `NO_TIME`.
    pub on_start: u16,
    /// The milliseconds until the response ended, at most 65,534, or `NO_TIME`.
    pub on_stop: u16,
    /// The type of the content, or 0 where it is not known.
    pub content: u8,
    /// Flags in the upper bits, and the file's size in KB in the lower 24.
    pub flags: u32,
}

/// The size of the entry's file in KB, rounded up, at most `SIZE_MAX`.
pub fn size_kb(r: &IndexRecord) -> u32
    ensures { result ≡ spec.size_kb r.now }
{
    r.flags % SIZE_END
}

/// Whether the record says that its name is gone.
pub fn is_removed(r: &IndexRecord) -> bool
    ensures { result ≡ spec.is_removed r.now }
{
    r.flags & REMOVED != 0
}

/// Whether the entry is pinned.
pub fn is_pinned(r: &IndexRecord) -> bool
    ensures { result ≡ spec.is_pinned r.now }
{
    r.flags & PINNED != 0
}

/// The record that says that a name is gone.
pub fn removed(name: &Name) -> IndexRecord
    ensures { result ≡ spec.removed_record name.now }
{
    IndexRecord {
        name: *name,
        frecency: 0,
        origin: 0,
        on_start: NO_TIME,
        on_stop: NO_TIME,
        content: 0,
        flags: INITIALIZED + REMOVED,
    }
}
