//! What a file reads as, without its body.

use entry_metadata::Meta;

/// Why a file is no entry's: its first failing check, in this order. One of the first seven is wrong with the file's
/// end or its metadata block, as `MetaFault` says.
#[derive(Clone, Copy, Debug, PartialEq, Eq)]
pub enum Unfit {
    /// The file ends before its block can, or has no final offset within it.
    Short,
    /// The block has more than `BLOCK_MAX` bytes, or would have as version 3.
    TooBig,
    /// The header's version is not 1, 2 or 3.
    Version,
    /// No zero byte stands after the key.
    KeyEnd,
    /// The metadata hash is not that of what follows it.
    Hash,
    /// The key does not have the grammar of keys.
    KeyForm,
    /// The elements do not have the form of elements.
    Elements,
    /// The SHA-1 of the key is not the file's name.
    WrongName,
}

/// What was read at an entry's place.
#[derive(Drop)]
pub enum EntryRead {
    /// No file stands there.
    Absent,
    /// The file there does not fit.
    Unfit(Unfit),
    /// The file there fits: its metadata, and its length in bytes. Its body may still be damaged.
    Fits { meta: Meta, size: u64 },
}
