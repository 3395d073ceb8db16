//! Chunks that are not as they were written.

/// A chunk whose 16-bit hash is not the stored one.
#[derive(Clone, Copy, Debug, PartialEq, Eq)]
pub struct Damage {
    /// The number of the chunk, from 0 on.
    pub chunk: u32,
    /// The hash that the metadata have of it.
    pub stored: u16,
    /// The hash of its bytes.
    pub found: u16,
}
