//! Why no records can be read from a file.

ghost use Rattle.std.specs.Prelude.{◌≡◌};
ghost use Rattle.record_list.specs.declared.fault.RecordsFault.TheVariants.{Memory};

use cache_base::NoMemory;

/// Why the part of a file after its beginning holds no records.
#[derive(Clone, Copy, Debug, PartialEq, Eq)]
pub enum RecordsFault {
    /// The bytes before the hash are no whole number of records.
    Length,
    /// The hash is not that of the records' bytes.
    Hash,
    /// A name stands twice.
    Repeated,
    /// Memory ran out.
    Memory,
}

impl From<NoMemory> for RecordsFault {
    ghost from_gives = { λ _ e. e ≡ Memory };

    fn from(_: NoMemory) -> Self {
        RecordsFault::Memory
    }
}
