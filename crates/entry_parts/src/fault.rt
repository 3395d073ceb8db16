//! What is wrong with elements.

ghost use Rattle.std.specs.Prelude.{◌≡◌};
ghost use Rattle.entry_parts.specs.declared.fault.PartsFault.TheVariants.{Memory};

use std::alloc::{AllocError, AllocFailed};

/// Why elements could not be read, or one not be set.
#[derive(Clone, Copy, Debug, PartialEq, Eq)]
pub enum PartsFault {
    /// The name is empty or has a zero byte.
    BadName,
    /// The value has a zero byte.
    BadBytes,
    /// The elements would have more than `ELEMENTS_MAX` bytes.
    TooLarge,
    /// The bytes do not have the form of elements.
    BadForm,
    /// Memory ran out.
    Memory,
}

impl From<AllocError> for PartsFault {
    ghost from_gives = { λ _ e. e ≡ Memory };

    fn from(_: AllocError) -> Self {
        PartsFault::Memory
    }
}

impl<T: Drop> From<AllocFailed<T>> for PartsFault {
    ghost from_gives = { λ _ e. e ≡ Memory };

    fn from(_: AllocFailed<T>) -> Self {
        PartsFault::Memory
    }
}
