//! What is wrong with a metadata block.

ghost use Rattle.std.specs.Prelude.{◌≡◌};
ghost use Rattle.entry_metadata.specs.PartsFault.{fault_of};
ghost use Rattle.entry_metadata.specs.declared.fault.MetaFault.TheVariants.{Memory};

use cache_base::NoMemory;
use entry_parts::PartsFault;

/// The first failing check of a block, in this order, or that memory ran out.
#[derive(Clone, Copy, Debug, PartialEq, Eq)]
pub enum MetaFault {
    /// The block ends before its key can, whichever version it has.
    Short,
    /// The block has more than `BLOCK_MAX` bytes, or would have as version 3.
    TooBig,
    /// The header's version is not 1, 2 or 3.
    Version,
    /// No zero byte stands after the key.
    KeyEnd,
    /// The hash is not that of what follows it.
    Hash,
    /// The key does not have the grammar of keys.
    KeyForm,
    /// The elements do not have the form of elements.
    Elements,
    /// Memory ran out.
    Memory,
}

impl From<NoMemory> for MetaFault {
    ghost from_gives = { λ _ e. e ≡ Memory };

    fn from(_: NoMemory) -> Self {
        MetaFault::Memory
    }
}

impl From<PartsFault> for MetaFault {
    ghost from_gives = { λ f e. e ≡ fault_of f };

    fn from(fault: PartsFault) -> Self {
        match fault {
            PartsFault::BadName => MetaFault::Elements,
            PartsFault::BadBytes => MetaFault::Elements,
            PartsFault::TooLarge => MetaFault::Elements,
            PartsFault::BadForm => MetaFault::Elements,
            PartsFault::Memory => MetaFault::Memory,
        }
    }
}
