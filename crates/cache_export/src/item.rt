//! What a reader of a dump gives, and its faults.

ghost use Rattle.std.specs.Prelude.{◌≡◌};
ghost use Rattle.cache_export.specs.PartRead.{completed_by};
ghost use Rattle.cache_export.specs.declared.item.DumpFault.TheVariants.{Memory};

use cache_base::{Bytes, NoMemory};
use entry_metadata::Meta;

/// A part of an item, or the end of the dump. Each item has a key, the pieces of its body and a block.
#[derive(Drop)]
pub enum Item {
    /// The key.
    Key(Bytes),
    /// The next piece of the body. Each but the last has 262,144 bytes, and an empty body has none.
    Piece(Bytes),
    /// What the item's metadata block says.
    Block(Meta),
    /// The dump has ended.
    End,
}

impl Item {
    /// How many items are whole with it.
    pub(crate) fn completed(&self) -> u64
        ensures { result ≡ completed_by self.now }
    {
        match self {
            Item::Block(_) => 1,
            _ => 0,
        }
    }
}

/// Why a reader of a dump gives nothing.
#[derive(Clone, Copy, Debug, PartialEq, Eq)]
pub enum DumpFault {
    /// The item with this number, counted from 1, is bad.
    Bad(u64),
    /// The source failed.
    Source,
    /// Memory ran out.
    Memory,
}

impl From<NoMemory> for DumpFault {
    ghost from_gives = { λ _ e. e ≡ Memory };

    fn from(_: NoMemory) -> Self {
        DumpFault::Memory
    }
}
