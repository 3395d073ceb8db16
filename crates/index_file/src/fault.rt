//! Why a file is no index.

ghost use Rattle.std.specs.Prelude.{◌≡◌};
ghost use Rattle.index_file.specs.RecordsFault.{fault_of};

use record_list::RecordsFault;

/// The first failing check of an index, in this order, or that memory ran out.
#[derive(Clone, Copy, Debug, PartialEq, Eq)]
pub enum IndexFault {
    /// There is no room for the header and the hash.
    Short,
    /// The version is not 0xA.
    Version,
    /// The bytes between the header and the hash are no whole number of records.
    Length,
    /// The hash is not that of the records' bytes.
    Hash,
    /// A name stands twice, be it of a removed record.
    Repeated,
    /// Memory ran out.
    Memory,
}

impl From<RecordsFault> for IndexFault {
    ghost from_gives = { λ f e. e ≡ fault_of f };

    fn from(fault: RecordsFault) -> Self {
        match fault {
            RecordsFault::Length => IndexFault::Length,
            RecordsFault::Hash => IndexFault::Hash,
            RecordsFault::Repeated => IndexFault::Repeated,
            RecordsFault::Memory => IndexFault::Memory,
        }
    }
}
