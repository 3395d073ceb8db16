//! Why a file is no journal.

ghost use Rattle.std.specs.Prelude.{◌≡◌};
ghost use Rattle.index_journal.specs.RecordsFault.{fault_of};

use record_list::RecordsFault;

/// The first failing check of a journal, in this order, or that memory ran out.
#[derive(Clone, Copy, Debug, PartialEq, Eq)]
pub enum JournalFault {
    /// There is no room for the hash.
    Short,
    /// The bytes before the hash are no whole number of records.
    Length,
    /// The hash is not that of the records' bytes.
    Hash,
    /// A name stands twice.
    Repeated,
    /// Memory ran out.
    Memory,
}

impl From<RecordsFault> for JournalFault {
    ghost from_gives = { λ f e. e ≡ fault_of f };

    fn from(fault: RecordsFault) -> Self {
        match fault {
            RecordsFault::Length => JournalFault::Length,
            RecordsFault::Hash => JournalFault::Hash,
            RecordsFault::Repeated => JournalFault::Repeated,
            RecordsFault::Memory => JournalFault::Memory,
        }
    }
}
