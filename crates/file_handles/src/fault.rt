//! What the calls of the handles answer.

ghost use Rattle.std.specs.Prelude.{◌≡◌};
ghost use Rattle.file_handles.specs.Answers.{fault_of, look_fault_of};
ghost use Rattle.file_handles.specs.declared.fault.HandleFault.TheVariants.{Memory, Refused};

use cache_base::{Name, NoMemory};
use cache_theory::Refusal;
use disk_theory::DiskFault;
use index_record::IndexRecord;

/// Why a call did nothing, or failed.
#[derive(Clone, Copy, Debug, PartialEq, Eq)]
pub enum HandleFault {
    /// The command is refused, and nothing changed.
    Refused(Refusal),
    /// A look at the disk failed. The handles are as before, and the disk holds what it held.
    Read,
    /// A change of the disk failed. The handles may only be dropped.
    Disk,
    /// Memory ran out, or so many objects were made that no number is left. The handles may only be dropped.
    Memory,
}

impl From<DiskFault> for HandleFault {
    ghost from_gives = { λ fault e. e ≡ fault_of fault };

    fn from(fault: DiskFault) -> Self {
        match fault {
            DiskFault::Failed => HandleFault::Disk,
            DiskFault::Memory => HandleFault::Memory,
        }
    }
}

/// A fault of a call that only looks at the disk.
pub(crate) fn look_fault(fault: DiskFault) -> HandleFault
    ensures { result ≡ look_fault_of fault }
{
    match fault {
        DiskFault::Failed => HandleFault::Read,
        DiskFault::Memory => HandleFault::Memory,
    }
}

impl From<NoMemory> for HandleFault {
    ghost from_gives = { λ _ e. e ≡ Memory };

    fn from(_: NoMemory) -> Self {
        HandleFault::Memory
    }
}

impl From<Refusal> for HandleFault {
    ghost from_gives = { λ refusal e. e ≡ Refused refusal };

    fn from(refusal: Refusal) -> Self {
        HandleFault::Refused(refusal)
    }
}

/// What an index must learn of a call.
#[derive(Clone, Copy, Debug, PartialEq, Eq)]
pub enum Effect {
    /// No entry file changed that is not doomed.
    Same,
    /// No finished entry stands under the name any more.
    Gone(Name),
    /// An entry was finished, or its metadata were rewritten: this is the record of its file.
    Wrote(IndexRecord),
}
