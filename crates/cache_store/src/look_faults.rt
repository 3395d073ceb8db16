//! A look at the disk that fails before anything of the reply is said, so that the command is answered by `fault`.

ghost use Rattle.std.specs.Prelude.{◌≡◌, false};
ghost use Rattle.cache_store.specs.Faulting.{has_failed_look, is_failed_look, is_failure, is_refusal, of_handles};
ghost use Rattle.cache_store.specs.Faults.{of_disk};

use crate::StoreFault;
use disk_theory::DiskFault;
use file_handles::HandleFault;

/// The store's fault for a look at the disk, before anything of the reply is said. Notes whether the disk failed.
pub(crate) fn look_fault(fault: DiskFault, faulting: &mut bool) -> StoreFault
    ensures fault { result ≡ of_disk fault }
    ensures faulting { faulting.new ≡ is_failure fault }
{
    match fault {
        DiskFault::Failed => {
            *faulting = true;
            StoreFault::Disk
        }
        DiskFault::Memory => {
            *faulting = false;
            StoreFault::Memory
        }
    }
}

/// Whether a look of the handles at the disk failed.
pub(crate) fn is_failed(fault: &HandleFault) -> bool
    ensures { result ≡ is_failed_look fault.now }
{
    match fault {
        HandleFault::Read => true,
        HandleFault::Refused(_) => false,
        HandleFault::Disk => false,
        HandleFault::Memory => false,
    }
}

/// Whether a call of the handles failed in a look at the disk.
pub(crate) fn has_failed<T>(answer: &Result<T, HandleFault>) -> bool
    ensures { result ≡ has_failed_look answer.now }
{
    match answer {
        Ok(_) => false,
        Err(fault) => is_failed(fault),
    }
}

/// The store's fault for one of the handles, which is no refusal.
pub(crate) fn handles_fault(fault: HandleFault) -> StoreFault
    requires { is_refusal fault ≡ false }
    ensures { result ≡ of_handles fault }
{
    match fault {
        HandleFault::Read => StoreFault::Disk,
        HandleFault::Disk => StoreFault::Disk,
        HandleFault::Memory => StoreFault::Memory,
        HandleFault::Refused(_) => unreachable!(),
    }
}
