//! Why a call of the store was not done.

ghost use Rattle.std.specs.Prelude.{◌≡◌};
ghost use Rattle.cache_store.specs.Faults.{of_disk, of_sink};
ghost use Rattle.cache_store.specs.declared.fault.StoreFault.TheVariants.{Memory};

use cache_base::NoMemory;
use cache_io::SinkFault;
use disk_theory::DiskFault;

/// Why a command was not performed, or its reply is not out.
#[derive(Clone, Copy, Debug, PartialEq, Eq)]
pub enum StoreFault {
    /// Memory ran out. The store may only be dropped.
    Memory,
    /// The disk failed. The store may only be dropped, unless it was in a look before anything of the reply was out:
    /// then the store is as it was, and `Store::faulting` says so.
    Disk,
    /// The sink failed. The command has had its effect, and the store may only be closed.
    Sink,
}

impl From<NoMemory> for StoreFault {
    ghost from_gives = { λ _ e. e ≡ Memory };

    fn from(_: NoMemory) -> Self {
        StoreFault::Memory
    }
}

impl From<DiskFault> for StoreFault {
    ghost from_gives = { λ fault e. e ≡ of_disk fault };

    fn from(fault: DiskFault) -> Self {
        match fault {
            DiskFault::Failed => StoreFault::Disk,
            DiskFault::Memory => StoreFault::Memory,
        }
    }
}

impl From<SinkFault> for StoreFault {
    ghost from_gives = { λ fault e. e ≡ of_sink fault };

    fn from(fault: SinkFault) -> Self {
        match fault {
            SinkFault::Failed => StoreFault::Sink,
            SinkFault::Memory => StoreFault::Memory,
        }
    }
}
