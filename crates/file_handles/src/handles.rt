//! The handles: the table of entries in use, and the room in which a chunk is checked.

ghost use Rattle.std.specs.Prelude.{◌≡◌, IfOk, false};
ghost use Rattle.cache_base.specs.Names.{AreSorted, has_name};
ghost use Rattle.cache_base.specs.declared.name.Name.{Name as AName};

use cache_base::{Buffer, Bytes, Name, Names, NoMemory};
use cache_theory::opens_proper;
use handle_table::HandleTable;
use std::alloc::Global;

/// The entries in use. After a call that changes them has answered `Disk` or `Memory` they may only be dropped.
#[derive(Drop)]
pub struct Handles {
    // The entries in use, the slots, and the chunks that were read last.
    pub(crate) table: HandleTable,
    // The chunk that is checked.
    pub(crate) chunk: Buffer,
    // The memory of the last chunk that went, for the next one that is read.
    pub(crate) spare: Option<Bytes>,
}

impl Handles {
    ghost use Rattle.file_handles.specs.Carries.{StandsForOpening};
    ghost use Rattle.file_handles.specs.Kept.{kept};
    ghost use Rattle.handle_table.specs.Users.{AreCoveredNames, AreOpenNames, AreWritingNames, users_of};

    /// Handles with no entry in use. The memory for the chunk that is checked is taken here; that for chunks that are
    /// read is taken as they come.
    pub fn new(alloc: Global) -> Result<Handles, NoMemory>
        ensures { IfOk result (λ handles. StandsForOpening (kept handles)) }
    {
        opens_proper();
        Ok(Handles {
            table: HandleTable::new(alloc)?,
            chunk: Buffer::new(alloc)?,
            spare: None,
        })
    }

    /// The number of slots that use the undoomed entry of a name. It takes no memory.
    pub fn users(&self, name: &Name) -> usize
        ensures { result ≡ users_of (kept self.now) name.now }
    {
        self.table.users(name)
    }

    /// The names of undoomed entries in use, in name order.
    pub fn open_names(&self, alloc: Global) -> Result<Names, NoMemory>
        ensures names { IfOk result (AreOpenNames (kept self.now)) }
        ensures unused { IfOk result (λ names. (name : AName) →
            has_name names name ≡ false → users_of (kept self.now) name ≡ 0) }
    {
        self.table.open_names(alloc)
    }

    /// The names of undoomed entries that are still being written, in name order.
    pub fn writing_names(&self, alloc: Global) -> Result<Names, NoMemory>
        ensures { IfOk result (AreWritingNames (kept self.now)) }
    {
        self.table.writing_names(alloc)
    }

    /// The names of undoomed entries in use that are of the origin with this hash and not pinned, in name order.
    pub fn open_of(&self, alloc: Global, origin: u64) -> Result<Names, NoMemory>
        ensures names { IfOk result (AreCoveredNames (kept self.now) origin) }
        ensures sorted { IfOk result AreSorted }
    {
        self.table.open_of(alloc, origin)
    }
}
