//! Opens the index, and begins its update.

ghost use Rattle.std.specs.Prelude.{◌≡◌, ◌⊎◌, ◌≤◌, ◌+◌, ℕ, IfOk, IsTrue, OnOk};
ghost use Rattle.cache_base.specs.Names.{AreSorted};
ghost use Rattle.cache_store.specs.InUse.{OpensInUse};
ghost use Rattle.cache_store.specs.Kept.{HoldsIndex};
ghost use Rattle.cache_store.specs.Open.{BeginsOn, IsRest, opening_behind};
ghost use Rattle.memory_index.specs.Records.{SeesNone, TellsOf};
ghost use Rattle.disk_theory.specs.Account.{Ending, LeavesEntriesUnread, Looks, LooksAtNoEntry, ending, one_sync};
ghost use Rattle.disk_theory.specs.Calls.{IsBehindSync, LastFails};
ghost use Rattle.disk_theory.specs.Listing.{AreEntries};
ghost use Rattle.disk_theory.specs.State.{standing};
ghost use Rattle.disk_theory.specs.Told.{Told};
ghost use Rattle.index_map.specs.Known.{SameBase};
ghost use Rattle.index_theory.specs.Apart.{IsApart};
ghost use Rattle.index_theory.specs.Ever.{entries_on};
ghost use Rattle.index_theory.specs.Honest.{Honest};
ghost use Rattle.startup_read.specs.Opening.{IsAmidOpening, OpensHonest, opened as opened_index};
ghost use Rattle.startup_read.specs.Spares.{SparesEntries};

use disk_theory::{Disk, DiskFault};
use index_map::RecordMap;
use index_update::Update;
use memory_index::MemoryIndex;
use startup_read::{Opened, Start, open_index};
use std::alloc::Global;

// Lists the names of all entries, which have still to be read.
fn begin_update<D: Disk>(
    alloc: Global,
    disk: &mut D,
    map: RecordMap,
) -> Result<MemoryIndex, DiskFault>
    ensures rest { IfOk result (λ index. IsTrue D.tells →
        AreEntries (D.state disk.old) index.update) }
    ensures sorted { IfOk result (λ index. AreSorted index.update) }
    ensures base { IfOk result (λ index. SameBase map index.map) }
    ensures tells { let es = entries_on (D.state disk.old) in
        IfOk result (λ index. IsTrue D.tells → SeesNone map → TellsOf es index) }
    ensures looks { Looks D.Disk (ending result) disk.old disk.new }
    ensures no_entry { LooksAtNoEntry D.Disk disk.old disk.new }
    ensures once { IsTrue D.tells → (most : ℕ) → IsBehindSync most (D.counts disk.old) →
        IsBehindSync (most + 1) (D.counts disk.new) }
{
    let mut index = MemoryIndex {
        map,
        update: Update::begin(alloc, disk)?,
    };
    index.drop_unseen_at_end();
    Ok(index)
}

/// Opens the index. Where it is not trusted the names of all entries are listed, and their files are read later.
pub(crate) fn begin_index<D: Disk>(alloc: Global, disk: &mut D) -> Result<MemoryIndex, DiskFault>
    // The index in memory.
    ensures rest { IfOk result (λ index. IsTrue D.tells → IsRest (D.state disk.old) index.update) }
    ensures tells { let es = entries_on (D.state disk.old) in
        IfOk result (λ index. IsTrue D.tells →
        Honest (standing (D.state disk.old)) → TellsOf es index) }
    ensures holds { IfOk result (λ index. IsTrue D.tells →
        HoldsIndex (D.state disk.new) index.map) }
    ensures based { IfOk result (λ index. IsTrue D.tells →
        OpensInUse (D.state disk.old) index.map (D.state disk.new)) }
    ensures begins { IfOk result (λ index. IsTrue D.tells →
        BeginsOn (standing (D.state disk.old)) index.map) }

    // The disk.
    ensures opened { OnOk result (Told D.Disk (λ s t. t ≡ opened_index s) disk.old disk.new) }
    ensures amid { Told D.Disk IsAmidOpening disk.old disk.new }
    ensures entries { Told D.Disk (λ s t. IsApart s → SparesEntries s t) disk.old disk.new }
    ensures honest { Told D.Disk OpensHonest disk.old disk.new }
    ensures disk { LeavesEntriesUnread D.Disk (ending result) one_sync disk.old disk.new }
    ensures behind { OnOk result (IsTrue D.tells →
        IsBehindSync (opening_behind (D.state disk.old)) (D.counts disk.new)) }
    ensures fails { ending result ≡ Ending.OneFailed → IsTrue D.tells →
        let before = D.counts disk.old in let now = D.counts disk.new in LastFails now
        ⊎ ((now.syncs ≤ before.syncs) ⊎ IsBehindSync (opening_behind (D.state disk.old)) now) }
{
    let Opened { start, map } = open_index(alloc, disk)?;
    match start {
        Start::Ready => Ok(MemoryIndex {
            map,
            update: Update::none(alloc),
        }),
        Start::Update => begin_update(alloc, disk, map),
        Start::Build => begin_update(alloc, disk, map),
    }
}
