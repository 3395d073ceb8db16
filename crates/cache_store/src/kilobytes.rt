//! The sum of the sizes of all entries.

ghost use Rattle.std.specs.Prelude.{◌≡◌, ◌≢◌, [], Err, IfOk, IsTrue, OnOk, length};
ghost use Rattle.cache_store.specs.Faults.{ending};
ghost use Rattle.cache_store.specs.IndexCalls.{ReadsEntriesOf};
ghost use Rattle.disk_theory.specs.Account.{Looks};
ghost use Rattle.evictor.specs.Evict.{total_kb};
ghost use Rattle.index_map.specs.Known.{IsKnown, SameBase};
ghost use Rattle.index_theory.specs.Honest.{LeavesHonest};

use crate::StoreFault;
use crate::store::Store;
use disk_theory::Disk;
use index_map::RecordMap;

// The sum of the sizes of the records now.
fn total_of(map: &RecordMap) -> u128
    ensures sum { result ≡ total_kb map.now.records }
    ensures known { IsKnown map.now }
{
    map.totals().kilobytes
}

impl Store {
    ghost use Rattle.cache_store.specs.EndsUpdate.{EndsUpdate, IsTotal};
    ghost use Rattle.cache_store.specs.Open.{IsOpen, LeavesOpen};
    ghost use Rattle.cache_store.specs.Session.{open_of, session};

    /// Ends the update, and tells the sum of the sizes of all entries in KB. It is that of the records in memory, which
    /// are right where the directory was honest at the opening, or a `rebuild` has answered. Nothing is changed on the
    /// disk.
    pub fn kilobytes<D: Disk>(&mut self, disk: &mut D) -> Result<u128, StoreFault>
        requires told { IsTrue D.tells → IsOpen (session D.Disk self.old disk.old) }
        // What the store stands for then, and what a crash leaves at every exit.
        ensures ends { let at = session D.Disk in IsTrue D.tells →
            EndsUpdate result (at self.old disk.old) (at self.new disk.new) }
        ensures open { IsTrue D.tells → LeavesOpen result (session D.Disk self.new disk.new) }
        ensures honest { IsTrue D.tells → LeavesHonest (D.state disk.new) }

        // The sum, by the records in memory, and where they are right by the entries.
        ensures sum { IfOk result (λ kb. kb ≡ total_kb (open_of self.new).index.map.records) }
        ensures total { IfOk result (λ kb. IsTrue D.tells →
            IsTotal (session D.Disk self.old disk.old) kb) }
        ensures ended { OnOk result ((open_of self.new).index.update ≡ []) }
        ensures base { let was = open_of self.old in let now = open_of self.new in
            SameBase was.index.map now.index.map }

        // Calls and faults. The disk is only looked at.
        ensures no_sink { result ≢ Err StoreFault.Sink }
        ensures looks { Looks D.Disk (ending result) disk.old disk.new }
        ensures names { let rest = (open_of self.old).index.update in
            ReadsEntriesOf D.Disk (length rest) disk.old disk.new }
    {
        self.index.finish(disk)?;
        Ok(total_of(&self.index.map))
    }
}
