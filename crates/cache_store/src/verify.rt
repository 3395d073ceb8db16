//! Checks all entries, and holds them against their records.

ghost use Rattle.std.specs.Prelude.{◌≡◌, ◌↔◌, [], Err, IfOk, IsTrue, Ok, OnErr, OnOk, false, true};
ghost use Rattle.cache_store.specs.Answering.{SaysNothing};
ghost use Rattle.cache_replies.specs.Answers.{outcome_of};
ghost use Rattle.cache_store.specs.Faults.{OnlySinkFails, ending};
ghost use Rattle.cache_replies.specs.Said.{saying};
ghost use Rattle.cache_replies.specs.Saying.{CutsIn, SaysMore};
ghost use Rattle.cache_theory.specs.Command.Reply.{Findings};
ghost use Rattle.cache_theory.specs.Text.{findings_text};
ghost use Rattle.memory_index.specs.Records.{EndsWith};
ghost use Rattle.index_theory.specs.Ever.{entries_on};
ghost use Rattle.disk_theory.specs.Account.{Looks};
ghost use Rattle.index_map.specs.Known.{SameBase};

use crate::StoreFault;
use crate::look_faults::look_fault;
use crate::store::Store;
use cache_check::findings;
use cache_replies::Answered;
use disk_theory::Disk;
use std::alloc::Global;

impl Store {
    ghost use Rattle.cache_store.specs.Faulting.{StaysAs};
    ghost use Rattle.cache_store.specs.Open.{IsOpen};
    ghost use Rattle.cache_store.specs.Performing.{AchievesWhatIsDone};
    ghost use Rattle.cache_store.specs.Session.{session};
    ghost use Rattle.cache_store.specs.Verifying.{IsFoundIn};
    ghost use Rattle.cache_theory.specs.Command.Command.{Verify};
    ghost use Rattle.handle_table.specs.HeldChunks.{SameChunks};
    ghost use Rattle.file_handles.specs.Kept.{kept};

    /// Ends the update, and finds what is wrong with the files of all entries and with their records. Entries that are
    /// being written are left out. Nothing is changed.
    pub(crate) fn verify<D: Disk>(
        &mut self,
        alloc: Global,
        disk: &mut D,
    ) -> Result<Answered, StoreFault>
        requires calm { self.old.faulting ≡ false }
        requires told { IsTrue D.tells → IsOpen (session D.Disk self.old disk.old) }
        ensures does { let at = session D.Disk in IsTrue D.tells →
            AchievesWhatIsDone Verify result (at self.old disk.old) (at self.new disk.new) }
        ensures found { IfOk result (λ a. IsTrue D.tells →
            IsFoundIn (session D.Disk self.old disk.old) self.new.index.map a) }
        ensures base { SameBase self.old.index.map self.new.index.map }
        ensures ended { OnOk result (IsTrue D.tells → (self.new.index.update ≡ [])
            × EndsWith (entries_on (D.state disk.old)) self.old.index
            self.new.index.map.records) }
        ensures faulted { (self.new.faulting ≡ true) ↔ (result ≡ Err StoreFault.Disk) }
        ensures stays { let at = session D.Disk in self.new.faulting ≡ true → IsTrue D.tells →
            StaysAs (at self.old disk.old) (at self.new disk.new) }
        ensures chunks { SameChunks (kept self.old.handles) (kept self.new.handles) }
        ensures unsaid { SaysNothing Verify result self.old.reply self.new.reply }
        ensures looks { Looks D.Disk (ending result) disk.old disk.new }
    {
        let ended = match self.index.finish_apart(disk) {
            Ok(ended) => ended,
            Err(fault) => return Err(look_fault(fault, &mut self.faulting)),
        };
        let records = self.index.map.records()?;
        let writing = self.handles.writing_names(alloc)?;
        let found = match findings(alloc, disk, &records, &writing) {
            Ok(found) => found,
            Err(fault) => return Err(look_fault(fault, &mut self.faulting)),
        };
        // No look follows that could fail.
        self.index.update = ended;
        Ok(Answered::Checked(found))
    }
}
