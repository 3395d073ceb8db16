//! Replies that show something of an entry that is found: all of it, its main body, or its alternative data.

ghost use Rattle.std.specs.Prelude.{◌≡◌, [], Err, false, true, IsTrue};
ghost use Rattle.cache_store.specs.Faulting.{SendsFrontFor};
ghost use Rattle.cache_store.specs.Faults.{AccountsForSink, ending};
ghost use Rattle.cache_replies.specs.Said.{saying};
ghost use Rattle.cache_replies.specs.Showing.{showing};
ghost use Rattle.disk_theory.specs.Account.{Looks};

use crate::StoreFault;
use crate::found_body::Range;
use crate::handle_answers::fault_answer;
use crate::look_faults::is_failed;
use crate::store::Store;
use cache_io::Sink;
use cache_replies::{Answered, Shown, part_of};
use cache_theory::Refusal;
use disk_theory::{Disk, Place};
use entry_name::name_of;
use std::alloc::Global;

impl Store {
    ghost use Rattle.cache_store.specs.Answering.{AnswersFor, IsStillToSay};
    ghost use Rattle.cache_store.specs.Session.{open_of};
    ghost use Rattle.file_handles.specs.Cache.{cache};
    ghost use Rattle.file_handles.specs.Stands.{RepresentsSome};

    /// Shows something of the entry of a key, unless the command is refused.
    pub(crate) fn say_shown<D: Disk, K: Sink>(
        &mut self,
        alloc: Global,
        disk: &mut D,
        shown: Shown,
        key: &[u8],
        sink: &mut K,
    ) -> Result<Answered, StoreFault>
        requires empty { self.old.reply.held ≡ [] }
        requires calm { self.old.faulting ≡ false }
        requires told { IsTrue D.tells → RepresentsSome (cache D.Disk self.old.handles disk.old) }
        ensures answers { IsTrue D.tells →
            AnswersFor (cache D.Disk self.old.handles disk.old) (showing shown key.now) result
            (K.taken sink.old) (saying K.Sink self.new.reply sink.new) }
        ensures unsaid { IsStillToSay (showing shown key.now) result
            sink.old sink.new self.new.reply }
        ensures open { open_of self.new ≡ open_of self.old }
        // Where a look failed before anything was said, all is as before; and else where the disk failed the reply is
        // out up to the end of its first chunk.
        ensures faulted { self.new.faulting ≡ true → result ≡ Err StoreFault.Disk }
        ensures silent { self.new.faulting ≡ true →
            (sink.new ≡ sink.old) × (self.new.reply.held ≡ []) }
        ensures front { self.new.faulting ≡ false → result ≡ Err StoreFault.Disk → IsTrue D.tells →
            SendsFrontFor (cache D.Disk self.old.handles disk.old) (showing shown key.now)
            (K.taken sink.old) (K.taken sink.new) }
        ensures looks { Looks D.Disk (ending result) disk.old disk.new }
        ensures sink { AccountsForSink K.Sink result sink.old sink.new }
    {
        let meta = match self.handles.find(alloc, disk, key) {
            Ok(meta) => meta,
            Err(fault) => {
                self.faulting = is_failed(&fault);
                return fault_answer(fault);
            }
        };
        let Some(part) = part_of(alloc, shown, &meta)? else {
            return Ok(Answered::Refused(Refusal::NoAlt));
        };
        let range = Range {
            place: &Place::Entry(name_of(key)),
            len: meta.offset,
            from: part.from,
            to: part.to,
        };
        self.say_found(disk, range, part.head.as_slice(), sink)?;
        Ok(Answered::All)
    }
}
