//! Performs one command, and writes its reply.

ghost use Rattle.std.specs.Prelude.{List, ℕ, ◌≡◌, ◌≢◌, ◌<◌, [], Err, Ok, true, false, IfOk, IfSome, IsSome, IsTrue, None, OnErr, OnOk, codes};
ghost use Rattle.std.specs.Io.KnownBytes.{Appends};
ghost use Rattle.cache_base.specs.declared.limits.TheConstants.{SLOTS};
ghost use Rattle.cache_script.specs.Command.{command_of};
ghost use Rattle.cache_replies.specs.Answers.{outcome_in, left_to_say};
ghost use Rattle.cache_store.specs.AtClear.{ChangesAtClear, ClearsInOrder};
ghost use Rattle.cache_store.specs.CommandCall.{HoldsAtExit, PerformsCommand};
ghost use Rattle.cache_store.specs.Clearing.{HasNoMark, IsClearing, LeavesResumed, LeavesUncleared, origin_cleared};
ghost use Rattle.cache_store.specs.Evicting.{IsEviction, LeavesOthers, LooksBeforeChanges};
ghost use Rattle.cache_store.specs.Faulting.{FailsForGood, LooksAtNothing, LooksFirst, StaysAs};
ghost use Rattle.cache_store.specs.Faults.{AccountsForSink, OnlySinkFails, ending};
ghost use Rattle.cache_store.specs.IndexCalls.{Flushes, IsFresh, IsWritten, ReadsEntriesOf, LooksOnceAt, MakesNoCall, NeverSyncs, OnlyLooks, Rebuilds, SyncsAll, names_read};
ghost use Rattle.cache_store.specs.InUse.{SparesIndex};
ghost use Rattle.cache_replies.specs.Printed.{HasBadKey, IsPlainAnswer, is_plain};
ghost use Rattle.cache_store.specs.Reads.{AreHeld, LastIsFirst, LeavesChunks, PutsChunks};
ghost use Rattle.cache_store.specs.Records.{KeepsRecords};
ghost use Rattle.cache_replies.specs.Said.{IsCut, saying};
ghost use Rattle.cache_replies.specs.Saying.{CutsIn, SaysMore, TakesMore};
ghost use Rattle.cache_theory.specs.Command.Command.{Doom, ElementOf, Evict, Flush, PutAlt, ReadPart, Rebuild, Resume, Verify};
ghost use Rattle.cache_theory.specs.Faulted.{fault_line};
ghost use Rattle.cache_theory.specs.Given.{IsGiven};
ghost use Rattle.cache_theory.specs.Text.{with_bytes};
ghost use Rattle.context_clear.specs.Mark.{mark_of};
ghost use Rattle.disk_theory.specs.Account.{Accounts, Ending, Looks};
ghost use Rattle.disk_theory.specs.Sound.{IsQuiet};
ghost use Rattle.disk_theory.specs.State.{standing};
ghost use Rattle.disk_theory.specs.Told.{Told};
ghost use Rattle.disk_theory.specs.declared.place.Place.TheVariants.{Clear};
ghost use Rattle.file_handles.specs.Dooming.{IsUnfinishedFor, TakesEntries};
ghost use Rattle.file_handles.specs.Unsynced.{SyncsNothing};
ghost use Rattle.index_map.specs.Known.{SameBase};
ghost use Rattle.index_theory.specs.Ever.{entries_on};
ghost use Rattle.index_theory.specs.Leaves.{LeavesIndex};
ghost use Rattle.index_theory.specs.Unclean.{IsUnclean};

use crate::StoreFault;
use crate::handle_answers::answer_of;
use crate::index_answers::{has, state_of};
use crate::learn::{learn_of, learn_of_some};
use crate::look_faults::has_failed;
use crate::store::Store;
use cache_io::Sink;
use cache_replies::{Answered, Shown, Verdict, say_rest, say_value};
use cache_script::Command;
use disk_theory::Disk;
use std::alloc::Global;

impl Store {
    ghost use Rattle.cache_store.specs.Answering.{AnswersOver, IsStillToSay};
    ghost use Rattle.cache_replies.specs.Completing.{CutsRest, SendsRest};
    ghost use Rattle.cache_store.specs.InMemory.{AnswersInMemory};
    ghost use Rattle.cache_store.specs.Open.{IsOpen};
    ghost use Rattle.cache_store.specs.Performing.{DoesWhatIsDone, HadEffect};
    ghost use Rattle.cache_store.specs.Session.{cache_of, is_faulting, open_of, session};
    ghost use Rattle.cache_store.specs.StoppedClearing.{ClearsUnderMark};
    ghost use Rattle.cache_store.specs.Syncs.{syncs_of};
    ghost use Rattle.cache_store.specs.Verifying.{IsFoundIn};
    ghost use Rattle.file_handles.specs.Cache.{cache};
    ghost use Rattle.file_handles.specs.Kept.{kept};

    // Says the value of an element.
    fn say_element<K: Sink>(
        &mut self,
        alloc: Global,
        slot: u8,
        name: &[u8],
        sink: &mut K,
    ) -> Result<Answered, StoreFault>
        requires slot { slot < SLOTS }
        requires empty { self.old.reply.held ≡ [] }
        ensures answers { AnswersOver (kept self.old.handles) (ElementOf slot name.now) result
            (K.taken sink.old) (saying K.Sink self.new.reply sink.new) }
        ensures unsaid { IsStillToSay (ElementOf slot name.now) result
            sink.old sink.new self.new.reply }
        ensures open { open_of self.new ≡ open_of self.old }
        ensures calm { self.new.faulting ≡ self.old.faulting }
        ensures sink { OnlySinkFails K.Sink result sink.old sink.new }
    {
        match self.handles.element(slot, name) {
            Ok(Some(value)) => {
                say_value(alloc, value, &mut self.reply, sink)?;
                Ok(Answered::All)
            }
            Ok(None) => Ok(Answered::NoneThere),
            Err(refusal) => Ok(Answered::Refused(refusal)),
        }
    }

    // Does what the command says, with nothing said before.
    fn perform<D: Disk, K: Sink>(
        &mut self,
        alloc: Global,
        disk: &mut D,
        c: &Command<'_>,
        sink: &mut K,
    ) -> Result<Answered, StoreFault>
        requires given { IsGiven (command_of c.now) }
        requires empty { self.old.reply.held ≡ [] }
        requires calm { self.old.faulting ≡ false }
        requires told { IsTrue D.tells → IsOpen (session D.Disk self.old disk.old) }
        ensures does { let at = session D.Disk in IsTrue D.tells →
            DoesWhatIsDone (command_of c.now) result (at self.old disk.old) (at self.new disk.new)
            (K.taken sink.old) (saying K.Sink self.new.reply sink.new) }
        ensures plain { IfOk result (λ a. is_plain (command_of c.now) ≡ true → IsPlainAnswer a) }
        ensures unsaid { IsStillToSay (command_of c.now) result
            sink.old sink.new self.new.reply }
        ensures found { command_of c.now ≡ Verify → IfOk result (λ a. IsTrue D.tells →
            IsFoundIn (session D.Disk self.old disk.old) self.new.index.map a) }
        ensures bad_key { HasBadKey (command_of c.now) → result ≢ Ok Answered.Done }
        ensures in_memory { MakesNoCall (command_of c.now) →
            AnswersInMemory (open_of self.old) (command_of c.now) result
            (K.taken sink.old) (saying K.Sink self.new.reply sink.new) }
        ensures plainly { is_plain (command_of c.now) ≡ true → sink.new ≡ sink.old }
        ensures wordless { command_of c.now ≡ Resume → (sink.new ≡ sink.old)
            × ((result ≢ Err StoreFault.Sink) × IfOk result (λ a. a ≡ Answered.Resumed)) }
        ensures grows { IsTrue D.tells → TakesMore (K.taken sink.old) (K.taken sink.new) }
        ensures index { SparesIndex (command_of c.now) self.old.index →
            Told D.Disk LeavesIndex disk.old disk.new }
        ensures base { SparesIndex (command_of c.now) self.old.index → HadEffect result →
            SameBase self.old.index.map self.new.index.map }
        ensures quiet { SyncsAll (command_of c.now) → HadEffect result →
            IsTrue D.tells → IsQuiet (D.state disk.new) }
        ensures unclean { IsTrue D.tells → IsUnclean (D.state disk.new) }
        ensures looks { let mark = mark_of (standing (D.state disk.old) Clear) in
            IfSome (names_read (command_of c.now) mark self.old.index.update)
            (λ names. ReadsEntriesOf D.Disk names disk.old disk.new) }
        ensures looks_first { IsEviction (command_of c.now) →
            LooksBeforeChanges D.Disk (ending result) disk.old disk.new }
        ensures takes { IsEviction (command_of c.now) →
            Told D.Disk TakesEntries disk.old disk.new }
        ensures resumes_first { command_of c.now ≡ Resume →
            LooksFirst D.Disk (ending result) disk.old disk.new }
        ensures flushed { command_of c.now ≡ Flush → OnOk result
            (self.new.index.update ≡ [] → IsFresh self.new.index.map) }
        ensures rebuilt { command_of c.now ≡ Rebuild → OnOk result (IsWritten self.new.index.map) }
        ensures idle { MakesNoCall (command_of c.now) → disk.new ≡ disk.old }
        ensures looking { OnlyLooks (command_of c.now) →
            Looks D.Disk (ending result) disk.old disk.new }
        ensures unsynced { NeverSyncs (kept self.old.handles) (command_of c.now) →
            Told D.Disk SyncsNothing disk.old disk.new }
        ensures evicts { (kb : ℕ) → command_of c.now ≡ Evict kb →
            HadEffect result → IsTrue D.tells →
            LeavesOthers (session D.Disk self.old disk.old) kb self.new.index.map }
        ensures clears { IfSome
            (origin_cleared (command_of c.now) (standing (D.state disk.old) Clear)) (λ origin.
            HadEffect result → IsTrue D.tells →
            LeavesUncleared (session D.Disk self.old disk.old) origin self.new.index.map) }
        ensures unmarked { IsClearing (command_of c.now) → HadEffect result →
            IsTrue D.tells → HasNoMark (D.state disk.new) }
        ensures stopped { IfSome
            (origin_cleared (command_of c.now) (standing (D.state disk.old) Clear)) (λ origin.
            IsTrue D.tells →
            ClearsUnderMark origin (session D.Disk self.old disk.old) (D.state disk.new)) }
        ensures ordered { IfSome
            (origin_cleared (command_of c.now) (standing (D.state disk.old) Clear)) (λ origin.
            Told D.Disk (ClearsInOrder origin) disk.old disk.new) }
        ensures at_clear { Told D.Disk (ChangesAtClear (command_of c.now)) disk.old disk.new }
        ensures resumes { command_of c.now ≡ Resume → HadEffect result → IsTrue D.tells →
            let mark = mark_of (standing (D.state disk.old) Clear) in
            LeavesResumed mark (session D.Disk self.old disk.old) self.new.index }
        ensures synced { command_of c.now ≡ Resume → HadEffect result → IsTrue D.tells →
            IsSome (mark_of (standing (D.state disk.old) Clear)) → IsQuiet (D.state disk.new) }
        ensures flushes { command_of c.now ≡ Flush → HadEffect result →
            Told D.Disk (Flushes self.old.index self.old.moment) disk.old disk.new }
        ensures rebuilds { command_of c.now ≡ Rebuild → HadEffect result →
            Told D.Disk (Rebuilds self.new.index.map self.old.moment) disk.old disk.new }
        // Where a look failed before anything was said, all is as before. Where the disk failed in another way, it
        // was in a change or a sync, or the reply is out up to its first chunk.
        ensures faulted { self.new.faulting ≡ true → result ≡ Err StoreFault.Disk }
        ensures looked { self.new.faulting ≡ true →
            Looks D.Disk Ending.OneFailed disk.old disk.new }
        ensures stays { let at = session D.Disk in self.new.faulting ≡ true → IsTrue D.tells →
            StaysAs (at self.old disk.old) (at self.new disk.new) }
        ensures same_base { self.new.faulting ≡ true →
            SameBase self.old.index.map self.new.index.map }
        ensures silent { self.new.faulting ≡ true →
            (sink.new ≡ sink.old) × (self.new.reply.held ≡ []) }
        ensures change { let at = cache D.Disk self.old.handles disk.old in
            self.new.faulting ≡ false → command_of c.now ≢ Resume → result ≡ Err StoreFault.Disk →
            IsTrue D.tells → FailsForGood (D.counts disk.new) (command_of c.now) at
            (K.taken sink.old) (K.taken sink.new) }
        ensures bare { LooksAtNothing (command_of c.now) → self.new.faulting ≡ false }
        ensures once { command_of c.now ≡ Resume → IsTrue D.tells →
            standing (D.state disk.old) Clear ≡ None → LooksOnceAt D.Disk Clear disk.old disk.new }
        ensures ends { command_of c.now ≡ Resume → self.new.faulting ≡ false }
        ensures held { (slot from len : ℕ) → command_of c.now ≡ ReadPart slot from len →
            AreHeld (kept self.old.handles) slot from len → disk.new ≡ disk.old }
        ensures recent { (slot from len : ℕ) → command_of c.now ≡ ReadPart slot from len →
            IfOk result (λ a. outcome_in a ≡ Verdict.Ok → IsTrue D.tells →
            LastIsFirst (kept self.old.handles) slot from len (kept self.new.handles)) }
        ensures chunks { LeavesChunks (command_of c.now)
            (kept self.old.handles) (kept self.new.handles) }
        ensures alt_chunks { (slot : ℕ) (kind bytes : List ℕ) →
            command_of c.now ≡ PutAlt slot kind bytes → IfOk result (λ a.
            PutsChunks (outcome_in a) slot (kept self.old.handles) (kept self.new.handles)) }
        ensures records { OnOk result (IsTrue D.tells →
            KeepsRecords (command_of c.now) (entries_on (D.state disk.old))
            self.old.index self.new.index) }
        ensures unfinished { (key : List ℕ) (place number : ℕ) → command_of c.now ≡ Doom key →
            IsUnfinishedFor (kept self.old.handles) key place number → disk.new ≡ disk.old }
        ensures account { let most = syncs_of (kept self.old.handles) (command_of c.now) in
            Accounts D.Disk (ending result) most disk.old disk.new }
        ensures sink { AccountsForSink K.Sink result sink.old sink.new }
    {
        match *c {
            Command::At { now } => {
                self.moment = now;
                Ok(Answered::Done)
            }
            Command::Create { slot, key } => {
                let now = self.moment;
                let answer = self.handles.create(alloc, disk, slot, key, now);
                self.faulting = has_failed(&answer);
                learn_of(&mut self.index, answer)
            }
            Command::OpenKey { slot, key } => {
                let answer = self.handles.open(alloc, disk, slot, key);
                self.faulting = has_failed(&answer);
                answer_of(answer)
            }
            Command::Append { slot, bytes } => answer_of(self.handles.append(disk, slot, bytes)),
            Command::Finish { slot } => {
                let answer = self.handles.finish(alloc, disk, slot);
                learn_of(&mut self.index, answer)
            }
            Command::FinishAs {
                slot,
                header,
                elements,
            } => self.finish_as(alloc, disk, slot, header, elements),
            Command::SetElement { slot, name, value } => {
                let answer = self.handles.set_element(alloc, disk, slot, name, value);
                learn_of(&mut self.index, answer)
            }
            Command::UnsetElement { slot, name } => {
                let answer = self.handles.unset_element(alloc, disk, slot, name);
                learn_of_some(&mut self.index, answer)
            }
            Command::Element { slot, name } => self.say_element(alloc, slot, name, sink),
            Command::PutAlt { slot, kind, alt } => {
                let answer = self.handles.put_alt(alloc, disk, slot, kind, alt);
                self.faulting = has_failed(&answer);
                learn_of(&mut self.index, answer)
            }
            Command::UseEntry { slot } => {
                let now = self.moment;
                let answer = self.handles.use_entry(alloc, disk, slot, now);
                learn_of(&mut self.index, answer)
            }
            Command::Pin { slot } => {
                let answer = self.handles.set_pin(alloc, disk, slot, true);
                learn_of(&mut self.index, answer)
            }
            Command::Unpin { slot } => {
                let answer = self.handles.set_pin(alloc, disk, slot, false);
                learn_of(&mut self.index, answer)
            }
            Command::ReadPart { slot, from, len } => {
                self.say_read(alloc, disk, slot, from, len, sink)
            }
            Command::Close { slot } => {
                let answer = self.handles.close(alloc, disk, slot);
                learn_of(&mut self.index, answer)
            }
            Command::Doom { key } => {
                let answer = self.handles.doom(alloc, disk, key);
                self.faulting = has_failed(&answer);
                learn_of(&mut self.index, answer)
            }
            Command::Get { key } => self.say_shown(alloc, disk, Shown::Whole, key, sink),
            Command::GetAlt { key } => self.say_shown(alloc, disk, Shown::Alt, key, sink),
            Command::MainBody { key } => self.say_shown(alloc, disk, Shown::Main, key, sink),
            Command::Has { key } => Ok(has(&self.index, key)),
            Command::List => self.say_list(alloc, disk, sink),
            Command::Evict { kb } => self.evict(alloc, disk, kb, sink),
            Command::Clear { origin } => self.clear(alloc, disk, origin),
            Command::Resume => self.resume(alloc, disk),
            Command::Flush => self.flush(alloc, disk),
            Command::Step { n } => self.step(disk, n),
            Command::State => Ok(state_of(&self.index)),
            Command::Verify => self.verify(alloc, disk),
            Command::Rebuild => self.rebuild(alloc, disk),
            Command::Dump => self.dump(alloc, disk, sink),
        }
    }

    // Says what is left to say, and how the command came out.
    fn finish_reply<K: Sink>(
        &mut self,
        alloc: Global,
        answered: Answered,
        sink: &mut K,
    ) -> Result<Verdict, StoreFault>
        ensures printed { let was = saying K.Sink self.old.reply sink.old in
            OnOk result (SendsRest (left_to_say answered) was (K.taken sink.new)) }
        ensures cut { let was = saying K.Sink self.old.reply sink.old in
            OnErr result (CutsRest (left_to_say answered) was (K.taken sink.new)) }
        ensures outcome { IfOk result (λ o. o ≡ outcome_in answered) }
        ensures resumed { answered ≡ Answered.Resumed → self.old.reply.held ≡ [] →
            (result ≡ Ok Verdict.Ok) × (sink.new ≡ sink.old) }
        ensures open { open_of self.new ≡ open_of self.old }
        ensures calm { self.new.faulting ≡ self.old.faulting }
        ensures sink { OnlySinkFails K.Sink result sink.old sink.new }
    {
        let outcome = say_rest(alloc, answered, &mut self.reply, sink)?;
        self.reply.send(sink)?;
        Ok(outcome)
    }

    /// Performs a command and writes its reply, which is out when the call returns. This is `command`, but that
    /// nothing is said where a look at the disk fails: then `faulting` tells it, the answer is `Disk`, and whoever
    /// prints the reply may say the line.
    ///
    /// The reply to `verify` is what is wrong with the files that stand and the records in memory, and the verdict is
    /// `Refused` where that is anything. The replies to `has` and `list` are the machine's where the records are right:
    /// where the directory was honest at the opening, or a `rebuild` has answered. There an `evict` and a `clear` take
    /// off what the machine's do; elsewhere they take off what has to go by the records that there are, and the reply
    /// names it all the same. So it is with `Resume`, which prints nothing: it does what is left of a clearing that was
    /// stopped, whose mark stands, and removes what else stands in its place.
    pub fn attempt<D: Disk, K: Sink>(
        &mut self,
        alloc: Global,
        disk: &mut D,
        c: &Command<'_>,
        sink: &mut K,
    ) -> Result<Verdict, StoreFault>
        requires given { IsGiven (command_of c.now) }
        requires told { IsTrue D.tells → IsOpen (session D.Disk self.old disk.old) }
        ensures always { HoldsAtExit D.Disk K.Sink (command_of c.now) result
            self.old self.new disk.old disk.new sink.old sink.new }
        ensures does { PerformsCommand D.Disk K.Sink (command_of c.now) result
            self.old self.new disk.old disk.new sink.old sink.new }

        // Where a look failed before anything of the reply was out, `faulting` tells it, and all is as it was. Where
        // the disk failed in another way, it was in a change or a sync, as the last call, or the reply is out up to
        // its first chunk. A command that makes no look never fails in one; and a clearing that is resumed ends the
        // run, as an opening does.
        ensures faulted { is_faulting self.new ≡ true → result ≡ Err StoreFault.Disk }
        ensures looked { is_faulting self.new ≡ true →
            Looks D.Disk Ending.OneFailed disk.old disk.new }
        ensures stays { let at = session D.Disk in is_faulting self.new ≡ true → IsTrue D.tells →
            StaysAs (at self.old disk.old) (at self.new disk.new) }
        ensures same_base { is_faulting self.new ≡ true →
            SameBase (open_of self.old).index.map (open_of self.new).index.map }
        ensures silent { is_faulting self.new ≡ true → sink.new ≡ sink.old }
        ensures fails { let at = cache_of (session D.Disk self.old disk.old) in
            is_faulting self.new ≡ false → command_of c.now ≢ Resume →
            result ≡ Err StoreFault.Disk → IsTrue D.tells →
            FailsForGood (D.counts disk.new) (command_of c.now) at
            (K.taken sink.old) (K.taken sink.new) }
        ensures bare { LooksAtNothing (command_of c.now) → is_faulting self.new ≡ false }
        ensures ends { command_of c.now ≡ Resume → is_faulting self.new ≡ false }
    {
        self.reply.clear();
        self.faulting = false;
        let answered = self.perform(alloc, disk, c, sink)?;
        self.finish_reply(alloc, answered, sink)
    }

    /// Says the line `fault`, which is the reply to a command that ended in a failed look at the disk, as `faulting`
    /// tells.
    pub fn say_fault<K: Sink>(&mut self, sink: &mut K) -> Result<(), StoreFault>
        ensures printed { OnOk result (Appends (K.taken sink.old) (K.taken sink.new) fault_line) }
        ensures cut { OnErr result (IsCut (K.taken sink.old) (K.taken sink.new) fault_line) }
        ensures open { open_of self.new ≡ open_of self.old }
        ensures calm { is_faulting self.new ≡ is_faulting self.old }
        ensures sink { OnlySinkFails K.Sink result sink.old sink.new }
    {
        self.reply.clear();
        self.reply.put(sink, b"fault\n")?;
        self.reply.send(sink)?;
        Ok(())
    }
}
