//! What the program does, over any disk, source and sink.

ghost use Rattle.std.specs.Prelude.{◌≡◌, ◌↔◌, ◌⊎◌, IsTrue, IsSome, IsNone};
ghost use Rattle.cache_base.specs.Causes.{Rose};
ghost use Rattle.cache_store.specs.IndexCalls.{ReadsEntriesOf};
ghost use Rattle.cache_replies.specs.Saying.{TakesMore};
ghost use Rattle.cache_tool.specs.ByVerb.{IsStatusOf, IsWhole, Performs, PrintsBy, ReadsSource};
ghost use Rattle.cache_tool.specs.MarkLeft.{LeavesMarkOf};
ghost use Rattle.cache_tool.specs.RunAccount.{AccountsForRun};
ghost use Rattle.cache_tool.specs.Statuses.{IsAnswer, IsClosing};
ghost use Rattle.cache_tool.specs.Verbs.{LooksAtNone};
ghost use Rattle.cache_tool.specs.Words.{WhenOne, asked_in};
ghost use Rattle.cache_tool.specs.World.{world};
ghost use Rattle.context_clear.specs.Mark.{mark_of};
ghost use Rattle.disk_theory.specs.Sound.{IsQuiet};
ghost use Rattle.disk_theory.specs.State.{standing};
ghost use Rattle.disk_theory.specs.Told.{Told};
ghost use Rattle.disk_theory.specs.declared.place.Place.TheVariants.{Clear};
ghost use Rattle.index_theory.specs.Start.{start_of};

use crate::fill::fill;
use crate::load::load;
use crate::one::perform_one;
use crate::put::put;
use crate::script::run_script;
use crate::words::{Asked, read_words};
use cache_base::Status;
use cache_io::{Sink, Source};
use disk_theory::Disk;
use std::alloc::Global;

/// Does what the words say. These are the words after the directory: `NOW run` performs the script that the source
/// has, `NOW put KEY` makes an entry of the key whose body the source has, `NOW get KEY` prints an entry, `NOW doom
/// KEY` removes one, `NOW evict KB` removes the least valuable ones until all take at most so many KB, `NOW flush`
/// syncs what was written, `NOW list` prints the records of all entries, `NOW verify` checks all entries and prints
/// what is wrong, and `NOW rebuild` reads all entries anew and writes the index. `NOW fill N FIRST` makes N entries,
/// evicts half of all by their sizes, checks and lists the rest, and prints how many there were of each. `NOW dump`
/// prints a dump of the entries, and `NOW load` writes the entries of the dump that the source has and prints how
/// many there were, or which item is bad. Each opens the store at the moment NOW, does what is left of a clearing
/// that an earlier run did not end, and closes the store.
///
/// A command that ends in a failed look at the disk before anything of its reply is out is answered by the line
/// `fault`, and leaves all as it was. A `run` goes on with the next command; for other words the status is that of a
/// disk that failed. Looks in the opening, in the clearing that is left, in the closing, in `fill` and in `load` end
/// the run, as does one after a part of a reply.
///
/// The clauses on contents hold where the disk and the source tell theirs. Those on a crash hold where nothing was
/// pending at the call, and speak of every exit, whatever the status.
///
/// `list`, `has`, `evict`, `clear` and `verify` use the records in memory. If the index matched the files at the
/// opening, they do what the machine does. Otherwise they act on the records that there are: right after an opening with
/// a trusted index those of the index and its journal, without those of entries that were cleared then.
pub fn run<D: Disk, S: Source, K: Sink>(
    alloc: Global,
    words: &[String],
    source: &mut S,
    sink: &mut K,
    disk: &mut D,
) -> Status
    // Malformed words, and they alone, are answered so, and nothing is called.
    ensures words { (result ≡ Status.Words) ↔ IsNone (asked_in words.now) }
    ensures idle { result ≡ Status.Words →
        (disk.new ≡ disk.old) × (source.new ≡ source.old) × (sink.new ≡ sink.old) }

    // What is printed, what stands afterwards and what a crash may leave, by the machine.
    ensures performs { let at = world S.Source K.Sink D.Disk in IsTrue D.tells →
        Performs (asked_in words.now) result
        (at source.old sink.old disk.old) (at source.new sink.new disk.new) }

    // On any disk, also on one that tells nothing: what was read of the source, what the status tells of it and of
    // what was printed, and which statuses a verb may have.
    ensures reads { ReadsSource (asked_in words.now) (source.new ≡ source.old) result
        (S.left source.old) (S.left source.new) }
    ensures prints { PrintsBy (asked_in words.now) result (K.taken sink.old) (K.taken sink.new) }
    ensures status { IsStatusOf (asked_in words.now) result }

    // What is printed only grows. Where the index is trusted a `flush` looks at no entry, nor do a `list`, an `evict`
    // and a `clear`; and a `flush` does not either where the mark of no clearing stands.
    ensures grows { IsTrue D.tells → TakesMore (K.taken sink.old) (K.taken sink.new) }
    ensures no_entry { let files = standing (D.state disk.old) in
        WhenOne (asked_in words.now) (λ now c.
        LooksAtNone c (mark_of (files Clear)) (start_of files)
        → ReadsEntriesOf D.Disk 0 disk.old disk.new) }

    // With nothing pending at the call, a crash at any moment leaves at the place of the mark of a clearing what stood
    // there, nothing, or the mark of an origin that the words clear or whose clearing was resumed.
    ensures mark { Told D.Disk (LeavesMarkOf (asked_in words.now)) disk.old disk.new }

    // Where the store was closed nothing is pending.
    ensures quiet { IsClosing result → IsTrue D.tells → IsQuiet (D.state disk.new) }

    // The faults of source, sink and disk are accounted for, and the syncs are bounded.
    ensures account { let at = world S.Source K.Sink D.Disk in
        AccountsForRun D.tells (asked_in words.now) result
        (at source.old sink.old disk.old) (at source.new sink.new disk.new) }

    // Where nothing fails, and a script or a dump is one, there is no other answer, unless memory ran out.
    ensures complete { IsSome (asked_in words.now)
        → IsWhole (asked_in words.now) (S.left source.old)
        → ¬ (Rose (S.faults source.old) (S.faults source.new))
        → ¬ (Rose (K.faults sink.old) (K.faults sink.new))
        → ¬ (Rose (D.faults disk.old) (D.faults disk.new))
        → IsAnswer result ⊎ (result ≡ Status.Memory) }
{
    match read_words(words) {
        Some(Asked::Run { now }) => run_script(alloc, now, source, sink, disk),
        Some(Asked::Put { now, key }) => put(alloc, now, key, source, sink, disk),
        Some(Asked::One { now, command }) => perform_one(alloc, now, &command, sink, disk),
        Some(Asked::Fill { now, count, first }) => fill(alloc, now, count, first, sink, disk),
        Some(Asked::Load { now }) => load(alloc, now, source, sink, disk),
        None => Status::Words,
    }
}
