//! Which words of a command line are asked for by the program, that a run of a script is one of its commands where the
//! directory was honest, and that a disk which makes its answers up is no reason to answer that it failed.

ghost use Rattle.std.specs.Prelude.{◌≢◌};
ghost use Rattle.cache_tool.specs.LoadTells.{LoadTellsTrue};
ghost use Rattle.cache_tool.specs.PlainRun.{RunSaysPlainly};
ghost use Rattle.cache_tool.specs.SameAsScript.{ClearedStayGoneInRun, DoneIsSame, RunIsOfScript};
ghost use Rattle.cache_tool.specs.Words.{WordsAreOfTable};

use crate::program::run;
use cache_base::Status;
use cache_io::{Sink, Source};
use disk_model::LiarDisk;
use std::alloc::Global;

/// Words ask for something exactly where they are those of the table of verbs.
pub fn words_are_of_table()
    ensures { WordsAreOfTable }
{}

/// In an honest directory what is done for commands is the same as the commands themselves: the same states, the
/// same replies, and the same marks for a stop. So what a run of a script leaves is said of `Resume` and of the
/// script's own commands, but for those that are answered `fault`; and once a `clear` of the script is acknowledged, a
/// stop brings back nothing that it took, but what a later command of the script wrote.
pub fn runs_are_of_scripts()
    ensures same { DoneIsSame }
    ensures run { RunIsOfScript }
    ensures cleared { ClearedStayGoneInRun }
{}

/// What a run of a script leaves is said plainly, too: those commands alone are left out that are answered `fault`.
pub fn runs_say_plainly()
    ensures { RunSaysPlainly }
{}

/// Of a dump a `load` prints no other line than the one with the number of its items, nor a part of another one, with
/// whatever status it ends; and where the sink failed all of it was loaded.
pub fn loads_tell_true()
    ensures { LoadTellsTrue }
{}

/// Whatever a disk makes up, no verb answers that it failed, as long as it did not.
pub fn lies_are_no_faults<S: Source, K: Sink>(
    alloc: Global,
    words: &[String],
    source: &mut S,
    sink: &mut K,
    disk: &mut LiarDisk,
) -> Status
    ensures { result ≢ Status.Disk }
{
    run(alloc, words, source, sink, disk)
}
