//! Reading a journal.

ghost use Rattle.std.specs.Prelude.{◌≡◌, IfErr, IfOk, List, None, OnOk};
ghost use Rattle.index_journal.specs.Checks.{IsFirstFault, journal_fault, journal_in};
ghost use Rattle.index_journal.specs.Journal.{JournalSpells};
ghost use Rattle.index_journal.specs.declared.fault.JournalFault.TheVariants.{Memory};
ghost use Rattle.index_record.specs.declared.record.IndexRecord.{IndexRecord};
ghost use Rattle.record_list.specs.Lists.{HasNames};
ghost use Rattle.record_list.specs.Stored.{AreClean};

use crate::{JournalFault, LEAST};
use index_record::Records;
use std::alloc::Global;

fn read_all(alloc: Global, b: &[u8]) -> Result<Records, JournalFault>
    ensures passes { OnOk result (journal_fault b.now ≡ None) }
    ensures records { IfOk result (λ records. records ≡ journal_in b.now) }
    ensures distinct { IfOk result HasNames }
    ensures clean { IfOk result AreClean }
    ensures fault { IfErr result (IsFirstFault b.now) }
{
    if b.len() < LEAST {
        return Err(JournalFault::Short);
    }
    let records = record_list::parse(alloc, b)?;
    Ok(records)
}

/// The records in the bytes of the file `index.log`, in the order of the file, or the first failing check. A removed
/// record is kept: it says that a name is gone.
pub fn parse(alloc: Global, b: &[u8]) -> Result<Records, JournalFault>
    // What is read is what the bytes spell.
    ensures spelled { IfOk result (JournalSpells b.now) }
    // Bytes that spell a journal are refused only where memory ran out.
    ensures refused { (rs : List IndexRecord) → JournalSpells b.now rs →
        IfErr result (λ f. f ≡ Memory) }
    ensures distinct { IfOk result HasNames }
    ensures clean { IfOk result AreClean }
    ensures fault { IfErr result (IsFirstFault b.now) }
{
    read_all(alloc, b)
}
