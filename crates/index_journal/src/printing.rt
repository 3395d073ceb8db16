//! Printing a journal.

ghost use Rattle.std.specs.Prelude.{IfOk};
ghost use Rattle.index_journal.specs.Journal.{IsPrinted};
ghost use Rattle.record_list.specs.Lists.{HasNames};
ghost use Rattle.record_list.specs.Stored.{AreClean};

use cache_base::{Bytes, NoMemory};
use index_record::Records;
use std::alloc::Global;

/// The bytes of the file `index.log` with these records, in name order. Fails only where memory ran out.
pub fn print(alloc: Global, records: &Records) -> Result<Bytes, NoMemory>
    requires distinct { HasNames records.now }
    requires clean { AreClean records.now }
    ensures { IfOk result (IsPrinted records.now) }
{
    record_list::print(alloc, &[], records)
}
