//! What follows from the definition of findings.

ghost use Rattle.std.specs.Prelude.{IsTrue, List, ℕ};
ghost use Rattle.cache_check.specs.Table.{Table};
ghost use Rattle.cache_check.specs.Findings.{IsTableOf};
ghost use Rattle.cache_check.specs.Laws.{FindingsAgree, FindingsAreExact, ListedNamesRise, OnlyOneTable, RightRecordsAreSilent};
ghost use Rattle.index_theory.specs.Ever.{entries_on};

use disk_theory::Disk;

/// The entry files that stand on a disk have a table.
pub fn files_have_table<D: Disk>(_disk: &D)
    ensures { IsTrue D.tells →
        (files : Table (List ℕ)) × IsTableOf (entries_on (D.state _disk.now)) files }
{}

/// And only one.
pub fn only_one_table()
    ensures { OnlyOneTable }
{}

/// What is found depends on the files and the records under the names that are not being written, and on nothing else:
/// neither on the order of the records nor on a file that is being written.
pub fn findings_agree()
    ensures { FindingsAgree }
{}

/// All that is wrong under some name is found, and nothing else, and names rise. Where the record of a name is that of
/// its file only the file may be wrong.
pub fn findings_are_exact()
    ensures exact { FindingsAreExact }
    ensures sorted { ListedNamesRise }
    ensures silent { RightRecordsAreSilent }
{}
