//! Records in name order.

ghost use Rattle.std.specs.List.Sorted.{IsPermutation};
ghost use Rattle.std.specs.Prelude.{◌↔◌, IsTrue};
ghost use Rattle.record_list.specs.Lists.{AreSorted, HasNames, IsByName};

use index_record::{IndexRecord, Records};

/// Whether each record's name is below that of the next: then the records are in name order.
pub fn rise(records: &[IndexRecord]) -> bool
    ensures { IsTrue result ↔ AreSorted records.now }
{
    records.is_sorted_by(|a, b| a.name.cmp(&b.name).is_lt())
}

// Sorts the records by name: where no name stands twice they are in name order then.
pub(crate) fn sort(records: &mut Vec<IndexRecord>)
    ensures moved { IsPermutation records.old.items records.new.items }
    ensures by_name { HasNames records.old.items → IsByName records.old.items records.new.items }
{
    records.sort_unstable_by_key(|record| record.name);
}

/// The records in name order, in the memory that holds them.
pub fn by_name(mut records: Vec<IndexRecord>) -> Records
    requires { HasNames records.items }
    ensures { IsByName records.items result }
{
    sort(&mut records);
    Records::from_vec(records)
}
