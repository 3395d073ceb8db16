//! Puts records into a table.

ghost use Rattle.std.specs.Prelude.{◌≡◌, OnErr, OnOk, Some};
ghost use Rattle.std.specs.Map.{lookup};
ghost use Rattle.record_list.specs.Lists.{same_name};
ghost use Rattle.index_map.specs.Known.{IsPlain};
ghost use Rattle.index_map.specs.Slots as spec;

use crate::reading::base_at;
use crate::slot::{Held, facts_of};
use crate::table::Table;
use cache_base::NoMemory;
use index_record::IndexRecord;

/// Puts a record, or leaves the table as it was.
pub(crate) fn put_record(table: &mut Table, r: &IndexRecord, seen: bool) -> Result<(), NoMemory>
    requires { IsPlain r.now }
    ensures ok { OnOk result (spec.PutsSlot table.old table.new r.now.name
        (Some (spec.record_slot r.now seen (lookup (same_name r.now.name) table.old)))) }
    ensures err { OnErr result (table.new ≡ table.old) }
    ensures was_table { spec.IsTable table.old }
    ensures table { spec.IsTable table.new }
{
    let base = base_at(table, &r.name);
    let slot = Held {
        current: Some(facts_of(r)),
        base,
        seen,
    };
    table.put(r.name, slot)
}
