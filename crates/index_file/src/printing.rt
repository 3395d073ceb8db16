//! Printing an index.

ghost use Rattle.std.specs.Prelude.{◌≡◌, IfOk};
ghost use Rattle.cache_base.specs.Numbers.{one_if};
ghost use Rattle.index_file.specs.Index.{header_bytes};
ghost use Rattle.index_file.specs.Printed.{IsPrinted};
ghost use Rattle.record_list.specs.Change.{HasNoRemoved};
ghost use Rattle.record_list.specs.Lists.{HasNames};
ghost use Rattle.record_list.specs.Stored.{AreClean};

use crate::{FLAG_AT, HEADER, TIMESTAMP_AT, VERSION};
use byteorder::{BigEndian, ByteOrder};
use cache_base::{Bytes, NoMemory};
use index_record::Records;
use std::alloc::Global;

#[tactic(auto, unfolding(crate::specs::Index::header_bytes))]
fn header(timestamp: u32, dirty: bool) -> [u8; HEADER]
    ensures { result ≡ header_bytes timestamp (one_if dirty) 0 }
{
    let mut out = [0; HEADER];
    BigEndian::write_u32(&mut out[0..4], VERSION);
    BigEndian::write_u32(&mut out[TIMESTAMP_AT..TIMESTAMP_AT + 4], timestamp);
    BigEndian::write_u32(&mut out[FLAG_AT..FLAG_AT + 4], u32::from(dirty));
    BigEndian::write_u32(&mut out[12..16], 0);
    out
}

/// The bytes of the file `index` with these records, in name order. Fails only where memory ran out.
pub fn print(
    alloc: Global,
    records: &Records,
    timestamp: u32,
    dirty: bool,
) -> Result<Bytes, NoMemory>
    requires distinct { HasNames records.now }
    requires present { HasNoRemoved records.now }
    requires clean { AreClean records.now }
    ensures { IfOk result (IsPrinted records.now timestamp dirty) }
{
    record_list::print(alloc, &header(timestamp, dirty), records)
}
