//! Records, and journals and an index that several tests read.

ghost use Rattle.std.specs.Prelude.{◌≡◌};
ghost use Rattle.index_map.specs.Known.{IsPlain};

use cache_base::Name;
use index_record::{IndexRecord, NO_TIME};

pub(crate) const FIRST: IndexRecord = IndexRecord {
    name: Name([0x11; 20]),
    frecency: 1000,
    origin: 0xda39_a3ee_5e6b_4b0d,
    on_start: 0xffff,
    on_stop: 0xffff,
    content: 0,
    flags: 0x8000_0001,
};

pub(crate) const SECOND: IndexRecord = IndexRecord {
    name: Name([0x22; 20]),
    frecency: 500,
    origin: 0x0102_0304_0506_0708,
    on_start: 12,
    on_stop: 15,
    content: 5,
    flags: 0x8400_0002,
};

pub(crate) const THIRD: IndexRecord = IndexRecord {
    name: Name([0x33; 20]),
    frecency: 7,
    origin: 0xda39_a3ee_5e6b_4b0d,
    on_start: 1,
    on_stop: 2,
    content: 3,
    flags: 0xc200_0101,
};

// The record of an entry with an empty body and a key without origin, but for its frecency.
pub(crate) fn record(name: Name, frecency: u32) -> IndexRecord
    ensures name { result.name ≡ name }
    ensures plain { IsPlain result }
{
    IndexRecord {
        name,
        frecency,
        origin: 0xda39_a3ee_5e6b_4b0d,
        on_start: NO_TIME,
        on_stop: NO_TIME,
        content: 0,
        flags: 0x8000_0001,
    }
}

// A journal without records.
pub(crate) const NOTHING: &[u8] = b"\xbd\x49\xd1\x0d";

// The first two records, in falling order.
pub(crate) const FALLING: &[u8] =
    b"\x22\x22\x22\x22\x22\x22\x22\x22\x22\x22\x22\x22\x22\x22\x22\x22\x22\x22\x22\x22\0\0\x01\xf4\
\x01\x02\x03\x04\x05\x06\x07\x08\0\x0c\0\x0f\x05\x84\0\0\x02\
\x11\x11\x11\x11\x11\x11\x11\x11\x11\x11\x11\x11\x11\x11\x11\x11\x11\x11\x11\x11\0\0\x03\xe8\
\xda\x39\xa3\xee\x5e\x6b\x4b\x0d\xff\xff\xff\xff\0\x80\0\0\x01\xe7\xe9\x97\xfc";

// The same, by rising name.
pub(crate) const RISING: &[u8] =
    b"\x11\x11\x11\x11\x11\x11\x11\x11\x11\x11\x11\x11\x11\x11\x11\x11\x11\x11\x11\x11\0\0\x03\xe8\
\xda\x39\xa3\xee\x5e\x6b\x4b\x0d\xff\xff\xff\xff\0\x80\0\0\x01\
\x22\x22\x22\x22\x22\x22\x22\x22\x22\x22\x22\x22\x22\x22\x22\x22\x22\x22\x22\x22\0\0\x01\xf4\
\x01\x02\x03\x04\x05\x06\x07\x08\0\x0c\0\x0f\x05\x84\0\0\x02\x2f\xd8\x8c\x3e";

// The first record, twice.
pub(crate) const REPEATED: &[u8] =
    b"\x11\x11\x11\x11\x11\x11\x11\x11\x11\x11\x11\x11\x11\x11\x11\x11\x11\x11\x11\x11\0\0\x03\xe8\
\xda\x39\xa3\xee\x5e\x6b\x4b\x0d\xff\xff\xff\xff\0\x80\0\0\x01\
\x11\x11\x11\x11\x11\x11\x11\x11\x11\x11\x11\x11\x11\x11\x11\x11\x11\x11\x11\x11\0\0\x03\xe8\
\xda\x39\xa3\xee\x5e\x6b\x4b\x0d\xff\xff\xff\xff\0\x80\0\0\x01\xc2\xbf\x23\x39";

// The name of the first record is gone, and the third is set.
pub(crate) const CHANGES: &[u8] =
    b"\x11\x11\x11\x11\x11\x11\x11\x11\x11\x11\x11\x11\x11\x11\x11\x11\x11\x11\x11\x11\0\0\0\0\
\0\0\0\0\0\0\0\0\xff\xff\xff\xff\0\xa0\0\0\0\
\x33\x33\x33\x33\x33\x33\x33\x33\x33\x33\x33\x33\x33\x33\x33\x33\x33\x33\x33\x33\0\0\0\x07\
\xda\x39\xa3\xee\x5e\x6b\x4b\x0d\0\x01\0\x02\x03\xc2\0\x01\x01\xa8\x14\xb0\xff";

// An index of the moment 1000 without records, clean, as 20 bytes.
pub(crate) const CLEAN: &[u8] = b"\0\0\0\x0a\0\0\x03\xe8\0\0\0\0\0\0\0\0\xbd\x49\xd1\x0d";
