//! The 41 bytes of a record: the name, then the fields as big-endian numbers, in their order.

ghost use Rattle.std.specs.Int.{from_be_bytes, to_be_bytes, w64};
ghost use Rattle.std.specs.Prelude.{◌≡◌, ◌<◌, ◌≤◌, ◌+◌, ◌*◌, ◌/◌, ◌%◌, ◌^◌, ◌++◌, ◌∷◌, drop, length};
ghost use Rattle.cache_base.specs.Bytes.{AreBytes, be16, be32};
ghost use Rattle.index_record.specs.Record.{IsRecord, cleared, record_bytes, record_in};

use crate::RECORD;
use crate::record::{DIRTY, FRESH, IndexRecord};
use byteorder::{BigEndian, ByteOrder};
use cache_base::{Name, bytes_fit, u16_at, u32_at};

// The flags that go to a file.
const STORED: u32 = !(DIRTY | FRESH);

fn stored(flags: u32) -> u32
    ensures { result ≡ flags / 2 ^ 29 * 2 ^ 29 + flags % 2 ^ 27 }
{
    flags & STORED
}

fn u64_at(b: &[u8], at: usize) -> u64
    requires { at + 8 ≤ length b.now }
    ensures { result ≡ from_be_bytes w64 (drop at b.now) }
{
    BigEndian::read_u64(&b[at..])
}

/// The record in its 41 bytes. The dirty and the fresh bit are cleared, if a file has them.
pub fn read(b: &[u8; RECORD]) -> IndexRecord
    ensures { result ≡ cleared (record_in b.now) }
{
    let mut name = [0; 20];
    name.copy_from_slice(&b[..20]);
    IndexRecord {
        name: Name(name),
        frecency: u32_at(b, 20),
        origin: u64_at(b, 24),
        on_start: u16_at(b, 32),
        on_stop: u16_at(b, 34),
        content: b[36],
        flags: stored(u32_at(b, 37)),
    }
}

// The bytes past the name.
fn numbers(r: &IndexRecord, flags: u32) -> [u8; 21]
    ensures { result ≡ be32 r.now.frecency ++ (to_be_bytes w64 r.now.origin
        ++ (be16 r.now.on_start ++ (be16 r.now.on_stop ++ r.now.content ∷ be32 flags))) }
{
    let mut out = [0; 21];
    BigEndian::write_u32(&mut out[0..4], r.frecency);
    BigEndian::write_u64(&mut out[4..12], r.origin);
    BigEndian::write_u16(&mut out[12..14], r.on_start);
    BigEndian::write_u16(&mut out[14..16], r.on_stop);
    out[16] = r.content;
    BigEndian::write_u32(&mut out[17..21], flags);
    out
}

fn joined(name: &[u8; 20], numbers: &[u8; 21]) -> [u8; RECORD]
    ensures { result ≡ name.now ++ numbers.now }
{
    let mut out = [0; RECORD];
    out[20..].copy_from_slice(numbers);
    out[..20].copy_from_slice(name);
    out
}

// A name is 20 bytes.
fn name_fits(name: &[u8; 20])
    ensures length { length name.now ≡ 20 }
    ensures bytes { AreBytes name.now }
{
    bytes_fit(name);
}

// What stands in a number of its type fits its bytes.
fn numbers_fit(frecency: u32, origin: u64, on_start: u16, on_stop: u16, content: u8, flags: u32)
    ensures frecency { frecency < 2 ^ 32 }
    ensures origin { origin < 2 ^ 64 }
    ensures on_start { on_start < 2 ^ 16 }
    ensures on_stop { on_stop < 2 ^ 16 }
    ensures content { content < 2 ^ 8 }
    ensures flags { flags < 2 ^ 32 }
{}

/// The 41 bytes of the record, without the dirty and the fresh bit.
pub fn write(r: &IndexRecord) -> [u8; RECORD]
    ensures bytes { result ≡ record_bytes (cleared r.now) }
    ensures widths { IsRecord r.now }
{
    name_fits(&r.name.0);
    numbers_fit(
        r.frecency, r.origin, r.on_start, r.on_stop, r.content, r.flags,
    );
    joined(&r.name.0, &numbers(r, stored(r.flags)))
}
