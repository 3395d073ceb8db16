//! Big-endian numbers at places in bytes.

ghost use Rattle.std.specs.Prelude.{◌≡◌, ◌≤◌, ◌+◌, length};
ghost use Rattle.cache_base.specs.Bytes.{be16_at, be32_at};

use byteorder::{BigEndian, ByteOrder};

/// The number in the two bytes from the place on.
pub fn u16_at(b: &[u8], at: usize) -> u16
    requires { at + 2 ≤ length b.now }
    ensures { result ≡ be16_at b.now at }
{
    BigEndian::read_u16(&b[at..])
}

/// The number in the four bytes from the place on.
pub fn u32_at(b: &[u8], at: usize) -> u32
    requires { at + 4 ≤ length b.now }
    ensures { result ≡ be32_at b.now at }
{
    BigEndian::read_u32(&b[at..])
}
