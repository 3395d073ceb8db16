//! The header of an entry's metadata (`CacheFileMetadataHeader` of Firefox's CacheFileMetadata.h).

ghost use Rattle.std.specs.Prelude.{◌≡◌};
ghost use Rattle.entry_parts.specs.Header.{IsHeader, header_bytes, header_in, short_header_in};

use byteorder::{BigEndian, ByteOrder};
use cache_base::Moment;

/// The version of the format that is written (`kCacheEntryVersion` of Firefox's CacheFileMetadata.h).
pub const VERSION: u32 = 3;

/// The numbers of an entry's metadata. In a file each is four big-endian bytes, in this order.
#[derive(Clone, Copy, Debug, PartialEq, Eq)]
pub struct Header {
    /// The version of the format: `VERSION` in what is written, 1 or 2 in an old file.
    pub version: u32,
    /// How often the entry was opened.
    pub fetch_count: u32,
    /// When the entry was last opened.
    pub last_fetched: Moment,
    /// When the entry was last written.
    pub last_modified: Moment,
    /// How often and how lately the entry was used.
    pub frecency: u32,
    /// When the entry expires, or `u32::MAX` for never.
    pub expiration: Moment,
    /// The number of bytes of the key.
    pub key_size: u32,
    /// Flags, which are kept as they are.
    pub flags: u32,
}

impl Header {
    ghost use Rattle.entry_parts.specs.Header.{fresh_header, used_header};

    /// The header in its 32 bytes.
    pub fn read(b: &[u8; 32]) -> Header
        ensures { result ≡ header_in b.now }
    {
        Header {
            version: BigEndian::read_u32(b),
            fetch_count: BigEndian::read_u32(&b[4..]),
            last_fetched: BigEndian::read_u32(&b[8..]),
            last_modified: BigEndian::read_u32(&b[12..]),
            frecency: BigEndian::read_u32(&b[16..]),
            expiration: BigEndian::read_u32(&b[20..]),
            key_size: BigEndian::read_u32(&b[24..]),
            flags: BigEndian::read_u32(&b[28..]),
        }
    }

    /// The header in the 28 bytes that it has in a file of version 1, which has no flags.
    pub fn read_short(b: &[u8; 28]) -> Header
        ensures { result ≡ short_header_in b.now }
    {
        Header {
            version: BigEndian::read_u32(b),
            fetch_count: BigEndian::read_u32(&b[4..]),
            last_fetched: BigEndian::read_u32(&b[8..]),
            last_modified: BigEndian::read_u32(&b[12..]),
            frecency: BigEndian::read_u32(&b[16..]),
            expiration: BigEndian::read_u32(&b[20..]),
            key_size: BigEndian::read_u32(&b[24..]),
            flags: 0,
        }
    }

    /// The 32 bytes of the header.
    pub fn write(&self) -> [u8; 32]
        ensures bytes { result ≡ header_bytes self.now }
        ensures numbers { IsHeader self.now }
    {
        let Header {
            version,
            fetch_count,
            last_fetched,
            last_modified,
            frecency,
            expiration,
            key_size,
            flags,
        } = *self;
        let mut out = [0; 32];
        BigEndian::write_u32(&mut out[0..4], version);
        BigEndian::write_u32(&mut out[4..8], fetch_count);
        BigEndian::write_u32(&mut out[8..12], last_fetched);
        BigEndian::write_u32(&mut out[12..16], last_modified);
        BigEndian::write_u32(&mut out[16..20], frecency);
        BigEndian::write_u32(&mut out[20..24], expiration);
        BigEndian::write_u32(&mut out[24..28], key_size);
        BigEndian::write_u32(&mut out[28..32], flags);
        out
    }

    /// The header of an entry that is made now, with a key of this many bytes.
    pub fn fresh(now: Moment, key_size: u32) -> Header
        ensures { result ≡ fresh_header now key_size }
    {
        Header {
            version: VERSION,
            fetch_count: 1,
            last_fetched: now,
            last_modified: now,
            frecency: now,
            expiration: u32::MAX,
            key_size,
            flags: 0,
        }
    }

    /// The header after one more use at this moment, with this frecency. A count that stands at its end stays there.
    pub fn used(self, now: Moment, frecency: u32) -> Header
        ensures { result ≡ used_header self now frecency }
    {
        Header {
            fetch_count: self.fetch_count.saturating_add(1),
            last_fetched: now,
            frecency,
            ..self
        }
    }
}
