//! Files of entries, and what is printed of them.

use crate::disks::file_of;
use crate::runs::ends;
use crate::texts::repeated;
use cache_base::Bytes;
use disk_model::MemDisk;
use std::alloc::Global;
use std::test::Fail;

/// The key of the entry of the files below.
pub const KEY: &str = ":https://example.com/";

/// Words that put an entry of this key.
pub const PUT: &str = "1000 put :https://example.com/";

/// Words that get it.
pub const GET: &str = "1000 get :https://example.com/";

/// The file of the entry that `1000 put KEY` makes of the body `hello`.
pub const FILE: &[u8] = b"hello\x06\xab\x5e\x9a\x39\x9e\
    \0\0\0\x03\0\0\0\x01\0\0\x03\xe8\0\0\x03\xe8\0\0\x03\xe8\xff\xff\xff\xff\0\0\0\x15\0\0\0\0\
    :https://example.com/\0\0\0\0\x05";

/// The same in version 1 of the format.
pub const FIRST: &[u8] = b"hello\x42\x4d\x09\x3d\x39\x9e\
    \0\0\0\x01\0\0\0\x01\0\0\x03\xe8\0\0\x03\xe8\0\0\x03\xe8\xff\xff\xff\xff\0\0\0\x15\
    :https://example.com/\0\0\0\0\x05";

/// The same in version 2.
pub const SECOND: &[u8] = b"hello\x29\xd6\x32\xf8\x39\x9e\
    \0\0\0\x02\0\0\0\x01\0\0\x03\xe8\0\0\x03\xe8\0\0\x03\xe8\xff\xff\xff\xff\0\0\0\x15\0\0\0\0\
    :https://example.com/\0\0\0\0\x05";

/// What `get` prints of each.
pub const FOUND: &[u8] = b"found 1 1000 1000 1000 4294967295 0 0 5\n\nhello\n";

/// What `dump` prints of each, in 108 bytes.
pub const DUMPED: &[u8] = b"C2DUMP01\x01\0\0\0\x15:https://example.com/\0\0\0\x05hello\0\0\0\x3c\
    \x06\xab\x5e\x9a\x39\x9e\
    \0\0\0\x03\0\0\0\x01\0\0\x03\xe8\0\0\x03\xe8\0\0\x03\xe8\xff\xff\xff\xff\0\0\0\x15\0\0\0\0\
    :https://example.com/\0\0";

/// The file in version 3 after one use at the moment 1000.
pub const USED: &[u8] = b"hello\xdc\xe2\x75\x07\x39\x9e\
    \0\0\0\x03\0\0\0\x02\0\0\x03\xe8\0\0\x03\xe8\0\0\x58\x48\xff\xff\xff\xff\0\0\0\x15\0\0\0\0\
    :https://example.com/\0\0\0\0\x05";

/// What `get` prints of it.
pub const FOUND_USED: &[u8] = b"found 2 1000 1000 22600 4294967295 0 0 5\n\nhello\n";

/// The file of version 3, whose first byte is another.
pub const DAMAGED: &[u8] = b"jello\x06\xab\x5e\x9a\x39\x9e\
    \0\0\0\x03\0\0\0\x01\0\0\x03\xe8\0\0\x03\xe8\0\0\x03\xe8\xff\xff\xff\xff\0\0\0\x15\0\0\0\0\
    :https://example.com/\0\0\0\0\x05";

/// The file of the empty entry of the key `:x`, pinned.
pub const PINNED: &[u8] =
    b"\xe4\xa04|\0\0\0\x03\0\0\0\x01\0\0\x03\xe8\0\0\x03\xe8\0\0\x03\xe8\xff\xff\xff\xff\
    \0\0\0\x02\0\0\0\x01:x\0\0\0\0\0";

/// What is printed where no entry has the key.
pub const ABSENT: &[u8] = b"absent\n";

/// The file that a `put` of this body leaves under `KEY`. Fails where none stands there, or memory ran out.
pub fn put_on(alloc: Global, disk: &mut MemDisk, body: &[u8]) -> Result<Bytes, Fail> {
    ends(alloc, disk, PUT, body)?;
    file_of(alloc, disk, KEY)
}

/// The file of the entry of a chunk of `a` and a `b`, as `put` writes it. Fails only where memory ran out.
pub fn file_of_two_chunks(alloc: Global) -> Result<Bytes, Fail> {
    let body = repeated(alloc, b"", b'a', 262_144, b"b")?;
    let mut disk = MemDisk::new(alloc);
    put_on(alloc, &mut disk, body.as_slice())
}

/// What a `get` prints of that entry before its body.
pub const HEAD_OF_TWO_CHUNKS: &[u8] = b"found 1 1000 1000 1000 4294967295 0 0 262145\n\n";
