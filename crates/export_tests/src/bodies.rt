//! A body of two pieces.

use crate::dumps::tells;
use cache_base::{Bytes, NoMemory};
use std::alloc::Global;

// What stands before and after a body of 262,145 times `a`, under the key `:https://example.com/`.
const FRONT: &[u8] = b"C2DUMP01\x01\0\0\0\x15:https://example.com/\0\x04\0\x01";

const BACK: &[u8] = b"\0\0\0\x3eVdX\xe3\x0dK\xc8\x18\
    \0\0\0\x03\0\0\0\x01\0\0\x03\xe8\0\0\x03\xe8\0\0\x03\xe8\xff\xff\xff\xff\0\0\0\x15\0\0\0\0:https://example.com/\0\0";

// The dump with the byte at this place of the body changed.
fn long_dump(alloc: Global, place: usize) -> Result<Bytes, NoMemory> {
    let mut bytes = Bytes::new(alloc);
    bytes.extend(FRONT)?;
    for i in 0..262_145 {
        bytes.push(if i == place { b'b' } else { b'a' })?;
    }
    bytes.extend(BACK)?;
    Ok(bytes)
}

#[test]
fn long_bodies_are_read(rt: HostRuntime) -> Result<(), NoMemory> {
    let alloc = rt.alloc();
    let whole = long_dump(alloc, 300_000)?;
    assert!(rt; tells(alloc, whole.as_slice(), b"kPpb", 0)?);
    let first = long_dump(alloc, 1000)?;
    assert!(rt; tells(alloc, first.as_slice(), b"kPp", 1)?);
    let last = long_dump(alloc, 262_144)?;
    assert!(rt; tells(alloc, last.as_slice(), b"kPp", 1)?);
    Ok(())
}
