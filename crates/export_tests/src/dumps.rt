//! Dumps from another program, and how a reader of one ends.

use cache_base::{Bytes, NoMemory, Numbers};
use cache_export::{DumpFault, DumpReader, Item};
use cache_io::MemSource;
use std::alloc::Global;

/// The dump of one entry with the key `:https://example.com/`, the body `hello` and no elements.
pub(crate) const ONE: [u8; 108] =
    *b"C2DUMP01\x01\0\0\0\x15:https://example.com/\0\0\0\x05hello\0\0\0\x3c\
    \x06\xab\x5e\x9a\x39\x9e\
    \0\0\0\x03\0\0\0\x01\0\0\x03\xe8\0\0\x03\xe8\0\0\x03\xe8\xff\xff\xff\xff\0\0\0\x15\0\0\0\0\
    :https://example.com/\0\0";

/// What a reader gave of a dump: k for a key, P for a piece of 262,144 bytes and p for a shorter one, b for a block.
/// And how it ended: 0 at the end, the number of a bad item, 1000 for a failed source, 1001 without memory.
#[derive(Drop)]
pub(crate) struct Answers {
    pub(crate) parts: Bytes,
    pub(crate) ending: u64,
}

fn letter(item: &Item) -> u8 {
    match item {
        Item::Key(_) => b'k',
        Item::Piece(piece) => {
            if piece.as_slice().len() == 262_144 {
                b'P'
            } else {
                b'p'
            }
        }
        Item::Block(_) => b'b',
        Item::End => b'e',
    }
}

/// What a reader gives of a dump of which each read gives so many bytes. The reads with these numbers fail.
pub(crate) fn told(
    alloc: Global,
    dump: &[u8],
    piece: usize,
    fail: Numbers,
) -> Result<Answers, NoMemory> {
    let mut bytes = Bytes::new(alloc);
    bytes.extend(dump)?;
    let mut source = MemSource::with_plan(bytes, fail, piece.max(1));
    let mut reader = DumpReader::new(alloc);
    let mut parts = Bytes::new(alloc);
    for _ in 0..100 {
        let ending = match reader.next(&mut source) {
            Ok(Item::End) => 0,
            Ok(item) => {
                parts.push(letter(&item))?;
                continue;
            }
            Err(DumpFault::Bad(number)) => number,
            Err(DumpFault::Source) => 1000,
            Err(DumpFault::Memory) => 1001,
        };
        return Ok(Answers { parts, ending });
    }
    Ok(Answers {
        parts,
        ending: 1002,
    })
}

/// Whether a reader gives these parts and ends so, whether a read gives much or one byte.
pub(crate) fn tells(
    alloc: Global,
    dump: &[u8],
    parts: &[u8],
    ending: u64,
) -> Result<bool, NoMemory> {
    let much = told(alloc, dump, 1_000_000, Numbers::new(alloc))?;
    let little = told(alloc, dump, 1, Numbers::new(alloc))?;
    let same = much.parts.as_slice() == parts && much.ending == ending;
    Ok(same && little.parts.as_slice() == parts && little.ending == ending)
}

/// The dump above with one byte changed, its last ones cut off, and more after them.
pub(crate) fn changed(
    alloc: Global,
    len: usize,
    place: usize,
    byte: u8,
    more: &[u8],
) -> Result<Bytes, NoMemory> {
    let mut bytes = Bytes::new(alloc);
    for i in 0..108 {
        if i < len {
            bytes.push(if i == place { byte } else { ONE[i] })?;
        }
    }
    bytes.extend(more)?;
    Ok(bytes)
}
