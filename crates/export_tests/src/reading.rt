//! Dumps that are whole, cut off, changed or in another order.

use crate::dumps::{ONE, changed, tells, told};
use cache_base::{Bytes, NoMemory, Numbers};
use cache_export::{dump_is_parts, dump_of_is_dump, dumps_are_one};
use std::alloc::Global;

// The items of the keys `:https://a.example/` and `:https://b.example/`, in the order of their names, with empty
// bodies.
const A: &[u8] = b"\x01\0\0\0\x13:https://a.example/\0\0\0\0\0\0\0\x38es6W\
    \0\0\0\x03\0\0\0\x01\0\0\x03\xe8\0\0\x03\xe8\0\0\x03\xe8\xff\xff\xff\xff\0\0\0\x13\0\0\0\0:https://a.example/\0";

const B: &[u8] = b"\x01\0\0\0\x13:https://b.example/\0\0\0\0\0\0\0\x38s\xd7\x01(\
    \0\0\0\x03\0\0\0\x01\0\0\x03\xe8\0\0\x03\xe8\0\0\x03\xe8\xff\xff\xff\xff\0\0\0\x13\0\0\0\0:https://b.example/\0";

// The item of `ONE` with the block that its file had in version 2, and in version 1.
const SECOND: &[u8] = b"\x01\0\0\0\x15:https://example.com/\0\0\0\x05hello\0\0\0\x3c)\xd62\xf89\x9e\
    \0\0\0\x02\0\0\0\x01\0\0\x03\xe8\0\0\x03\xe8\0\0\x03\xe8\xff\xff\xff\xff\0\0\0\x15\0\0\0\0:https://example.com/\0";

const FIRST: &[u8] = b"\x01\0\0\0\x15:https://example.com/\0\0\0\x05hello\0\0\0\x38BM\x09=9\x9e\
    \0\0\0\x01\0\0\0\x01\0\0\x03\xe8\0\0\x03\xe8\0\0\x03\xe8\xff\xff\xff\xff\0\0\0\x15:https://example.com/\0";

#[derive(Clone, Copy)]
struct Change<'a> {
    place: usize,
    byte: u8,
    more: &'a [u8],
    parts: &'a [u8],
    ending: u64,
}

const CHANGES: &[Change<'static>] = &[
    // the dump as it is, and with one byte more
    Change {
        place: 200,
        byte: 0,
        more: b"",
        parts: b"kpb",
        ending: 0,
    },
    Change {
        place: 200,
        byte: 0,
        more: b"x",
        parts: b"kpb",
        ending: 2,
    },
    // another body; another item's byte; a key of no bytes, and one with a newline
    Change {
        place: 38,
        byte: b'j',
        more: b"",
        parts: b"kp",
        ending: 1,
    },
    Change {
        place: 8,
        byte: 2,
        more: b"",
        parts: b"",
        ending: 1,
    },
    Change {
        place: 12,
        byte: 0,
        more: b"",
        parts: b"",
        ending: 1,
    },
    Change {
        place: 20,
        byte: b'\n',
        more: b"",
        parts: b"",
        ending: 1,
    },
    // lengths of a key, a body and a block that claim 4 GiB
    Change {
        place: 9,
        byte: 0xFF,
        more: b"",
        parts: b"",
        ending: 1,
    },
    Change {
        place: 34,
        byte: 0xFF,
        more: b"",
        parts: b"k",
        ending: 1,
    },
    Change {
        place: 43,
        byte: 0xFF,
        more: b"",
        parts: b"kp",
        ending: 1,
    },
    // a key at the beginning that is not that of the block
    Change {
        place: 22,
        byte: b'x',
        more: b"",
        parts: b"kp",
        ending: 1,
    },
];

#[test]
fn changes_are_told(rt: HostRuntime) -> Result<(), NoMemory> {
    dumps_are_one();
    dump_is_parts();
    dump_of_is_dump();
    let alloc = rt.alloc();
    assert!(rt; tells(alloc, b"C2DUMP01\0", b"", 0)?);
    assert!(rt; tells(alloc, b"C2DUMP02\0", b"", 1)?);
    for row in CHANGES {
        let dump = changed(alloc, 108, row.place, row.byte, row.more)?;
        assert!(rt; tells(alloc, dump.as_slice(), row.parts, row.ending)?);
    }
    Ok(())
}

// The parts that stand whole in so many bytes of the dump.
fn parts_in(len: usize) -> &'static [u8] {
    if len < 34 {
        return b"";
    }
    if len < 43 {
        return b"k";
    }
    if len < 107 { b"kp" } else { b"kpb" }
}

#[test]
fn no_cut_is_taken(rt: HostRuntime) -> Result<(), NoMemory> {
    let alloc = rt.alloc();
    for len in 0..108 {
        let dump = changed(alloc, len, 200, 0, b"")?;
        let ending = if len < 107 { 1 } else { 2 };
        assert!(rt; tells(alloc, dump.as_slice(), parts_in(len), ending)?);
    }
    Ok(())
}

// Whether the dump with this byte changed ends with this bad item.
fn is_refused(alloc: Global, place: usize, byte: u8, number: u64) -> Result<bool, NoMemory> {
    let dump = changed(alloc, 108, place, byte, b"")?;
    let answers = told(alloc, dump.as_slice(), 1000, Numbers::new(alloc))?;
    Ok(answers.ending == number)
}

#[test]
fn no_changed_byte_is_taken(rt: HostRuntime) -> Result<(), NoMemory> {
    let alloc = rt.alloc();
    for place in 0..108 {
        let number = if place < 107 { 1 } else { 2 };
        assert!(rt; is_refused(alloc, place, ONE[place] ^ 1, number)?);
        assert!(rt; is_refused(alloc, place, ONE[place] ^ 0x80, number)?);
    }
    Ok(())
}

// The dump of two items.
fn dump_of(alloc: Global, first: &[u8], second: &[u8]) -> Result<Bytes, NoMemory> {
    let mut bytes = Bytes::new(alloc);
    bytes.extend(b"C2DUMP01")?;
    bytes.extend(first)?;
    bytes.extend(second)?;
    bytes.push(0)?;
    Ok(bytes)
}

#[derive(Clone, Copy)]
struct Pair<'a> {
    first: &'a [u8],
    second: &'a [u8],
    parts: &'a [u8],
    ending: u64,
}

const PAIRS: &[Pair<'static>] = &[
    Pair {
        first: A,
        second: B,
        parts: b"kbkb",
        ending: 0,
    },
    // out of order, an item twice, a second end
    Pair {
        first: B,
        second: A,
        parts: b"kb",
        ending: 2,
    },
    Pair {
        first: A,
        second: A,
        parts: b"kb",
        ending: 2,
    },
    Pair {
        first: A,
        second: b"\0",
        parts: b"kb",
        ending: 2,
    },
    // blocks of older versions
    Pair {
        first: SECOND,
        second: b"",
        parts: b"kp",
        ending: 1,
    },
    Pair {
        first: FIRST,
        second: b"",
        parts: b"kp",
        ending: 1,
    },
];

#[test]
fn items_are_in_order(rt: HostRuntime) -> Result<(), NoMemory> {
    let alloc = rt.alloc();
    for row in PAIRS {
        let dump = dump_of(alloc, row.first, row.second)?;
        assert!(rt; tells(alloc, dump.as_slice(), row.parts, row.ending)?);
    }
    Ok(())
}

// How a reader ends where this read of one byte fails.
fn ending_at(alloc: Global, number: u32) -> Result<u64, NoMemory> {
    let mut fail = Numbers::new(alloc);
    fail.push(number)?;
    Ok(told(alloc, &ONE, 1, fail)?.ending)
}

#[test]
fn failed_reads_are_told(rt: HostRuntime) -> Result<(), NoMemory> {
    let alloc = rt.alloc();
    assert!(rt; ending_at(alloc, 1)? == 1000);
    assert!(rt; ending_at(alloc, 60)? == 1000);
    // the read that finds the end, and one that is never made
    assert!(rt; ending_at(alloc, 109)? == 1000);
    assert!(rt; ending_at(alloc, 110)? == 0);
    Ok(())
}
