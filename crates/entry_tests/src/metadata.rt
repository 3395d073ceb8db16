ghost use Rattle.std.specs.Prelude.{◌<◌, ◌-◌, ◌^◌};

use cache_base::NoMemory;
use entry_metadata::{
    Meta, MetaFault, block_fits_exactly, block_len, block_reads_back, parse, print,
};
use std::alloc::Global;
use std::test::Fail;

// The block of an entry with an empty list of elements and a body of one chunk: its hash and the chunk's hash, the
// header, the key.
const BLOCK: [u8; 60] = *b"\x06\xab\x5e\x9a\x39\x9e\
    \0\0\0\x03\0\0\0\x01\0\0\x03\xe8\0\0\x03\xe8\0\0\x03\xe8\xff\xff\xff\xff\0\0\0\x15\0\0\0\0\
    :https://example.com/\0";

// The same with other elements.
const NO_LAST_ZERO: &[u8] = b"\xbc\xf7\xa9\xf8\x39\x9e\
    \0\0\0\x03\0\0\0\x01\0\0\x03\xe8\0\0\x03\xe8\0\0\x03\xe8\xff\xff\xff\xff\0\0\0\x15\0\0\0\0\
    :https://example.com/\0a\0b";

const THREE_ZEROS: &[u8] = b"\xc3\x32\x0e\x52\x39\x9e\
    \0\0\0\x03\0\0\0\x01\0\0\x03\xe8\0\0\x03\xe8\0\0\x03\xe8\xff\xff\xff\xff\0\0\0\x15\0\0\0\0\
    :https://example.com/\0a\0b\0c\0";

const REPEATED: &[u8] = b"\x03\x5a\xee\x24\x39\x9e\
    \0\0\0\x03\0\0\0\x01\0\0\x03\xe8\0\0\x03\xe8\0\0\x03\xe8\xff\xff\xff\xff\0\0\0\x15\0\0\0\0\
    :https://example.com/\0a\0b\0a\0c\0\0\0";

// The same with a key that has no address.
const NO_ADDRESS: &[u8] = b"\x6a\x31\x73\x9b\x39\x9e\
    \0\0\0\x03\0\0\0\x01\0\0\x03\xe8\0\0\x03\xe8\0\0\x03\xe8\xff\xff\xff\xff\0\0\0\x15\0\0\0\0\
    https://example.com/x\0";

// The same block in versions 1 and 2, and in one that there is not.
const FIRST: &[u8] = b"\x42\x4d\x09\x3d\x39\x9e\
    \0\0\0\x01\0\0\0\x01\0\0\x03\xe8\0\0\x03\xe8\0\0\x03\xe8\xff\xff\xff\xff\0\0\0\x15\
    :https://example.com/\0";

const SECOND: &[u8] = b"\x29\xd6\x32\xf8\x39\x9e\
    \0\0\0\x02\0\0\0\x01\0\0\x03\xe8\0\0\x03\xe8\0\0\x03\xe8\xff\xff\xff\xff\0\0\0\x15\0\0\0\0\
    :https://example.com/\0";

const FOURTH: &[u8] = b"\xb2\xab\x53\xb4\x39\x9e\
    \0\0\0\x04\0\0\0\x01\0\0\x03\xe8\0\0\x03\xe8\0\0\x03\xe8\xff\xff\xff\xff\0\0\0\x15\0\0\0\0\
    :https://example.com/\0";

// The block of version 1 with another byte after its key.
const FIRST_NO_ZERO: &[u8] = b"\xcd\x85\xa6\x3f\x39\x9e\
    \0\0\0\x01\0\0\0\x01\0\0\x03\xe8\0\0\x03\xe8\0\0\x03\xe8\xff\xff\xff\xff\0\0\0\x15\
    :https://example.com/\x01";

// The block of a body of two chunks.
const TWO_CHUNKS: &[u8] = b"\x91\xcb\x25\x14\x12\x34\xab\xcd\
    \0\0\0\x03\0\0\0\x01\0\0\x03\xe8\0\0\x03\xe8\0\0\x03\xe8\xff\xff\xff\xff\0\0\0\x15\0\0\0\0\
    :https://example.com/\0a\0b\0";

// The block of a file that a browser wrote, but for the bytes of `security-info` and of the body, 1,000 times `x`.
const BROWSER: &[u8] = b"\xad\xfa\xa7\x24\x5a\x31\
    \0\0\0\x03\0\0\0\x01\0\0\x03\xe8\0\0\x03\xe8\0\0\x01\xf4\xff\xff\xff\xff\0\0\0\x47\0\0\0\0\
    O^partitionKey=%28https%2Cexample.com%29,:https://example.com/style.css\0\
    security-info\0MIIHAzZz\0\
    request-method\0GET\0\
    response-head\0HTTP/1.1 200 OK\r\n\0\
    ctid\05\0\
    net-response-time-onstart\012\0\
    net-response-time-onstop\015\0";

// What a block says: frecency, key and hashes; how many bytes the elements have, and some values
// by name; how many bytes the block has, and the offset that is printed after it.
#[derive(Clone, Copy)]
struct Said<'a> {
    frecency: u32,
    key: &'a [u8],
    hashes: &'a [u16],
    elements: usize,
    values: &'a [(&'a [u8], &'a [u8])],
    len: usize,
    end: [u8; 4],
}

const KEY: &[u8] = b":https://example.com/";

const BLOCK_SAID: Said<'_> = Said {
    frecency: 1000,
    key: KEY,
    hashes: &[0x399e],
    elements: 0,
    values: &[],
    len: 60,
    end: [0, 0, 0, 5],
};

const BROWSER_SAID: Said<'_> = Said {
    frecency: 500,
    key: b"O^partitionKey=%28https%2Cexample.com%29,:https://example.com/style.css",
    hashes: &[0x5a31],
    elements: 138,
    values: &[
        (b"security-info", b"MIIHAzZz"),
        (b"request-method", b"GET"),
        (b"response-head", b"HTTP/1.1 200 OK\r\n"),
        (b"ctid", b"5"),
        (b"net-response-time-onstart", b"12"),
        (b"net-response-time-onstop", b"15"),
    ],
    len: 248,
    end: [0, 0, 3, 0xe8],
};

// Each chunk has a hash.
const TWO_CHUNKS_SAID: Said<'_> = Said {
    frecency: 1000,
    key: KEY,
    hashes: &[0x1234, 0xabcd],
    elements: 4,
    values: &[(b"a", b"b")],
    len: 66,
    end: [0, 4, 0, 1],
};

// Names may repeat, and names and values may be empty.
const REPEATED_SAID: Said<'_> = Said {
    frecency: 1000,
    key: KEY,
    hashes: &[0x399e],
    elements: 10,
    values: &[(b"a", b"b"), (b"", b"")],
    len: 70,
    end: [0, 0, 0, 5],
};

// Whether each of these is the value of the first element of its name.
fn have(meta: &Meta, values: &[(&[u8], &[u8])]) -> bool {
    for (name, value) in values {
        if meta.elements.get(name) != Some(*value) {
            return false;
        }
    }
    true
}

fn says(meta: &Meta, said: &Said<'_>) -> bool {
    let header = meta.header;
    header.version == 3
        && header.fetch_count == 1
        && header.frecency == said.frecency
        && header.key_size as usize == said.key.len()
        && meta.key.as_slice() == said.key
        && meta.hashes.as_slice() == said.hashes
        && meta.elements.len() == said.elements
        && have(meta, said.values)
        && block_len(meta) == said.len
}

// Whether this block is printed, with the offset after it.
fn is_printed(alloc: Global, meta: &Meta, block: &[u8], said: &Said<'_>) -> Result<bool, NoMemory> {
    let bytes = print(alloc, meta)?;
    let (front, end) = bytes
        .as_slice()
        .split_at(bytes.as_slice().len().min(said.len));
    Ok(front == block && end == said.end.as_slice())
}

// Whether the block of a body of so many bytes says this, and is printed as the other.
fn is_parsed_as(alloc: Global, block: &[u8], offset: u32, said: &Said<'_>, printed: &[u8]) -> bool
    requires { offset < 2 ^ 32 - 1 }
{
    match parse(alloc, block, offset) {
        Ok(meta) => says(&meta, said) && is_printed(alloc, &meta, printed, said) == Ok(true),
        Err(_) => false,
    }
}

// The same of a block that is printed as it stands.
fn is_parsed(alloc: Global, block: &[u8], offset: u32, said: &Said<'_>) -> bool
    requires { offset < 2 ^ 32 - 1 }
{
    is_parsed_as(alloc, block, offset, said, block)
}

#[test]
fn blocks_are_parsed_and_printed(rt: HostRuntime) {
    assert!(rt; is_parsed(rt.alloc(), &BLOCK, 5, &BLOCK_SAID));
    assert!(rt; is_parsed(rt.alloc(), BROWSER, 1000, &BROWSER_SAID));
    assert!(rt; is_parsed(rt.alloc(), TWO_CHUNKS, 262_145, &TWO_CHUNKS_SAID));
    assert!(rt; is_parsed(rt.alloc(), REPEATED, 5, &REPEATED_SAID));
}

#[test]
fn old_blocks_are_parsed_and_printed_as_version_3(rt: HostRuntime) {
    assert!(rt; FIRST.len() == 56 && SECOND.len() == 60);
    assert!(rt; is_parsed_as(rt.alloc(), FIRST, 5, &BLOCK_SAID, &BLOCK));
    assert!(rt; is_parsed_as(rt.alloc(), SECOND, 5, &BLOCK_SAID, &BLOCK));
}

// Whether the block of a body of so few bytes fails this check first.
fn fails(alloc: Global, block: &[u8], offset: u8, fault: MetaFault) -> bool {
    match parse(alloc, block, u32::from(offset)) {
        Ok(_) => false,
        Err(found) => found == fault,
    }
}

// The same of `BLOCK` with another byte at a place.
fn fails_with(alloc: Global, at: usize, x: u8, fault: MetaFault) -> bool {
    let mut block = BLOCK;
    if let Some(there) = block.get_mut(at) {
        *there = x;
    }
    fails(alloc, &block, 5, fault)
}

#[test]
fn each_check_has_a_fault(rt: HostRuntime) -> Result<(), Fail> {
    let long = vec![in rt.alloc(); 0u8; 262_145]?;
    let rows = [
        (&BLOCK[..34], 5, MetaFault::Short),
        (&long, 5, MetaFault::TooBig),
        (FOURTH, 5, MetaFault::Version),
        // No header of version 3 has a key so early.
        (&BLOCK[..35], 5, MetaFault::KeyEnd),
        (&BLOCK[..38], 5, MetaFault::KeyEnd),
        (FIRST_NO_ZERO, 5, MetaFault::KeyEnd),
        (NO_ADDRESS, 5, MetaFault::KeyForm),
        (NO_LAST_ZERO, 5, MetaFault::Elements),
        (THREE_ZEROS, 5, MetaFault::Elements),
        // An empty body has no chunk hash, so all numbers stand two bytes earlier.
        (&BLOCK, 0, MetaFault::Version),
    ];
    for index in 0..rows.len() {
        let (block, offset, fault) = rows[index];
        assert!(rt; fails(rt.alloc(), block, offset, fault), "row {index}");
    }
    Ok(())
}

// So many bytes, which are zero but for a number at the offset 4.
fn zeros(alloc: Global, len: usize, version: u8) -> Result<Vec<u8>, NoMemory> {
    let mut bytes = vec![in alloc; 0u8; len]?;
    if let Some(there) = bytes.get_mut(7) {
        *there = version;
    }
    Ok(bytes)
}

#[test]
fn a_block_of_version_1_fits_as_version_3(rt: HostRuntime) -> Result<(), Fail> {
    let rows = [
        (1, 262_141, MetaFault::TooBig),
        (1, 262_140, MetaFault::Hash),
        (2, 262_145, MetaFault::TooBig),
        (2, 262_144, MetaFault::Hash),
        (3, 262_144, MetaFault::Hash),
        (4, 262_144, MetaFault::Version),
    ];
    for index in 0..rows.len() {
        let (version, len, fault) = rows[index];
        let block = zeros(rt.alloc(), len, version)?;
        assert!(rt; fails(rt.alloc(), &block, 0, fault), "row {index}");
    }
    Ok(())
}

#[test]
fn the_first_failing_check_is_answered(rt: HostRuntime) {
    let rows = [
        (9, 0, MetaFault::Version),
        // As version 2 its hash is another, and as version 1 its key ends elsewhere.
        (9, 2, MetaFault::Hash),
        (9, 1, MetaFault::KeyEnd),
        (33, 22, MetaFault::KeyEnd),
        (33, 20, MetaFault::KeyEnd),
        (5, 0x9f, MetaFault::Hash),
        // Neither the version nor the hash is right.
        (9, 4, MetaFault::Version),
        // Neither the key's colon nor the hash is right.
        (38, b'x', MetaFault::Hash),
    ];
    for index in 0..rows.len() {
        let (at, x, fault) = rows[index];
        assert!(rt; fails_with(rt.alloc(), at, x, fault), "row {index}");
    }
}

#[test]
fn laws_are_called() {
    block_reads_back();
    block_fits_exactly();
}
