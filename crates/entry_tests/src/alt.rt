//! Alternative data, as the element tells of them, and the hashes of a body to which they are added.

ghost use Rattle.std.specs.Prelude.{◌≡◌, IfOk};

use alt_data::{AltInfo, alt_value, grown_hashes, info};
use cache_base::{BODY_MAX, Hashes, Name, NoMemory, chunks};
use disk_model::LiarDisk;
use disk_theory::{DiskFault, Place};
use entry_parts::{Elements, PartsFault};
use std::alloc::Global;
use std::test::Fail;

const ENTRY: Place = Place::Entry(Name([7; 20]));

// The value of an element, the length of the body, and where alternative data begin and of which kind they are.
type Row<'a> = (&'a [u8], u32, Option<(u32, &'a [u8])>);

const ROWS: &[Row<'static>] = &[
    (b"1;3,wasm", 5, Some((3, b"wasm"))),
    (b"1;5,x", 5, Some((5, b"x"))),
    (b"1;0,a,b", 5, Some((0, b"a,b"))),
    (
        b"1;4294967295,x",
        4_294_967_295,
        Some((4_294_967_295, b"x")),
    ),
    (b"1;6,x", 5, None),
    (b"1;9,x", 5, None),
    (b"1;3,", 5, None),
    (b"1;3", 5, None),
    (b"1;03,x", 5, None),
    (b"1;+3,x", 5, None),
    (b"1;,x", 5, None),
    (b"2;3,x", 5, None),
    (b"1;4294967296,x", 5, None),
    (b"1", 5, None),
    (b"", 5, None),
];

fn is_found(found: Option<AltInfo<'_>>, expected: Option<(u32, &[u8])>) -> bool {
    match (found, expected) {
        (None, None) => true,
        (Some(info), Some((offset, kind))) => info.offset == offset && info.kind == kind,
        _ => false,
    }
}

fn tells(alloc: Global, row: &Row<'static>) -> Result<bool, PartsFault> {
    let mut elements = Elements::new(alloc);
    elements.set(b"ctid", b"5")?;
    elements.set(b"alt-data", row.0)?;
    Ok(is_found(info(&elements, row.1), row.2))
}

// Two elements of the name, of which the first has another form.
fn first_alone_counts(alloc: Global) -> Result<bool, PartsFault> {
    let elements = Elements::parse(alloc, b"alt-data\0none\0alt-data\x001;3,x\0")?;
    Ok(info(&elements, 5).is_none())
}

#[test]
fn alternative_data_are_told_by_their_element(rt: HostRuntime) -> Result<(), Fail> {
    for row in ROWS {
        assert!(rt; tells(rt.alloc(), row) == Ok(true));
    }
    assert!(rt; info(&Elements::new(rt.alloc()), 5).is_none());
    assert!(rt; first_alone_counts(rt.alloc()) == Ok(true));
    Ok(())
}

#[test]
fn the_value_is_spelled(rt: HostRuntime) -> Result<(), Fail> {
    let spelled = alt_value(rt.alloc(), 262_143, b"wasm")?;
    assert!(rt; spelled.as_slice() == b"1;262143,wasm".as_slice());
    Ok(())
}

// The length of a body and the hashes of its chunks, what follows it, and the hashes of both together,
// over a disk of which every byte reads as `h`.
struct Growth<'a> {
    offset: u32,
    old: &'a [u16],
    more: &'a [u8],
    grown: &'a [u16],
}

const GROWTHS: &[Growth<'static>] = &[
    Growth {
        offset: 0,
        old: &[],
        more: b"hello",
        grown: &[0x399e],
    },
    Growth {
        offset: 0,
        old: &[],
        more: b"",
        grown: &[],
    },
    Growth {
        offset: 1,
        old: &[0x1111],
        more: b"ello",
        grown: &[0x399e],
    },
    Growth {
        offset: 3,
        old: &[0x1111],
        more: b"lo",
        grown: &[0xc54f],
    },
    Growth {
        offset: 262_144,
        old: &[0x1111],
        more: b"yz",
        grown: &[0x1111, 0xb118],
    },
    Growth {
        offset: 262_145,
        old: &[0x1111, 0x2222],
        more: b"ello",
        grown: &[0x1111, 0x399e],
    },
];

fn hashes_of(alloc: Global, hashes: &[u16]) -> Result<Hashes, NoMemory>
    ensures { IfOk result (λ list. list ≡ hashes.now) }
{
    Ok(Hashes::from_vec(Vec::from_slice(alloc, hashes)?))
}

// Whether the hashes of a body that grows are these.
fn grows(alloc: Global, row: &Growth<'static>) -> Result<bool, DiskFault> {
    let mut disk = LiarDisk::new(9, b'h');
    let old = hashes_of(alloc, row.old)?;
    if row.old.len() as u64 != chunks(u64::from(row.offset)) {
        return Ok(false);
    }
    if row.more.len() > BODY_MAX {
        return Ok(false);
    }
    if row.offset as usize > BODY_MAX - row.more.len() {
        return Ok(false);
    }
    let grown = grown_hashes(alloc, &mut disk, &ENTRY, row.offset, &old, row.more)?;
    Ok(grown.as_slice() == row.grown)
}

#[test]
fn the_hashes_of_a_body_grow_with_it(rt: HostRuntime) {
    for row in GROWTHS {
        assert!(rt; grows(rt.alloc(), row) == Ok(true));
    }
}
