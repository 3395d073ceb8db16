use entry_parts::{
    Elements, Header, PartsFault, elements_read_back, elements_spell, header_reads_back,
    header_spells, numbers_spell,
};
use std::alloc::{AllocError, Global};
use std::test::Fail;

const HEADER: [u8; 32] = [
    0, 0, 0, 3, 0, 0, 0, 1, 0, 0, 3, 0xe8, 0, 0, 3, 0xe9, 0, 0, 1, 0xf4, 0xff, 0xff, 0xff, 0xff, 0,
    0, 0, 21, 0x80, 0, 0, 2,
];

#[test]
fn a_header_is_read_and_written(rt: HostRuntime) {
    let header = Header {
        version: 3,
        fetch_count: 1,
        last_fetched: 1000,
        last_modified: 1001,
        frecency: 500,
        expiration: 0xffff_ffff,
        key_size: 21,
        flags: 0x8000_0002,
    };
    assert!(rt; Header::read(&HEADER) == header && header.write() == HEADER);
}

// The same of version 1.
const SHORT: [u8; 28] = [
    0, 0, 0, 1, 0, 0, 0, 1, 0, 0, 3, 0xe8, 0, 0, 3, 0xe9, 0, 0, 1, 0xf4, 0xff, 0xff, 0xff, 0xff, 0,
    0, 0, 21,
];

#[test]
fn a_header_without_flags_is_read(rt: HostRuntime) {
    let header = Header {
        version: 1,
        fetch_count: 1,
        last_fetched: 1000,
        last_modified: 1001,
        frecency: 500,
        expiration: 0xffff_ffff,
        key_size: 21,
        flags: 0,
    };
    assert!(rt; Header::read_short(&SHORT) == header);
}

#[test]
fn a_new_entry_was_fetched_once_and_never_expires(rt: HostRuntime) {
    let header = Header {
        version: 3,
        fetch_count: 1,
        last_fetched: 1000,
        last_modified: 1000,
        frecency: 1000,
        expiration: 0xffff_ffff,
        key_size: 21,
        flags: 0,
    };
    assert!(rt; Header::fresh(1000, 21) == header);
}

// The elements of a file that a browser wrote, but for the bytes of `security-info`.
const BROWSER: &[u8] = b"security-info\0MIIHAzZz\0request-method\0GET\0\
    response-head\0HTTP/1.1 200 OK\r\n\0ctid\05\0\
    net-response-time-onstart\012\0net-response-time-onstop\015\0";

// The value of the first element of a name, if one has it.
type Found<'a> = (&'a [u8], Option<&'a [u8]>);

const IN_BROWSER: [Found<'_>; 10] = [
    (b"security-info", Some(b"MIIHAzZz")),
    (b"request-method", Some(b"GET")),
    (b"response-head", Some(b"HTTP/1.1 200 OK\r\n")),
    (b"ctid", Some(b"5")),
    (b"net-response-time-onstart", Some(b"12")),
    (b"net-response-time-onstop", Some(b"15")),
    (b"GET", None),
    (b"ct", None),
    (b"ctid5", None),
    (b"", None),
];

// Names may repeat, and names and values may be empty.
const REPEATED: &[u8] = b"a\0b\0a\0c\0\0d\0e\0\0";

const IN_REPEATED: [Found<'_>; 3] = [(b"a", Some(b"b")), (b"", Some(b"d")), (b"e", Some(b""))];

fn finds(elements: &Elements, found: &Found<'_>) -> bool {
    elements.get(found.0) == found.1
}

// How many of these are found, up to the first that is not.
fn found_in(elements: &Elements, rows: &[Found<'_>]) -> usize {
    for index in 0..rows.len() {
        if !finds(elements, &rows[index]) {
            return index;
        }
    }
    rows.len()
}

// The same of the elements that these bytes spell, which are printed as they stand.
fn read_of(alloc: Global, bytes: &[u8], rows: &[Found<'_>]) -> Result<usize, Fail> {
    let elements = Elements::parse(alloc, bytes)?;
    if elements.len() == bytes.len() && elements.print() == bytes {
        Ok(found_in(&elements, rows))
    } else {
        Err(Fail::from("other bytes are printed"))
    }
}

#[test]
fn elements_are_read(rt: HostRuntime) -> Result<(), Fail> {
    assert!(rt; BROWSER.len() == 138 && REPEATED.len() == 14);
    let found = read_of(rt.alloc(), BROWSER, &IN_BROWSER)?;
    assert!(rt; found == IN_BROWSER.len(), "row {found} of a browser's");
    let found = read_of(rt.alloc(), REPEATED, &IN_REPEATED)?;
    assert!(rt; found == IN_REPEATED.len(), "row {found} of the repeated");
    assert!(rt; read_of(rt.alloc(), b"", &[(b"", None)])? == 1);
    Ok(())
}

#[test]
fn no_elements_have_no_bytes(rt: HostRuntime) {
    let elements = Elements::new(rt.alloc());
    assert!(rt; elements.len() == 0 && elements.get(b"").is_none());
}

fn has_bad_form(alloc: Global, bytes: &[u8]) -> bool {
    matches!(Elements::parse(alloc, bytes), Err(PartsFault::BadForm))
}

#[test]
fn other_bytes_are_refused(rt: HostRuntime) {
    let alloc = rt.alloc();
    // No last zero.
    assert!(rt; has_bad_form(alloc, b"a\0b"));
    // An even number of zeros, none of them last.
    assert!(rt; has_bad_form(alloc, b"a\0b\0c"));
    // Three zeros, one, and none.
    assert!(rt; has_bad_form(alloc, b"a\0b\0c\0"));
    assert!(rt; has_bad_form(alloc, b"\0"));
    assert!(rt; has_bad_form(alloc, b"a"));
}

// A change of the elements.
#[derive(Clone, Copy)]
enum Change<'a> {
    // Of a name to a value, and the fault, if it is refused.
    Set(&'a [u8], &'a [u8], Option<PartsFault>),
    // Of a name, and whether it was there.
    Remove(&'a [u8], bool),
}

// A change, and the bytes afterwards.
type Row<'a> = (Change<'a>, &'a [u8]);

fn is_changed(elements: &mut Elements, row: &Row<'_>) -> bool {
    let (change, bytes) = *row;
    let goes = match change {
        Change::Set(name, value, fault) => elements.set(name, value).err() == fault,
        Change::Remove(name, is_there) => elements.remove(name) == is_there,
    };
    goes && elements.print() == bytes
}

// How many of these changes go so one after the other, up to the first that does not.
fn changes(elements: &mut Elements, rows: &[Row<'_>]) -> usize {
    for index in 0..rows.len() {
        if !is_changed(elements, &rows[index]) {
            return index;
        }
    }
    rows.len()
}

// The same from these bytes on.
fn changes_of(alloc: Global, bytes: &[u8], rows: &[Row<'_>]) -> Result<usize, PartsFault> {
    let mut elements = Elements::parse(alloc, bytes)?;
    Ok(changes(&mut elements, rows))
}

#[test]
fn an_element_is_set_in_its_place_or_added(rt: HostRuntime) -> Result<(), Fail> {
    let rows: [Row<'_>; 2] = [
        (
            Change::Set(b"a", b"new", None),
            b"x\01\0a\0new\0y\0\0a\03\0",
        ),
        (
            Change::Set(b"xa", b"", None),
            b"x\01\0a\0new\0y\0\0a\03\0xa\0\0",
        ),
    ];
    let changed = changes_of(rt.alloc(), b"x\01\0a\02\0y\0\0a\03\0", &rows)?;
    assert!(rt; changed == rows.len(), "row {changed}");
    let mut none = Elements::new(rt.alloc());
    assert!(rt; is_changed(&mut none, &(Change::Set(b"a", b"b", None), b"a\0b\0")));
    Ok(())
}

fn times(alloc: Global, byte: u8, count: usize) -> Result<Vec<u8>, AllocError> {
    vec![in alloc; byte; count]
}

#[test]
fn the_first_fault_is_answered_and_nothing_changes(rt: HostRuntime) -> Result<(), Fail> {
    let kept = b"a\0b\0".as_slice();
    let long = times(rt.alloc(), 1, 65_536)?;
    let rows = [
        (Change::Set(b"", b"\0", Some(PartsFault::BadName)), kept),
        (Change::Set(b"a\0", b"\0", Some(PartsFault::BadName)), kept),
        (Change::Set(b"\0a", &long, Some(PartsFault::BadName)), kept),
        (Change::Set(b"a", b"x\0x", Some(PartsFault::BadBytes)), kept),
        (Change::Set(&long, b"\0", Some(PartsFault::BadBytes)), kept),
        (Change::Set(b"c", &long, Some(PartsFault::TooLarge)), kept),
        (Change::Set(&long, &long, Some(PartsFault::TooLarge)), kept),
    ];
    let changed = changes_of(rt.alloc(), kept, &rows)?;
    assert!(rt; changed == rows.len(), "row {changed}");
    Ok(())
}

// A name, a byte and how often the value has it, the fault if one is due, the length afterwards.
type LongRow<'a> = (&'a [u8], u8, usize, Option<PartsFault>, usize);

fn is_set(alloc: Global, elements: &mut Elements, row: &LongRow<'_>) -> bool {
    let (name, byte, count, fault, len) = *row;
    match times(alloc, byte, count) {
        Ok(value) => elements.set(name, &value).err() == fault && elements.len() == len,
        Err(_) => false,
    }
}

#[test]
fn elements_have_at_most_65536_bytes(rt: HostRuntime) -> Result<(), Fail> {
    let rows: [LongRow<'_>; 5] = [
        // With another name the four bytes are kept, with this name they are not.
        (b"c", 1, 65_530, Some(PartsFault::TooLarge), 4),
        (b"a", 1, 65_534, Some(PartsFault::TooLarge), 4),
        (b"a", 1, 65_533, None, 65_536),
        (b"a", b'b', 1, None, 4),
        (b"c", 1, 65_529, None, 65_536),
    ];
    let mut elements = Elements::parse(rt.alloc(), b"a\0b\0")?;
    for index in 0..rows.len() {
        assert!(rt;
            is_set(rt.alloc(), &mut elements, &rows[index]),
            "row {index}"
        );
    }
    Ok(())
}

#[test]
fn the_first_element_of_a_name_is_removed(rt: HostRuntime) -> Result<(), Fail> {
    let rows: [Row<'_>; 6] = [
        (Change::Remove(b"a", true), b"x\01\0y\0\0a\03\0"),
        (Change::Remove(b"1", false), b"x\01\0y\0\0a\03\0"),
        (Change::Remove(b"a", true), b"x\01\0y\0\0"),
        (Change::Remove(b"x", true), b"y\0\0"),
        (Change::Remove(b"y", true), b""),
        (Change::Remove(b"a", false), b""),
    ];
    let removed = changes_of(rt.alloc(), b"x\01\0a\02\0y\0\0a\03\0", &rows)?;
    assert!(rt; removed == rows.len(), "row {removed}");
    Ok(())
}

#[test]
fn laws_are_called() {
    header_reads_back();
    header_spells();
    elements_read_back();
    elements_spell();
    numbers_spell();
}
