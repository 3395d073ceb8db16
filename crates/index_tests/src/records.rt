use cache_base::{Bytes, Name, NoMemory};
use entry_metadata::parse;
use index_record::{
    IndexRecord, Records, is_pinned, is_removed, of_meta, read, record_reads_back, record_spells,
    removed, size_kb, write,
};
use std::alloc::Global;
use std::test::Fail;

const NAME: Name = Name([
    1, 2, 3, 4, 5, 6, 7, 8, 9, 10, 11, 12, 13, 14, 15, 16, 17, 18, 19, 20,
]);

const RECORD: [u8; 41] = [
    1, 2, 3, 4, 5, 6, 7, 8, 9, 10, 11, 12, 13, 14, 15, 16, 17, 18, 19, 20, 0x11, 0x12, 0x13, 0x14,
    0x21, 0x22, 0x23, 0x24, 0x25, 0x26, 0x27, 0x28, 0x31, 0x32, 0x41, 0x42, 0x51, 0x84, 0, 0, 2,
];

fn record(flags: u32) -> IndexRecord {
    IndexRecord {
        name: NAME,
        frecency: 0x1112_1314,
        origin: 0x2122_2324_2526_2728,
        on_start: 0x3132,
        on_stop: 0x4142,
        content: 0x51,
        flags,
    }
}

// Whether the record is written as these bytes, and they are read as the record.
fn is_written_and_read(record: &IndexRecord, bytes: &[u8; 41]) -> bool {
    write(record) == *bytes && read(bytes) == *record
}

#[test]
fn a_record_is_written_and_read(rt: HostRuntime) {
    assert!(rt; is_written_and_read(&record(0x8400_0002), &RECORD));
}

// Whether two bits are neither written nor read, and then which others are where all are set.
fn leaves_out_dirty_and_fresh() -> bool {
    let mut marked = RECORD;
    marked[37] = 0x9c;
    let some = read(&marked);
    marked[37] = 0xff;
    marked[40] = 0xff;
    write(&record(0x9c00_0002)) == RECORD
        && some == record(0x8400_0002)
        && read(&marked) == record(0xe700_00ff)
}

#[test]
fn dirty_and_fresh_bits_stay_out_of_files(rt: HostRuntime) {
    assert!(rt; leaves_out_dirty_and_fresh());
}

// Whether it is removed, whether it is pinned, and its KB.
fn told(record: &IndexRecord) -> (bool, bool, u32) {
    (is_removed(record), is_pinned(record), size_kb(record))
}

fn tells_flags() -> bool {
    let gone = removed(&NAME);
    gone.flags == 0xa000_0000
        && told(&gone) == (true, false, 0)
        && told(&record(0x8400_0002)) == (false, true, 2)
        && size_kb(&record(0xffff_ffff)) == 0xff_ffff
}

#[test]
fn flags_are_told(rt: HostRuntime) {
    assert!(rt; tells_flags());
}

fn extend(all: &mut Bytes, pieces: &[&[u8]]) -> Result<(), NoMemory> {
    for piece in pieces {
        all.extend(piece)?;
    }
    Ok(())
}

// An entry with an empty body: its key, the header's flags, and the elements in pieces.
type Entry<'a> = (&'a [u8], u8, &'a [&'a [u8]]);

// Puts all of an entry's metadata but for their hash.
fn put_rest(rest: &mut Bytes, entry: Entry<'_>) -> Result<(), Fail> {
    let (key, flags, elements) = entry;
    let len = u8::try_from(key.len())?;
    let front = b"\0\0\0\x03\0\0\0\x01\0\0\x03\xe8\0\0\x03\xe8\0\0\x01\xf4\xff\xff\xff\xff\0\0\0";
    extend(rest, &[front, &[len, 0, 0, 0, flags], key, b"\0"])?;
    Ok(extend(rest, elements)?)
}

// The metadata of an entry.
fn block(alloc: Global, entry: Entry<'_>) -> Result<Bytes, Fail> {
    let mut rest = Bytes::new(alloc);
    put_rest(&mut rest, entry)?;
    let hash = jenkins_hash::hash(rest.as_slice()).to_be_bytes();
    let mut block = Bytes::new(alloc);
    extend(&mut block, &[&hash, rest.as_slice()])?;
    Ok(block)
}

// The record of an entry whose file has `size` bytes.
fn record_of(alloc: Global, entry: Entry<'_>, size: u64) -> Result<IndexRecord, Fail> {
    let block = block(alloc, entry)?;
    let meta = parse(alloc, block.as_slice(), 0)?;
    Ok(of_meta(&NAME, &meta, size))
}

// The record of an entry whose key has no origin.
const PLAIN: IndexRecord = IndexRecord {
    name: NAME,
    frecency: 500,
    origin: 0xda39_a3ee_5e6b_4b0d,
    on_start: 0xffff,
    on_stop: 0xffff,
    content: 0,
    flags: 0x8000_0000,
};

const BROWSER_KEY: &[u8] =
    b"O^partitionKey=%28https%2Cexample.com%29,:https://example.com/style.css";

const BROWSER_ELEMENTS: &[u8] = b"request-method\0GET\0ctid\05\0\
    net-response-time-onstart\012\0net-response-time-onstop\015\0";

#[test]
fn a_record_is_made_of_metadata(rt: HostRuntime) -> Result<(), Fail> {
    let by_browser = record_of(rt.alloc(), (BROWSER_KEY, 1, &[BROWSER_ELEMENTS]), 1252)?;
    let expected = IndexRecord {
        origin: 0x9944_e8aa_49cc_415b,
        on_start: 12,
        on_stop: 15,
        content: 5,
        flags: 0x8400_0002,
        ..PLAIN
    };
    assert!(rt; by_browser == expected);
    let anonymous = record_of(rt.alloc(), (b"a,:x", 2, &[]), 0)?;
    assert!(rt;
        anonymous
            == IndexRecord {
                flags: 0xc000_0000,
                ..PLAIN
            }
    );
    let with_alternative = record_of(rt.alloc(), (b"b,:x", 0, &[b"alt-data\0\0"]), 1)?;
    assert!(rt;
        with_alternative
            == IndexRecord {
                flags: 0x8200_0001,
                ..PLAIN
            }
    );
    Ok(())
}

// The record where the first time and the content type have this value.
fn with_numbers(alloc: Global, value: &str) -> Result<IndexRecord, Fail> {
    let value = value.as_bytes();
    let elements = [
        b"net-response-time-onstart\0".as_slice(),
        value,
        b"\0ctid\0",
        value,
        b"\0",
    ];
    record_of(alloc, (b":x", 0, &elements), 0)
}

#[test]
fn numbers_are_digits_of_any_length(rt: HostRuntime) -> Result<(), Fail> {
    for (value, time, content) in [
        ("0005", 5, 5),
        ("0", 0, 0),
        ("255", 255, 255),
        ("256", 256, 0),
        ("65534", 65534, 0),
        ("65535", 65534, 0),
        ("70000", 65534, 0),
        ("18446744073709551617", 65534, 0),
        ("", 65535, 0),
        ("5x", 65535, 0),
        ("+5", 65535, 0),
    ] {
        let expected = IndexRecord {
            on_start: time,
            content,
            ..PLAIN
        };
        assert!(rt; with_numbers(rt.alloc(), value)? == expected, "of {value}");
    }
    Ok(())
}

#[test]
fn sizes_are_rounded_up(rt: HostRuntime) -> Result<(), Fail> {
    for (size, kb) in [
        (0, 0),
        (1, 1),
        (1024, 1),
        (1025, 2),
        (0x3_ffff_fc00, 0xff_ffff),
        (1 << 40, 0xff_ffff),
        (u64::MAX, 0xff_ffff),
    ] {
        let record = record_of(rt.alloc(), (b":x", 0, &[]), size)?;
        assert!(rt; size_kb(&record) == kb, "of {size}");
    }
    Ok(())
}

// Whether records stand in a list as they were pushed.
fn are_listed(records: &mut Records) -> Result<bool, NoMemory> {
    records.push(record(2))?;
    records.push(removed(&NAME))?;
    Ok(records.as_slice() == [record(2), removed(&NAME)].as_slice())
}

#[test]
fn records_are_listed(rt: HostRuntime) {
    let mut records = Records::new(rt.alloc());
    assert!(rt; are_listed(&mut records) == Ok(true));
}

#[test]
fn laws_are_called() {
    record_reads_back();
    record_spells();
}
