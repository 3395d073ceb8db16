use super::*;
use cache_base::Numbers;
use std::test::Fail;

// The same with other elements.
const NO_LAST_ZERO: &[u8] = b"hello\xbc\xf7\xa9\xf8\x39\x9e\
    \0\0\0\x03\0\0\0\x01\0\0\x03\xe8\0\0\x03\xe8\0\0\x03\xe8\xff\xff\xff\xff\0\0\0\x15\0\0\0\0\
    :https://example.com/\0a\0b\0\0\0\x05";

const THREE_ZEROS: &[u8] = b"hello\xc3\x32\x0e\x52\x39\x9e\
    \0\0\0\x03\0\0\0\x01\0\0\x03\xe8\0\0\x03\xe8\0\0\x03\xe8\xff\xff\xff\xff\0\0\0\x15\0\0\0\0\
    :https://example.com/\0a\0b\0c\0\0\0\0\x05";

// Blocks of 37 bytes at the offset 0: of zeros, with a long key, and with an empty key below a wrong and a right hash.
const NO_VERSION: &[u8] = b"\0\0\0\0\
    \0\0\0\0\0\0\0\0\0\0\0\0\0\0\0\0\0\0\0\0\0\0\0\0\0\0\0\0\0\0\0\0\0\
    \0\0\0\0";

const LONG_KEY: &[u8] = b"\0\0\0\0\
    \0\0\0\x03\0\0\0\0\0\0\0\0\0\0\0\0\0\0\0\0\0\0\0\0\xff\xff\xff\xff\0\0\0\0\0\
    \0\0\0\0";

const WRONG_HASH: &[u8] = b"\x88\x00\x03\xe1\
    \0\0\0\x03\0\0\0\0\0\0\0\0\0\0\0\0\0\0\0\0\0\0\0\0\0\0\0\0\0\0\0\0\0\
    \0\0\0\0";

const NO_KEY: &[u8] = b"\x88\x00\x03\xe0\
    \0\0\0\x03\0\0\0\0\0\0\0\0\0\0\0\0\0\0\0\0\0\0\0\0\0\0\0\0\0\0\0\0\0\
    \0\0\0\0";

// A file of version 4, one of version 1 with another byte after its key, and one of version 3 whose block ends
// before its key.
const FOURTH: &[u8] = b"hello\xb2\xab\x53\xb4\x39\x9e\
    \0\0\0\x04\0\0\0\x01\0\0\x03\xe8\0\0\x03\xe8\0\0\x03\xe8\xff\xff\xff\xff\0\0\0\x15\0\0\0\0\
    :https://example.com/\0\0\0\0\x05";

const FIRST_NO_ZERO: &[u8] = b"hello\xcd\x85\xa6\x3f\x39\x9e\
    \0\0\0\x01\0\0\0\x01\0\0\x03\xe8\0\0\x03\xe8\0\0\x03\xe8\xff\xff\xff\xff\0\0\0\x15\
    :https://example.com/\x01\0\0\0\x05";

const THIRD_CUT: &[u8] = b"\0\0\0\0\
    \0\0\0\x03\0\0\0\0\0\0\0\0\0\0\0\0\0\0\0\0\0\0\0\0\0\0\0\0\0\
    \0\0\0\0";

// What is read under a name where these bytes stand.
fn read_of(alloc: Global, bytes: &[u8], name: &Name) -> Result<Seen, DiskFault> {
    let mut disk = disk_with(alloc, bytes)?;
    seen_at(alloc, &mut disk, &PLACE, name)
}

// What is read of `hello` where the call of this number fails.
fn failing_at(alloc: Global, call: u32) -> Result<Seen, DiskFault> {
    let mut calls = Numbers::new(alloc);
    calls.push(call)?;
    let mut disk = disk_with(alloc, HELLO)?;
    disk.fail_at(calls);
    seen_at(alloc, &mut disk, &PLACE, &NAME)
}

// Whether `hello` is read by two calls, with its lengths and its key.
fn reads_hello(alloc: Global, disk: &mut MemDisk) -> bool {
    match read_meta(alloc, disk, &PLACE, &NAME) {
        Ok(EntryRead::Fits { meta, size }) => {
            size == 69
                && meta.offset == 5
                && meta.key.as_slice() == b":https://example.com/".as_slice()
                && disk.calls() == 2
        }
        _ => false,
    }
}

#[test]
fn a_file_that_fits_is_read(rt: HostRuntime) -> Result<(), Fail> {
    let mut disk = disk_with(rt.alloc(), HELLO)?;
    assert!(rt; reads_hello(rt.alloc(), &mut disk));
    Ok(())
}

#[test]
fn an_old_file_is_read(rt: HostRuntime) {
    assert!(rt; read_of(rt.alloc(), HELLO_FIRST, &NAME) == Ok(Seen::Fits(5, 65)));
    assert!(rt; read_of(rt.alloc(), HELLO_SECOND, &NAME) == Ok(Seen::Fits(5, 69)));
}

// A file with a block of so many zeros but for its version.
fn large(alloc: Global, len: usize, version: u8) -> Result<Seen, DiskFault> {
    let mut bytes = vec![in alloc; 0u8; len]?;
    if let Some(there) = bytes.get_mut(7) {
        *there = version;
    }
    read_of(alloc, &bytes, &NAME)
}

#[test]
fn a_file_of_version_1_has_a_smaller_block(rt: HostRuntime) {
    assert!(rt; large(rt.alloc(), 262_145, 1) == Ok(Seen::Unfit(Unfit::TooBig)));
    assert!(rt; large(rt.alloc(), 262_144, 1) == Ok(Seen::Unfit(Unfit::Hash)));
    assert!(rt; large(rt.alloc(), 262_148, 2) == Ok(Seen::Unfit(Unfit::Hash)));
}

// The calls by which a file is read that has a block of zeros and so many bytes in all.
fn calls_for(alloc: Global, len: usize) -> Result<u64, Fail> {
    let bytes = vec![in alloc; 0u8; len]?;
    let mut disk = disk_with(alloc, &bytes)?;
    seen_at(alloc, &mut disk, &PLACE, &NAME)?;
    Ok(disk.calls())
}

#[test]
fn a_block_is_read_anew_where_it_is_longer_than_a_look(rt: HostRuntime) -> Result<(), Fail> {
    let rows = [(4, 2), (1024, 2), (1025, 3), (262_148, 3), (262_149, 2)];
    for index in 0..rows.len() {
        let (len, calls) = rows[index];
        assert_eq!(rt; calls_for(rt.alloc(), len)?, calls);
    }
    Ok(())
}

#[test]
fn no_file_is_absent(rt: HostRuntime) {
    let mut disk = MemDisk::new(rt.alloc());
    assert!(rt; seen_at(rt.alloc(), &mut disk, &PLACE, &NAME) == Ok(Seen::Absent));
}

#[test]
fn each_check_has_a_file_that_fails_it(rt: HostRuntime) -> Result<(), Fail> {
    let zeros = vec![in rt.alloc(); 0u8; 262_149]?;
    let rows = [
        (b"".as_slice(), Unfit::Short),
        (b"\xff\xff\xff\xff", Unfit::Short),
        (b"\0\0\0\0", Unfit::Short),
        (b"\0\0\0\x01", Unfit::Short),
        (b"\xff\xff\xff\xfe", Unfit::Short),
        (&zeros, Unfit::TooBig),
        (NO_VERSION, Unfit::Version),
        (FOURTH, Unfit::Version),
        (LONG_KEY, Unfit::KeyEnd),
        (FIRST_NO_ZERO, Unfit::KeyEnd),
        (THIRD_CUT, Unfit::KeyEnd),
        (WRONG_HASH, Unfit::Hash),
        (NO_KEY, Unfit::KeyForm),
        (NO_LAST_ZERO, Unfit::Elements),
        (THREE_ZEROS, Unfit::Elements),
    ];
    for index in 0..rows.len() {
        let (bytes, check) = rows[index];
        let read = read_of(rt.alloc(), bytes, &NAME);
        assert!(rt; read == Ok(Seen::Unfit(check)), "row {index}");
    }
    let other = read_of(rt.alloc(), HELLO, &Name([7; 20]));
    assert!(rt; other == Ok(Seen::Unfit(Unfit::WrongName)));
    Ok(())
}

#[test]
fn a_call_that_fails_is_answered(rt: HostRuntime) {
    for call in 1..3 {
        assert!(rt;
            failing_at(rt.alloc(), call) == Err(DiskFault::Failed),
            "call {call}"
        );
    }
    assert!(rt; failing_at(rt.alloc(), 3) == Ok(Seen::Fits(5, 69)));
}
