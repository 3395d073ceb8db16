use super::*;
use cache_io::{MemSink, MemSource};
use std::test::Fail;

// Whether a `put` of `hello` is answered, and writes its file.
fn puts_hello(alloc: Global, disk: &mut MemDisk) -> Result<bool, Fail> {
    let so = comes_so(alloc, disk, &(PUT, b"hello", Status::Done, b"ok\n"))?;
    Ok(so && holds(disk, KEY, Some(FILE)))
}

#[test]
fn a_put_writes_the_entry_file(rt: HostRuntime) -> Result<(), Fail> {
    let mut disk = MemDisk::new(rt.alloc());
    assert!(rt; puts_hello(rt.alloc(), &mut disk)?);
    Ok(())
}

const MALFORMED: [&str; 16] = [
    "",
    "1000",
    "1000 put",
    "1000 doom",
    "1000 run x",
    "1000 flush x",
    "1000 list x",
    "1000 rebuild x",
    "x flush",
    "007 run",
    "x put :x",
    "007 put :x",
    "+7 put :x",
    "4294967296 put :x",
    "1000 got :x",
    "1000 put :x y",
];

// Whether no words are malformed, too.
fn no_words_are(alloc: Global, disk: &mut MemDisk) -> Result<bool, Fail> {
    let mut source = MemSource::new(alloc, bytes(alloc, b"hello")?);
    let mut sink = MemSink::new(alloc);
    Ok(call(alloc, disk, &[], &mut source, &mut sink) == Status::Words)
}

// Whether each of the lines is malformed, and so are no words.
fn are_malformed(alloc: Global, disk: &mut MemDisk) -> Result<bool, Fail> {
    for line in MALFORMED {
        if !comes_so(alloc, disk, &(line, b"hello", Status::Words, b""))? {
            return Ok(false);
        }
    }
    no_words_are(alloc, disk)
}

#[test]
fn malformed_words_call_nothing(rt: HostRuntime) -> Result<(), Fail> {
    let mut disk = MemDisk::new(rt.alloc());
    assert!(rt; are_malformed(rt.alloc(), &mut disk)? && disk.calls() == 0);
    Ok(())
}

// The length of a body, and what comes of a `put`: what is answered, what is printed, and the size
// of the file.
type Long<'a> = (usize, Status, &'a [u8], Option<usize>);

const LONG: [Long<'static>; 5] = [
    (0, Status::Done, b"ok\n", Some(62)),
    (262_144, Status::Done, b"ok\n", Some(262_208)),
    (262_145, Status::Done, b"ok\n", Some(262_211)),
    (52_428_800, Status::Done, b"ok\n", Some(52_429_262)),
    (52_428_801, Status::No, b"too large\n", None),
];

fn size_on(disk: &MemDisk) -> Option<usize> {
    match disk.file(&place_of(KEY)) {
        Some(file) => Some(file.len()),
        None => None,
    }
}

// Whether a row comes so.
fn puts_long_on(alloc: Global, disk: &mut MemDisk, row: &Long<'_>) -> Result<bool, Fail> {
    let (len, status, text, size) = *row;
    let body = vec![in alloc; 7u8; len]?;
    Ok(comes_so(alloc, disk, &(PUT, &body, status, text))? && size_on(disk) == size)
}

// The same over an entry that stands.
fn puts_long(alloc: Global, row: &Long<'_>) -> Result<bool, Fail> {
    let mut disk = disk_with(alloc, KEY, FILE)?;
    puts_long_on(alloc, &mut disk, row)
}

#[test]
fn a_body_has_at_most_52428800_bytes(rt: HostRuntime) -> Result<(), Fail> {
    for index in 0..LONG.len() {
        assert!(rt; puts_long(rt.alloc(), &LONG[index])?, "row {index}");
    }
    Ok(())
}

fn put_hello(alloc: Global, disk: &mut MemDisk, key: &str) -> Result<Status, Fail> {
    let mut line = String::from_str(alloc, "1000 put ")?;
    line.push_str(key)?;
    Ok(ends(alloc, disk, line.as_str(), b"hello")?.0)
}

// Puts `hello` under a key on an empty disk.
fn put_under(alloc: Global, key: &str) -> Result<Status, Fail> {
    let mut disk = MemDisk::new(alloc);
    put_hello(alloc, &mut disk, key)
}

const KEYS: [(&str, Status); 8] = [
    ("", Status::No),
    ("x", Status::No),
    ("a:x", Status::No),
    ("a,", Status::No),
    (":x\0", Status::No),
    (":x\ny", Status::No),
    (":", Status::Done),
    ("a,~x,,y,:https://x/", Status::Done),
];

fn add_letters(key: &mut String, len: u32) -> Result<(), Fail> {
    for _ in 0..len {
        key.push('x')?;
    }
    Ok(())
}

// Puts `hello` under a key with so many letters after the colon.
fn put_under_long(alloc: Global, len: u32) -> Result<Status, Fail> {
    let mut key = String::from_str(alloc, ":")?;
    add_letters(&mut key, len)?;
    put_under(alloc, key.as_str())
}

#[test]
fn keys_are_refused_by_their_bytes(rt: HostRuntime) -> Result<(), Fail> {
    for index in 0..KEYS.len() {
        let (key, status) = KEYS[index];
        assert!(rt; put_under(rt.alloc(), key)? == status, "key {index}");
    }
    assert!(rt; put_under_long(rt.alloc(), 16_383)? == Status::Done);
    assert!(rt; put_under_long(rt.alloc(), 16_384)? == Status::No);
    Ok(())
}

// Whether the source's second call fails, and no entry stands.
fn starves(alloc: Global, disk: &mut MemDisk) -> Result<bool, Fail> {
    let (status, printed) = ends_starved(alloc, disk, PUT, b"hello", 2, 3)?;
    Ok(status == Status::Source && printed.as_slice().is_empty() && holds(disk, KEY, None))
}

#[test]
fn a_failing_source_leaves_no_entry(rt: HostRuntime) -> Result<(), Fail> {
    let mut disk = MemDisk::new(rt.alloc());
    assert!(rt; starves(rt.alloc(), &mut disk)?);
    Ok(())
}

// Whether the sink's first call fails, and the entry stands.
fn is_cut(alloc: Global, disk: &mut MemDisk) -> Result<bool, Fail> {
    let (status, printed) = ends_cut(alloc, disk, PUT, b"hello", 1)?;
    Ok(status == Status::Sink && printed.as_slice().is_empty() && holds(disk, KEY, Some(FILE)))
}

#[test]
fn a_failing_sink_leaves_the_entry(rt: HostRuntime) -> Result<(), Fail> {
    let mut disk = MemDisk::new(rt.alloc());
    assert!(rt; is_cut(rt.alloc(), &mut disk)?);
    Ok(())
}

// How many calls a `put` of `hello` makes.
fn calls_of_put(alloc: Global) -> Result<u64, Fail> {
    let mut disk = MemDisk::new(alloc);
    ends(alloc, &mut disk, PUT, b"hello")?;
    Ok(disk.calls())
}

// Each call of the disk ends the run: those of the opening, those that make and write the entry, and those of the
// closing. The reply goes out after that.
#[test]
fn each_failing_disk_call_ends_the_run(rt: HostRuntime) -> Result<(), Fail> {
    let calls = calls_of_put(rt.alloc())?;
    for number in 1..100u32 {
        if u64::from(number) > calls {
            break;
        }
        let disk = MemDisk::new(rt.alloc());
        let so = fails_at(rt.alloc(), disk, PUT, b"hello", number)?;
        assert!(rt; so, "at call {number}");
    }
    Ok(())
}

// Whether a file of this size stands aside that is empty or ends with the stop tail.
fn is_left(disk: &MemDisk, size: usize) -> bool {
    match disk.file(&Place::Doomed(0)) {
        Some(file) => file.len() == size
            && (file.is_empty() || file.ends_with(b"\xff\xff\xff\xff")),
        None => false,
    }
}

// Whether a `put` of this body ends with the disk's call of that number, and leaves so much.
fn leaves_on(
    alloc: Global,
    disk: &mut MemDisk,
    body: &[u8],
    number: u32,
    size: usize,
) -> Result<bool, Fail> {
    disk.fail_at(one_number(alloc, number)?);
    let (status, _) = ends(alloc, disk, PUT, body)?;
    Ok(status == Status::Disk && is_left(disk, size))
}

fn leaves(alloc: Global, body: &[u8], number: u32, size: usize) -> Result<bool, Fail> {
    let mut disk = MemDisk::new(alloc);
    leaves_on(alloc, &mut disk, body, number, size)
}

const LEFT: [(u32, usize); 3] = [
    (OPENING + 2, 0),
    (OPENING + 3, 262_148),
    (OPENING + 4, 524_292),
];

// What stands after each call of a `put` of two chunks that a stop ends: nothing that has been finished.
#[test]
fn a_stop_leaves_an_unfinished_file(rt: HostRuntime) -> Result<(), Fail> {
    let body = vec![in rt.alloc(); 7u8; 524_289]?;
    for index in 0..LEFT.len() {
        let (number, size) = LEFT[index];
        let so = leaves(rt.alloc(), &body, number, size)?;
        assert!(rt; so, "at call {number}");
    }
    Ok(())
}
