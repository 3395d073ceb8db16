//! What a pin is, who sets it, and what stays by it.

use super::*;
use std::test::Fail;

const LISTED: &[u8] = b"records 1\n\
    E7B6F5F662C0DAF32123F79D1EE97F4F2B56A961 1000 DA39A3EE5E6B4B0D 65535 65535 0 80000001\n";

const REFUSED: [Row<'static>; 3] = [
    (
        "1000 run",
        b"pin 3\nunpin 3\ncreate 0 :x\nopen 3 :x\npin 3\nunpin 3\nfinish 0\npin 3\nunpin 3\nclose 0\npin 3\n",
        Status::Done,
        b"no slot\nno slot\nok\nok\nnot writer\nnot writer\nok\nnot writer\nnot writer\nok\nnot writer\n",
    ),
    ("1000 list", b"", Status::Done, LISTED),
    ("1000 verify", b"", Status::Done, b"findings 0\n"),
];

#[test]
fn only_a_writer_pins(rt: HostRuntime) -> Result<(), Fail> {
    let so = rows_on_empty(rt.alloc(), &REFUSED)?;
    assert!(rt; so == REFUSED.len(), "row {so}");
    Ok(())
}

// The entry of the key `:x` that is pinned no more.
const UNPINNED: &[u8] = b"\x06:\x9e\xbd\0\0\0\x03\0\0\0\x01\0\0\x03\xe8\0\0\x03\xe8\0\0\x03\xe8\
    \xff\xff\xff\xff\0\0\0\x02\0\0\0\0:x\0\0\0\0\0";

const PIN_FINISHED: [Row<'static>; 2] = [
    (
        "1000 run",
        b"create 0 :x\nfinish 0\npin 0\nlist\nunpin 0\nlist\npin 0\npin 0\nget :x\nclose 0\n",
        Status::Done,
        b"ok\nok\nok\nrecords 1\n\
        E7B6F5F662C0DAF32123F79D1EE97F4F2B56A961 1000 DA39A3EE5E6B4B0D 65535 65535 0 84000001\nok\nrecords 1\n\
        E7B6F5F662C0DAF32123F79D1EE97F4F2B56A961 1000 DA39A3EE5E6B4B0D 65535 65535 0 80000001\nok\nok\n\
        found 1 1000 1000 1000 4294967295 1 0 0\n\n\nok\n",
    ),
    ("1000 verify", b"", Status::Done, b"findings 0\n"),
];

const PIN_DRAFT: [Row<'static>; 1] = [(
    "1000 run",
    b"create 0 :x\npin 0\nunpin 0\npin 0\nclose 0\n",
    Status::Done,
    b"ok\nok\nok\nok\nok\n",
)];

const UNPIN: [Row<'static>; 1] = [(
    "1000 run",
    b"create 0 :x\npin 0\nfinish 0\nunpin 0\nunpin 0\nclose 0\n",
    Status::Done,
    b"ok\nok\nok\nok\nok\nok\n",
)];

// Bit 0 of the entry's flags is set, and bit 26 of its record's.
#[test]
fn a_pin_is_a_flag(rt: HostRuntime) -> Result<(), Fail> {
    assert!(rt; rows_turn(rt.alloc(), ":x", None, &PIN_FINISHED, Some(PINNED))?);
    assert!(rt; rows_turn(rt.alloc(), ":x", None, &PIN_DRAFT, Some(PINNED))?);
    assert!(rt; rows_turn(rt.alloc(), ":x", None, &UNPIN, Some(UNPINNED))?);
    Ok(())
}

const KEPT: [Row<'static>; 7] = [
    (
        "1000 run",
        b"create 0 :x\npin 0\nclose 0\ncreate 0 :b\nclose 0\n",
        Status::Done,
        b"ok\nok\nok\nok\nok\n",
    ),
    (
        "1001 evict 0",
        b"",
        Status::Done,
        b"evicted 1\nB93CCEFA28585E0321E57BD439D521347671FFF9\n",
    ),
    ("1001 clear ", b"", Status::Done, b"cleared 0\n"),
    ("1001 rebuild", b"", Status::Done, b"rebuilt 1\n"),
    ("1001 evict 0", b"", Status::Done, b"evicted 0\n"),
    ("1001 clear ", b"", Status::Done, b"cleared 0\n"),
    (
        "1001 get :x",
        b"",
        Status::Done,
        b"found 1 1000 1000 1000 4294967295 1 0 0\n\n\n",
    ),
];

const DOOMED: [Row<'static>; 2] = [
    ("1001 doom :x", b"", Status::Done, b"ok\n"),
    ("1001 list", b"", Status::Done, b"records 0\n"),
];

// A pinned entry goes by its key alone.
#[test]
fn a_pinned_entry_stays(rt: HostRuntime) -> Result<(), Fail> {
    assert!(rt; rows_turn(rt.alloc(), ":x", None, &KEPT, Some(PINNED))?);
    assert!(rt; rows_turn(rt.alloc(), ":x", Some(PINNED), &DOOMED, None)?);
    Ok(())
}
