use super::*;
use std::test::Fail;

const WORKED: [Row<'static>; 13] = [
    (
        "1000 run",
        b"create 0 :x\nappend 0 3\nabc\nfinish 0\nputalt 0 2 wasm\nXY\ngetalt :x\nmain :x\n",
        Status::Done,
        b"ok\nok\nok\nok\nalt 2 wasm\nXY\nmain 3\nabc\n",
    ),
    (
        "1000 list",
        b"",
        Status::Done,
        b"records 1\nE7B6F5F662C0DAF32123F79D1EE97F4F2B56A961 1000 DA39A3EE5E6B4B0D 65535 65535 0 82000001\n",
    ),
    ("1000 getalt :x", b"", Status::Done, b"alt 2 wasm\nXY\n"),
    ("1000 main :x", b"", Status::Done, b"main 3\nabc\n"),
    (
        "1000 get :x",
        b"",
        Status::Done,
        b"found 1 1000 1000 1000 4294967295 0 18 5\nalt-data\x001;3,wasm\x00\nabcXY\n",
    ),
    (
        "1000 run",
        b"open 1 :x\nread 1 0 9\nread 1 2 2\nelement 1 alt-data\nclose 1\nhas :x\n",
        Status::Done,
        b"ok\ndata 5\nabcXY\ndata 2\ncX\nvalue 8\n1;3,wasm\nok\nyes\n",
    ),
    ("1000 verify", b"", Status::Done, b"findings 0\n"),
    ("1000 put :p", b"hello", Status::Done, b"ok\n"),
    ("1000 getalt :p", b"", Status::No, b"no alt\n"),
    ("1000 main :p", b"", Status::Done, b"main 5\nhello\n"),
    ("1000 getalt :n", b"", Status::No, ABSENT),
    ("1000 main :n", b"", Status::No, ABSENT),
    (
        "1000 run",
        b"getalt a:x\nmain a:x\ncreate 0 :x\ngetalt :x\nmain :x\n",
        Status::Done,
        b"bad key\nbad key\nok\nunfinished\nunfinished\n",
    ),
];

#[test]
fn data_are_kept_after_a_body(rt: HostRuntime) -> Result<(), Fail> {
    let so = rows_on_empty(rt.alloc(), &WORKED)?;
    assert!(rt; so == WORKED.len(), "row {so}");
    Ok(())
}

// Lines that are no commands.
const MALFORMED: [Row<'static>; 5] = [
    (
        "1000 run",
        b"putalt 0 4194305 t\n",
        Status::Script,
        b"script 1\n",
    ),
    (
        "1000 run",
        b"putalt 0 2\nXY\n",
        Status::Script,
        b"script 1\n",
    ),
    (
        "1000 run",
        b"putalt 64 0 t\n\n",
        Status::Script,
        b"script 1\n",
    ),
    (
        "1000 run",
        b"putalt 0 1 t\nXY\n",
        Status::Script,
        b"script 1\n",
    ),
    ("1000 putalt 0 0 t", b"", Status::Words, b""),
];

#[test]
fn malformed_data_are_no_command(rt: HostRuntime) -> Result<(), Fail> {
    let so = rows_on_empty(rt.alloc(), &MALFORMED)?;
    assert!(rt; so == MALFORMED.len(), "row {so}");
    Ok(())
}

// Data after the body of a doomed entry, and of one that a reader has in use.
const IN_USE: [Row<'static>; 4] = [
    (
        "1000 run",
        b"create 0 :x\nappend 0 3\nabc\nfinish 0\ndoom :x\nread 0 0 9\nputalt 0 2 wasm\nXY\nread 0 0 9\n\
        element 0 alt-data\nputalt 0 2 wasm\nXY\ngetalt :x\nmain :x\nclose 0\n",
        Status::Done,
        b"ok\nok\nok\nok\ndata 3\nabc\nok\ndata 5\nabcXY\nvalue 8\n1;3,wasm\nhas alt\nabsent\nabsent\nok\n",
    ),
    ("1000 list", b"", Status::Done, b"records 0\n"),
    (
        "1000 run",
        b"create 0 :x\nappend 0 3\nabc\nfinish 0\nopen 1 :x\nread 1 0 9\nputalt 0 2 wasm\nXY\nread 1 0 9\n\
        use 1\nclose 0\nread 1 2 9\ngetalt :x\nmain :x\nclose 1\n",
        Status::Done,
        b"ok\nok\nok\nok\ndata 3\nabc\nok\ndata 5\nabcXY\nok\nok\ndata 3\ncXY\nalt 2 wasm\nXY\nmain 3\nabc\nok\n",
    ),
    VERIFY,
];

#[test]
fn an_entry_in_use_gets_data(rt: HostRuntime) -> Result<(), Fail> {
    let so = rows_on_empty(rt.alloc(), &IN_USE)?;
    assert!(rt; so == IN_USE.len(), "row {so}");
    Ok(())
}
