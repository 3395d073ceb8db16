use super::*;
use std::test::Fail;

const LIST_OF_PINNED: &[u8] = b"records 1\n\
    BB7A999A49F7463180DC23AA3BD59FA9ED5548C6 1000 F87FB192D2661A8C 65535 65535 0 84000001\n";

const BY_VERBS: [Row<'static>; 9] = [
    THREE,
    ("1001 clear ^a", b"", Status::Done, b"cleared 1\n"),
    ("1001 list", b"", Status::Done, LIST_OF_TWO),
    ("1001 clear ", b"", Status::Done, b"cleared 1\n"),
    ("1001 list", b"", Status::Done, LIST_OF_PINNED),
    ("1001 get O^a,:https://x/1", b"", Status::No, ABSENT),
    (
        "1001 get O^a,:https://x/2",
        b"",
        Status::Done,
        b"found 1 1000 1000 1000 4294967295 1 0 0\n\n\n",
    ),
    ("1001 get :https://x/3", b"", Status::No, ABSENT),
    ("1001 verify", b"", Status::Done, b"findings 0\n"),
];

const BY_SCRIPT: [Row<'static>; 3] = [
    THREE,
    (
        "1001 run",
        b"clear ^a\nhas O^a,:https://x/1\nhas O^a,:https://x/2\nclear \nhas :https://x/3\nlist\n",
        Status::Done,
        b"cleared 1\nno\nyes\ncleared 1\nno\nrecords 1\n\
        BB7A999A49F7463180DC23AA3BD59FA9ED5548C6 1000 F87FB192D2661A8C 65535 65535 0 84000001\n",
    ),
    ("1001 list", b"", Status::Done, LIST_OF_PINNED),
];

// Whether all rows end as they say, and then no mark stands.
fn are_cleared(alloc: Global, rows: &[Row<'_>]) -> Result<bool, Fail> {
    let mut disk = MemDisk::new(alloc);
    Ok(rows_so(alloc, &mut disk, rows)? == rows.len() && disk.file(&Place::Clear).is_none())
}

#[test]
fn an_origin_is_cleared(rt: HostRuntime) -> Result<(), Fail> {
    assert!(rt; are_cleared(rt.alloc(), &BY_VERBS)?);
    assert!(rt; are_cleared(rt.alloc(), &BY_SCRIPT)?);
    Ok(())
}

// An origin has single commas, and takes the anonymous entries too. Others, and what begins as it does, stay.
const OTHER_ORIGINS: [Row<'static>; 9] = [
    (
        "1000 run",
        b"create 0 O^a,,b,:x\nclose 0\ncreate 0 O^a,a,:x\nclose 0\n",
        Status::Done,
        b"ok\nok\nok\nok\n",
    ),
    ("1001 clear ^", b"", Status::Done, b"cleared 0\n"),
    ("1001 clear ", b"", Status::Done, b"cleared 0\n"),
    ("1001 clear ^a,,b", b"", Status::Done, b"cleared 0\n"),
    ("1001 clear ^A", b"", Status::Done, b"cleared 0\n"),
    ("1001 clear ^a", b"", Status::Done, b"cleared 1\n"),
    ("1001 get O^a,a,:x", b"", Status::No, ABSENT),
    ("1001 clear ^a,b", b"", Status::Done, b"cleared 1\n"),
    ("1001 list", b"", Status::Done, b"records 0\n"),
];

#[test]
fn only_the_origin_is_cleared(rt: HostRuntime) -> Result<(), Fail> {
    assert!(rt; are_cleared(rt.alloc(), &OTHER_ORIGINS)?);
    Ok(())
}

const MALFORMED: [Row<'static>; 8] = [
    ("1000 clear", b"", Status::Words, b""),
    ("1000 clear a b", b"", Status::Words, b""),
    ("1000 pin 0", b"", Status::Words, b""),
    ("1000 run", b"clear\n", Status::Script, b"script 1\n"),
    ("1000 run", b"pin\n", Status::Script, b"script 1\n"),
    ("1000 run", b"pin 64\n", Status::Script, b"script 1\n"),
    ("1000 run", b"unpin 3 \n", Status::Script, b"script 1\n"),
    (
        "1000 run",
        b"clear a b\nclear  \n",
        Status::Done,
        b"cleared 0\ncleared 0\n",
    ),
];

#[test]
fn malformed_words_clear_nothing(rt: HostRuntime) -> Result<(), Fail> {
    let so = rows_on_empty(rt.alloc(), &MALFORMED)?;
    assert!(rt; so == MALFORMED.len(), "row {so}");
    Ok(())
}
