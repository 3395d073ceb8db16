//! What the element `alt-data` says, in a script and in files.

use super::*;
use std::test::Fail;

// A value of the element of a body `hello`, and what `getalt` and `main` then print.
type Told<'a> = (&'a [u8], &'a [u8]);

const NO_DATA: &[u8] = b"no alt\nmain 5\nhello\n";

const TOLD: [Told<'static>; 17] = [
    (b"1;3,x", b"alt 2 x\nlo\nmain 3\nhel\n"),
    (b"1;5,x", b"alt 0 x\n\nmain 5\nhello\n"),
    (b"1;0,a,b", b"alt 5 a,b\nhello\nmain 0\n\n"),
    (b"1;4,a b;", b"alt 1 a b;\no\nmain 4\nhell\n"),
    (b"", NO_DATA),
    (b"1;05,x", NO_DATA),
    (b"1;9,x", NO_DATA),
    (b"1;6,x", NO_DATA),
    (b"1;3", NO_DATA),
    (b"1;3,", NO_DATA),
    (b"2;3,x", NO_DATA),
    (b"1;,x", NO_DATA),
    (b"1,3,x", NO_DATA),
    (b"1;-3,x", NO_DATA),
    (b"1; 3,x", NO_DATA),
    (b" 1;3,x", NO_DATA),
    (b"1;4294967296,x", NO_DATA),
];

// Whether they do, and no data are put after these.
fn tells(alloc: Global, told: &Told<'_>) -> Result<bool, Fail> {
    let (value, replies) = *told;
    let mut script = bytes(alloc, b"create 0 :x\nappend 0 5\nhello\n")?;
    add_number(alloc, &mut script, b"set 0 ", value.len(), b" alt-data\n")?;
    script.extend(value)?;
    script.extend(b"\nfinish 0\ngetalt :x\nmain :x\nputalt 0 1 t\nz\nverify\n")?;
    let text = joined(
        alloc,
        &[b"ok\nok\nok\nok\n", replies, b"has alt\nfindings 0\n"],
    )?;
    let mut disk = MemDisk::new(alloc);
    let row: Row<'_> = ("1000 run", script.as_slice(), Status::Done, text.as_slice());
    comes_so(alloc, &mut disk, &row)
}

#[test]
fn values_tell_of_data_or_of_none(rt: HostRuntime) -> Result<(), Fail> {
    for index in 0..TOLD.len() {
        assert!(rt; tells(rt.alloc(), &TOLD[index])?, "row {index}");
    }
    Ok(())
}

// The file of `hello` with two elements `alt-data`: `1;9,x` and then `1;3,y`, and the other way round.
const FIRST_PAST_THE_END: &[u8] = b"hello\xa5\x1a\x0e\xc6\x39\x9e\
    \0\0\0\x03\0\0\0\x01\0\0\x03\xe8\0\0\x03\xe8\0\0\x03\xe8\xff\xff\xff\xff\0\0\0\x15\0\0\0\0\
    :https://example.com/\0alt-data\x001;9,x\0alt-data\x001;3,y\0\0\0\0\x05";

const FIRST_WITHIN: &[u8] = b"hello\xfa\x66\x79\xc7\x39\x9e\
    \0\0\0\x03\0\0\0\x01\0\0\x03\xe8\0\0\x03\xe8\0\0\x03\xe8\xff\xff\xff\xff\0\0\0\x15\0\0\0\0\
    :https://example.com/\0alt-data\x001;3,y\0alt-data\x001;9,x\0\0\0\0\x05";

// The file of `hello` with the data `XY` of the kind `wasm` after it.
const FILE_WITH_DATA: &[u8] = b"helloXY\xc2\x5e\x17\x17\xbb\x42\
    \0\0\0\x03\0\0\0\x01\0\0\x03\xe8\0\0\x03\xe8\0\0\x03\xe8\xff\xff\xff\xff\0\0\0\x15\0\0\0\0\
    :https://example.com/\0alt-data\x001;5,wasm\0\0\0\0\x07";

const GETALT: &str = "1000 getalt :https://example.com/";

const MAIN: &str = "1000 main :https://example.com/";

const DAMAGE: &[u8] = b"damaged 0 399E 6DAA\n";

const OF_PAST_THE_END: [Row<'static>; 3] = [
    (GETALT, b"", Status::No, b"no alt\n"),
    (MAIN, b"", Status::Done, b"main 5\nhello\n"),
    VERIFY,
];

const OF_WITHIN: [Row<'static>; 3] = [
    (GETALT, b"", Status::Done, b"alt 2 y\nlo\n"),
    (MAIN, b"", Status::Done, b"main 3\nhel\n"),
    VERIFY,
];

const OF_DAMAGED: [Row<'static>; 2] = [
    (GETALT, b"", Status::No, DAMAGE),
    (MAIN, b"", Status::No, DAMAGE),
];

const PUT_DATA: [Row<'static>; 2] = [
    (
        "1000 run",
        b"create 0 :https://example.com/\nappend 0 5\nhello\nfinish 0\nputalt 0 2 wasm\nXY\n",
        Status::Done,
        b"ok\nok\nok\nok\n",
    ),
    VERIFY,
];

// Whether the rows end as they say where this file stands, and leave it.
fn rows_keep(alloc: Global, rows: &[Row<'_>], file: &[u8]) -> Result<bool, Fail> {
    rows_turn(alloc, KEY, Some(file), rows, Some(file))
}

// The first element of the name counts alone, and a damaged body is not shown.
#[test]
fn files_are_read_with_their_data(rt: HostRuntime) -> Result<(), Fail> {
    assert!(rt; rows_keep(rt.alloc(), &OF_PAST_THE_END, FIRST_PAST_THE_END)?);
    assert!(rt; rows_keep(rt.alloc(), &OF_WITHIN, FIRST_WITHIN)?);
    assert!(rt; rows_keep(rt.alloc(), &OF_DAMAGED, DAMAGED)?);
    assert!(rt; rows_turn(rt.alloc(), KEY, None, &PUT_DATA, Some(FILE_WITH_DATA))?);
    Ok(())
}
