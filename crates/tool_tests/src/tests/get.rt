use super::*;
use std::test::Fail;

const BROWSER_KEY: &str = "O^partitionKey=%28https%2Cexample.com%29,:https://example.com/style.css";

// What a browser writes after a body of 1,000 times `x`: 9 fetches, pinned, with six elements.
const AFTER_A_BROWSER_BODY: &[u8] =
    b"\x9c\xd8m]Z1\0\0\0\x03\0\0\0\x09eS\xf1\0_^\x10\0\0\0\x01\xf4\xff\xff\xff\xff\0\0\0G\0\0\0\x01O^parti\
    tionKey=%28https%2Cexample.com%29,:https://example.com/style.css\0security-info\0FnhllAKW\0request-m\
    ethod\0GET\0response-head\0HTTP/1.1 200 OK\r\n\0ctid\05\0net-response-time-onstart\012\0net-response\
    -time-onstop\015\0\0\0\x03\xe8";

// What is printed of it before the body.
const BROWSER_HEAD: &[u8] =
    b"found 9 1700000000 1600000000 500 4294967295 1 138 1000\nsecurity-info\0FnhllAKW\0request-method\0GET\0response-head\0HTTP/1.1 200 OK\r\n\0ctid\05\0net-respo\
    nse-time-onstart\012\0net-response-time-onstop\015\0\n";

// Whether a `get` ends so, and prints this, where this file stands at the place of the key.
fn gets(
    alloc: Global,
    line: &str,
    key: &str,
    file: &[u8],
    status: Status,
    text: &[u8],
) -> Result<bool, Fail> {
    let mut disk = disk_with(alloc, key, file)?;
    comes_so(alloc, &mut disk, &(line, b"unread", status, text))
}

const PUT_AND_GET: [Row<'static>; 5] = [
    (GET, b"", Status::No, ABSENT),
    (PUT, b"", Status::Done, b"ok\n"),
    (
        GET,
        b"",
        Status::Done,
        b"found 1 1000 1000 1000 4294967295 0 0 0\n\n\n",
    ),
    (PUT, b"hello", Status::Done, b"ok\n"),
    (GET, b"", Status::Done, FOUND),
];

#[test]
fn what_is_put_is_got(rt: HostRuntime) -> Result<(), Fail> {
    assert!(rt; rows_turn(rt.alloc(), KEY, None, &PUT_AND_GET, Some(FILE))?);
    Ok(())
}

// Words, the key at whose place a file stands, that file, and how the words end.
type Case<'a> = (&'a str, &'a str, &'a [u8], Status, &'a [u8]);

const CASES: [Case<'static>; 7] = [
    (GET, KEY, FILE, Status::Done, FOUND),
    (GET, KEY, FIRST, Status::Done, FOUND),
    (GET, KEY, SECOND, Status::Done, FOUND),
    (GET, KEY, SECOND_PINNED, Status::Done, FOUND_PINNED),
    (GET, KEY, DAMAGED, Status::No, b"damaged 0 399E 6DAA\n"),
    ("1000 get :other", ":other", FILE, Status::No, ABSENT),
    ("1000 get a:x", "a:x", FILE, Status::No, b"bad key\n"),
];

#[test]
fn files_are_found_or_refused(rt: HostRuntime) -> Result<(), Fail> {
    for index in 0..CASES.len() {
        let (line, key, file, status, text) = CASES[index];
        assert!(rt;
            gets(rt.alloc(), line, key, file, status, text)?,
            "row {index}"
        );
    }
    assert!(rt; gets(rt.alloc(), GET, KEY, &FILE[..68], Status::No, ABSENT)?);
    Ok(())
}

// The file of version 2 with the flag of a pinned entry.
const SECOND_PINNED: &[u8] = b"hello\xa8\xca\xa9\xea\x39\x9e\
    \0\0\0\x02\0\0\0\x01\0\0\x03\xe8\0\0\x03\xe8\0\0\x03\xe8\xff\xff\xff\xff\0\0\0\x15\0\0\0\x01\
    :https://example.com/\0\0\0\0\x05";

const FOUND_PINNED: &[u8] = b"found 1 1000 1000 1000 4294967295 1 0 5\n\nhello\n";

// Files of versions that there are not, each with the right hash.
const VERSION_0: &[u8] = b"hello\xfc\x1c\xc1\xcd\x39\x9e\
    \0\0\0\0\0\0\0\x01\0\0\x03\xe8\0\0\x03\xe8\0\0\x03\xe8\xff\xff\xff\xff\0\0\0\x15\0\0\0\0\
    :https://example.com/\0\0\0\0\x05";

const VERSION_4: &[u8] = b"hello\xb2\xab\x53\xb4\x39\x9e\
    \0\0\0\x04\0\0\0\x01\0\0\x03\xe8\0\0\x03\xe8\0\0\x03\xe8\xff\xff\xff\xff\0\0\0\x15\0\0\0\0\
    :https://example.com/\0\0\0\0\x05";

const LAST_VERSION: &[u8] = b"hello\x80\x95\x15\x34\x39\x9e\
    \xff\xff\xff\xff\0\0\0\x01\0\0\x03\xe8\0\0\x03\xe8\0\0\x03\xe8\xff\xff\xff\xff\0\0\0\x15\0\0\0\0\
    :https://example.com/\0\0\0\0\x05";

// Files of version 1, with the right hash, too: without the zero byte after the header, with an empty key, and with a
// key that ends one byte later than it should, or past all.
const FIRST_SHORT: &[u8] = b"hello\x8b\xbc\x7a\x6a\x39\x9e\
    \0\0\0\x01\0\0\0\x01\0\0\x03\xe8\0\0\x03\xe8\0\0\x03\xe8\xff\xff\xff\xff\0\0\0\0\
    \0\0\0\x05";

const FIRST_NO_KEY: &[u8] = b"hello\x8e\x8a\x96\x81\x39\x9e\
    \0\0\0\x01\0\0\0\x01\0\0\x03\xe8\0\0\x03\xe8\0\0\x03\xe8\xff\xff\xff\xff\0\0\0\0\
    \0\0\0\0\x05";

const FIRST_LONG_KEY: &[u8] = b"hello\xd8\x88\xbd\x98\x39\x9e\
    \0\0\0\x01\0\0\0\x01\0\0\x03\xe8\0\0\x03\xe8\0\0\x03\xe8\xff\xff\xff\xff\0\0\0\x16\
    :https://example.com/\0\0\0\0\x05";

const FIRST_ENDLESS_KEY: &[u8] = b"hello\xd3\xe9\x2c\x64\x39\x9e\
    \0\0\0\x01\0\0\0\x01\0\0\x03\xe8\0\0\x03\xe8\0\0\x03\xe8\xff\xff\xff\xff\xff\xff\xff\xff\
    :https://example.com/\0\0\0\0\x05";

const NO_VERSION: &[u8] = b"findings 1\n68BC13FA477009A295E32BF01651A14CAB377A5C unfit version\n";

const NO_KEY_END: &[u8] = b"findings 1\n68BC13FA477009A295E32BF01651A14CAB377A5C unfit key-end\n";

// Files that do not fit, and what `verify` prints of each.
const UNFIT_FILES: [(&[u8], &[u8]); 7] = [
    (VERSION_0, NO_VERSION),
    (VERSION_4, NO_VERSION),
    (LAST_VERSION, NO_VERSION),
    (
        FIRST_SHORT,
        b"findings 1\n68BC13FA477009A295E32BF01651A14CAB377A5C unfit short\n",
    ),
    (
        FIRST_NO_KEY,
        b"findings 1\n68BC13FA477009A295E32BF01651A14CAB377A5C unfit key-form\n",
    ),
    (FIRST_LONG_KEY, NO_KEY_END),
    (FIRST_ENDLESS_KEY, NO_KEY_END),
];

// Whether a file is absent for `get`, and `verify` prints this of it.
fn is_unfit(alloc: Global, file: &[u8], text: &[u8]) -> Result<bool, Fail> {
    Ok(
        gets(alloc, GET, KEY, file, Status::No, ABSENT)?
            && gets(alloc, "1000 verify", KEY, file, Status::No, text)?,
    )
}

#[test]
fn files_of_no_version_are_absent(rt: HostRuntime) -> Result<(), Fail> {
    for index in 0..UNFIT_FILES.len() {
        let (file, text) = UNFIT_FILES[index];
        assert!(rt; is_unfit(rt.alloc(), file, text)?, "row {index}");
    }
    Ok(())
}

const LOOK: [Row<'static>; 3] = [
    (GET, b"", Status::Done, FOUND),
    (
        "1000 run",
        b"open 0 :https://example.com/\nread 0 1 9\nclose 0\n",
        Status::Done,
        b"ok\ndata 4\nello\nok\n",
    ),
    ("1000 verify", b"", Status::Done, b"findings 0\n"),
];

const USE: [Row<'static>; 2] = [
    (
        "1000 run",
        b"open 0 :https://example.com/\nuse 0\nclose 0\n",
        Status::Done,
        b"ok\nok\nok\n",
    ),
    (GET, b"", Status::Done, FOUND_USED),
];

// An old file is read as it is, and stays so; once its metadata are written anew it has version 3.
fn is_old_until_used(alloc: Global, old: &[u8]) -> Result<bool, Fail> {
    let mut disk = disk_with(alloc, KEY, old)?;
    let looks = rows_leave(alloc, &mut disk, &LOOK, KEY, Some(old))?;
    Ok(looks && rows_leave(alloc, &mut disk, &USE, KEY, Some(USED))?)
}

#[test]
fn old_files_become_new_by_a_use(rt: HostRuntime) -> Result<(), Fail> {
    assert!(rt; FIRST.len() == 65 && SECOND.len() == 69 && USED.len() == 69);
    assert!(rt; is_old_until_used(rt.alloc(), FIRST)?);
    assert!(rt; is_old_until_used(rt.alloc(), SECOND)?);
    Ok(())
}

// An old entry that is doomed while it is read goes on as what it was.
const READ_DOOMED: [Row<'static>; 1] = [(
    "1000 run",
    b"open 0 :https://example.com/\ndoom :https://example.com/\nread 0 0 9\nuse 0\nread 0 0 9\nclose 0\n",
    Status::Done,
    b"ok\nok\ndata 5\nhello\nok\ndata 5\nhello\nok\n",
)];

#[test]
fn an_old_file_is_read_among_the_doomed(rt: HostRuntime) -> Result<(), Fail> {
    assert!(rt; rows_turn(rt.alloc(), KEY, Some(FIRST), &READ_DOOMED, None)?);
    assert!(rt; rows_turn(rt.alloc(), KEY, Some(SECOND), &READ_DOOMED, None)?);
    Ok(())
}

fn prints_each(alloc: Global, file: &[u8]) -> Result<bool, Fail> {
    let text = repeated(alloc, HEAD_OF_TWO_CHUNKS, b'a', 262_144, b"b\n")?;
    gets(alloc, GET, KEY, file, Status::Done, text.as_slice())
}

#[test]
fn each_chunk_of_a_body_is_printed(rt: HostRuntime) -> Result<(), Fail> {
    let file = file_of_two_chunks(rt.alloc())?;
    assert!(rt; prints_each(rt.alloc(), file.as_slice())?);
    Ok(())
}

// Whether this is printed where a chunk of this byte and a `c` stand before the rest of the file.
fn names_damage(alloc: Global, rest: &[u8], byte: u8, text: &[u8]) -> Result<bool, Fail> {
    let mut damaged = repeated(alloc, b"", byte, 262_144, b"c")?;
    damaged.extend(rest)?;
    gets(alloc, GET, KEY, damaged.as_slice(), Status::No, text)
}

fn names_the_first(alloc: Global, file: &[u8]) -> Result<bool, Fail> {
    let rest = file.get(262_145..).ok_or("too short")?;
    Ok(
        names_damage(alloc, rest, b'a', b"damaged 1 A597 BEDB\n")?
            && names_damage(alloc, rest, 0, b"damaged 0 0D4B 1826\n")?,
    )
}

#[test]
fn the_first_damaged_chunk_is_named(rt: HostRuntime) -> Result<(), Fail> {
    let file = file_of_two_chunks(rt.alloc())?;
    assert!(rt; names_the_first(rt.alloc(), file.as_slice())?);
    Ok(())
}

const GET_OF_A_BROWSER: &str =
    "1000 get O^partitionKey=%28https%2Cexample.com%29,:https://example.com/style.css";

fn prints_browser(alloc: Global, file: &[u8]) -> Result<bool, Fail> {
    let text = repeated(alloc, BROWSER_HEAD, b'x', 1_000, b"\n")?;
    gets(
        alloc,
        GET_OF_A_BROWSER,
        BROWSER_KEY,
        file,
        Status::Done,
        text.as_slice(),
    )
}

#[test]
fn the_entry_of_a_browser_is_found_whole(rt: HostRuntime) -> Result<(), Fail> {
    let file = repeated(rt.alloc(), b"", b'x', 1_000, AFTER_A_BROWSER_BODY)?;
    assert!(rt; prints_browser(rt.alloc(), file.as_slice())?);
    Ok(())
}

// Whether a look that fails at this call ends the run, with this text.
fn look_fails(alloc: Global, number: u32, text: &[u8]) -> Result<bool, Fail> {
    let mut disk = disk_with(alloc, KEY, FILE)?;
    disk.fail_at(one_number(alloc, number)?);
    let (status, printed) = ends(alloc, &mut disk, GET, b"")?;
    Ok(status == Status::Disk && printed.as_slice() == text)
}

// After the opening the calls look for the size and the last bytes; the body is read once, to be checked, and printed
// from there. A short reply goes out as one. So each look of the command is answered by the line.
#[test]
fn each_failing_look_ends_the_run(rt: HostRuntime) -> Result<(), Fail> {
    for number in 1..OPENING + 1 {
        assert!(rt; look_fails(rt.alloc(), number, b"")?, "at call {number}");
    }
    for number in OPENING + 1..OPENING + 4 {
        assert!(rt;
            look_fails(rt.alloc(), number, b"fault\n")?,
            "at call {number}"
        );
    }
    assert!(rt; look_fails(rt.alloc(), OPENING + 4, FOUND)?);
    Ok(())
}

// Whether this is printed before the sink's call of this number fails.
fn cuts(alloc: Global, file: &[u8], number: u32, text: &[u8]) -> Result<bool, Fail> {
    let mut disk = disk_with(alloc, KEY, file)?;
    let (status, printed) = ends_cut(alloc, &mut disk, GET, b"", number)?;
    Ok(status == Status::Sink && printed.as_slice() == text)
}

fn cuts_twice(alloc: Global, file: &[u8]) -> Result<bool, Fail> {
    Ok(cuts(alloc, file, 1, b"")? && cuts(alloc, file, 2, HEAD_OF_TWO_CHUNKS)?)
}

#[test]
fn a_failing_sink_cuts_the_reply(rt: HostRuntime) -> Result<(), Fail> {
    let file = file_of_two_chunks(rt.alloc())?;
    assert!(rt; cuts_twice(rt.alloc(), file.as_slice())?);
    Ok(())
}
