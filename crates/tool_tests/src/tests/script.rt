use super::*;
use std::test::Fail;

// Whether a script ends so on a disk, and just this text is printed.
fn runs(
    alloc: Global,
    disk: &mut MemDisk,
    script: &[u8],
    status: Status,
    text: &[u8],
) -> Result<bool, Fail> {
    comes_so(alloc, disk, &("1000 run", script, status, text))
}

// Whether it does on an empty disk.
fn runs_on_empty(alloc: Global, script: &[u8], status: Status, text: &[u8]) -> Result<bool, Fail> {
    let mut disk = MemDisk::new(alloc);
    runs(alloc, &mut disk, script, status, text)
}

// A reader reads on in an entry that was doomed and made anew.
const A_READER_OUTLIVES_ITS_ENTRY: (&[u8], &[u8]) = (
    b"create 0 :https://x/\nappend 0 3\nold\nclose 0\nopen 1 :https://x/\ndoom :https://x/\ncreate 2 :https://x/\n\
    append 2 3\nnew\nget :https://x/\nread 1 0 10\nclose 2\nget :https://x/\n",
    b"ok\nok\nok\nok\nok\nok\nok\nunfinished\ndata 3\nold\nok\nfound 1 1000 1000 1000 4294967295 0 0 3\n\nnew\n",
);

const ELEMENTS: (&[u8], &[u8]) = (
    b"create 0 :x\nset 0 1 ctid\n5\nset 0 0 \n\nelement 0 ctid\nunset 0 none\nfinish 0\nappend 0 1\nz\nuse 0\n",
    b"ok\nok\nbad element\nvalue 1\n5\nnone\nok\nfinished\nok\n",
);

// A use is counted at its moment, and the frecency follows: of an unfinished entry as of a finished one, by any slot.
const USES: (&[u8], &[u8]) = (
    b"create 0 :x\nuse 0\nclose 0\nget :x\nopen 1 :x\nat 2000\nuse 1\nget :x\nuse 2\n",
    b"ok\nok\nok\nfound 2 1000 1000 22600 4294967295 0 0 0\n\n\n\
    ok\nok\nok\nfound 3 2000 1000 35650 4294967295 0 0 0\n\n\nno slot\n",
);

// An entry that is open stays, finished or not, and its size counts once it is finished.
const OPEN_ENTRIES_STAY: (&[u8], &[u8]) = (
    b"create 0 :x\nevict 0\nfinish 0\nevict 0\nopen 1 :x\nclose 0\nevict 0\nclose 1\nevict 1\nevict 0\nhas :x\n",
    b"ok\nevicted 0\nok\nevicted 0\nok\nok\nevicted 0\nok\nevicted 0\n\
    evicted 1\nE7B6F5F662C0DAF32123F79D1EE97F4F2B56A961\nno\n",
);

// What is written at a later moment has it, and two keys are two entries.
const MOMENTS: (&[u8], &[u8]) = (
    b"at 5\ncreate 0 :x\ncreate 1 :y\nclose 0\nat 6\nclose 1\nget :x\nflush\n",
    b"ok\nok\nok\nok\nok\nok\nfound 1 5 5 5 4294967295 0 0 0\n\n\nok\n",
);

// The refusals, each with what makes it.
const REFUSALS: (&[u8], &[u8]) = (
    b"create 0 a:x\nopen 0 :x\nget :x\ndoom :x\nclose 0\nappend 0 0\n\nfinish 0\nset 0 1 a\nb\nunset 0 a\nelement 0 a\n\
    read 0 0 1\ncreate 0 :x\ncreate 0 :y\nopen 0 :x\nget :x\nopen 1 :x\nappend 1 0\n\nfinish 1\nset 1 1 a\nb\nunset 1 a\n\
    set 0 1 a\n\0\nfinish 0\nfinish 0\nappend 0 0\n\n",
    b"bad key\nabsent\nabsent\nabsent\nno slot\nno slot\nno slot\nno slot\nno slot\nno slot\n\
    no slot\nok\nslot taken\nslot taken\nunfinished\nok\nnot writer\nnot writer\nnot writer\nnot writer\n\
    bad element\nok\nfinished\nfinished\n",
);

// What is there, by the records: an unfinished entry is not, nor a doomed one.
const THERE: (&[u8], &[u8]) = (
    b"has :x\ncreate 0 :x\nhas :x\nclose 0\nhas :x\nhas x\ndoom :x\nhas :x\n",
    b"no\nok\nno\nok\nyes\nbad key\nok\nno\n",
);

const THREE_RECORDS: (&[u8], &[u8]) = (
    b"create 0 :a\nclose 0\ncreate 0 :b\nclose 0\ncreate 0 :c\nclose 0\nrebuild\n",
    b"ok\nok\nok\nok\nok\nok\nrebuilt 3\n",
);

const SCRIPTS: [(&[u8], &[u8]); 12] = [
    (b"", b""),
    (b"list\n", b"records 0\n"),
    (b"rebuild\n", b"rebuilt 0\n"),
    (b"state\nstep 1\n", b"ready\nready\n"),
    THERE,
    THREE_RECORDS,
    A_READER_OUTLIVES_ITS_ENTRY,
    ELEMENTS,
    USES,
    OPEN_ENTRIES_STAY,
    MOMENTS,
    REFUSALS,
];

// Whether a script ends with this text, and leaves no doomed file and no name that is
// not synced.
fn answers_on(alloc: Global, disk: &mut MemDisk, script: &[u8], text: &[u8]) -> Result<bool, Fail> {
    Ok(
        runs(alloc, disk, script, Status::Done, text)?
            && disk.file(&Place::Doomed(0)).is_none()
            && disk.name_steps() == 0,
    )
}

fn answers(alloc: Global, script: &[u8], text: &[u8]) -> Result<bool, Fail> {
    let mut disk = MemDisk::new(alloc);
    answers_on(alloc, &mut disk, script, text)
}

#[test]
fn scripts_are_answered(rt: HostRuntime) -> Result<(), Fail> {
    for index in 0..SCRIPTS.len() {
        let (script, text) = SCRIPTS[index];
        assert!(rt; answers(rt.alloc(), script, text)?, "script {index}");
    }
    Ok(())
}

const BAD_AFTER_OTHERS: [(&[u8], &[u8]); 2] = [
    (b"at 5\nfly\n", b"ok\nscript 2\n"),
    (
        b"create 63 :x\ncreate 63 :y\nclose 3\ncreate 64 :x\nclose 63\n",
        b"ok\nslot taken\nno slot\nscript 4\n",
    ),
];

// Whether the entry that was finished stands, and not the one whose bytes are too many.
fn leaves_the_finished(alloc: Global, disk: &mut MemDisk) -> Result<bool, Fail> {
    let script =
        b"create 0 :https://example.com/\nappend 0 5\nhello\nclose 0\ncreate 1 :x\nappend 1 1\nab\n";
    let text = b"ok\nok\nok\nok\nscript 5\n";
    Ok(
        runs(alloc, disk, script, Status::Script, text)?
            && holds(disk, KEY, Some(FILE))
            && holds(disk, ":x", None),
    )
}

// The commands before a bad one are performed, and what they leave stands.
#[test]
fn a_bad_command_ends_the_script(rt: HostRuntime) -> Result<(), Fail> {
    for index in 0..BAD_AFTER_OTHERS.len() {
        let (script, text) = BAD_AFTER_OTHERS[index];
        let so = runs_on_empty(rt.alloc(), script, Status::Script, text)?;
        assert!(rt; so, "script {index}");
    }
    let mut disk = MemDisk::new(rt.alloc());
    assert!(rt; leaves_the_finished(rt.alloc(), &mut disk)?);
    Ok(())
}

const MALFORMED: [&[u8]; 35] = [
    b"\n",
    b"fly\n",
    b"flush",
    b"flush \n",
    b"flush\r\n",
    b" flush\n",
    b"FLUSH\n",
    b"at\n",
    b"at 05\n",
    b"at -1\n",
    b"at 5 \n",
    b"at 4294967296\n",
    b"create 64 :x\n",
    b"create 00 :x\n",
    b"create 0\n",
    b"append 0 1048577\n",
    b"append 0 3\nab",
    b"append 0 3\nabcd\n",
    b"set 0 65537 a\n",
    b"set 0 1\nb\n",
    b"read 0 1\n",
    b"close 0 \n",
    b"doom\n",
    b"get\n",
    b"has\n",
    b"list \n",
    b"step\n",
    b"step -1\n",
    b"state \n",
    b"rebuild \n",
    b"use\n",
    b"use 64\n",
    b"evict\n",
    b"evict 4294967296\n",
    b"resume\n",
];

#[test]
fn malformed_lines_are_named(rt: HostRuntime) -> Result<(), Fail> {
    for index in 0..MALFORMED.len() {
        let so = runs_on_empty(rt.alloc(), MALFORMED[index], Status::Script, b"script 1\n")?;
        assert!(rt; so, "line {index}");
    }
    Ok(())
}

// Adds a `get` of so many bytes.
fn add_get(script: &mut Bytes, len: usize) -> Result<(), NoMemory> {
    script.extend(b"get ")?;
    for _ in 0..len {
        script.push(b'x')?;
    }
    script.push(b'\n')
}

// Whether a script of a `get` of so many bytes ends so.
fn gets_long(alloc: Global, len: usize, status: Status, text: &[u8]) -> Result<bool, Fail> {
    let mut script = Bytes::new(alloc);
    add_get(&mut script, len)?;
    runs_on_empty(alloc, script.as_slice(), status, text)
}

// A line may have 20,000 bytes.
#[test]
fn long_lines_are_bad(rt: HostRuntime) -> Result<(), Fail> {
    let fits = gets_long(rt.alloc(), 19_996, Status::Done, b"bad key\n")?;
    let is_bad = gets_long(rt.alloc(), 19_997, Status::Script, b"script 1\n")?;
    assert!(rt; fits && is_bad, "{fits} {is_bad}");
    Ok(())
}

// Whether the two commands before the third call of the source are answered.
fn answers_starved(alloc: Global, disk: &mut MemDisk) -> Result<bool, Fail> {
    let script = b"at 5\nat 6\nat 7\n";
    let (status, printed) = ends_starved(alloc, disk, "1000 run", script, 3, 6)?;
    Ok(status == Status::Source && printed.as_slice() == b"ok\nok\n".as_slice())
}

// The commands that the source gave whole are performed.
#[test]
fn a_failing_source_ends_the_script(rt: HostRuntime) -> Result<(), Fail> {
    let mut disk = MemDisk::new(rt.alloc());
    assert!(rt; answers_starved(rt.alloc(), &mut disk)?);
    Ok(())
}

// Whether one reply is printed, and the entry stands that the third command would doom.
fn answers_cut(alloc: Global, disk: &mut MemDisk) -> Result<bool, Fail> {
    let script = b"create 0 :x\nclose 0\ndoom :x\n";
    let (status, printed) = ends_cut(alloc, disk, "1000 run", script, 2)?;
    Ok(
        status == Status::Sink
            && printed.as_slice() == b"ok\n".as_slice()
            && disk.file(&place_of(":x")).is_some(),
    )
}

// The command whose reply was cut has had its effect, and none follows.
#[test]
fn a_failing_sink_ends_the_script(rt: HostRuntime) -> Result<(), Fail> {
    let mut disk = MemDisk::new(rt.alloc());
    assert!(rt; answers_cut(rt.alloc(), &mut disk)?);
    Ok(())
}
