//! What is refused, by its reason, and what has too many bytes.

use super::*;
use std::test::Fail;

// Commands, the replies to them, one more command, and its refusal.
type Refused<'a> = (&'a [u8], &'a [u8], &'a [u8], &'a [u8]);

// The first rows fail the check that is named and later ones, too: the first that fails is the refusal.
const REFUSED: [Refused<'static>; 9] = [
    (
        b"create 0 :x\nappend 0 3\nabc\nset 0 1 alt-data\nv\n",
        b"ok\nok\nok\n",
        b"putalt 5 0 \n\n",
        b"no slot\n",
    ),
    (
        b"create 0 :x\nappend 0 3\nabc\nset 0 1 alt-data\nv\nopen 1 :x\n",
        b"ok\nok\nok\nok\n",
        b"putalt 1 0 \n\n",
        b"not writer\n",
    ),
    (
        b"create 0 :x\nappend 0 3\nabc\nfinish 0\nopen 1 :x\n",
        b"ok\nok\nok\nok\n",
        b"putalt 1 2 t\nXY\n",
        b"not writer\n",
    ),
    (
        b"create 0 :x\nappend 0 3\nabc\nset 0 1 alt-data\nv\n",
        b"ok\nok\nok\n",
        b"putalt 0 0 \n\n",
        b"unfinished\n",
    ),
    (
        b"create 0 :x\nappend 0 3\nabc\nset 0 1 alt-data\nv\nfinish 0\n",
        b"ok\nok\nok\nok\n",
        b"putalt 0 0 \n\n",
        b"has alt\n",
    ),
    (
        b"create 0 :x\nappend 0 3\nabc\nfinish 0\nputalt 0 2 t\nXY\n",
        b"ok\nok\nok\nok\n",
        b"putalt 0 2 t\nXY\n",
        b"has alt\n",
    ),
    (
        b"create 0 :x\nappend 0 3\nabc\nset 0 0 alt-data\n\nfinish 0\n",
        b"ok\nok\nok\nok\n",
        b"putalt 0 2 t\nXY\n",
        b"has alt\n",
    ),
    (
        b"create 0 :x\nappend 0 3\nabc\nfinish 0\n",
        b"ok\nok\nok\n",
        b"putalt 0 2 \nXY\n",
        b"bad element\n",
    ),
    (
        b"create 0 :x\nappend 0 3\nabc\nfinish 0\n",
        b"ok\nok\nok\n",
        b"putalt 0 2 wa\x00sm\nXY\n",
        b"bad element\n",
    ),
];

// What shows the entry, the record and the slot afterwards.
const LOOKS: &[u8] = b"read 0 0 9\nelement 0 alt-data\nget :x\ngetalt :x\nmain :x\nlist\nverify\n";

fn is_same(one: &MemDisk, other: &MemDisk, place: &Place) -> bool {
    match (one.file(place), other.file(place)) {
        (Some(found), Some(due)) => found == due,
        (None, None) => true,
        _ => false,
    }
}

// Whether a script is answered so, and the disks are then the same.
fn answers_as(
    alloc: Global,
    clean: &MemDisk,
    disk: &mut MemDisk,
    script: &[u8],
    text: &[u8],
) -> Result<bool, Fail> {
    let so = comes_so(alloc, disk, &("1000 run", script, Status::Done, text))?;
    Ok(
        so && is_same(clean, disk, &place_of(":x"))
            && is_same(clean, disk, &Place::Doomed(0))
            && is_same(clean, disk, &Place::Index)
            && is_same(clean, disk, &Place::Log),
    )
}

// Whether the one more command is refused so, and all else is as it is without it.
fn is_refused(alloc: Global, row: &Refused<'_>) -> Result<bool, Fail> {
    let (commands, replies, more, refusal) = *row;
    let mut clean = MemDisk::new(alloc);
    let short = joined(alloc, &[commands, LOOKS])?;
    let (_, text) = ends(alloc, &mut clean, "1000 run", short.as_slice())?;
    let Some(looked) = text.as_slice().strip_prefix(replies) else {
        return Ok(false);
    };
    let script = joined(alloc, &[commands, more, LOOKS])?;
    let due = joined(alloc, &[replies, refusal, looked])?;
    let mut disk = MemDisk::new(alloc);
    answers_as(alloc, &clean, &mut disk, script.as_slice(), due.as_slice())
}

#[test]
fn each_refusal_changes_nothing(rt: HostRuntime) -> Result<(), Fail> {
    for index in 0..REFUSED.len() {
        assert!(rt; is_refused(rt.alloc(), &REFUSED[index])?, "row {index}");
    }
    Ok(())
}

// An entry with an element of so many bytes, whose other bytes are three.
fn entry_with_element(alloc: Global, len: usize) -> Result<Bytes, Fail> {
    let mut script = bytes(alloc, b"create 0 :x\nappend 0 3\nabc\nset 0 ")?;
    add_number(alloc, &mut script, b"", len, b" n\n")?;
    let value = repeated(alloc, b"", b'v', len, b"\nfinish 0\n")?;
    script.extend(value.as_slice())?;
    Ok(script)
}

fn refuses_elements(alloc: Global, len: usize, command: &[u8]) -> Result<bool, Fail> {
    let entry = entry_with_element(alloc, len)?;
    let row: Refused<'_> = (
        entry.as_slice(),
        b"ok\nok\nok\nok\n",
        command,
        b"too large\n",
    );
    is_refused(alloc, &row)
}

fn has_room(alloc: Global) -> Result<bool, Fail> {
    let mut script = entry_with_element(alloc, 65_518)?;
    script.extend(b"putalt 0 2 t\nXY\n")?;
    let mut disk = MemDisk::new(alloc);
    let text = b"ok\nok\nok\nok\nok\n";
    comes_so(
        alloc,
        &mut disk,
        &("1000 run", script.as_slice(), Status::Done, text),
    )
}

// With a kind of one byte the element has 15 bytes.
#[test]
fn elements_have_at_most_65536_bytes(rt: HostRuntime) -> Result<(), Fail> {
    assert!(rt; refuses_elements(rt.alloc(), 65_519, b"putalt 0 2 t\nXY\n")?);
    assert!(rt; refuses_elements(rt.alloc(), 65_518, b"putalt 0 2 tt\nXY\n")?);
    assert!(rt; has_room(rt.alloc())?);
    Ok(())
}

// A finished entry of 46 MiB and some bytes, and the most data that one command has.
fn long_script(alloc: Global, more: usize) -> Result<Bytes, Fail> {
    let piece = repeated(alloc, b"append 0 1048576\n", b'm', 1_048_576, b"\n")?;
    let mut script = bytes(alloc, b"create 0 :x\n")?;
    for _ in 0..46 {
        script.extend(piece.as_slice())?;
    }
    add_data(alloc, &mut script, b"append 0 ", b"\n", more, 0)?;
    script.extend(b"finish 0\n")?;
    add_data(alloc, &mut script, b"putalt 0 ", b" t\n", 0, 4_194_304)?;
    Ok(script)
}

// Whether the last reply to it is this.
fn ends_long(alloc: Global, more: usize, reply: &[u8]) -> Result<bool, Fail> {
    let script = long_script(alloc, more)?;
    let mut disk = MemDisk::new(alloc);
    let (status, text) = ends(alloc, &mut disk, "1000 run", script.as_slice())?;
    Ok(status == Status::Done && text.as_slice().ends_with(reply))
}

#[test]
fn data_fill_a_body_to_its_limit(rt: HostRuntime) -> Result<(), Fail> {
    assert!(rt; ends_long(rt.alloc(), 0, b"ok\nok\nok\n")?);
    Ok(())
}

#[test]
fn data_past_the_limit_of_a_body_are_refused(rt: HostRuntime) -> Result<(), Fail> {
    assert!(rt; ends_long(rt.alloc(), 1, b"ok\nok\ntoo large\n")?);
    Ok(())
}
