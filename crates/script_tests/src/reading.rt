ghost use Rattle.std.specs.Prelude.{◌<◌, None};

use cache_base::{Bytes, Name, NoMemory, Numbers};
use cache_check::{Finding, What};
use cache_io::{MemSource, Source, SourceFault};
use cache_script::{Command, Reader, ScriptFault, finding_text, record_text, refusal_text};
use cache_theory::Refusal;
use chunk_store::Damage;
use entry_file::Unfit;
use index_record::IndexRecord;
use std::alloc::Global;
use std::process::Abort;
use std::test::Fail;

const AT_ONCE: usize = 1_000_000;

// A source of these bytes, of which one read gives no more than a piece.
fn source_of(alloc: Global, script: &[u8], piece: usize) -> Result<MemSource, NoMemory>
    requires { 0 < piece }
{
    let mut bytes = Bytes::new(alloc);
    bytes.extend(script)?;
    Ok(MemSource::with_plan(bytes, Numbers::new(alloc), piece))
}

// How many commands are given to the end, or to the two thousandth.
fn count<S: Source>(reader: &mut Reader, source: &mut S) -> Result<u64, ScriptFault> {
    for count in 0..2000 {
        if reader.next_command(source)?.is_none() {
            return Ok(count);
        }
    }
    Ok(2000)
}

fn count_in(
    alloc: Global,
    script: &[u8],
    piece: usize,
) -> Result<Result<u64, ScriptFault>, NoMemory>
    requires { 0 < piece }
{
    let mut source = source_of(alloc, script, piece)?;
    let mut reader = Reader::new(alloc)?;
    Ok(count(&mut reader, &mut source))
}

fn all_count(
    rt: &impl Abort,
    alloc: Global,
    scripts: &[&[u8]],
    expected: Result<u64, ScriptFault>,
) -> Result<(), NoMemory> {
    for script in scripts {
        assert_eq!(rt; count_in(alloc, script, AT_ONCE)?, expected, "{script:?}");
        assert_eq!(rt;
            count_in(alloc, script, 1)?,
            expected,
            "{script:?}, a byte at a time"
        );
    }
    Ok(())
}

#[test]
fn lines_of_the_table_are_commands(rt: HostRuntime) -> Result<(), Fail> {
    let scripts: [&[u8]; 22] = [
        b"at 0\n",
        b"at 4294967295\n",
        b"create 63 :x\n",
        b"create 1 \n",
        b"open 0 a key\n",
        b"append 0 3\nabc\n",
        b"append 0 0\n\n",
        b"append 0 1\n\n\n",
        b"finish 0\n",
        b"set 0 1 ctid\n5\n",
        b"set 0 0 \n\n",
        b"unset 0 a name\n",
        b"element 0 \n",
        b"use 0\n",
        b"use 63\n",
        b"read 0 0 4294967295\n",
        b"close 10\n",
        b"doom :x\n",
        b"doom \n",
        b"get :x\n",
        b"get  \n",
        b"flush\n",
    ];
    all_count(&rt, rt.alloc(), &scripts, Ok(1))?;
    Ok(())
}

#[test]
fn lines_of_the_index_are_commands(rt: HostRuntime) -> Result<(), Fail> {
    let scripts: [&[u8]; 10] = [
        b"has :x\n",
        b"has \n",
        b"list\n",
        b"evict 0\n",
        b"evict 4294967295\n",
        b"step 0\n",
        b"step 4294967295\n",
        b"state\n",
        b"verify\n",
        b"rebuild\n",
    ];
    all_count(&rt, rt.alloc(), &scripts, Ok(1))?;
    Ok(())
}

#[test]
fn lines_of_alternative_data_are_commands(rt: HostRuntime) -> Result<(), Fail> {
    let scripts: [&[u8]; 10] = [
        b"putalt 0 3 js bytecode\nabc\n",
        b"putalt 63 0 \n\n",
        b"putalt 0 0 text/javascript\n\n",
        b"putalt 0 1 \n\n\n",
        b"putalt 0 2  a  b \n\n\n\n",
        b"getalt :x\n",
        b"getalt \n",
        b"getalt a key\n",
        b"main :x\n",
        b"main \n",
    ];
    all_count(&rt, rt.alloc(), &scripts, Ok(1))?;
    Ok(())
}

#[test]
fn lines_of_pins_and_clearings_are_commands(rt: HostRuntime) -> Result<(), Fail> {
    let scripts: [&[u8]; 10] = [
        b"pin 0\n",
        b"pin 63\n",
        b"unpin 0\n",
        b"unpin 63\n",
        b"clear https://a.example\n",
        b"clear \n",
        b"clear  \n",
        b"clear a,,b ,\n",
        b"clear \x80\xFF\n",
        b"clear clear\n",
    ];
    all_count(&rt, rt.alloc(), &scripts, Ok(1))?;
    Ok(())
}

#[test]
fn other_lines_are_bad(rt: HostRuntime) -> Result<(), Fail> {
    let scripts: [&[u8]; 27] = [
        b"\n",
        b"fly\n",
        b"Flush\n",
        b"flush \n",
        b" flush\n",
        b"at\n",
        b"at \n",
        b"at 007\n",
        b"at +1\n",
        b"at 1 2\n",
        b"at 4294967296\n",
        b"at 99999999999999999999\n",
        b"create 64 :x\n",
        b"create 01 :x\n",
        b"create  1 :x\n",
        b"create 1\n",
        b"open x :x\n",
        b"finish\n",
        b"finish 0 \n",
        b"close 64\n",
        b"get\n",
        b"use\n",
        b"use 64\n",
        b"use 0 0\n",
        b"use x\n",
        b"read 0 0\n",
        b"read 0 0 4294967296\n",
    ];
    all_count(&rt, rt.alloc(), &scripts, Err(ScriptFault::Script(1)))?;
    Ok(())
}

#[test]
fn other_lines_of_the_index_are_bad(rt: HostRuntime) -> Result<(), Fail> {
    let scripts: [&[u8]; 11] = [
        b"has\n",
        b"list \n",
        b"evict\n",
        b"evict 007\n",
        b"evict 4294967296\n",
        b"evict 1 KB\n",
        b"step\n",
        b"step 007\n",
        b"step 4294967296\n",
        b"state 1\n",
        b"rebuilt\n",
    ];
    all_count(&rt, rt.alloc(), &scripts, Err(ScriptFault::Script(1)))?;
    Ok(())
}

#[test]
fn other_lines_of_alternative_data_are_bad(rt: HostRuntime) -> Result<(), Fail> {
    let scripts: [&[u8]; 18] = [
        b"putalt\n",
        b"putalt 0\n",
        b"putalt 0 1\n5\n",
        b"putalt 0 type\n5\n",
        b"putalt  0 1 n\n5\n",
        b"putalt 64 1 n\n5\n",
        b"putalt 00 1 n\n5\n",
        b"putalt 0 01 n\n5\n",
        b"putalt 0 +1 n\n5\n",
        b"putalt 0 4194305 n\n",
        b"putalt 0 4294967296 n\n",
        b"putalt 0 1 n\n55\n",
        b"putalt 0 1 n\n5",
        b"putalt 0 2 n\n5\n",
        b"getalt\n",
        b"Getalt :x\n",
        b"main\n",
        b"maine :x\n",
    ];
    all_count(&rt, rt.alloc(), &scripts, Err(ScriptFault::Script(1)))?;
    Ok(())
}

#[test]
fn other_lines_of_pins_and_clearings_are_bad(rt: HostRuntime) -> Result<(), Fail> {
    let scripts: [&[u8]; 20] = [
        b"pin\n",
        b"pin \n",
        b"pin 64\n",
        b"pin 00\n",
        b"pin x\n",
        b"pin 0 0\n",
        b"pin  0\n",
        b"unpin\n",
        b"unpin \n",
        b"unpin 3 \n",
        b"unpin 64\n",
        b"un pin 0\n",
        b"clear\n",
        b"clear",
        b"Clear x\n",
        b"cleared x\n",
        b"resume\n",
        b"Resume\n",
        b"resume \n",
        b"resume ^a\n",
    ];
    all_count(&rt, rt.alloc(), &scripts, Err(ScriptFault::Script(1)))?;
    Ok(())
}

#[test]
fn bytes_behind_a_line_are_bad(rt: HostRuntime) -> Result<(), Fail> {
    let scripts: [&[u8]; 9] = [
        b"append 0 1048577\n",
        b"append 0\n",
        b"append 0 3\nabcd\n",
        b"append 0 3\nab",
        b"append 0 3\nabc",
        b"set 0 65537 n\n",
        b"set 0 1\n5\n",
        b"set 0 1 n\n55\n",
        b"at 1",
    ];
    all_count(&rt, rt.alloc(), &scripts, Err(ScriptFault::Script(1)))?;
    Ok(())
}

#[test]
fn commands_are_numbered(rt: HostRuntime) -> Result<(), Fail> {
    all_count(&rt, rt.alloc(), &[b"".as_slice()], Ok(0))?;
    let second = Err(ScriptFault::Script(2));
    all_count(
        &rt,
        rt.alloc(),
        &[b"append 0 3\nab\n\n\n".as_slice()],
        second,
    )?;
    all_count(
        &rt,
        rt.alloc(),
        &[b"at 5\nflush\nfly\n".as_slice()],
        Err(ScriptFault::Script(3)),
    )?;
    all_count(
        &rt,
        rt.alloc(),
        &[b"at 5\nappend 0 1\n".as_slice()],
        Err(ScriptFault::Script(2)),
    )?;
    Ok(())
}

// A line of `get` with so many bytes, and no newline.
fn begun_line(alloc: Global, len: usize) -> Result<Bytes, NoMemory> {
    let mut line = Bytes::new(alloc);
    line.extend(b"get ")?;
    for _ in 4..len {
        line.push(b'x')?;
    }
    Ok(line)
}

fn long_line(alloc: Global, len: usize) -> Result<Bytes, NoMemory> {
    let mut line = begun_line(alloc, len)?;
    line.push(b'\n')?;
    Ok(line)
}

#[test]
fn a_line_has_at_most_20000_bytes(rt: HostRuntime) -> Result<(), Fail> {
    let longest = long_line(rt.alloc(), 20_000)?;
    assert_eq!(rt; count_in(rt.alloc(), longest.as_slice(), AT_ONCE)?, Ok(1));
    let longer = long_line(rt.alloc(), 20_001)?;
    assert_eq!(rt;
        count_in(rt.alloc(), longer.as_slice(), AT_ONCE)?,
        Err(ScriptFault::Script(1))
    );
    let mut source = source_of(rt.alloc(), longer.as_slice(), 1)?;
    let mut reader = Reader::new(rt.alloc())?;
    assert_eq!(rt;
        count(&mut reader, &mut source),
        Err(ScriptFault::Script(1))
    );
    Ok(())
}

// So many pieces, each as long as one may be.
fn long_pieces(alloc: Global, pieces: usize) -> Result<Bytes, NoMemory> {
    let piece = vec![in alloc; b'x'; 1_048_576]?;
    let mut script = Bytes::new(alloc);
    for _ in 0..pieces {
        script.extend(b"append 0 1048576\n")?;
        script.extend(piece.as_slice())?;
        script.push(b'\n')?;
    }
    Ok(script)
}

#[test]
fn a_piece_has_at_most_1048576_bytes(rt: HostRuntime) -> Result<(), Fail> {
    let script = long_pieces(rt.alloc(), 3)?;
    assert_eq!(rt; count_in(rt.alloc(), script.as_slice(), AT_ONCE)?, Ok(3));
    assert_eq!(rt; count_in(rt.alloc(), script.as_slice(), 65_536)?, Ok(3));
    assert_eq!(rt; count_in(rt.alloc(), script.as_slice(), 1_000_003)?, Ok(3));
    Ok(())
}

// So many commands with the longest alternative data, each after a short command.
fn long_alts(alloc: Global, alts: usize) -> Result<Bytes, NoMemory> {
    let alt = vec![in alloc; b'x'; 4_194_304]?;
    let mut script = Bytes::new(alloc);
    for _ in 0..alts {
        script.extend(b"use 0\nputalt 0 4194304 js\n")?;
        script.extend(alt.as_slice())?;
        script.push(b'\n')?;
    }
    Ok(script)
}

#[test]
fn alternative_data_have_at_most_4194304_bytes(rt: HostRuntime) -> Result<(), Fail> {
    let script = long_alts(rt.alloc(), 2)?;
    assert_eq!(rt; count_in(rt.alloc(), script.as_slice(), 65_536)?, Ok(4));
    assert_eq!(rt; count_in(rt.alloc(), script.as_slice(), 5_000_000)?, Ok(4));
    Ok(())
}

fn plan(alloc: Global, number: u32) -> Result<Numbers, NoMemory> {
    let mut list = Numbers::new(alloc);
    list.push(number)?;
    Ok(list)
}

#[test]
fn a_source_that_fails_ends_the_script(rt: HostRuntime) -> Result<(), Fail> {
    let mut script = Bytes::new(rt.alloc());
    script.extend(b"at 5\nflush\n")?;
    let mut source = MemSource::with_plan(script, plan(rt.alloc(), 2)?, 5);
    let mut reader = Reader::new(rt.alloc())?;
    assert_eq!(rt;
        reader.next_command(&mut source),
        Ok(Some(Command::At { now: 5 }))
    );
    assert_eq!(rt; reader.next_command(&mut source), Err(ScriptFault::Source));
    Ok(())
}

// How many commands are given where one read gives the whole script, and the next one fails.
fn count_in_one_read(alloc: Global, script: &[u8]) -> Result<Result<u64, ScriptFault>, NoMemory> {
    let mut bytes = Bytes::new(alloc);
    bytes.extend(script)?;
    let mut source = MemSource::with_plan(bytes, plan(alloc, 2)?, AT_ONCE);
    let mut reader = Reader::new(alloc)?;
    Ok(count(&mut reader, &mut source))
}

fn all_end(
    rt: &impl Abort,
    alloc: Global,
    scripts: &[&[u8]],
    fault: ScriptFault,
) -> Result<(), NoMemory> {
    for script in scripts {
        assert_eq!(rt; count_in_one_read(alloc, script)?, Err(fault), "{script:?}");
    }
    Ok(())
}

#[test]
fn no_more_is_read_at_a_bad_command(rt: HostRuntime) -> Result<(), Fail> {
    let scripts: [&[u8]; 11] = [
        b"\n",
        b"fly\n",
        b"pin 64\n",
        b"clear\n",
        b"resume\n",
        b"append 0 1048577\n",
        b"append 0 0\nx",
        b"append 0 1\nab",
        b"set 0 1 n\n55",
        b"putalt 0 4194305 n\n",
        b"putalt 0 1 n\n55",
    ];
    all_end(&rt, rt.alloc(), &scripts, ScriptFault::Script(1))?;
    let line = begun_line(rt.alloc(), 20_001)?;
    all_end(&rt, rt.alloc(), &[line.as_slice()], ScriptFault::Script(1))?;
    let second = [b"at 5\nappend 0 1\nab".as_slice()];
    all_end(&rt, rt.alloc(), &second, ScriptFault::Script(2))?;
    Ok(())
}

#[test]
fn more_is_read_at_a_command_that_is_begun(rt: HostRuntime) -> Result<(), Fail> {
    let scripts: [&[u8]; 7] = [
        b"fly",
        b"append 0 1\n",
        b"append 0 1\na",
        b"putalt 0 4194304 n\n",
        b"getalt a key",
        b"clear an origin",
        b"at 5\n",
    ];
    all_end(&rt, rt.alloc(), &scripts, ScriptFault::Source)?;
    let line = begun_line(rt.alloc(), 20_000)?;
    all_end(&rt, rt.alloc(), &[line.as_slice()], ScriptFault::Source)?;
    Ok(())
}

// A source of 1,023 commands `append 0 1048576` and of one whose line is `last`. All bytes after a line are newlines.
#[derive(Drop)]
struct Appends<'a> {
    before: u32,
    last: &'a [u8],
    last_len: usize,
    line: &'a [u8],
    newlines: usize,
}

impl Appends<'_> {
    // Whether there is one more command, which is then begun.
    fn begin(&mut self) -> bool {
        if self.before > 0 {
            self.before -= 1;
            self.line = b"append 0 1048576\n";
            self.newlines = 1_048_577;
            return true;
        }
        self.line = self.last;
        self.newlines = self.last_len;
        self.last = b"";
        self.last_len = 0;
        !self.line.is_empty()
    }
}

impl Source for Appends<'_> {
    ghost left = { λ _. None };

    ghost faults = { λ _. 0 };

    fn read(&mut self, buf: &mut [u8]) -> Result<usize, SourceFault> {
        if self.line.is_empty() && self.newlines == 0 && !self.begin() {
            return Ok(0);
        }
        if self.line.is_empty() {
            let n = self.newlines.min(buf.len());
            buf[..n].fill(b'\n');
            self.newlines -= n;
            return Ok(n);
        }
        let n = self.line.len().min(buf.len());
        let (now, later) = self.line.split_at(n);
        buf[..n].copy_from_slice(now);
        self.line = later;
        Ok(n)
    }
}

// The commands of 1,023 whole pieces and of this line with so many bytes after it.
fn count_appends(
    alloc: Global,
    last: &[u8],
    len: usize,
) -> Result<Result<u64, ScriptFault>, NoMemory> {
    let mut source = Appends {
        before: 1023,
        last,
        last_len: len,
        line: b"",
        newlines: 0,
    };
    let mut reader = Reader::new(alloc)?;
    Ok(count(&mut reader, &mut source))
}

// The first script has 1,073,741,824 bytes, the second one more.
#[test]
fn a_command_ends_within_the_limit(rt: HostRuntime) -> Result<(), Fail> {
    let fits = count_appends(rt.alloc(), b"append 0 1030144\n", 1_030_145)?;
    assert_eq!(rt; fits, Ok(1024));
    let long = count_appends(rt.alloc(), b"append 0 1030145\n", 1_030_146)?;
    assert_eq!(rt; long, Err(ScriptFault::Script(1024)));
    Ok(())
}

// How many of these commands are given one after the other, up to the first that is not.
fn commands_given(
    reader: &mut Reader,
    source: &mut MemSource,
    due: &[Option<Command<'_>>],
) -> usize {
    for index in 0..due.len() {
        if reader.next_command(source) != Ok(due[index]) {
            return index;
        }
    }
    due.len()
}

// The same of a script of which one read gives no more than four bytes.
fn commands_of(
    alloc: Global,
    script: &[u8],
    due: &[Option<Command<'_>>],
) -> Result<usize, NoMemory> {
    let mut source = source_of(alloc, script, 4)?;
    let mut reader = Reader::new(alloc)?;
    Ok(commands_given(&mut reader, &mut source, due))
}

#[test]
fn commands_have_their_fields(rt: HostRuntime) -> Result<(), Fail> {
    let due = [
        Some(Command::Create {
            slot: 63,
            key: b":x ",
        }),
        Some(Command::Append {
            slot: 7,
            bytes: b"\n ",
        }),
        Some(Command::SetElement {
            slot: 1,
            name: b"na me",
            value: b"v",
        }),
        Some(Command::ReadPart {
            slot: 2,
            from: 3,
            len: 4,
        }),
        Some(Command::Element { slot: 5, name: b"" }),
        Some(Command::Flush),
        None,
        None,
    ];
    let script =
        b"create 63 :x \nappend 7 2\n\n \nset 1 1 na me\nv\nread 2 3 4\nelement 5 \nflush\n";
    assert!(rt; commands_of(rt.alloc(), script, &due)? == due.len());
    Ok(())
}

#[test]
fn commands_of_the_index_have_their_fields(rt: HostRuntime) -> Result<(), Fail> {
    let due = [
        Some(Command::UseEntry { slot: 7 }),
        Some(Command::Has { key: b"a key" }),
        Some(Command::List),
        Some(Command::Evict { kb: 9 }),
        Some(Command::Step { n: 5 }),
        Some(Command::State),
        Some(Command::Verify),
        Some(Command::Rebuild),
    ];
    let script = b"use 7\nhas a key\nlist\nevict 9\nstep 5\nstate\nverify\nrebuild\n";
    let given = commands_of(rt.alloc(), script, &due)?;
    assert!(rt; given == due.len());
    Ok(())
}

#[test]
fn commands_of_alternative_data_have_their_fields(rt: HostRuntime) -> Result<(), Fail> {
    let due = [
        Some(Command::PutAlt {
            slot: 63,
            kind: b"js byte code ",
            alt: b"a\n",
        }),
        Some(Command::PutAlt {
            slot: 0,
            kind: b"",
            alt: b"",
        }),
        Some(Command::GetAlt { key: b"a key" }),
        Some(Command::MainBody { key: b":x " }),
        None,
    ];
    let script = b"putalt 63 2 js byte code \na\n\nputalt 0 0 \n\ngetalt a key\nmain :x \n";
    let given = commands_of(rt.alloc(), script, &due)?;
    assert!(rt; given == due.len());
    Ok(())
}

#[test]
fn commands_of_pins_and_clearings_have_their_fields(rt: HostRuntime) -> Result<(), Fail> {
    let due = [
        Some(Command::Pin { slot: 0 }),
        Some(Command::Pin { slot: 63 }),
        Some(Command::Unpin { slot: 7 }),
        Some(Command::Clear {
            origin: b"https://a.example",
        }),
        Some(Command::Clear { origin: b"" }),
        Some(Command::Clear {
            origin: b" a,,b , ",
        }),
        Some(Command::Clear {
            origin: b"\x80\xC3\xBC\xFF",
        }),
        Some(Command::Flush),
        None,
    ];
    let script = b"pin 0\npin 63\nunpin 7\nclear https://a.example\nclear \nclear  a,,b , \n\
        clear \x80\xC3\xBC\xFF\nflush\n";
    let given = commands_of(rt.alloc(), script, &due)?;
    assert!(rt; given == due.len());
    Ok(())
}

fn texts_are(rt: &impl Abort, alloc: Global, table: &[(Refusal, &str)]) -> Result<(), NoMemory> {
    for (refusal, text) in table {
        assert_eq!(rt; refusal_text(alloc, refusal)?.as_str(), *text);
    }
    Ok(())
}

#[test]
fn refusals_have_their_texts(rt: HostRuntime) -> Result<(), Fail> {
    let damage = Damage {
        chunk: 0,
        stored: 0x399e,
        found: 0x6daa,
    };
    let table = [
        (Refusal::SlotTaken, "slot taken"),
        (Refusal::NoSlot, "no slot"),
        (Refusal::Absent, "absent"),
        (Refusal::Unfinished, "unfinished"),
        (Refusal::Damaged(damage), "damaged 0 399E 6DAA"),
        (Refusal::NotWriter, "not writer"),
        (Refusal::Finished, "finished"),
        (Refusal::TooLarge, "too large"),
        (Refusal::BadKey, "bad key"),
        (Refusal::BadElement, "bad element"),
        (Refusal::HasAlt, "has alt"),
        (Refusal::NoAlt, "no alt"),
    ];
    texts_are(&rt, rt.alloc(), &table)?;
    Ok(())
}

// The SHA-1 of `abc`.
const NAME: Name = Name([
    0xA9, 0x99, 0x3E, 0x36, 0x47, 0x06, 0x81, 0x6A, 0xBA, 0x3E, 0x25, 0x71, 0x78, 0x50, 0xC2, 0x6C,
    0x9C, 0xD0, 0xD8, 0x9D,
]);

#[test]
fn records_have_their_text(rt: HostRuntime) -> Result<(), Fail> {
    let record = IndexRecord {
        name: NAME,
        frecency: 1000,
        origin: 0xDA39A3EE5E6B4B0D,
        on_start: 65_535,
        on_stop: 65_535,
        content: 0,
        flags: 0x80000001,
    };
    let text = record_text(rt.alloc(), &record)?;
    assert_eq!(rt;
        text.as_str(),
        "A9993E364706816ABA3E25717850C26C9CD0D89D 1000 DA39A3EE5E6B4B0D 65535 65535 0 80000001"
    );
    Ok(())
}

fn findings_are(rt: &impl Abort, alloc: Global, table: &[(What, &str)]) -> Result<(), NoMemory> {
    for (what, text) in table {
        let finding = Finding {
            name: NAME,
            what: *what,
        };
        assert_eq!(rt; finding_text(alloc, &finding)?.as_str(), *text);
    }
    Ok(())
}

#[test]
fn findings_have_their_texts(rt: HostRuntime) -> Result<(), Fail> {
    let damage = Damage {
        chunk: 0,
        stored: 0x399e,
        found: 0x6daa,
    };
    let table = [
        (
            What::Unfit(Unfit::Short),
            "A9993E364706816ABA3E25717850C26C9CD0D89D unfit short",
        ),
        (
            What::Unfit(Unfit::TooBig),
            "A9993E364706816ABA3E25717850C26C9CD0D89D unfit too-big",
        ),
        (
            What::Unfit(Unfit::Version),
            "A9993E364706816ABA3E25717850C26C9CD0D89D unfit version",
        ),
        (
            What::Unfit(Unfit::KeyEnd),
            "A9993E364706816ABA3E25717850C26C9CD0D89D unfit key-end",
        ),
        (
            What::Unfit(Unfit::Hash),
            "A9993E364706816ABA3E25717850C26C9CD0D89D unfit hash",
        ),
        (
            What::Unfit(Unfit::KeyForm),
            "A9993E364706816ABA3E25717850C26C9CD0D89D unfit key-form",
        ),
        (
            What::Unfit(Unfit::Elements),
            "A9993E364706816ABA3E25717850C26C9CD0D89D unfit elements",
        ),
        (
            What::Unfit(Unfit::WrongName),
            "A9993E364706816ABA3E25717850C26C9CD0D89D unfit wrong-name",
        ),
        (
            What::Damaged(damage),
            "A9993E364706816ABA3E25717850C26C9CD0D89D damaged 0 399E 6DAA",
        ),
        (
            What::Missing,
            "A9993E364706816ABA3E25717850C26C9CD0D89D missing",
        ),
        (
            What::Extra,
            "A9993E364706816ABA3E25717850C26C9CD0D89D extra",
        ),
        (
            What::Differs,
            "A9993E364706816ABA3E25717850C26C9CD0D89D differs",
        ),
    ];
    findings_are(&rt, rt.alloc(), &table)?;
    Ok(())
}
