//! Alternative data: what a stop leaves of a `putalt`, and looks that fail.

use super::images::{Content, content_of, image_of};
use super::*;
use std::test::Fail;

// A script that puts 4,194,304 bytes after a body of 262,143.
fn crash_script(alloc: Global) -> Result<Bytes, Fail> {
    let head = b"create 0 :x\nappend 0 262143\n";
    let mut script = repeated(alloc, head, b'm', 262_143, b"\nfinish 0\nflush\n")?;
    let data = repeated(alloc, b"putalt 0 4194304 t\n", b'd', 4_194_304, b"\n")?;
    script.extend(data.as_slice())?;
    Ok(script)
}

// What a `list` prints: of nothing, of the body alone, and of the body with the data.
const LISTED: [&[u8]; 3] = [
    b"records 0\n",
    b"records 1\nE7B6F5F662C0DAF32123F79D1EE97F4F2B56A961 1000 DA39A3EE5E6B4B0D 65535 65535 0 80000101\n",
    b"records 1\nE7B6F5F662C0DAF32123F79D1EE97F4F2B56A961 1000 DA39A3EE5E6B4B0D 65535 65535 0 82001101\n",
];

// What a `list` prints in an image in which `main` prints the body, or finds nothing and there is none.
fn listed(alloc: Global, image: &mut MemDisk, main: &[u8]) -> Result<Option<Bytes>, Fail> {
    let (_, list) = ends(alloc, image, "1001 list", b"")?;
    let (_, text) = ends(alloc, image, "1001 main :x", b"")?;
    let is_none = list.as_slice() == LISTED[0] && text.as_slice() == ABSENT;
    let is_there = list.as_slice() != LISTED[0] && text.as_slice() == main;
    Ok(if is_none || is_there {
        Some(list)
    } else {
        None
    })
}

// The body, the data, and what `main` prints.
#[derive(Drop)]
struct Grown {
    body: Bytes,
    main: Bytes,
}

// Whether an image has nothing, the old version or the new one, and its file begins with the body.
fn image_is_so(alloc: Global, image: &mut MemDisk, grown: &Grown) -> Result<bool, Fail> {
    if let Some(file) = image.file(&place_of(":x")) {
        if !file.starts_with(grown.body.as_slice()) {
            return Ok(false);
        }
    }
    match listed(alloc, image, grown.main.as_slice())? {
        Some(list) => {
            let list = list.as_slice();
            Ok(list == LISTED[0] || list == LISTED[1] || list == LISTED[2])
        }
        None => Ok(false),
    }
}

// The same where there is such an image.
fn is_so(
    alloc: Global,
    disk: &MemDisk,
    synced: bool,
    file: Option<&[u8]>,
    grown: &Grown,
) -> Result<bool, Fail> {
    let contents: [Content<'_>; 1] = [(":x", file)];
    match image_of(alloc, disk, synced, &contents)? {
        Some(mut image) => image_is_so(alloc, &mut image, grown),
        None => Ok(true),
    }
}

// The file without its last byte, with zeros after the body, and with another last byte of the body.
fn torn(alloc: Global, file: &[u8], body: usize) -> Result<(Bytes, Bytes, Bytes), Fail> {
    let short = bytes(
        alloc,
        file.get(..file.len().saturating_sub(1)).unwrap_or(file),
    )?;
    let own = file.get(..body).unwrap_or(file);
    let zeros = repeated(alloc, own, 0, file.len().saturating_sub(body), b"")?;
    let before = own.get(..own.len().saturating_sub(1)).unwrap_or(own);
    let other = repeated(alloc, before, b'x', 1, file.get(body..).unwrap_or(b""))?;
    Ok((short, zeros, other))
}

// Whether images with a torn file are so, and none has another body.
fn torn_are_so(alloc: Global, disk: &MemDisk, file: &[u8], grown: &Grown) -> Result<bool, Fail> {
    let (short, zeros, other) = torn(alloc, file, grown.body.as_slice().len())?;
    let contents: [Content<'_>; 1] = [(":x", Some(other.as_slice()))];
    Ok(
        image_of(alloc, disk, true, &contents)?.is_none()
            && is_so(alloc, disk, true, Some(short.as_slice()), grown)?
            && is_so(alloc, disk, true, Some(zeros.as_slice()), grown)?,
    )
}

// Whether all images of a disk are so that are tried: one where nothing waits for a sync.
fn images_are_so(alloc: Global, disk: &MemDisk, grown: &Grown) -> Result<bool, Fail> {
    let synced = content_of(disk, true, &place_of(":x"));
    let file = content_of(disk, false, &place_of(":x"));
    let is_written = match (synced, file) {
        (Some(before), Some(now)) => before != now,
        _ => false,
    };
    if !is_so(alloc, disk, true, synced, grown)? {
        return Ok(false);
    }
    if (is_written || disk.name_steps() > 0) && !is_so(alloc, disk, false, file, grown)? {
        return Ok(false);
    }
    match file {
        Some(file) if is_written => torn_are_so(alloc, disk, file, grown),
        _ => Ok(true),
    }
}

// Whether the images of a stop after so many calls are so; whether it stopped at all.
fn stop_is_so(
    alloc: Global,
    script: &[u8],
    grown: &Grown,
    stop: u64,
) -> Result<(bool, bool), Fail> {
    let mut disk = MemDisk::new(alloc);
    disk.stop_after(stop);
    let (status, _) = ends(alloc, &mut disk, "1000 run", script)?;
    let so = images_are_so(alloc, &disk, grown)?;
    Ok((status == Status::Disk, so))
}

// The first number of calls after which a stop leaves an image that is not so, or the number of all calls.
fn bad_stop(alloc: Global, script: &[u8], grown: &Grown) -> Result<(u64, bool), Fail> {
    for stop in 0..100u64 {
        let (stops, so) = stop_is_so(alloc, script, grown, stop)?;
        if !so || !stops {
            return Ok((stop, so));
        }
    }
    Ok((100, false))
}

fn stops_are_so(alloc: Global) -> Result<(u64, bool), Fail> {
    let grown = Grown {
        body: repeated(alloc, b"", b'm', 262_143, b"")?,
        main: repeated(alloc, b"main 262143\n", b'm', 262_143, b"\n")?,
    };
    let script = crash_script(alloc)?;
    bad_stop(alloc, script.as_slice(), &grown)
}

#[test]
fn each_stop_leaves_the_body_of_before(rt: HostRuntime) -> Result<(), Fail> {
    let (stop, so) = stops_are_so(rt.alloc())?;
    assert!(rt; so && stop > u64::from(OPENING), "at {stop}");
    Ok(())
}

// The commands of a script.
const COMMANDS: [&[u8]; 10] = [
    b"create 0 :x\n",
    b"append 0 3\nabc\n",
    b"finish 0\n",
    b"getalt :x\n",
    b"putalt 0 2 wasm\nXY\n",
    b"getalt :x\n",
    b"open 1 :x\n",
    b"read 1 0 9\n",
    b"main :x\n",
    b"list\n",
];

// The commands before one, and those from another on.
fn script_but(alloc: Global, before: usize, from: usize) -> Result<Bytes, Fail> {
    let mut script = Bytes::new(alloc);
    for index in 0..COMMANDS.len() {
        if index < before || index >= from {
            script.extend(COMMANDS[index])?;
        }
    }
    Ok(script)
}

// What these print where nothing fails.
fn replies_but(alloc: Global, before: usize, from: usize) -> Result<Bytes, Fail> {
    let script = script_but(alloc, before, from)?;
    let mut disk = MemDisk::new(alloc);
    let (_, text) = ends(alloc, &mut disk, "1000 run", script.as_slice())?;
    Ok(text)
}

// Whether the text has the line in the place of one reply, and that command is left out.
fn leaves_one_out(alloc: Global, text: &[u8]) -> Result<bool, Fail> {
    for index in 0..COMMANDS.len() {
        let before = replies_but(alloc, index, COMMANDS.len())?;
        let all = replies_but(alloc, index, index + 1)?;
        let Some(rest) = all.as_slice().strip_prefix(before.as_slice()) else {
            return Ok(false);
        };
        if joined(alloc, &[before.as_slice(), b"fault\n", rest])?.as_slice() == text {
            return Ok(true);
        }
    }
    Ok(false)
}

// Where the disk's call of this number fails alone: one command is left out, or the run ended there. Whether it went
// on.
fn is_told(alloc: Global, clean: &[u8], number: u32) -> Result<(bool, bool), Fail> {
    let mut disk = MemDisk::new(alloc);
    disk.fail_at(one_number(alloc, number)?);
    let script = script_but(alloc, COMMANDS.len(), COMMANDS.len())?;
    let (status, text) = ends(alloc, &mut disk, "1000 run", script.as_slice())?;
    match status {
        Status::Done => Ok((leaves_one_out(alloc, text.as_slice())?, true)),
        Status::Disk => {
            let ends_there = disk.calls() == u64::from(number);
            Ok((clean.starts_with(text.as_slice()) && ends_there, false))
        }
        _ => Ok((false, false)),
    }
}

fn calls_of_all(alloc: Global) -> Result<u64, Fail> {
    let mut disk = MemDisk::new(alloc);
    let script = script_but(alloc, COMMANDS.len(), COMMANDS.len())?;
    ends(alloc, &mut disk, "1000 run", script.as_slice())?;
    Ok(disk.calls())
}

#[test]
fn a_failed_look_leaves_one_command_out(rt: HostRuntime) -> Result<(), Fail> {
    let clean = replies_but(rt.alloc(), COMMANDS.len(), COMMANDS.len())?;
    let calls = calls_of_all(rt.alloc())?;
    let mut left_out = 0usize;
    for number in 1..200u32 {
        if u64::from(number) > calls {
            break;
        }
        let (told, went_on) = is_told(rt.alloc(), clean.as_slice(), number)?;
        assert!(rt; told, "at call {number}");
        if went_on {
            left_out = left_out.wrapping_add(1);
        }
    }
    assert!(rt; left_out > 10, "{left_out}");
    Ok(())
}
