//! One of three entries is changed: the others stand.

use super::*;
use std::test::Fail;

// Puts three entries, whose bodies are `old`.
fn put_three(alloc: Global, disk: &mut MemDisk) -> Result<(), Fail> {
    for line in ["1000 put :a", "1000 put :b", "1000 put :c"] {
        ends(alloc, disk, line, b"old")?;
    }
    Ok(())
}

const OLD: &[u8] = b"found 1 1000 1000 1000 4294967295 0 0 3\n\nold\n";

const NEW: &[u8] = b"found 1 1001 1001 1001 4294967295 0 0 3\n\nnew\n";

const GETS: [&str; 3] = ["1000 get :a", "1000 get :b", "1000 get :c"];

// What is done to one of the three entries, and what its `get` prints afterwards: after this text
// at once, and before it not yet, or nothing.
#[derive(Clone, Copy)]
struct Change<'a> {
    line: &'a str,
    script: &'a [u8],
    get: &'a str,
    acked: Option<&'a [u8]>,
    new: &'a [u8],
}

// Whether the other entries are found as they were.
fn others_stand(alloc: Global, image: &mut MemDisk, changed: &str) -> Result<bool, Fail> {
    for get in GETS {
        if get != changed && !prints(alloc, image, get, OLD)? {
            return Ok(false);
        }
    }
    Ok(true)
}

// Whether the changed entry is found as it may be.
fn is_changed(
    alloc: Global,
    image: &mut MemDisk,
    change: &Change<'_>,
    acked: bool,
) -> Result<bool, Fail> {
    if prints(alloc, image, change.get, change.new)? {
        return Ok(true);
    }
    if acked {
        return Ok(false);
    }
    Ok(prints(alloc, image, change.get, OLD)? || prints(alloc, image, change.get, ABSENT)?)
}

// Whether in an image the other entries are found as they were, and the changed one as it may be.
fn is_allowed(
    alloc: Global,
    image: &mut MemDisk,
    change: &Change<'_>,
    acked: bool,
) -> Result<bool, Fail> {
    Ok(
        others_stand(alloc, image, change.get)?
            && lists_what_stands(alloc, image)?
            && is_changed(alloc, image, change, acked)?,
    )
}

// Whether the image with what stands, or with what was synced, is allowed.
fn image_is_allowed(
    alloc: Global,
    disk: &MemDisk,
    synced: bool,
    change: &Change<'_>,
    acked: bool,
) -> Result<bool, Fail> {
    let contents = [
        (":a", content_of(disk, synced, &place_of(":a"))),
        (":b", content_of(disk, synced, &place_of(":b"))),
        (":c", content_of(disk, synced, &place_of(":c"))),
    ];
    match image_of(alloc, disk, synced, &contents)? {
        Some(mut image) => is_allowed(alloc, &mut image, change, acked),
        None => Err(Fail::from("this is no image")),
    }
}

// Whether the change of three entries stops after so many calls, and whether it was answered by
// then.
fn stops_after(
    alloc: Global,
    disk: &mut MemDisk,
    change: &Change<'_>,
    stop: u64,
) -> Result<(bool, bool), Fail> {
    put_three(alloc, disk)?;
    disk.stop_after(stop);
    let (status, text) = ends(alloc, disk, change.line, change.script)?;
    Ok((
        status == Status::Disk,
        change.acked == Some(before_faults(text.as_slice())),
    ))
}

// Whether the change stops after so many calls, and what it leaves is allowed.
fn stop_is_allowed(
    alloc: Global,
    disk: &mut MemDisk,
    change: &Change<'_>,
    stop: u64,
) -> Result<bool, Fail> {
    let (stops, acked) = stops_after(alloc, disk, change, stop)?;
    Ok(
        stops
            && image_is_allowed(alloc, disk, false, change, acked)?
            && image_is_allowed(alloc, disk, true, change, acked)?,
    )
}

// Changes one of three entries: the number of calls before that.
fn perform(alloc: Global, disk: &mut MemDisk, change: &Change<'_>) -> Result<u64, Fail> {
    put_three(alloc, disk)?;
    let before = disk.calls();
    ends(alloc, disk, change.line, change.script)?;
    Ok(before)
}

// The numbers of calls before the change and after it.
fn calls_of(alloc: Global, change: &Change<'_>) -> Result<(u64, u64), Fail> {
    let mut disk = MemDisk::new(alloc);
    let before = perform(alloc, &mut disk, change)?;
    Ok((before, disk.calls()))
}

// The first number of calls after which a stop leaves an image that is not allowed, where there is one.
fn bad_stop(alloc: Global, change: &Change<'_>) -> Result<Option<u64>, Fail> {
    let (before, after) = calls_of(alloc, change)?;
    for stop in before..after {
        let mut disk = MemDisk::new(alloc);
        if !stop_is_allowed(alloc, &mut disk, change, stop)? {
            return Ok(Some(stop));
        }
    }
    Ok(None)
}

// Whether what the whole change leaves is allowed.
fn end_is_allowed(alloc: Global, change: &Change<'_>) -> Result<bool, Fail> {
    let mut disk = MemDisk::new(alloc);
    perform(alloc, &mut disk, change)?;
    is_allowed(alloc, &mut disk, change, true)
}

// The second entry is written anew and flushed.
const ANEW: Change<'static> = Change {
    line: "1001 run",
    script: b"create 0 :b\nappend 0 3\nnew\nclose 0\nflush\n",
    get: "1000 get :b",
    acked: Some(b"ok\nok\nok\nok\n"),
    new: NEW,
};

// The one whose name is the least is evicted.
const EVICTED: Change<'static> = Change {
    line: "1001 evict 2",
    script: b"",
    get: "1000 get :c",
    acked: None,
    new: ABSENT,
};

#[test]
fn each_stop_leaves_what_is_allowed(rt: HostRuntime) -> Result<(), Fail> {
    let anew = bad_stop(rt.alloc(), &ANEW)?;
    assert!(rt; anew == None, "at {anew:?}");
    let evicted = bad_stop(rt.alloc(), &EVICTED)?;
    assert!(rt; evicted == None, "at {evicted:?}");
    assert!(rt; end_is_allowed(rt.alloc(), &EVICTED)?);
    Ok(())
}
