//! Stops of a clearing, and of a run that resumes one.

use super::six::{
    ALL_CLEARED, CLEAR, COVERED, LIST, LIST_OF_OTHERS, LIST_OF_SIX, NONE_CLEARED, SIX, are_found,
    six_mark_and_index,
};
use super::*;
use std::test::Fail;

// Whether the first run after a stop lists all of the four, or none of them, and leaves no mark. The files agree, and a
// clearing then takes those that are left.
fn reopens_so(alloc: Global, image: &mut MemDisk, is_all: bool) -> Result<bool, Fail> {
    let listed = if is_all { LIST_OF_SIX } else { LIST_OF_OTHERS };
    let cleared = if is_all { ALL_CLEARED } else { NONE_CLEARED };
    Ok(
        prints(alloc, image, LIST, listed)?
            && image.file(&Place::Clear).is_none()
            && are_found(alloc, image, is_all)?
            && lists_what_stands(alloc, image)?
            && prints(alloc, image, CLEAR, cleared)?
            && prints(alloc, image, LIST, LIST_OF_OTHERS)?,
    )
}

// Adds a file to those of an image.
fn add_file(
    alloc: Global,
    files: &mut Vec<(Place, Bytes)>,
    place: Place,
    content: &[u8],
) -> Result<(), Fail> {
    files.push((place, bytes(alloc, content)?))?;
    Ok(())
}

// What stands at the place now, or stood there at the last sync, or no bytes.
fn content_at<'a>(disk: &'a MemDisk, place: &Place) -> &'a [u8] {
    match (disk.file(place), disk.synced_file(place)) {
        (Some(content), _) => content,
        (None, Some(content)) => content,
        (None, None) => b"",
    }
}

// The files of an image: how many of the four are gone, whether a file stands at the number 64 and whether the mark
// does, and where the journal stands, if it does.
#[derive(Clone, Copy)]
struct Shape {
    gone: usize,
    is_aside: bool,
    is_marked: bool,
    journal: Option<Place>,
}

// The entries of the image.
fn add_entries(
    alloc: Global,
    disk: &MemDisk,
    gone: usize,
    files: &mut Vec<(Place, Bytes)>,
) -> Result<(), Fail> {
    for index in 0..COVERED.len() {
        if index >= gone {
            let place = place_of(COVERED[index]);
            add_file(alloc, files, place, content_at(disk, &place))?;
        }
    }
    for key in ["O^a,:p", ":o"] {
        let place = place_of(key);
        add_file(alloc, files, place, content_at(disk, &place))?;
    }
    Ok(())
}

// The image after so many name steps with files of this shape, if there is one.
fn image_of_shape(
    alloc: Global,
    disk: &MemDisk,
    names: usize,
    shape: &Shape,
) -> Result<Option<MemDisk>, Fail> {
    let mut files = Vec::new(alloc);
    add_entries(alloc, disk, shape.gone, &mut files)?;
    add_file(
        alloc,
        &mut files,
        Place::Index,
        content_at(disk, &Place::Index),
    )?;
    if let Some(place) = shape.journal {
        add_file(alloc, &mut files, place, content_at(disk, &place))?;
    }
    if shape.is_aside {
        let place = Place::Doomed(64);
        add_file(alloc, &mut files, place, content_at(disk, &place))?;
    }
    if shape.is_marked {
        add_file(alloc, &mut files, Place::Clear, MARK)?;
    }
    Ok(disk.image(names, files).ok())
}

// What an image of a stop may be: one of a clearing that is not answered, of one that is, or of one that was stopped
// before.
#[derive(Clone, Copy)]
enum Stopped {
    First,
    Answered,
    Again,
}

// Whether such a shape is allowed. From the first entry that is gone to the last the mark stands, and once the clearing
// is answered all are gone.
fn may_be(shape: &Shape, stopped: Stopped) -> bool {
    match stopped {
        Stopped::First => shape.gone == 0 || shape.gone == 4 || shape.is_marked,
        Stopped::Answered => shape.gone == 4 && !shape.is_marked,
        Stopped::Again => shape.gone == 4 || shape.is_marked,
    }
}

// Whether such an image, where there is one, is as it is due; and whether there is one. Where the mark stands the next
// run takes what is left.
fn shape_is_so(
    alloc: Global,
    disk: &MemDisk,
    names: usize,
    shape: &Shape,
    stopped: Stopped,
) -> Result<(bool, bool), Fail> {
    match image_of_shape(alloc, disk, names, shape)? {
        Some(mut image) => {
            let is_all = shape.gone == 0 && !shape.is_marked;
            let so = may_be(shape, stopped) && reopens_so(alloc, &mut image, is_all)?;
            Ok((so, true))
        }
        None => Ok((true, false)),
    }
}

// Whether there is an image with these names and with so many gone, and all are as they are due.
fn shapes_are_so(
    alloc: Global,
    disk: &MemDisk,
    names: usize,
    gone: usize,
    stopped: Stopped,
) -> Result<(bool, bool), Fail> {
    let mut met = false;
    for is_aside in [false, true] {
        for is_marked in [false, true] {
            for journal in [None, Some(Place::Log), Some(Place::Tmp)] {
                let shape = Shape {
                    gone,
                    is_aside,
                    is_marked,
                    journal,
                };
                let (so, is_there) = shape_is_so(alloc, disk, names, &shape, stopped)?;
                if !so {
                    return Ok((false, true));
                }
                met = met || is_there;
            }
        }
    }
    Ok((true, met))
}

// Whether there is an image after so many name steps, and all are as they are due.
fn images_after(
    alloc: Global,
    disk: &MemDisk,
    names: usize,
    stopped: Stopped,
) -> Result<bool, Fail> {
    let mut met = false;
    for gone in 0..5usize {
        let (so, is_there) = shapes_are_so(alloc, disk, names, gone, stopped)?;
        if !so {
            return Ok(false);
        }
        met = met || is_there;
    }
    Ok(met)
}

fn images_are_so(alloc: Global, disk: &MemDisk, stopped: Stopped) -> Result<bool, Fail> {
    let most = disk.name_steps();
    for names in 0..20usize {
        if names > most {
            return Ok(true);
        }
        if !images_after(alloc, disk, names, stopped)? {
            return Ok(false);
        }
    }
    Ok(false)
}

// The number of all calls before the clearing, and after it.
fn calls_of_a_clearing(alloc: Global) -> Result<(u64, u64), Fail> {
    let mut disk = MemDisk::new(alloc);
    let made = comes_so(alloc, &mut disk, &SIX)?;
    let before = disk.calls();
    let cleared = comes_so(alloc, &mut disk, &(CLEAR, b"", Status::Done, ALL_CLEARED))?;
    let after = disk.calls();
    if made && cleared && are_found(alloc, &mut disk, false)? {
        Ok((before, after))
    } else {
        Err(Fail::from("this is no clearing"))
    }
}

// Whether a clearing stops after so many calls, and all images are then as they are due.
fn stop_is_so(alloc: Global, stop: u64) -> Result<bool, Fail> {
    let mut disk = MemDisk::new(alloc);
    comes_so(alloc, &mut disk, &SIX)?;
    disk.stop_after(stop);
    let (status, text) = ends(alloc, &mut disk, CLEAR, b"")?;
    let stopped = if before_faults(text.as_slice()) == ALL_CLEARED {
        Stopped::Answered
    } else {
        Stopped::First
    };
    Ok(status == Status::Disk && images_are_so(alloc, &disk, stopped)?)
}

// The first number of calls after which a stop leaves another image, where there is one.
fn bad_stop(alloc: Global) -> Result<Option<u64>, Fail> {
    let (before, after) = calls_of_a_clearing(alloc)?;
    for stop in before..after {
        if !stop_is_so(alloc, stop)? {
            return Ok(Some(stop));
        }
    }
    Ok(None)
}

// After each stop the next run lists all four or none, each of them whole, and none once the clearing is answered.
#[test]
fn each_stop_of_a_clearing_leaves_all_or_none(rt: HostRuntime) -> Result<(), Fail> {
    let bad = bad_stop(rt.alloc())?;
    assert!(rt; bad == None, "at {bad:?}");
    Ok(())
}

// How many calls a `list` makes that resumes the clearing.
fn calls_of_resuming(alloc: Global, made: &MemDisk) -> Result<u64, Fail> {
    let mut disk = six_mark_and_index(alloc, made)?;
    if comes_so(alloc, &mut disk, &(LIST, b"", Status::Done, LIST_OF_OTHERS))? {
        Ok(disk.calls())
    } else {
        Err(Fail::from("nothing is resumed"))
    }
}

// Whether it stops after so many calls, and all images are then as they are due.
fn resuming_stops_so(alloc: Global, made: &MemDisk, stop: u64) -> Result<bool, Fail> {
    let mut disk = six_mark_and_index(alloc, made)?;
    disk.stop_after(stop);
    let (status, _) = ends(alloc, &mut disk, LIST, b"")?;
    Ok(status == Status::Disk && images_are_so(alloc, &disk, Stopped::Again)?)
}

// The mark stands as long as one of them may, whatever stops the run after the stop, and the one after that goes on.
#[test]
fn each_stop_of_resuming_leaves_the_mark_or_none(rt: HostRuntime) -> Result<(), Fail> {
    let mut made = MemDisk::new(rt.alloc());
    comes_so(rt.alloc(), &mut made, &SIX)?;
    let calls = calls_of_resuming(rt.alloc(), &made)?;
    assert!(rt; calls > 20, "{calls} calls");
    for stop in 0..calls {
        assert!(rt;
            resuming_stops_so(rt.alloc(), &made, stop)?,
            "after {stop} calls"
        );
    }
    Ok(())
}
