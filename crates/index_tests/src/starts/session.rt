ghost use Rattle.disk_model.specs.MemDisk.{state_in};
ghost use Rattle.disk_theory.specs.Sound.{IsQuiet};

use super::*;

// A journal by which the first two names are gone, and the third has a record.
const MORE_CHANGES: &[u8] =
    b"\x11\x11\x11\x11\x11\x11\x11\x11\x11\x11\x11\x11\x11\x11\x11\x11\x11\x11\x11\x11\
\0\0\0\0\0\0\0\0\0\0\0\0\xff\xff\xff\xff\0\xa0\0\0\0\
\x22\x22\x22\x22\x22\x22\x22\x22\x22\x22\x22\x22\x22\x22\x22\x22\x22\x22\x22\x22\
\0\0\0\0\0\0\0\0\0\0\0\0\xff\xff\xff\xff\0\xa0\0\0\0\
\x33\x33\x33\x33\x33\x33\x33\x33\x33\x33\x33\x33\x33\x33\x33\x33\x33\x33\x33\x33\
\0\0\0\x07\xda\x39\xa3\xee\x5e\x6b\x4b\x0d\0\x01\0\x02\x03\xc2\0\x01\x01\
\xb0\x76\x4d\x77";

// The call of this number fails.
fn plan(alloc: Global, call: u32) -> Result<Numbers, NoMemory> {
    let mut calls = Numbers::new(alloc);
    calls.push(call)?;
    Ok(calls)
}

#[derive(Clone, Copy)]
enum Session {
    Opened,
    // Nothing is changed until this moment, with the update ended or not.
    Passed(Moment, bool),
    // A session that ends at the moment 1000, and one that ends at 1001.
    PassedTwice,
    OneForgotten,
}

// What stands in the files `index` and `index.log`, if they stand.
type Pair<'a> = (Option<&'a [u8]>, Option<&'a [u8]>);

// The files before; the call that fails, and then is the last; the session, how it started, and the synced files after
// it. A file at `index.tmp` is left only where a call fails.
type Row<'a> = (
    Files<'a>,
    Option<u32>,
    Session,
    Result<Start, DiskFault>,
    Pair<'a>,
);

const SESSIONS: [Row<'static>; 6] = [
    // An opening marks the index, and takes the journal away.
    (
        (Some(CLEAN), Some(NOTHING), None),
        None,
        Session::Opened,
        Ok(Start::Ready),
        (Some(DIRTY), None),
    ),
    // An empty cache is closed clean, and so again by the next session.
    (
        (None, None, None),
        None,
        Session::Passed(1000, true),
        Ok(Start::Build),
        (Some(CLEAN), Some(NOTHING)),
    ),
    (
        (None, None, None),
        None,
        Session::PassedTwice,
        Ok(Start::Ready),
        (Some(CLEAN), Some(NOTHING)),
    ),
    // What changed goes to the journal.
    (
        (Some(TWO), Some(CHANGES), None),
        None,
        Session::OneForgotten,
        Ok(Start::Ready),
        (Some(TWO), Some(MORE_CHANGES)),
    ),
    // A close before the end of the update leaves the index dirty.
    (
        (Some(CLEAN), None, None),
        None,
        Session::Passed(1001, false),
        Ok(Start::Update),
        (Some(DIRTY), None),
    ),
    // A call that fails is the last.
    (
        (Some(CLEAN), Some(NOTHING), None),
        Some(8),
        Session::Passed(1001, true),
        Err(DiskFault::Failed),
        (Some(CLEAN), None),
    ),
];

fn run<D: Disk>(alloc: Global, disk: &mut D, session: Session) -> Result<Start, DiskFault> {
    match session {
        Session::Opened => Ok(open_index(alloc, disk)?.start),
        Session::Passed(now, ended) => pass(alloc, disk, now, ended),
        Session::PassedTwice => {
            pass(alloc, disk, 1000, true)?;
            pass(alloc, disk, 1001, true)
        }
        Session::OneForgotten => forget_one(alloc, disk),
    }
}

// Whether the bytes stand at the place, synced, or nothing stands there.
fn stands(disk: &MemDisk, place: &Place, bytes: Option<&[u8]>) -> bool {
    match bytes {
        Some(bytes) => has_synced(disk, place, bytes),
        None => is_absent(disk, place),
    }
}

fn row_holds(alloc: Global, disk: &mut MemDisk, row: &Row<'_>) -> Result<bool, NoMemory>
    requires { IsQuiet (state_in disk.old) }
{
    let (before, fails, session, start, after) = *row;
    put_all(alloc, disk, &before)?;
    if let Some(call) = fails {
        disk.fail_at(plan(alloc, call)?);
    }
    let goes_so = run(alloc, disk, session) == start;
    let ends_so = match fails {
        Some(call) => disk.calls() == u64::from(call) && !is_absent(disk, &Place::Tmp),
        None => is_absent(disk, &Place::Tmp),
    };
    Ok(
        goes_so
            && ends_so
            && stands(disk, &Place::Index, after.0)
            && stands(disk, &Place::Log, after.1),
    )
}

// How many rows hold, up to the first that does not.
fn rows_held(alloc: Global, rows: &[Row<'_>]) -> Result<usize, NoMemory> {
    for index in 0..rows.len() {
        let mut disk = MemDisk::new(alloc);
        if !row_holds(alloc, &mut disk, &rows[index])? {
            return Ok(index);
        }
    }
    Ok(rows.len())
}

#[test]
fn sessions_leave_their_files(rt: HostRuntime) -> Result<(), Fail> {
    assert_eq!(rt; rows_held(rt.alloc(), &SESSIONS)?, SESSIONS.len());
    Ok(())
}
