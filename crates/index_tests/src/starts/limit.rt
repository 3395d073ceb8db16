ghost use Rattle.disk_theory.specs.State.{State};
ghost use Rattle.index_map.specs.Known.{IsPlain, SameBase};
ghost use Rattle.startup_read.specs.Kept.{KeepsIndex};

use super::*;
use cache_base::CHANGED_MAX;
use index_record::{INITIALIZED, IndexRecord, NO_TIME};

// A record of a file of 1 KB, under a name of its own.
fn record(number: u32) -> IndexRecord
    ensures { IsPlain result }
{
    let [a, b, c, d] = number.to_be_bytes();
    IndexRecord {
        name: Name([a, b, c, d, 0, 0, 0, 0, 0, 0, 0, 0, 0, 0, 0, 0, 0, 0, 0, 0]),
        frecency: 7,
        origin: 5,
        on_start: NO_TIME,
        on_stop: NO_TIME,
        content: 0,
        flags: INITIALIZED + 1,
    }
}

// Sets the records of so many names.
fn set_many(map: &mut RecordMap, count: u32) -> Result<(), NoMemory>
    ensures { SameBase map.old map.new }
{
    for number in 0..count {
        map.set(record(number))?;
    }
    Ok(())
}

// So many records more are there.
#[tactic(auto, using(startup_read::proofs::KeptLaws::same_base_keeps_index))]
fn grow(map: &mut RecordMap, count: u32) -> Result<(), NoMemory>
    ensures { (s : State) → KeepsIndex s map.old → KeepsIndex s map.new }
{
    set_many(map, count)
}

// A session in which so many entries come.
fn grow_in<D: Disk>(alloc: Global, disk: &mut D, count: u32) -> Result<(), DiskFault> {
    let mut opened = open_index(alloc, disk)?;
    grow(&mut opened.map, count)?;
    close_index(alloc, disk, &mut opened.map, 1001, true)
}

// The lengths of the index and of the journal.
fn lengths(disk: &MemDisk) -> Option<(usize, usize)> {
    let index = disk.synced_file(&Place::Index)?.len();
    Some((index, disk.synced_file(&Place::Log)?.len()))
}

// The same after such a session over an index without records.
fn lengths_after(alloc: Global, count: u32) -> Result<Option<(usize, usize)>, DiskFault> {
    let mut disk = MemDisk::new(alloc);
    put_all(alloc, &mut disk, &(Some(CLEAN), Some(NOTHING), None))?;
    grow_in(alloc, &mut disk, count)?;
    Ok(lengths(&disk))
}

#[test]
fn the_journal_has_fewer_changes_than_the_limit(rt: HostRuntime) -> Result<(), Fail> {
    let limit = CHANGED_MAX as u32;
    let below = lengths_after(rt.alloc(), limit - 1)?;
    let at_limit = lengths_after(rt.alloc(), limit)?;
    assert!(rt; below == Some((20, 299 * 41 + 4)) && at_limit == Some((16 + 300 * 41 + 4, 4)));
    Ok(())
}
