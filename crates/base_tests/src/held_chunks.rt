//! The cache of chunks: tables of steps.

use cache_base::{Bytes, NoMemory};
use chunk_cache::ChunkCache;
use std::alloc::Global;
use std::process::Abort;
use std::test::Fail;

// A call of the cache and what it answers.
#[derive(Clone, Copy)]
enum Step<'a> {
    // These bytes are kept as the chunk of an entry.
    Keep(u64, u32, &'a [u8]),
    // The chunks 0 to a count of an entry are kept in this order, each with this byte.
    KeepEach(u64, u32, u8),
    Forget(u64),
    // The chunk is cached with these bytes. It becomes the most recent.
    Has(u64, u32, &'a [u8]),
    Lacks(u64, u32),
    // Of the chunks 0 to a count of an entry, so many are cached with this byte.
    Counts(u64, u32, u8, u32),
    // The full cache gives the bytes of its least recent chunk.
    Gives(&'a [u8]),
    // One that is not full gives none.
    GivesNone,
}

fn text(alloc: Global, bytes: &[u8]) -> Result<Bytes, NoMemory> {
    let mut all = Bytes::new(alloc);
    all.extend(bytes)?;
    Ok(all)
}

fn has(cache: &mut ChunkCache, entry: u64, index: u32, bytes: &[u8]) -> bool {
    match cache.look(entry, index) {
        Some(found) => found == bytes,
        None => false,
    }
}

fn keep_each(
    alloc: Global,
    cache: &mut ChunkCache,
    entry: u64,
    count: u32,
    x: u8,
) -> Result<(), NoMemory> {
    for index in 0..count {
        cache.keep(entry, index, text(alloc, &[x])?)?;
    }
    Ok(())
}

fn count_cached(cache: &mut ChunkCache, entry: u64, count: u32, x: u8) -> u32 {
    let mut cached: u32 = 0;
    for index in 0..count {
        if has(cache, entry, index, &[x]) {
            cached = cached.saturating_add(1);
        }
    }
    cached
}

fn gives(cache: &mut ChunkCache, bytes: &[u8]) -> bool {
    match cache.evict() {
        Some(found) => found.as_slice() == bytes,
        None => false,
    }
}

// Whether the cache takes new bytes, or answers so.
fn step_goes(alloc: Global, cache: &mut ChunkCache, step: &Step<'_>) -> Result<bool, NoMemory> {
    match *step {
        Step::Keep(entry, index, bytes) => cache.keep(entry, index, text(alloc, bytes)?)?,
        Step::KeepEach(entry, count, x) => keep_each(alloc, cache, entry, count, x)?,
        Step::Forget(entry) => cache.forget(entry),
        Step::Has(entry, index, bytes) => return Ok(has(cache, entry, index, bytes)),
        Step::Lacks(entry, index) => return Ok(cache.look(entry, index).is_none()),
        Step::Counts(entry, count, x, due) => {
            return Ok(count_cached(cache, entry, count, x) == due);
        }
        Step::Gives(bytes) => return Ok(gives(cache, bytes)),
        Step::GivesNone => return Ok(cache.evict().is_none()),
    }
    Ok(true)
}

// How many steps go so, one after the other over a new cache, up to the first that does not.
fn steps_gone(alloc: Global, steps: &[Step<'_>]) -> Result<usize, NoMemory> {
    let mut cache = ChunkCache::new(alloc)?;
    for index in 0..steps.len() {
        if !step_goes(alloc, &mut cache, &steps[index])? {
            return Ok(index);
        }
    }
    Ok(steps.len())
}

// Asserts that all steps go so.
fn all_go(rt: &impl Abort, alloc: Global, steps: &[Step<'_>]) -> Result<(), Fail> {
    let gone = steps_gone(alloc, steps)?;
    assert_eq!(rt; gone, steps.len());
    Ok(())
}

const FORGOTTEN: &[Step<'static>] = &[
    Step::Lacks(7, 0),
    Step::Keep(7, 0, b"chunk"),
    Step::Has(7, 0, b"chunk"),
    Step::Lacks(7, 1),
    Step::Lacks(0, 7),
    Step::Forget(7),
    Step::Lacks(7, 0),
];

#[test]
fn a_chunk_is_kept_until_its_entry_is_forgotten(rt: HostRuntime) -> Result<(), Fail> {
    all_go(&rt, rt.alloc(), FORGOTTEN)
}

const OF_33: &[Step<'static>] = &[
    Step::KeepEach(7, 33, b'a'),
    Step::Lacks(7, 0),
    Step::Counts(7, 33, b'a', 32),
];

#[test]
fn the_least_recent_of_33_is_gone(rt: HostRuntime) -> Result<(), Fail> {
    all_go(&rt, rt.alloc(), OF_33)
}

const LOOKED_AT: &[Step<'static>] = &[
    Step::KeepEach(7, 32, b'a'),
    Step::Has(7, 0, b"a"),
    Step::Keep(8, 0, b"b"),
    Step::Lacks(7, 1),
    Step::Has(7, 0, b"a"),
    Step::Has(8, 0, b"b"),
];

#[test]
fn a_look_saves_the_least_recent(rt: HostRuntime) -> Result<(), Fail> {
    all_go(&rt, rt.alloc(), LOOKED_AT)
}

const NEW_BYTES: &[Step<'static>] = &[
    Step::KeepEach(7, 32, b'a'),
    Step::Keep(7, 0, b"b"),
    Step::Has(7, 0, b"b"),
    Step::Counts(7, 32, b'a', 31),
    Step::KeepEach(8, 31, b'c'),
    Step::Lacks(7, 30),
    Step::Has(7, 31, b"a"),
];

#[test]
fn new_bytes_of_a_cached_chunk_push_no_other_out(rt: HostRuntime) -> Result<(), Fail> {
    all_go(&rt, rt.alloc(), NEW_BYTES)
}

const OF_ONE_ENTRY: &[Step<'static>] = &[
    Step::KeepEach(7, 10, b'a'),
    Step::KeepEach(8, 10, b'b'),
    Step::KeepEach(7, 12, b'c'),
    Step::Forget(9),
    Step::Counts(7, 12, b'c', 12),
    Step::Forget(7),
    Step::Counts(7, 12, b'c', 0),
    Step::Counts(8, 10, b'b', 10),
    Step::KeepEach(9, 22, b'd'),
    Step::Counts(8, 10, b'b', 10),
    Step::Counts(9, 22, b'd', 22),
];

#[test]
fn only_the_chunks_of_one_entry_are_forgotten(rt: HostRuntime) -> Result<(), Fail> {
    all_go(&rt, rt.alloc(), OF_ONE_ENTRY)
}

const FULL: &[Step<'static>] = &[
    Step::KeepEach(7, 31, b'a'),
    Step::GivesNone,
    Step::Keep(8, 0, b"last"),
    Step::Counts(7, 31, b'a', 31),
    Step::Gives(b"last"),
    Step::Lacks(8, 0),
    Step::Counts(7, 31, b'a', 31),
];

#[test]
fn a_full_cache_gives_its_least_recent_bytes(rt: HostRuntime) -> Result<(), Fail> {
    all_go(&rt, rt.alloc(), FULL)
}
