//! The cache: at most 32 chunks, and which of them goes when another comes.

ghost use Rattle.std.specs.Prelude.{[], IfOk, IsOk, IsSome, OnErr, OnOk, option_copied, ◌==◌, ◌≡◌};
ghost use Rattle.std.specs.Borrow.{sem};
ghost use Rattle.std.specs.List.{find};
ghost use Rattle.std.specs.Map.{keys_of, remove_entry};
ghost use Rattle.lru.specs.LruCache.{lru_cache};
ghost use Rattle.chunk_cache.specs.Shown.{same_id};

use cache_base::{Bytes, CACHED, NoMemory};
use lru::LruCache;
use std::alloc::Global;
use std::marker::Model;
use std::num::NonZeroUsize;

/// Which chunk: the number of its entry, and its index in that entry's body.
#[derive(Clone, Copy, PartialEq, Eq, Hash)]
pub(crate) struct ChunkId {
    pub entry: u64,
    pub index: u32,
}

/// At most `CACHED` chunks with their bytes, the most recent first. No chunk stands twice.
#[derive(Drop)]
pub struct ChunkCache {
    chunks: LruCache<ChunkId, Bytes>,
}

impl Model for ChunkCache {
    ghost use Rattle.std.specs.Prelude.{◌≡◌, List, map};
    ghost use Rattle.cache_base.specs.declared.limits.TheConstants.{CACHED};
    ghost use Rattle.chunk_cache.specs.Cached.{CachedChunk};

    ghost Value = { List CachedChunk };

    ghost use Rattle.chunk_cache.specs.Shown.{shown};

    ghost view = { λ c. map shown c.chunks.entries };

    ghost invariant = { λ c. c.chunks.cap ≡ CACHED };
}

impl ChunkCache {
    ghost use Rattle.chunk_cache.specs.Cached as spec;
    ghost use Rattle.chunk_cache.specs.Lending.{EndsAs};

    /// The cache with no chunk. It fails only where memory runs out.
    pub fn new(alloc: Global) -> Result<ChunkCache, NoMemory>
        ensures { IfOk result (λ cache. cache ≡ []) }
    {
        let most = NonZeroUsize::new(CACHED).unwrap();
        Ok(ChunkCache {
            chunks: LruCache::new(alloc, most)?,
        })
    }

    /// Lends the bytes of a chunk, and makes it the most recent. There are none exactly where the chunk is not cached.
    /// It takes no memory.
    pub fn look(&mut self, entry: u64, index: u32) -> Option<&[u8]>
        ensures bytes { option_copied result ≡ spec.bytes_of entry index self.old }
        ensures* order { sem 𝓛 (EndsAs self.entry (spec.looked_at entry index self.old)) }
        ensures cache { spec.IsCache self.old }
    {
        // What `len` ensures: no chunk stands twice.
        let _len = self.chunks.len();
        match self.chunks.get(&ChunkId { entry, index }) {
            Some(bytes) => Some(bytes.as_slice()),
            None => None,
        }
    }

    /// Makes these the bytes of a chunk, and makes it the most recent. Where the chunk is cached already its old bytes
    /// go, and no memory is taken; else, where the cache is full, the least recent chunk goes. After `NoMemory` the
    /// cache is as before.
    pub fn keep(&mut self, entry: u64, index: u32, bytes: Bytes) -> Result<(), NoMemory>
        ensures ok { OnOk result (self.new ≡ spec.with_chunk entry index bytes self.old) }
        ensures err { OnErr result (self.new ≡ self.old) }
        ensures replaces { IsSome (spec.bytes_of entry index self.old) → IsOk result }
        ensures cache { spec.IsCache self.new }
    {
        // What `len` ensures: no chunk stands twice.
        let _len = self.chunks.len();
        self.chunks.put(ChunkId { entry, index }, bytes)?;
        Ok(())
    }

    /// Takes the least recent chunk out of a full cache, and gives its bytes. Where there is room no chunk goes, and
    /// there are none. The next chunk can be read into that memory and kept: so a cache that is full takes no more
    /// memory for bytes. This call takes none.
    pub fn evict(&mut self) -> Option<Bytes>
        ensures bytes { result ≡ spec.last_of_full self.old }
        ensures chunks { self.new ≡ spec.with_room self.old }
        ensures cache { spec.IsCache self.new }
    {
        if self.chunks.len() < CACHED {
            return None;
        }
        match self.chunks.pop_lru() {
            Some((_, bytes)) => Some(bytes),
            None => None,
        }
    }

    /// Drops all chunks of an entry. It takes no memory.
    pub fn forget(&mut self, entry: u64)
        ensures chunks { self.new ≡ spec.without_entry entry self.old }
        ensures cache { spec.IsCache self.new }
    {
        while let Some(id) = first_of(&self.chunks, entry) {
            take_out(&mut self.chunks, id);
        }
        // What `len` ensures: no chunk stands twice.
        let _len = self.chunks.len();
    }
}

// The most recent chunk of an entry.
fn first_of(chunks: &LruCache<ChunkId, Bytes>, entry: u64) -> Option<ChunkId>
    ensures { result ≡ find (λ id. id.entry == entry) (keys_of chunks.now.entries) }
{
    chunks
        .iter()
        .map(|(id, _)| *id)
        .find(|id| id.entry == entry)
}

// Takes a chunk out.
fn take_out(chunks: &mut LruCache<ChunkId, Bytes>, id: ChunkId)
    ensures { chunks.new ≡ lru_cache (remove_entry (same_id id) chunks.old.entries) chunks.old.cap }
{
    chunks.pop(&id);
}
