//! What a look, a new chunk and a forgotten entry change in the cache, and what they leave.

ghost use Rattle.chunk_cache.specs.Laws.{ForgetAddsNone, ForgetLeavesOthers, FoundExactly, KeepAddsOne, KeepAfterEvict, KeepEvictsLast, KeepLeavesOthers, KeepPutsFirst, KeepReplaces, LookAddsNone, LookLeavesBytes, LookPutsFirst, StaysCache};

/// A look finds the bytes of a chunk exactly where the chunk stands with them.
pub fn found_exactly()
    ensures { FoundExactly }
{}

/// A look puts a chunk that is cached first. It changes no bytes, and adds no chunk.
pub fn look_only_moves()
    ensures first { LookPutsFirst }
    ensures bytes { LookLeavesBytes }
    ensures none_new { LookAddsNone }
{}

/// A chunk that is kept stands first with its bytes, and no other chunk is new. Its old bytes go, or the least recent
/// chunk of a full cache, and nothing else.
pub fn keep_adds_one()
    ensures first { KeepPutsFirst }
    ensures one_new { KeepAddsOne }
    ensures replaces { KeepReplaces }
    ensures evicts { KeepEvictsLast }
    ensures others { KeepLeavesOthers }
    ensures after_evict { KeepAfterEvict }
{}

/// No chunk of an entry that was forgotten is left, every other chunk has the bytes that it had, and no chunk is new.
pub fn forget_drops_all()
    ensures others { ForgetLeavesOthers }
    ensures none_new { ForgetAddsNone }
{}

/// A cache holds at most `CACHED` chunks, and none twice, whatever is done with it.
pub fn stays_cache()
    ensures { StaysCache }
{}
