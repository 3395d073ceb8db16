//! Records that are written are read back, and changes that are applied give the records now.

ghost use Rattle.record_list.specs.Change.{DiffThenApply};
ghost use Rattle.record_list.specs.Laws.{ByNameKeeps, CleanReadsSame, SortedHasNames, StoredFitsExactly, StoredReadsBack};

/// Records that stand in a file pass the checks, and are read.
pub fn stored_reads_back()
    ensures { StoredReadsBack }
{}

/// Bytes pass the checks exactly where they are records and their hash.
pub fn stored_fits_exactly()
    ensures { StoredFitsExactly }
{}

/// A difference, applied to its base, gives the records now.
pub fn diff_then_apply()
    ensures { DiffThenApply }
{}

/// Among records whose names rise no name stands twice.
pub fn rising_has_names()
    ensures { SortedHasNames }
{}

/// Records that have neither the dirty nor the fresh bit are read as they are.
pub fn clean_reads_same()
    ensures { CleanReadsSame }
{}

/// Records that are sorted have the same record under each name.
pub fn by_name_keeps()
    ensures { ByNameKeeps }
{}
