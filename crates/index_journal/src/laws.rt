//! A journal that is written is read back, and only such a file passes the checks.

ghost use Rattle.index_journal.specs.Laws.{JournalFitsExactly, JournalReadsBack};

/// A journal that is spelled passes its checks, and is read back.
pub fn journal_reads_back()
    ensures { JournalReadsBack }
{}

/// Bytes pass the checks of a journal exactly where they spell one.
pub fn journal_fits_exactly()
    ensures { JournalFitsExactly }
{}
