//! A metadata block is read back, and only such a block passes the checks.

ghost use Rattle.entry_metadata.specs.Laws.{BlockFitsExactly, BlockReadsBack};

/// A block of any version passes its checks, and is read back.
pub fn block_reads_back()
    ensures { BlockReadsBack }
{}

/// Bytes pass the checks of a block exactly where they spell metadata.
pub fn block_fits_exactly()
    ensures { BlockFitsExactly }
{}
