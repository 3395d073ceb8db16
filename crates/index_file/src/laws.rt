//! An index that is written is read back, and only such a file passes the checks.

ghost use Rattle.std.specs.Prelude.{◌≡◌};
ghost use Rattle.index_file.specs.Laws.{IndexFitsExactly, IndexReadsBack};
ghost use Rattle.index_file.specs.declared.TheConstants.{VERSION};

/// An index that is spelled passes its checks, and is read back.
pub fn index_reads_back()
    ensures { IndexReadsBack }
{}

/// The number of the version. Definitions cite the constant by name, so another number would change what they say.
pub fn version_is()
    ensures { VERSION ≡ 10 }
{}

/// Bytes pass the checks of an index exactly where they spell one.
pub fn index_fits_exactly()
    ensures { IndexFitsExactly }
{}
