//! A file that is written is read back as it was written, and a file that was not written so is found out.

ghost use Rattle.entry_file.specs.EntryFile.{FileReadsWhole, FitsExactly, ReadsWholeExactly};
ghost use Rattle.entry_file.specs.Rewriting.{ReadsByDamage, RewritesToVersion, StoresWhole};
ghost use Rattle.entry_file.specs.Unfinished.{StopTailIsShort, UnfinishedIsShort};
ghost use Rattle.entry_file.specs.Version.{FileBegins};

/// A file of a version begins with its body.
pub fn file_begins()
    ensures { FileBegins }
{}

/// A file of a version reads as that version, whole, whichever version of the format its block has.
pub fn file_reads_whole()
    ensures { FileReadsWhole }
{}

/// A content passes the checks of a file exactly where it is a join of a body, a block and the block's offset.
pub fn fits_exactly()
    ensures { FitsExactly }
{}

/// A content reads as a whole version exactly where it is a file of that version.
pub fn reads_whole_exactly()
    ensures { ReadsWholeExactly }
{}

/// A content that fits reads as damaged by the first damage of its body, or else as the version that it stores.
pub fn reads_by_damage()
    ensures { ReadsByDamage }
{}

/// A content that fits, and whose body has the hashes of its metadata, is a file of the version that it stores.
pub fn stores_whole()
    ensures { StoresWhole }
{}

/// A file of a version, rewritten with the metadata of another version of the same body, is the file of that one.
pub fn rewrites_to_version()
    ensures { RewritesToVersion }
{}

/// A content that ends in the stop tail is too short for an entry's file, whatever stands before it, and so is the
/// file of any body that is not finished.
pub fn unfinished_is_short()
    ensures tail { StopTailIsShort }
    ensures file { UnfinishedIsShort }
{}
