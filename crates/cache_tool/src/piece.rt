//! Pieces of a body, as they come from a source.

ghost use Rattle.std.specs.Prelude.{◌≡◌, ◌≢◌, ◌≤◌, ◌<◌, length, take};
ghost use Rattle.std.specs.Io.KnownBytes.{Consumes, IsAtEnd};
ghost use Rattle.cache_base.specs.Causes.{HasCause};

use cache_io::{Source, SourceFault, read_after};

/// How far a piece was filled.
#[derive(Clone, Copy, Debug, PartialEq, Eq)]
pub(crate) enum PieceEnd {
    /// The piece is full.
    Full,
    /// The source has no more bytes.
    End,
    /// The source failed.
    Failed,
}

/// How many bytes at the beginning of a piece came from the source, and how that ended.
#[derive(Clone, Copy, Debug, PartialEq, Eq)]
pub(crate) struct Filled {
    pub(crate) count: usize,
    pub(crate) ended: PieceEnd,
}

/// Fills the piece from the source, as far as it goes.
pub(crate) fn fill<S: Source>(source: &mut S, piece: &mut [u8]) -> Filled
    ensures within { result.count ≤ length piece.new }
    ensures bytes { Consumes (S.left source.old) (S.left source.new) (take result.count piece.new) }
    ensures full { result.ended ≡ PieceEnd.Full → result.count ≡ length piece.new }
    ensures short { result.ended ≢ PieceEnd.Full → result.count < length piece.new }
    ensures end { result.ended ≡ PieceEnd.End → IsAtEnd (S.left source.new) }
    ensures cause { let failed = result.ended ≡ PieceEnd.Failed in
        HasCause failed (S.faults source.old) (S.faults source.new) }
{
    let mut count = 0;
    'reads: while count < piece.len() {
        match read_after(source, piece, count) {
            Ok(0) => return Filled {
                count,
                ended: PieceEnd::End,
            },
            Ok(n) => count += n,
            Err(_) => return Filled {
                count,
                ended: PieceEnd::Failed,
            },
        }
    }
    Filled {
        count,
        ended: PieceEnd::Full,
    }
}
