//! What a command answers before its reply is out whole.

use cache_check::FindingList;
use cache_theory::Refusal;

/// What a command answers before its reply is out whole.
pub enum Answered {
    /// It was done, and says `ok`.
    Done,
    /// It has said all.
    All,
    /// There is nothing, and it says `none`.
    NoneThere,
    /// There is an entry, and it says `yes`.
    Yes,
    /// There is none, and it says `no`.
    No,
    /// The update of the index has still to read the name, and it says `unknown`.
    Unknown,
    /// The update of the index has ended, and it says `ready`.
    Ready,
    /// The update has still to read so many names, and it says `updating` and their number.
    Updating(u64),
    /// The index was written anew with so many records, and it says `rebuilt` and their number.
    Rebuilt(u64),
    /// So many names were cleared, and it says `cleared` and their number.
    Cleared(u64),
    /// No clearing is left to be done, and it says nothing.
    Resumed,
    /// The entries were checked, and it says what is wrong.
    Checked(FindingList),
    /// It is refused, and says why.
    Refused(Refusal),
}
