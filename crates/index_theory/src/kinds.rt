//! What stands at `index` and at `index.log`, and how an opening starts.

/// What stands at `index`.
#[derive(Clone, Copy, Debug, PartialEq, Eq)]
pub enum IndexKind {
    /// No file.
    Missing,
    /// A file that fails a check.
    Invalid,
    /// An index whose flag is set: it may be out of date.
    Dirty,
    /// An index whose flag is clear: with its journal it is up to date.
    Clean,
}

/// What stands at `index.log`.
#[derive(Clone, Copy, Debug, PartialEq, Eq)]
pub enum LogKind {
    /// No file.
    Missing,
    /// A file that fails a check.
    Invalid,
    /// A journal.
    Valid,
}

/// How an opening starts.
#[derive(Clone, Copy, Debug, PartialEq, Eq)]
pub enum Start {
    /// The index and its journal are trusted, and no entry file is read.
    Ready,
    /// The records of the index are brought up to date by the entry files.
    Update,
    /// The records are made anew from the entry files.
    Build,
}
