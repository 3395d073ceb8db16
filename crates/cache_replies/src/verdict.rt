//! How a command came out that was performed.

/// Whether a command that was performed did what it says, or was refused.
#[derive(Clone, Copy, Debug, PartialEq, Eq)]
pub enum Verdict {
    /// It was done, or it told that there is nothing.
    Ok,
    /// It was refused, and changed nothing.
    Refused,
}
