//! How a command was answered.

/// How a command was answered.
#[derive(Clone, Copy, Debug, PartialEq, Eq)]
pub enum Outcome {
    /// It was done, or it told that there is nothing.
    Ok,
    /// It was refused, and changed nothing.
    Refused,
    /// A look at the disk failed before anything of the reply was out. The reply is the line `fault`, and all is as it
    /// was.
    Faulted,
}
