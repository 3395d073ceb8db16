//! How the program ends.

ghost use Rattle.std.specs.Prelude.{◌≡◌};
ghost use Rattle.cache_base.specs.Status.{code_of};

/// How a run of the program ended.
#[derive(Clone, Copy, Debug, PartialEq, Eq)]
pub enum Status {
    /// All was done.
    Done,
    /// Memory ran out.
    Memory,
    /// The words of the command line have no form; nothing was called.
    Words,
    /// The script has a bad command.
    Script,
    /// The source failed.
    Source,
    /// The sink failed.
    Sink,
    /// The disk failed.
    Disk,
    /// The last command was refused, or found something wrong.
    No,
}

impl Status {
    /// The exit status of the program.
    pub fn code(self) -> u8
        ensures { result ≡ code_of self }
    {
        self as u8
    }
}
