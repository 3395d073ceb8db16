//! A sink that holds the reply to the last command.

ghost use Rattle.std.specs.Prelude.{◌≡◌, ◌<◌, ◌≤◌, [], length, IfOk, IsErrOf, OnOk};
ghost use Rattle.std.specs.Io.KnownBytes.{WriteAppends};
ghost use Rattle.cache_base.specs.Causes.{HasCause};

use cache_base::{Bytes, NoMemory};
use cache_io::{Sink, SinkFault};
use std::alloc::Global;

/// A sink that holds the reply to the last command. It never fails, unless memory runs out.
#[derive(Drop)]
pub(crate) struct LastReply {
    alloc: Global,
    text: Bytes,
}

impl LastReply {
    ghost use Rattle.cache_tool.specs.AnyDisk.{too_large_line};
    ghost use Rattle.cache_tool.specs.HeldReply.{said_in};

    /// No reply.
    pub(crate) fn new(alloc: Global) -> LastReply
        ensures { said_in result ≡ [] }
    {
        LastReply {
            alloc,
            text: Bytes::new(alloc),
        }
    }

    /// Forgets the reply.
    pub(crate) fn clear(&mut self)
        ensures { said_in self.new ≡ [] }
    {
        self.text = Bytes::new(self.alloc);
    }

    /// Makes the refusal of a body that is too long the reply.
    pub(crate) fn say_too_large(&mut self) -> Result<(), NoMemory>
        ensures { OnOk result (said_in self.new ≡ too_large_line) }
    {
        self.clear();
        self.text.extend(b"too large\n")
    }

    /// Lends the reply.
    pub(crate) fn as_slice(&self) -> &[u8]
        ensures { result.now ≡ said_in self.now }
    {
        self.text.as_slice()
    }
}

impl Sink for LastReply {
    ghost use Rattle.std.specs.Prelude.{Some};
    ghost use Rattle.cache_tool.specs.HeldReply.{said_in};

    ghost taken = { λ r. Some (said_in r) };

    ghost faults = { λ _. 0 };

    fn write(&mut self, b: &[u8]) -> Result<usize, SinkFault>
        requires { 0 < length b.now }
        ensures bound { IfOk result (λ n. (0 < n) × (n ≤ length b.now)) }
        ensures bytes { let now = Some (said_in self.new) in
            WriteAppends (Some (said_in self.old)) now result b.now }
        ensures cause { HasCause (IsErrOf result SinkFault.Failed) 0 0 }
        ensures whole { IfOk result (λ n. n ≡ length b.now) }
    {
        match self.text.extend(b) {
            Ok(()) => Ok(b.len()),
            Err(_) => Err(SinkFault::Memory),
        }
    }
}
