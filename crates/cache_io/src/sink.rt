//! Where bytes go.

ghost use Rattle.std.specs.Prelude.{ℕ, ◌≡◌, ◌<◌, ◌≤◌, List, length, take, OnOk, OnErr, IfOk, IsErrOf};
ghost use Rattle.std.specs.declared.option.Option.{Option};
ghost use Rattle.std.specs.Io.KnownBytes.{Appends, WriteAppends};
ghost use Rattle.cache_base.specs.Causes.{HasCause};
ghost use Rattle.cache_io.specs.declared.sink.SinkFault.TheVariants.{Memory};

use cache_base::NoMemory;

/// Why a write took nothing.
#[derive(Clone, Copy, Debug, PartialEq, Eq)]
pub enum SinkFault {
    /// The sink failed.
    Failed,
    /// Memory ran out.
    Memory,
}

impl From<NoMemory> for SinkFault {
    ghost from_gives = { λ _ e. e ≡ Memory };

    fn from(_: NoMemory) -> Self {
        SinkFault::Memory
    }
}

/// Where bytes go.
pub trait Sink {
    /// The bytes that were taken so far, where the sink tells.
    ghost taken: { Self → Option (List ℕ) };

    /// How often a write has failed.
    ghost faults: { Self → ℕ };

    /// Takes the first bytes, one at least, and tells how many; or fails and takes none.
    fn write(&mut self, b: &[u8]) -> Result<usize, SinkFault>
        requires { 0 < length b.now }
        ensures bound { IfOk result (λ n. (0 < n) × (n ≤ length b.now)) }
        ensures bytes { WriteAppends (taken self.old) (taken self.new) result b.now }
        ensures cause { HasCause (IsErrOf result SinkFault.Failed)
            (faults self.old) (faults self.new) };
}

/// Writes all the bytes. After a fault a proper prefix of them went out.
pub fn write_whole<K: Sink>(sink: &mut K, b: &[u8]) -> Result<(), SinkFault>
    ensures all { OnOk result (Appends (K.taken sink.old) (K.taken sink.new) b.now) }
    ensures part { OnErr result ((n : ℕ) × (n < length b.now)
        × Appends (K.taken sink.old) (K.taken sink.new) (take n b.now)) }
    ensures cause { HasCause (IsErrOf result SinkFault.Failed)
        (K.faults sink.old) (K.faults sink.new) }
{
    let mut sent = 0;
    while sent < b.len() {
        sent += sink.write(&b[sent..])?;
    }
    Ok(())
}
