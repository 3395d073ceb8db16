//! Where bytes come from.

ghost use Rattle.std.specs.Prelude.{ℕ, ◌≡◌, ◌<◌, ◌≤◌, ◌+◌, List, length, take, drop, IfOk, IsErrOf, Ok, OnErr};
ghost use Rattle.std.specs.declared.option.Option.{Option};
ghost use Rattle.std.specs.Io.{ReadsAtMost};
ghost use Rattle.std.specs.Io.KnownBytes.{Consumes, IsAtEnd, Keeps, ReadConsumes};
ghost use Rattle.cache_base.specs.Causes.{HasCause};

/// Why a read gave nothing.
#[derive(Clone, Copy, Debug, PartialEq, Eq)]
pub enum SourceFault {
    /// The source failed, and no byte was taken from it.
    Failed,
}

/// Where bytes come from.
pub trait Source {
    /// The bytes that are left, where the source tells.
    ghost left: { Self → Option (List ℕ) };

    /// How often a read has failed.
    ghost faults: { Self → ℕ };

    /// Reads some bytes into the beginning of the buffer and tells how many. None are read only at the end, which
    /// stays the end.
    fn read(&mut self, buf: &mut [u8]) -> Result<usize, SourceFault>
        requires { 0 < length buf.old }
        ensures bound { ReadsAtMost result buf.new }
        ensures bytes { ReadConsumes (left self.old) (left self.new) result buf.new }
        ensures cause { HasCause (IsErrOf result SourceFault.Failed)
            (faults self.old) (faults self.new) };
}

/// Reads some bytes into the room after its first `end` bytes, which stay, and tells how many.
pub fn read_after<S: Source>(
    source: &mut S,
    room: &mut [u8],
    end: usize,
) -> Result<usize, SourceFault>
    requires { end < length room.old }
    ensures front { take end room.new ≡ take end room.old }
    ensures bound { IfOk result (λ n. end + n ≤ length room.new) }
    ensures bytes { IfOk result (λ n.
        Consumes (S.left source.old) (S.left source.new) (take n (drop end room.new))) }
    ensures ended { result ≡ Ok 0 → IsAtEnd (S.left source.new) }
    ensures failed { OnErr result (Keeps (S.left source.old) (S.left source.new)) }
    ensures cause { HasCause (IsErrOf result SourceFault.Failed)
        (S.faults source.old) (S.faults source.new) }
{
    source.read(&mut room[end..])
}
