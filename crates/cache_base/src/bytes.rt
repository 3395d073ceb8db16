//! What the type of bytes promises.

ghost use Rattle.cache_base.specs.Bytes.{AreBytes};

/// What stands in a `u8` slice are bytes. Call it where a promise about a list of numbers asks that they are bytes, as
/// what was read into a buffer, or a key that came from outside.
pub fn bytes_fit(b: &[u8])
    ensures { AreBytes b.now }
{}
