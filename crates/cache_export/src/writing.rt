//! Writes what stands in an item around its body.

ghost use Rattle.std.specs.Prelude.{◌≡◌, ◌≤◌, ◌∷◌, IsErrOf, length};
ghost use Rattle.cache_base.specs.Bytes.{be32};
ghost use Rattle.cache_base.specs.Causes.{HasCause};
ghost use Rattle.cache_base.specs.declared.limits.TheConstants.{KEY_MAX};
ghost use Rattle.cache_io.specs.declared.sink.SinkFault.TheVariants.{Failed};
ghost use Rattle.cache_export.specs.Dump.{front_bytes};
ghost use Rattle.cache_export.specs.Writing.{GoesOut, back_of};

use crate::limits::ITEM;
use cache_io::{Sink, SinkFault, write_whole};
use entry_metadata::{Meta, block_len, print};
use std::alloc::Global;

// The byte before an item, and the key's length.
fn key_lead(len: u32) -> [u8; 5]
    ensures { result ≡ 1 ∷ be32 len }
{
    let [a, b, c, d] = len.to_be_bytes();
    [ITEM, a, b, c, d]
}

/// Writes what stands in an item before a body of `len` bytes. After a fault a proper prefix of it went out.
pub fn item_front<K: Sink>(sink: &mut K, key: &[u8], len: u32) -> Result<(), SinkFault>
    requires { length key.now ≤ KEY_MAX }
    ensures out { GoesOut result (K.taken sink.old) (K.taken sink.new) (front_bytes key.now len) }
    ensures cause { HasCause (IsErrOf result Failed) (K.faults sink.old) (K.faults sink.new) }
{
    let lead = key_lead(key.len() as u32);
    write_whole(sink, &lead)?;
    write_whole(sink, key)?;
    let last = len.to_be_bytes();
    write_whole(sink, &last)
}

/// Writes what stands in an item after its body. After a fault a proper prefix of it went out.
pub fn item_back<K: Sink>(alloc: Global, sink: &mut K, meta: &Meta) -> Result<(), SinkFault>
    ensures out { GoesOut result (K.taken sink.old) (K.taken sink.new) (back_of meta.now) }
    ensures cause { HasCause (IsErrOf result Failed) (K.faults sink.old) (K.faults sink.new) }
{
    let Ok(block) = print(alloc, meta) else {
        return Err(SinkFault::Memory);
    };
    let len = block_len(meta);
    let lead = (len as u32).to_be_bytes();
    let (front, _) = block.as_slice().split_at(len);
    write_whole(sink, &lead)?;
    write_whole(sink, front)
}
