//! Chunks read from the file of an entry.

ghost use Rattle.std.specs.Prelude.{◌≡◌, ◌+◌, ◌-◌, ◌*◌, ◌<◌, ◌≤◌, ◌++◌, length, take, replicate, IfSome, OnOk, IsTrue};
ghost use Rattle.cache_base.specs.Limits.{chunks};
ghost use Rattle.disk_theory.specs.Account.{Looks, ending};
ghost use Rattle.disk_theory.specs.State.{standing};
ghost use Rattle.disk_theory.specs.Calls.{counted_read};
ghost use Rattle.chunk_store.specs.Chunks.{chunk};
ghost use Rattle.chunk_store.specs.Stored.{chunk_len, read_as};

use cache_base::{Buffer, CHUNK};
use disk_theory::{Disk, DiskFault, Place};

/// Makes the buffer the chunk `index` of a body of `offset` bytes that stands at the beginning of the file, by one call
/// of the disk. Where the file is shorter, or no file stands there, the bytes that it does not have are zeros.
pub fn read_chunk<D: Disk>(
    disk: &mut D,
    place: &Place,
    offset: u32,
    index: u32,
    buf: &mut Buffer,
) -> Result<(), DiskFault>
    requires { index < chunks offset }
    ensures len { OnOk result (length buf.new ≡ chunk_len offset index) }
    ensures bytes { OnOk result (IsTrue D.tells →
        buf.new ≡ read_as offset index (standing (D.state disk.old) place.now)) }
    ensures chunk { OnOk result (IsTrue D.tells → IfSome (standing (D.state disk.old) place.now)
        (λ content. offset ≤ length content → buf.new ≡ chunk (take offset content) index)) }
    ensures counts { IsTrue D.tells →
        D.counts disk.new ≡ counted_read result place.now (D.counts disk.old) }
    ensures looks { Looks D.Disk (ending result) disk.old disk.new }
{
    let len = CHUNK.min(offset as usize - index as usize * CHUNK);
    buf.set_len(len);
    read_chunk_into(disk, place, offset, index, buf.as_mut_slice())
}

// Makes the bytes from a place on zeros.
fn zero_from(buf: &mut [u8], at: usize)
    requires { at ≤ length buf.old }
    ensures { buf.new ≡ take at buf.old ++ replicate (length buf.old - at) 0 }
{
    buf[at..].fill(0);
}

/// Reads the chunk `index` of a body of `offset` bytes into a slice of its length, by one call of the disk, whatever
/// the slice held. Where the file is shorter, or no file stands there, the bytes that it does not have are zeros.
#[tactic(auto, using(crate::proofs::Filled::read_over_any))]
pub fn read_chunk_into<D: Disk>(
    disk: &mut D,
    place: &Place,
    offset: u32,
    index: u32,
    buf: &mut [u8],
) -> Result<(), DiskFault>
    requires index { index < chunks offset }
    requires len { length buf.old ≡ chunk_len offset index }
    ensures bytes { OnOk result (IsTrue D.tells →
        buf.new ≡ read_as offset index (standing (D.state disk.old) place.now)) }
    ensures chunk { OnOk result (IsTrue D.tells → IfSome (standing (D.state disk.old) place.now)
        (λ content. offset ≤ length content → buf.new ≡ chunk (take offset content) index)) }
    ensures counts { IsTrue D.tells →
        D.counts disk.new ≡ counted_read result place.now (D.counts disk.old) }
    ensures looks { Looks D.Disk (ending result) disk.old disk.new }
{
    let n = disk.read(place, index as u64 * CHUNK as u64, buf)?;
    zero_from(buf, n);
    Ok(())
}
