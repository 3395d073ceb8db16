//! Chunks written one after another.

ghost use Rattle.std.specs.Prelude.{◌≡◌, ◌*◌, ◌^◌, ◌≤◌, ◌++◌, ◌<◌, ◌+◌, length, IsTrue};
ghost use Rattle.cache_base.specs.Limits.{chunk_size};
ghost use Rattle.disk_theory.specs.Account.{OnlyChanges, ending, no_sync};
ghost use Rattle.disk_theory.specs.State.{standing, wrote};
ghost use Rattle.disk_theory.specs.Calls.{counted_change, if_done, MayWriteAt};
ghost use Rattle.chunk_store.specs.Stored.{stop_tail, chunk_write};

use cache_base::{Buffer, CHUNK};
use disk_theory::{Disk, DiskFault, Place};

// Adds the stop tail.
fn push_tail(buf: &mut Buffer)
    requires { length buf.old ≡ CHUNK }
    ensures { buf.new ≡ buf.old ++ stop_tail }
{
    buf.push(0xff);
    buf.push(0xff);
    buf.push(0xff);
    buf.push(0xff);
}

/// Writes the whole chunk that the buffer holds at its place in the file, and the stop tail after it, by one call of
/// the disk. The buffer is as before. It takes no memory of its own.
pub fn append_chunk<D: Disk>(
    disk: &mut D,
    place: &Place,
    index: u32,
    buf: &mut Buffer,
) -> Result<(), DiskFault>
    requires full { length buf.old ≡ CHUNK }
    requires limit { index * chunk_size ≤ 2 ^ 40 }
    requires told { IsTrue D.tells →
        MayWriteAt (standing (D.state disk.old) place.now) (index * chunk_size) }
    ensures buf { buf.new ≡ buf.old }
    ensures state { IsTrue D.tells → D.state disk.new ≡ if_done result
        (wrote place.now (chunk_write index buf.old) (D.state disk.old)) (D.state disk.old) }
    ensures counts { IsTrue D.tells →
        D.counts disk.new ≡ counted_change result (D.counts disk.old) }
    ensures disk { OnlyChanges D.Disk (ending result) no_sync disk.old disk.new }
{
    push_tail(buf);
    let from = u64::from(index) * CHUNK as u64;
    let result = disk.write_end(place, from, buf.as_slice());
    buf.set_len(CHUNK);
    result
}
