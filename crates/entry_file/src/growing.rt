//! Appends to the body of a new entry.

ghost use Rattle.std.specs.Prelude.{◌≡◌, ◌≤◌, ◌<◌, ◌+◌, ◌*◌, ◌/◌, ◌++◌, ℕ, List, [], ◌∷◌, length, OnOk, IsTrue, Some, Ok};
ghost use Rattle.cache_base.specs.Limits.{chunk_size};
ghost use Rattle.cache_base.specs.declared.limits.TheConstants.{BODY_MAX, CHUNK};
ghost use Rattle.chunk_store.specs.Chunks.{chunk_hash_of};
ghost use Rattle.chunk_store.specs.Stored.{chunk_write, unfinished_file};
ghost use Rattle.disk_theory.specs.Account.{OnlyChanges, ending, no_sync};
ghost use Rattle.disk_theory.specs.State.{standing, wrote};
ghost use Rattle.disk_theory.specs.Writes.{WritesAt};
ghost use Rattle.disk_theory.specs.Calls.{MayWriteAt, if_done};
ghost use Rattle.entry_file.specs.NewEntry.{HasBody, IsItsFile, grown_len};
ghost use Rattle.entry_file.specs.Held.{held};
ghost use Rattle.entry_file.specs.Unfinished.{IsUnfinished};

use crate::NewEntry;
use crate::chunk_hashes::ChunkHashes;
use cache_base::{Buffer, CHUNK};
use chunk_store::{append_chunk, chunk_hash};
use disk_theory::{Disk, DiskFault, Place};

// Adds the hash of the whole chunk, and writes the chunk.
fn put_full<D: Disk>(
    disk: &mut D,
    place: &Place,
    chunk: &mut Buffer,
    hashes: &mut ChunkHashes,
) -> Result<(), DiskFault>
    requires full { length chunk.old ≡ CHUNK }
    requires limit { length hashes.old * CHUNK + CHUNK ≤ BODY_MAX }
    requires told { IsTrue D.tells →
        MayWriteAt (standing (D.state disk.old) place.now) (length hashes.old * chunk_size) }
    ensures hashes { hashes.new ≡ hashes.old ++ chunk_hash_of chunk.old ∷ [] }
    ensures state { IsTrue D.tells → D.state disk.new ≡ if_done result
        (wrote place.now (chunk_write (length hashes.old) chunk.old) (D.state disk.old))
        (D.state disk.old) }
    ensures calls { IsTrue D.tells → (D.counts disk.new).calls ≤ (D.counts disk.old).calls + 1 }
    ensures disk { OnlyChanges D.Disk (ending result) no_sync disk.old disk.new }
{
    let index = hashes.as_slice().len() as u32;
    hashes.push(chunk_hash(chunk.as_slice()));
    append_chunk(disk, place, index, chunk)
}

impl NewEntry {
    // Fills the chunk that is held up with these bytes, and writes it.
    fn put_chunk<D: Disk>(&mut self, disk: &mut D, place: &Place, b: &[u8]) -> Result<(), DiskFault>
        requires full { length (held self.old).rest + length b.now ≡ CHUNK }
        requires limit { grown_len (held self.old) + length b.now ≤ BODY_MAX }
        requires told { IsTrue D.tells →
            IsItsFile (held self.old) (standing (D.state disk.old) place.now) }
        ensures len { OnOk result
            (grown_len (held self.new) ≡ grown_len (held self.old) + length b.now) }
        ensures rest { OnOk result ((held self.new).rest ≡ []) }
        ensures body { OnOk result ((body : List ℕ) → HasBody (held self.old) body →
            HasBody (held self.new) (body ++ b.now)) }
        ensures stands { OnOk result (IsTrue D.tells → (body : List ℕ) →
            HasBody (held self.old) body →
            standing (D.state disk.old) place.now ≡ Some (unfinished_file body) →
            standing (D.state disk.new) place.now ≡ Some (unfinished_file (body ++ b.now))) }
        ensures writes { IsTrue D.tells →
            WritesAt place.now IsUnfinished (D.state disk.old) (D.state disk.new) }
        ensures calls { IsTrue D.tells → (D.counts disk.new).calls ≤ (D.counts disk.old).calls + 1 }
        ensures disk { OnlyChanges D.Disk (ending result) no_sync disk.old disk.new }
    {
        self.rest.extend(b);
        let result = put_full(disk, place, &mut self.rest, &mut self.hashes);
        self.rest.set_len(0);
        result
    }

    /// Adds bytes to the body. Each chunk goes out as soon as it is full; within a chunk nothing is called and no
    /// memory is taken.
    pub fn append<D: Disk>(
        &mut self,
        disk: &mut D,
        place: &Place,
        b: &[u8],
    ) -> Result<(), DiskFault>
        requires limit { grown_len (held self.old) + length b.now ≤ BODY_MAX }
        requires told { IsTrue D.tells →
            IsItsFile (held self.old) (standing (D.state disk.old) place.now) }

        // The body grows by these bytes, and the file is that of the longer body.
        ensures body { OnOk result ((body : List ℕ) → HasBody (held self.old) body →
            HasBody (held self.new) (body ++ b.now)) }
        ensures stands { OnOk result (IsTrue D.tells → (body : List ℕ) →
            HasBody (held self.old) body →
            standing (D.state disk.old) place.now ≡ Some (unfinished_file body) →
            standing (D.state disk.new) place.now ≡ Some (unfinished_file (body ++ b.now))) }
        ensures within { length (held self.old).rest + length b.now < CHUNK →
            (result ≡ Ok tt) × (disk.new ≡ disk.old) }

        // In any case this file alone was written to, and none of its new moments fits.
        ensures writes { IsTrue D.tells →
            WritesAt place.now IsUnfinished (D.state disk.old) (D.state disk.new) }
        ensures calls { IsTrue D.tells → (D.counts disk.new).calls ≤ (D.counts disk.old).calls
            + (length (held self.old).rest + length b.now) / chunk_size }
        ensures disk { OnlyChanges D.Disk (ending result) no_sync disk.old disk.new }
    {
        let mut left = b;
        while left.len() >= CHUNK - self.rest.as_slice().len() {
            let room = CHUNK - self.rest.as_slice().len();
            let (front, back) = left.split_at(room);
            self.put_chunk(disk, place, front)?;
            left = back;
        }
        self.rest.extend(left);
        Ok(())
    }
}
