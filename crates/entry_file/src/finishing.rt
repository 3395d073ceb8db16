//! Finishes a new entry.

ghost use Rattle.std.specs.Prelude.{◌≡◌, ◌≤◌, ◌==◌, ◌++◌, ◌*◌, ◌+◌, ◌∷◌, [], if◌then◌else◌, true, ℕ, List, length, IfOk, OnOk, IsTrue, Some};
ghost use Rattle.cache_base.specs.Bytes.{AreBytes, be32};
ghost use Rattle.cache_base.specs.Limits.{chunks};
ghost use Rattle.cache_base.specs.declared.limits.TheConstants.{BLOCK_MAX, BODY_MAX, CHUNK};
ghost use Rattle.chunk_store.specs.Chunks.{chunk_hash_of};
ghost use Rattle.chunk_store.specs.Stored.{unfinished_file};
ghost use Rattle.disk_theory.specs.Account.{OnlyChanges, ending, no_sync};
ghost use Rattle.disk_theory.specs.State.{standing, wrote};
ghost use Rattle.disk_theory.specs.Writes.{WritesAt};
ghost use Rattle.disk_theory.specs.Calls.{counted, if_done};
ghost use Rattle.entry_key.specs.Walk.{read_key, reads};
ghost use Rattle.entry_metadata.specs.Meta.{meta_of};
ghost use Rattle.entry_metadata.specs.Metadata.{IsMeta, block_bytes, block_length};
ghost use Rattle.entry_parts.specs.Elements.{elements_bytes};
ghost use Rattle.entry_parts.specs.declared.header.TheConstants.{VERSION};
ghost use Rattle.entry_file.specs.NewEntry.{HasBody, IsItsFile, finished, grown_len, last_write};
ghost use Rattle.entry_file.specs.Held.{held};
ghost use Rattle.entry_file.specs.Version.{IsVersion, file_of, version_meta};

use crate::NewEntry;
use crate::chunk_hashes::ChunkHashes;
use cache_base::{Bytes, CHUNK, Hashes, NoMemory, bytes_fit};
use chunk_store::chunk_hash;
use disk_theory::{Disk, DiskFault, Place};
use entry_metadata::Meta;
use entry_parts::{Elements, Header, VERSION, parts_fit};
use std::alloc::Global;

// The hashes of the whole chunks, and after them that of the rest, where there is one.
fn all_hashes(hashes: ChunkHashes, rest: &[u8]) -> Hashes
    requires { length hashes * CHUNK + length rest.now ≤ BODY_MAX }
    ensures { result
        ≡ (if length rest.now == 0 then hashes else (hashes ++ chunk_hash_of rest.now ∷ [])) }
{
    let mut hashes = hashes;
    if !rest.is_empty() {
        hashes.push(chunk_hash(rest));
    }
    hashes.into_hashes()
}

/// The bytes, and after them the block and its offset, in one piece.
pub(crate) fn tail_of(alloc: Global, rest: &[u8], meta: &Meta) -> Result<Bytes, NoMemory>
    ensures meta { IsMeta (meta_of meta.now) }
    ensures bytes { IfOk result (λ tail.
        tail ≡ rest.now ++ (block_bytes (meta_of meta.now) ++ be32 meta.now.offset)) }
{
    let block = entry_metadata::print(alloc, meta)?;
    let mut tail = Bytes::with_room(alloc, rest.len() + block.as_slice().len())?;
    tail.extend(rest)?;
    tail.extend(block.as_slice())?;
    Ok(tail)
}

impl NewEntry {
    // With these parts a body of bytes makes a version.
    fn makes_version(&self, header: Header, key: &Bytes, elements: &Elements)
        requires version { header.version ≡ VERSION }
        requires key_size { header.key_size ≡ length key.now }
        requires grammar { reads (read_key key.now) ≡ true }
        requires small { block_length (chunks (grown_len (held self.now))) (length key.now)
            (length (elements_bytes elements.now)) ≤ BLOCK_MAX }
        ensures { (body : List ℕ) → HasBody (held self.now) body → AreBytes body →
            IsVersion (finished header key.now elements.now body) }
    {
        bytes_fit(key.as_slice());
        parts_fit(header, elements);
    }

    /// Makes the file that of a version with this header, this key and these elements: what the file does not have yet
    /// of it is written by one call of the disk. Gives the metadata. Whatever the answer, the entry is spent.
    pub fn finish<D: Disk>(
        self,
        alloc: Global,
        disk: &mut D,
        place: &Place,
        header: Header,
        key: Bytes,
        elements: Elements,
    ) -> Result<Meta, DiskFault>
        requires version { header.version ≡ VERSION }
        requires key_size { header.key_size ≡ length key }
        requires grammar { reads (read_key key) ≡ true }
        requires small { block_length (chunks (grown_len (held self))) (length key)
            (length (elements_bytes elements)) ≤ BLOCK_MAX }
        requires told { IsTrue D.tells →
            IsItsFile (held self) (standing (D.state disk.old) place.now) }
        ensures version { (body : List ℕ) → HasBody (held self) body → AreBytes body →
            IsVersion (finished header key elements body) }
        ensures meta { IfOk result (λ meta. (body : List ℕ) → HasBody (held self) body →
            meta_of meta ≡ version_meta (finished header key elements body)) }

        // The file gets one moment more, which is the file of the version.
        ensures state { IsTrue D.tells → (body : List ℕ) → HasBody (held self) body →
            standing (D.state disk.old) place.now ≡ Some (unfinished_file body) →
            D.state disk.new ≡ if_done result
            (wrote place.now (last_write (finished header key elements body)) (D.state disk.old))
            (D.state disk.old) }
        ensures writes { IsTrue D.tells → (body : List ℕ) → HasBody (held self) body →
            standing (D.state disk.old) place.now ≡ Some (unfinished_file body) →
            WritesAt place.now (λ c. c ≡ file_of (finished header key elements body))
            (D.state disk.old) (D.state disk.new) }
        ensures stands { OnOk result (IsTrue D.tells → (body : List ℕ) → HasBody (held self) body →
            standing (D.state disk.old) place.now ≡ Some (unfinished_file body) →
            standing (D.state disk.new) place.now
            ≡ Some (file_of (finished header key elements body))) }
        ensures calls { OnOk result (IsTrue D.tells →
            D.counts disk.new ≡ counted (D.counts disk.old)) }
        ensures disk { OnlyChanges D.Disk (ending result) no_sync disk.old disk.new }
    {
        self.makes_version(header, &key, &elements);
        let whole = self.hashes.as_slice().len() as u64 * CHUNK as u64;
        let offset = self.len();
        let NewEntry { rest, hashes } = self;
        let rest = rest.as_slice();
        let hashes = all_hashes(hashes, rest);
        let meta = Meta {
            header,
            key,
            elements,
            hashes,
            offset,
        };
        let tail = tail_of(alloc, rest, &meta)?;
        disk.write_end(place, whole, tail.as_slice())?;
        Ok(meta)
    }
}
