//! The body of a finished entry, made longer.

ghost use Rattle.std.specs.Prelude.{◌≡◌, ◌≤◌, ℕ, List, length, take, OnOk, IsTrue, Some};
ghost use Rattle.cache_base.specs.Bytes.{AreBytes};
ghost use Rattle.disk_theory.specs.Account.{OnlyChanges, ending, no_sync};
ghost use Rattle.disk_theory.specs.State.{standing, wrote};
ghost use Rattle.disk_theory.specs.Writes.{WritesAt};
ghost use Rattle.disk_theory.specs.Prefixes.{KeepsPrefix};
ghost use Rattle.disk_theory.specs.Calls.{counted, if_done};
ghost use Rattle.entry_metadata.specs.Meta.{meta_of};
ghost use Rattle.entry_file.specs.LongerBody.{StoresShorter, len_before, lengthened, longer_write};
ghost use Rattle.entry_file.specs.Version.{IsVersion, file_of, version_meta};

use crate::finishing::tail_of;
use cache_base::bytes_fit;
use disk_theory::{Disk, DiskFault, Place};
use entry_metadata::Meta;
use std::alloc::Global;

/// Adds bytes at the end of a finished entry's body, and makes the file that of a version with these metadata, which
/// are those of the longer body: the bytes, the block and its offset are written by one call of the disk. The write
/// begins at the end of the body that the file has, and reaches nothing before it. What stood after that body before
/// is gone.
pub fn grow_body<D: Disk>(
    alloc: Global,
    disk: &mut D,
    place: &Place,
    meta: &Meta,
    more: &[u8],
) -> Result<(), DiskFault>
    requires more { length more.now ≤ meta.now.offset }
    requires told { IsTrue D.tells
        → StoresShorter (standing (D.state disk.old) place.now) (meta_of meta.now) more.now }
    ensures meta { (c : List ℕ) → StoresShorter (Some c) (meta_of meta.now) more.now
        → version_meta (lengthened (meta_of meta.now) more.now c) ≡ meta_of meta.now }
    ensures version { (c : List ℕ) → StoresShorter (Some c) (meta_of meta.now) more.now
        → AreBytes (take (len_before (meta_of meta.now) more.now) c)
        → IsVersion (lengthened (meta_of meta.now) more.now c) }

    // The file gets one moment more, which is the file of the version.
    ensures state { IsTrue D.tells → let write = longer_write (meta_of meta.now) more.now in
        let before = D.state disk.old in
        D.state disk.new ≡ if_done result (wrote place.now write before) before }
    ensures writes { IsTrue D.tells → (c : List ℕ) → standing (D.state disk.old) place.now ≡ Some c
        → let now = file_of (lengthened (meta_of meta.now) more.now c) in
        WritesAt place.now (λ moment. moment ≡ now) (D.state disk.old) (D.state disk.new) }
    ensures stands { OnOk result (IsTrue D.tells → (c : List ℕ)
        → standing (D.state disk.old) place.now ≡ Some c
        → let now = file_of (lengthened (meta_of meta.now) more.now c) in
        standing (D.state disk.new) place.now ≡ Some now) }

    // Its prefix up to the write is in every image what it was.
    ensures prefix { IsTrue D.tells → let n = len_before (meta_of meta.now) more.now in
        KeepsPrefix place.now n (D.state disk.old) (D.state disk.new) }
    ensures calls { OnOk result (IsTrue D.tells → D.counts disk.new ≡ counted (D.counts disk.old)) }
    ensures disk { OnlyChanges D.Disk (ending result) no_sync disk.old disk.new }
{
    bytes_fit(more);
    let tail = tail_of(alloc, more, meta)?;
    let from = u64::from(meta.offset) - more.len() as u64;
    disk.write_end(place, from, tail.as_slice())?;
    Ok(())
}
