//! The metadata of an entry's file, written anew.

ghost use Rattle.std.specs.Prelude.{◌≡◌, ℕ, List, take, OnOk, IsTrue, Some};
ghost use Rattle.cache_base.specs.Bytes.{AreBytes};
ghost use Rattle.disk_theory.specs.Account.{OnlyChanges, ending, no_sync};
ghost use Rattle.disk_theory.specs.State.{standing, wrote};
ghost use Rattle.disk_theory.specs.Writes.{WritesAt};
ghost use Rattle.disk_theory.specs.Calls.{counted, if_done};
ghost use Rattle.entry_metadata.specs.Meta.{meta_of};
ghost use Rattle.entry_file.specs.Rewriting.{StoresBody, block_write, rewritten};
ghost use Rattle.entry_file.specs.Version.{IsVersion, file_of, version_meta};

use disk_theory::{Disk, DiskFault, Place};
use entry_metadata::Meta;
use std::alloc::Global;

/// Makes the file that of a version with these metadata and the body that it has: the block and its offset are written
/// after the body, by one call of the disk. What stood after the body before is gone.
pub fn rewrite_meta<D: Disk>(
    alloc: Global,
    disk: &mut D,
    place: &Place,
    meta: &Meta,
) -> Result<(), DiskFault>
    requires { IsTrue D.tells →
        StoresBody (standing (D.state disk.old) place.now) (meta_of meta.now) }
    ensures meta { (content : List ℕ) → StoresBody (Some content) (meta_of meta.now) →
        version_meta (rewritten (meta_of meta.now) content) ≡ meta_of meta.now }
    ensures version { (content : List ℕ) → StoresBody (Some content) (meta_of meta.now) →
        AreBytes (take meta.now.offset content) → IsVersion (rewritten (meta_of meta.now) content) }

    // The file gets one moment more, which is the file of the version.
    ensures state { IsTrue D.tells → D.state disk.new ≡ if_done result
        (wrote place.now (block_write (meta_of meta.now)) (D.state disk.old)) (D.state disk.old) }
    ensures writes { IsTrue D.tells → (content : List ℕ) →
        standing (D.state disk.old) place.now ≡ Some content →
        WritesAt place.now (λ c. c ≡ file_of (rewritten (meta_of meta.now) content))
        (D.state disk.old) (D.state disk.new) }
    ensures stands { OnOk result (IsTrue D.tells → (content : List ℕ) →
        standing (D.state disk.old) place.now ≡ Some content → standing (D.state disk.new)
        place.now ≡ Some (file_of (rewritten (meta_of meta.now) content))) }
    ensures calls { OnOk result (IsTrue D.tells → D.counts disk.new ≡ counted (D.counts disk.old)) }
    ensures disk { OnlyChanges D.Disk (ending result) no_sync disk.old disk.new }
{
    let tail = entry_metadata::print(alloc, meta)?;
    disk.write_end(place, u64::from(meta.offset), tail.as_slice())?;
    Ok(())
}
