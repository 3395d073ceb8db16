//! Looks at a large file of the index in pieces, without memory of its size.

ghost use Rattle.std.specs.Prelude.{◌≡◌, ◌+◌, ◌-◌, ◌<◌, ◌≤◌, ◌++◌, ℕ, IfOk, IfSome, IsTrue, List, OnOk, Some, drop, length, true};
ghost use Rattle.std.specs.Option.{option_map};
ghost use Rattle.cache_base.specs.Bytes.{be32_at};
ghost use Rattle.disk_theory.specs.Account.{Looks, LooksAtNoEntry, ending};
ghost use Rattle.disk_theory.specs.Calls.{HoldsPart};
ghost use Rattle.disk_theory.specs.State.{part_of, standing};
ghost use Rattle.index_theory.specs.Apart.{IsOfIndex};
ghost use Rattle.jenkins_hash.specs.Hash.{hash_of};
ghost use Rattle.jenkins_hash.specs.Hasher.{WasFedBytes};
ghost use Rattle.record_list.specs.Stored.{hash_size};
ghost use Rattle.startup_read.specs.Large.{IsFaulty, IsPairAt, is_hashed as is_hashed_of, pair_size};

use disk_theory::{Disk, DiskFault, Place};
use index_record::RECORD;
use jenkins_hash::Hasher;
use record_list::HASH;
use std::alloc::Global;

/// A file of more bytes is looked at in pieces before memory is taken for it.
pub(crate) const LARGE: u64 = 0x400_0000;

// The bytes that are read and hashed at a time.
const PIECE: usize = 0x4_0000;

// The bytes of a record's name, with which it begins.
const NAME: usize = 20;

// The bytes of the last two records and of the hash after them.
const PAIR: usize = 2 * RECORD + HASH;

/// The number in the four bytes from `at` on, which the file has.
pub(crate) fn number_at<D: Disk>(disk: &mut D, place: &Place, at: u64) -> Result<u32, DiskFault>
    requires index { IsOfIndex place.now }
    requires told { IsTrue D.tells → HoldsPart (standing (D.state disk.old) place.now) at 4 }
    ensures number { IfOk result (λ number. IsTrue D.tells →
        IfSome (standing (D.state disk.old) place.now) (λ content. number ≡ be32_at content at)) }
    ensures looks { Looks D.Disk (ending result) disk.old disk.new }
    ensures no_entry { LooksAtNoEntry D.Disk disk.old disk.new }
{
    let mut bytes = [0; 4];
    disk.read(place, at, &mut bytes)?;
    Ok(u32::from_be_bytes(bytes))
}

// Reads the bytes from `at` on, as many as the slice has, and feeds them.
fn feed_piece<D: Disk>(
    disk: &mut D,
    place: &Place,
    at: u64,
    piece: &mut [u8],
    hasher: &mut Hasher,
) -> Result<(), DiskFault>
    requires index { IsOfIndex place.now }
    ensures fed { OnOk result (IsTrue D.tells → (m : List ℕ) → WasFedBytes hasher.old m →
        WasFedBytes hasher.new
        (m ++ part_of at (length piece.old) (standing (D.state disk.old) place.now))) }
    ensures looks { Looks D.Disk (ending result) disk.old disk.new }
    ensures no_entry { LooksAtNoEntry D.Disk disk.old disk.new }
{
    let read = disk.read(place, at, piece)?;
    hasher.update(&piece[..read]);
    Ok(())
}

// The hash of the bytes from `from` up to `end`, which are read into the slice, as many at a time as it has.
fn hash_between<D: Disk>(
    disk: &mut D,
    place: &Place,
    from: u64,
    end: u64,
    piece: &mut [u8],
) -> Result<u32, DiskFault>
    requires index { IsOfIndex place.now }
    requires ordered { from ≤ end }
    requires room { 0 < length piece.old }
    ensures hash { IfOk result (λ hash. IsTrue D.tells →
        hash ≡ hash_of (part_of from (end - from) (standing (D.state disk.old) place.now))) }
    ensures looks { Looks D.Disk (ending result) disk.old disk.new }
    ensures no_entry { LooksAtNoEntry D.Disk disk.old disk.new }
{
    let mut hasher = Hasher::new();
    let mut at = from;
    while at < end {
        let len = (end - at).min(piece.len() as u64) as usize;
        feed_piece(disk, place, at, &mut piece[..len], &mut hasher)?;
        at += len as u64;
    }
    Ok(hasher.finish())
}

// The hash of the bytes from `from` up to `end`.
fn hash_part<D: Disk>(
    alloc: Global,
    disk: &mut D,
    place: &Place,
    from: u64,
    end: u64,
) -> Result<u32, DiskFault>
    requires index { IsOfIndex place.now }
    requires ordered { from ≤ end }
    ensures hash { IfOk result (λ hash. IsTrue D.tells →
        hash ≡ hash_of (part_of from (end - from) (standing (D.state disk.old) place.now))) }
    ensures looks { Looks D.Disk (ending result) disk.old disk.new }
    ensures no_entry { LooksAtNoEntry D.Disk disk.old disk.new }
{
    let mut piece = vec![in alloc; 0u8; PIECE]?;
    hash_between(disk, place, from, end, &mut piece)
}

// Whether the last four bytes of a file of `size` bytes are the hash of those from `from` up to them.
fn is_hashed<D: Disk>(
    alloc: Global,
    disk: &mut D,
    place: &Place,
    from: u64,
    size: u64,
) -> Result<bool, DiskFault>
    requires index { IsOfIndex place.now }
    requires room { from + hash_size ≤ size }
    requires told { IsTrue D.tells →
        Some size ≡ option_map length (standing (D.state disk.old) place.now) }
    ensures hashed { IfOk result (λ hashed. IsTrue D.tells →
        IfSome (standing (D.state disk.old) place.now) (λ content.
        hashed ≡ is_hashed_of (drop from content))) }
    ensures looks { Looks D.Disk (ending result) disk.old disk.new }
    ensures no_entry { LooksAtNoEntry D.Disk disk.old disk.new }
{
    let end = size - HASH as u64;
    let stored = number_at(disk, place, end)?;
    let hash = hash_part(alloc, disk, place, from, end)?;
    Ok(stored == hash)
}

// Whether the last two records of a file of `size` bytes have one name.
fn ends_in_pair<D: Disk>(disk: &mut D, place: &Place, size: u64) -> Result<bool, DiskFault>
    requires index { IsOfIndex place.now }
    requires room { pair_size ≤ size }
    requires told { IsTrue D.tells →
        Some size ≡ option_map length (standing (D.state disk.old) place.now) }
    ensures pair { IfOk result (λ pair. IsTrue D.tells → pair ≡ true →
        IfSome (standing (D.state disk.old) place.now) (IsPairAt (size - pair_size))) }
    ensures looks { Looks D.Disk (ending result) disk.old disk.new }
    ensures no_entry { LooksAtNoEntry D.Disk disk.old disk.new }
{
    let mut names = [0; RECORD + NAME];
    disk.read(place, size - PAIR as u64, &mut names)?;
    Ok(names[..NAME] == names[RECORD..])
}

/// Whether the records of a file of `size` bytes, from `from` on, are seen to fail a check: the last two have one name,
/// as in a file that was made longer by zeros, which is seen at once; or their hash is not the one after them.
pub(crate) fn fails_check<D: Disk>(
    alloc: Global,
    disk: &mut D,
    place: &Place,
    from: u64,
    size: u64,
) -> Result<bool, DiskFault>
    requires index { IsOfIndex place.now }
    requires room { from + pair_size ≤ size }
    requires told { IsTrue D.tells →
        Some size ≡ option_map length (standing (D.state disk.old) place.now) }
    ensures fails { IfOk result (λ fails. IsTrue D.tells → fails ≡ true →
        IfSome (standing (D.state disk.old) place.now) (λ content. IsFaulty (drop from content))) }
    ensures looks { Looks D.Disk (ending result) disk.old disk.new }
    ensures no_entry { LooksAtNoEntry D.Disk disk.old disk.new }
{
    let pair = ends_in_pair(disk, place, size)?;
    if pair {
        return Ok(true);
    }
    let hashed = is_hashed(alloc, disk, place, from, size)?;
    Ok(!hashed)
}
