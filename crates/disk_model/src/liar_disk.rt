//! A disk that makes its answers up.

ghost use Rattle.std.specs.Prelude.{[], ◌∷◌, ◌++◌, ◌+◌, ◌/◌, ◌≡◌, Some, drop, false, length, replicate, IfErr, IsOk, OnOk};
ghost use Rattle.cache_base.specs.Names.{AreSorted};
ghost use Rattle.disk_theory.specs.Calls.{no_counts};
ghost use Rattle.disk_theory.specs.Listing.{AreSortedNumbers};
ghost use Rattle.disk_theory.specs.Silent.{nothing, never, never_finite};
ghost use Rattle.disk_theory.specs.declared.disk.DiskFault.TheVariants.{Memory};

use cache_base::{Name, Names, Numbers};
use disk_theory::{Disk, DiskFault, Place};

/// A disk whose answers have nothing to do with what was written: what stands in a folder that someone made to harm
/// may be anything, and this may be all of it. It tells contracts nothing of what it holds, takes no memory, and
/// never fails.
#[derive(Clone, Copy, Debug, PartialEq, Eq)]
pub struct LiarDisk {
    size: u64,
    byte: u8,
}

impl LiarDisk {
    /// A disk on which every file seems to have so many bytes, and every byte that is read is this one.
    pub fn new(size: u64, byte: u8) -> Self
        ensures size { result.size ≡ size }
        ensures byte { result.byte ≡ byte }
        ensures faults { ⟦<LiarDisk as Disk>⟧.faults result ≡ 0 }
    {
        LiarDisk { size, byte }
    }
}

impl Disk for LiarDisk {
    ghost tells = { false };

    ghost state = { λ _. nothing };

    ghost counts = { λ _. no_counts };

    ghost faults = { λ _. 0 };

    ghost sound = { λ _ told. never told };

    ghost finite = { λ _ told. never_finite told };

    fn sync(&mut self) -> Result<(), DiskFault>
        ensures done { IsOk result }
        ensures same { self.new ≡ self.old }
    {
        Ok(())
    }

    fn size(&mut self, _place: &Place) -> Result<Option<u64>, DiskFault>
        ensures size { result ≡ Ok (Some self.old.size) }
        ensures same { self.new ≡ self.old }
    {
        Ok(Some(self.size))
    }

    /// Fills half of the buffer, rounded up.
    fn read(&mut self, _place: &Place, _from: u64, buf: &mut [u8]) -> Result<usize, DiskFault>
        ensures count { result ≡ Ok ((length buf.old + 1) / 2) }
        ensures bytes { let n = (length buf.old + 1) / 2 in
            buf.new ≡ replicate n self.old.byte ++ drop n buf.old }
        ensures same { self.new ≡ self.old }
    {
        let count = buf.len() - buf.len() / 2;
        buf[..count].fill(self.byte);
        Ok(count)
    }

    fn create(&mut self, _place: &Place) -> Result<(), DiskFault>
        ensures done { IsOk result }
        ensures same { self.new ≡ self.old }
    {
        Ok(())
    }

    fn write_end(&mut self, _place: &Place, _from: u64, _bytes: &[u8]) -> Result<(), DiskFault>
        ensures done { IsOk result }
        ensures same { self.new ≡ self.old }
    {
        Ok(())
    }

    fn patch(&mut self, _place: &Place, _from: u64, _bytes: &[u8]) -> Result<(), DiskFault>
        ensures done { IsOk result }
        ensures same { self.new ≡ self.old }
    {
        Ok(())
    }

    fn rename(&mut self, _from: &Place, _to: &Place) -> Result<(), DiskFault>
        ensures done { IsOk result }
        ensures same { self.new ≡ self.old }
    {
        Ok(())
    }

    fn remove(&mut self, _place: &Place) -> Result<(), DiskFault>
        ensures done { IsOk result }
        ensures same { self.new ≡ self.old }
    {
        Ok(())
    }

    /// One name of twenty zero bytes. Fails only where memory ran out.
    fn entries(&mut self, out: &mut Names) -> Result<(), DiskFault>
        ensures sorted { OnOk result (AreSorted out.new) }
        ensures names { OnOk result (out.new ≡ record { 0 = replicate 20 0 } ∷ []) }
        ensures memory { IfErr result (λ fault. fault ≡ Memory) }
        ensures same { self.new ≡ self.old }
    {
        out.clear();
        out.push(Name([0; 20]))?;
        Ok(())
    }

    /// The number 0. Fails only where memory ran out.
    fn doomed(&mut self, out: &mut Numbers) -> Result<(), DiskFault>
        ensures sorted { OnOk result (AreSortedNumbers out.new) }
        ensures numbers { OnOk result (out.new ≡ 0 ∷ []) }
        ensures memory { IfErr result (λ fault. fault ≡ Memory) }
        ensures same { self.new ≡ self.old }
    {
        out.clear();
        out.push(0)?;
        Ok(())
    }
}
