//! What images have of what a disk holds.

ghost use Rattle.std.specs.Prelude.{◌≡◌, IsTrue};
ghost use Rattle.disk_theory.specs.State.{standing};
ghost use Rattle.disk_theory.specs.Sound.{IsQuiet};
ghost use Rattle.disk_theory.specs.Image.{Files, IsImage};
ghost use Rattle.disk_theory.specs.Prefixes.{UnreachedIsKept};
ghost use Rattle.disk_theory.specs.declared.place.Place.{Place as Where};

use crate::Disk;

/// A disk as it reads is one of the images that a crash may leave, and with nothing pending it is the only one.
pub fn reads_as_image<D: Disk>(_disk: &D)
    ensures one { IsTrue D.tells → IsImage (D.state _disk.now) (standing (D.state _disk.now)) }
    ensures only { IsTrue D.tells → IsQuiet (D.state _disk.now) → (image : Files) →
        IsImage (D.state _disk.now) image → (place : Where) →
        image place ≡ standing (D.state _disk.now) place }
{}

/// The first bytes of a file are the same in each image where no write reached them since the last sync, wherever the
/// file stands there.
pub fn unreached_is_kept<D: Disk>(_disk: &D)
    ensures { IsTrue D.tells → UnreachedIsKept (D.state _disk.now) }
{}
