//! The calls of the machine whose outcomes contracts speak of.
//!
//! std says nothing of what such a call has done. Here each has a word for it, and code that is generic over a machine
//! comes to the word by this call alone. So a body that leaves the call out, or makes it of something else, has no proof.

ghost use Rattle.std.specs.Prelude.{◌≡◌, IfOk, IfErr, OnOk, List, ℕ};
ghost use Rattle.std.specs.IoError.{error_kind};
ghost use Rattle.std.specs.declared.fs.attrs.Metadata.{Metadata as Attributes};
ghost use Rattle.machine_files.specs.declared.machine.Stamp.{Stamp as Stamped};

use crate::contents::{read_whole, write_end, write_over};
use crate::opening::made_new;
use std::fs::{self, File, Metadata, OpenFile, OpenOptions, symlink_metadata};
use std::io::{self, ErrorKind, Seek, SeekFrom};
use std::os::unix::fs::MetadataExt;
use std::rt::Files;

/// What tells a file or a folder from others, and when it was changed last.
#[derive(Clone, Copy, Debug, PartialEq, Eq)]
pub struct Stamp {
    /// The file system that it stands on.
    pub device: u64,
    /// Its number there.
    pub inode: u64,
    /// The second of the last change.
    pub seconds: i64,
    /// The part of that second.
    pub nanoseconds: i64,
}

/// The file system of a machine.
pub trait Machine: Files {
    /// The file was opened at the path.
    ghost opened: { Self → List ℕ → Self.File → Type 0 };

    /// The file was made at the path, where nothing stood.
    ghost made: { Self → List ℕ → Self.File → Type 0 };

    /// What stood at the first path was moved to the second.
    ghost moved: { Self → List ℕ → List ℕ → Type 0 };

    /// The file at the path lost its name.
    ghost removed: { Self → List ℕ → Type 0 };

    /// The file was synced, or the names in the folder were.
    ghost synced: { Self → Self.File → Type 0 };

    /// Nothing stood at the path.
    ghost missing: { Self → List ℕ → Type 0 };

    /// A look at the path, which followed no link, found this.
    ghost found: { Self → List ℕ → Attributes → Type 0 };

    /// A look at the open file found this.
    ghost is_of: { Self → Self.File → Attributes → Type 0 };

    /// What was found has this stamp.
    ghost stamped: { Self → Attributes → Stamped → Type 0 };

    /// From this offset on the file had these bytes.
    ghost held: { Self → Self.File → ℕ → List ℕ → Type 0 };

    /// From this offset on these bytes were written to the file.
    ghost written: { Self → Self.File → ℕ → List ℕ → Type 0 };

    /// So they were, and the file was then made to end after them.
    ghost ended: { Self → Self.File → ℕ → List ℕ → Type 0 };

    /// Opens a file or a folder.
    fn open_at(&self, how: &OpenOptions, path: &str) -> io::Result<Self::File>
        ensures opened { IfOk result (λ file. opened self.now path.now file) }
        ensures missing { IfErr result
            (λ e. error_kind e ≡ ErrorKind.NotFound → missing self.now path.now) };

    /// Makes a file where nothing stands, to be read and written.
    fn make_at(&self, path: &str) -> io::Result<Self::File>
        ensures { IfOk result (λ file. made self.now path.now file) };

    /// Moves the file of the first path to the second. A file that stood there loses its name.
    fn move_to(&self, from: &str, to: &str) -> io::Result<()>
        ensures { OnOk result (moved self.now from.now to.now) };

    /// Removes the file at the path.
    fn remove_at(&self, path: &str) -> io::Result<()>
        ensures { OnOk result (removed self.now path.now) };

    /// Makes the changes of the file, or of the names in the folder, durable.
    fn sync(&self, file: &Self::File) -> io::Result<()>
        ensures { OnOk result (synced self.now file.now) };

    /// Looks at what stands at the path. A link is not followed.
    fn look_at(&self, path: &str) -> io::Result<Metadata>
        ensures found { IfOk result (λ seen. found self.now path.now seen) }
        ensures missing { IfErr result
            (λ e. error_kind e ≡ ErrorKind.NotFound → missing self.now path.now) };

    /// Looks at an open file.
    fn look_at_open(&self, file: &Self::File) -> io::Result<Metadata>
        ensures { IfOk result (λ seen. is_of self.now file.now seen) };

    /// The stamp of what was found.
    fn stamp(&self, seen: &Metadata) -> Stamp
        ensures { stamped self.now seen.now result };

    /// Where an open file ends.
    fn end_of(&self, file: &Self::File) -> io::Result<u64>;

    /// Fills the buffer from the offset on. A file that does not have all these bytes is an error.
    fn read_from(&self, file: &Self::File, from: u64, buf: &mut [u8]) -> io::Result<()>
        ensures { OnOk result (held self.now file.now from buf.new) };

    /// Writes all the bytes over what stands from the offset on.
    fn write_over(&self, file: &Self::File, from: u64, bytes: &[u8]) -> io::Result<()>
        ensures { OnOk result (written self.now file.now from bytes.now) };

    /// So it does, and the file then ends after them. A file that is new has no bytes, and stands at its beginning.
    fn write_end(&self, file: &Self::File, is_new: bool, from: u64, bytes: &[u8]) -> io::Result<()>
        ensures { OnOk result (ended self.now file.now from bytes.now) };
}

impl<R: Files<File = File>> Machine for R {
    ghost opened = { λ _ _ _. Unit {0} };

    ghost made = { λ _ _ _. Unit {0} };

    ghost moved = { λ _ _ _. Unit {0} };

    ghost removed = { λ _ _. Unit {0} };

    ghost synced = { λ _ _. Unit {0} };

    ghost missing = { λ _ _. Unit {0} };

    ghost found = { λ _ _ _. Unit {0} };

    ghost is_of = { λ _ _ _. Unit {0} };

    ghost stamped = { λ _ _ _. Unit {0} };

    ghost held = { λ _ _ _ _. Unit {0} };

    ghost written = { λ _ _ _ _. Unit {0} };

    ghost ended = { λ _ _ _ _. Unit {0} };

    fn open_at(&self, how: &OpenOptions, path: &str) -> io::Result<File> {
        how.open(self, path)
    }

    fn make_at(&self, path: &str) -> io::Result<File> {
        made_new().open(self, path)
    }

    fn move_to(&self, from: &str, to: &str) -> io::Result<()> {
        fs::rename(self, from, to)
    }

    fn remove_at(&self, path: &str) -> io::Result<()> {
        fs::remove_file(self, path)
    }

    fn sync(&self, file: &File) -> io::Result<()> {
        file.sync_all()
    }

    fn look_at(&self, path: &str) -> io::Result<Metadata> {
        symlink_metadata(self, path)
    }

    fn look_at_open(&self, file: &File) -> io::Result<Metadata> {
        file.metadata()
    }

    fn stamp(&self, seen: &Metadata) -> Stamp {
        Stamp {
            device: seen.dev(),
            inode: seen.ino(),
            seconds: seen.ctime(),
            nanoseconds: seen.ctime_nsec(),
        }
    }

    fn end_of(&self, mut file: &File) -> io::Result<u64> {
        file.seek(SeekFrom::End(0))
    }

    fn read_from(&self, mut file: &File, from: u64, buf: &mut [u8]) -> io::Result<()> {
        read_whole(&mut file, from, buf)
    }

    fn write_over(&self, mut file: &File, from: u64, bytes: &[u8]) -> io::Result<()> {
        write_over(&mut file, from, bytes)
    }

    fn write_end(&self, file: &File, is_new: bool, from: u64, bytes: &[u8]) -> io::Result<()> {
        let mut writer = file;
        write_end(&mut writer, file, is_new, from, bytes)
    }
}
