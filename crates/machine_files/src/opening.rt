//! How files are opened. What stands at a path is looked at before it is opened, and once more when it is open. So a
//! link is not followed, and a pipe is not waited for.

ghost use Rattle.std.specs.Prelude.{◌≡◌, OnOk, IfOk, IfErr, IsTrue, true};
ghost use Rattle.std.specs.IoError.{error_kind};
ghost use Rattle.std.specs.Fs.{file_type, metadata_len, new_options, with_read, with_write, IsFile};
ghost use Rattle.machine_files.specs.Called.{FoundFileAt, FoundLengthAt};

use crate::machine::{Machine, Stamp};
use std::fs::{Metadata, OpenOptions};
use std::io::{self, ErrorKind};
use std::os::unix::fs::OpenOptionsExt;

/// A cache tells where its user has been, so nobody else may read it.
const FILE_MODE: u32 = 0o600;

/// A regular file, as a look at it found it.
#[derive(Clone, Copy, Debug, PartialEq, Eq)]
pub struct Seen {
    /// How many bytes it had.
    pub len: u64,
    stamp: Stamp,
}

impl Seen {
    // Whether both are one file.
    fn is_same(&self, other: &Seen) -> bool {
        (self.stamp.device, self.stamp.inode) == (other.stamp.device, other.stamp.inode)
    }
}

/// The regular file that stands at the path. A link is none.
pub fn seen_at<R: Machine>(rt: &R, path: &str) -> io::Result<Seen>
    ensures found { OnOk result (FoundFileAt R.Machine rt.now path.now) }
    ensures len { IfOk result (λ seen. FoundLengthAt R.Machine rt.now path.now seen.len) }
    ensures missing { IfErr result
        (λ e. error_kind e ≡ ErrorKind.NotFound → R.Machine.missing rt.now path.now) }
{
    let found = rt.look_at(path)?;
    seen_in(rt, &found)
}

fn seen_in<R: Machine>(rt: &R, found: &Metadata) -> io::Result<Seen>
    ensures file { OnOk result (IsFile (file_type found.now)) }
    ensures len { IfOk result (λ seen. seen.len ≡ metadata_len found.now) }
    ensures other { IfErr result (λ e. error_kind e ≡ ErrorKind.Other) }
{
    if !found.is_file() {
        return Err(ErrorKind::Other.into());
    }
    Ok(Seen {
        len: found.len(),
        stamp: rt.stamp(found),
    })
}

/// Opens the file that stands at the path, if it is a regular one.
pub fn open_regular<R: Machine>(rt: &R, how: &OpenOptions, path: &str) -> io::Result<R::File>
    ensures { IfOk result (λ file. R.Machine.opened rt.now path.now file) }
{
    let seen = seen_at(rt, path)?;
    same_opened(rt, how, path, &seen)
}

/// Opens the file that was seen at the path. Where another one is open then, as that which a link leads to, it fails.
pub fn same_opened<R: Machine>(
    rt: &R,
    how: &OpenOptions,
    path: &str,
    seen: &Seen,
) -> io::Result<R::File>
    ensures { IfOk result (λ file. R.Machine.opened rt.now path.now file) }
{
    let file = rt.open_at(how, path)?;
    let opened = seen_in(rt, &rt.look_at_open(&file)?)?;
    if opened.is_same(seen) {
        Ok(file)
    } else {
        Err(ErrorKind::Other.into())
    }
}

/// How a file that is read alone is opened.
pub fn read_only() -> OpenOptions
    ensures { result ≡ with_read new_options true }
{
    let mut options = OpenOptions::new();
    options.read(true);
    options
}

/// How a file is made where none stands.
pub(crate) fn made_new() -> OpenOptions {
    let mut options = read_and_write();
    options.create_new(true).mode(FILE_MODE);
    options
}

/// How a file that may be written is opened.
pub fn read_and_write() -> OpenOptions
    ensures { result ≡ with_write (with_read new_options true) true }
{
    let mut options = OpenOptions::new();
    options.read(true).write(true);
    options
}

/// Whether nothing stands there.
pub fn is_missing<R: Machine>(rt: &R, path: &str) -> io::Result<bool>
    ensures { IfOk result (λ is. IsTrue is → R.Machine.missing rt.now path.now) }
{
    match rt.look_at(path) {
        Ok(_) => Ok(false),
        Err(error) if error.kind() == ErrorKind::NotFound => Ok(true),
        Err(error) => Err(error),
    }
}
