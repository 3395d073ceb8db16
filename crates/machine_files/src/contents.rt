//! What is read from an open file and written to it.

ghost use Rattle.std.specs.Prelude.{◌≡◌, ◌≢◌, ◌≤◌, IfOk, IfErr, Ok, OnOk, length, take};
ghost use Rattle.std.specs.IoError.{error_kind};
ghost use Rattle.disk_theory.specs.declared.place.Place.TheVariants.{Clear};
ghost use Rattle.std.specs.Io.KnownBytes.{Appends, Consumes};

use crate::machine::Machine;
use disk_theory::Place;
use std::fs::OpenFile;
use std::io::{self, ErrorKind, Read, Seek, SeekFrom, Write};

/// Fills the buffer from the offset on. A file that does not have all these bytes is an error.
pub(crate) fn read_whole<F: Read + Seek>(file: &mut F, from: u64, buf: &mut [u8]) -> io::Result<()>
    ensures whole { OnOk result
        ((begun : F) × Consumes (F.remaining begun) (F.remaining file.new) buf.new) }
{
    file.seek(SeekFrom::Start(from))?;
    file.read_exact(buf)
}

// Fills the beginning of the buffer from the offset on, as far as the file goes, and tells how many bytes that are.
fn read_front<R: Machine>(rt: &R, file: &R::File, from: u64, buf: &mut [u8]) -> io::Result<usize>
    ensures len { IfOk result (λ n. n ≤ length buf.old) }
    ensures held { IfOk result (λ n. R.Machine.held rt.now file.now from (take n buf.new)) }
{
    let left = rt.end_of(file)?.saturating_sub(from);
    let len = if left < buf.len() as u64 {
        left as usize
    } else {
        buf.len()
    };
    rt.read_from(file, from, &mut buf[..len])?;
    Ok(len)
}

/// Reads what stands at a place, and tells how many bytes that is. What stands at `clear` is read as far as it goes,
/// since a mark may be shorter than the buffer; another file has all these bytes.
pub fn read_at<R: Machine>(
    rt: &R,
    place: &Place,
    file: &R::File,
    from: u64,
    buf: &mut [u8],
) -> io::Result<usize>
    ensures len { IfOk result (λ n. n ≤ length buf.old) }
    ensures whole { place.now ≢ Clear → IfOk result (λ n. n ≡ length buf.old) }
    ensures held { IfOk result (λ n. R.Machine.held rt.now file.now from (take n buf.new)) }
{
    if *place == Place::Clear {
        return read_front(rt, file, from, buf);
    }
    rt.read_from(file, from, buf)?;
    Ok(buf.len())
}

/// Writes all the bytes over what stands from the offset on.
pub(crate) fn write_over<F: Write + Seek>(file: &mut F, from: u64, bytes: &[u8]) -> io::Result<()>
    ensures whole { OnOk result
        ((begun : F) × Appends (F.contents begun) (F.contents file.new) bytes.now) }
{
    file.seek(SeekFrom::Start(from))?;
    write_whole(file, bytes)
}

// Writes all the bytes where the file stands.
fn write_whole<F: Write>(file: &mut F, bytes: &[u8]) -> io::Result<()>
    ensures whole { OnOk result (Appends (F.contents file.old) (F.contents file.new) bytes.now) }
{
    after_change(file.write_all(bytes))
}

/// Writes all the bytes from the offset on. The length is set only where older bytes are left after the new ones. A
/// file that is new has none, and stands at its beginning. What is written to the `writer` is written to the file.
pub(crate) fn write_end<W: Write + Seek, F: OpenFile>(
    writer: &mut W,
    file: &F,
    is_new: bool,
    from: u64,
    bytes: &[u8],
) -> io::Result<()>
    ensures whole { OnOk result
        ((begun : W) × Appends (W.contents begun) (W.contents writer.new) bytes.now) }
{
    if is_new && from == 0 {
        return write_whole(writer, bytes);
    }
    write_over(writer, from, bytes)?;
    let end = from.saturating_add(bytes.len() as u64);
    after_change(cut_after(file, end))
}

fn cut_after<F: OpenFile>(file: &F, end: u64) -> io::Result<()> {
    if file.metadata()?.len() > end {
        file.set_len(end)?;
    }
    Ok(())
}

/// The outcome of what may have changed something, or comes after a change. Out of memory would say that nothing has
/// changed, so it becomes another failure.
pub fn after_change<T>(outcome: io::Result<T>) -> io::Result<T>
    ensures value { IfOk result (λ value. outcome ≡ Ok value) }
    ensures same { IfOk outcome (λ value. result ≡ Ok value) }
    ensures other { IfErr result (λ e. error_kind e ≢ ErrorKind.OutOfMemory) }
{
    match outcome {
        Err(error) if error.kind() == ErrorKind::OutOfMemory => Err(ErrorKind::Other.into()),
        outcome => outcome,
    }
}
