//! Entry files on a disk in memory.

ghost use Rattle.disk_theory.specs.Account.{Looks, ending};

mod longer_body;
mod new_entry;
mod reading;
mod rewriting;

use cache_base::{Bytes, Name, NoMemory};
use disk_model::MemDisk;
use disk_theory::{Disk, DiskFault, Place};
use entry_file::{EntryRead, Unfit, read_meta};
use std::alloc::Global;

// The file of the body `hello` under the key `:https://example.com/`, made at the moment 1000.
const HELLO: &[u8] = b"hello\x06\xab\x5e\x9a\x39\x9e\
    \0\0\0\x03\0\0\0\x01\0\0\x03\xe8\0\0\x03\xe8\0\0\x03\xe8\xff\xff\xff\xff\0\0\0\x15\0\0\0\0\
    :https://example.com/\0\0\0\0\x05";

// The same as version 1 and as version 2.
const HELLO_FIRST: &[u8] = b"hello\x42\x4d\x09\x3d\x39\x9e\
    \0\0\0\x01\0\0\0\x01\0\0\x03\xe8\0\0\x03\xe8\0\0\x03\xe8\xff\xff\xff\xff\0\0\0\x15\
    :https://example.com/\0\0\0\0\x05";

const HELLO_SECOND: &[u8] = b"hello\x29\xd6\x32\xf8\x39\x9e\
    \0\0\0\x02\0\0\0\x01\0\0\x03\xe8\0\0\x03\xe8\0\0\x03\xe8\xff\xff\xff\xff\0\0\0\x15\0\0\0\0\
    :https://example.com/\0\0\0\0\x05";

// The SHA-1 of its key.
const NAME: Name = Name(
    *b"\x68\xbc\x13\xfa\x47\x70\x09\xa2\x95\xe3\x2b\xf0\x16\x51\xa1\x4c\xab\x37\x7a\x5c",
);

const PLACE: Place = Place::Entry(NAME);

// A disk on which these bytes stand at `PLACE`.
fn disk_with(alloc: Global, bytes: &[u8]) -> Result<MemDisk, NoMemory> {
    let mut file = Bytes::new(alloc);
    file.extend(bytes)?;
    let mut disk = MemDisk::new(alloc);
    disk.put_file(PLACE, file)?;
    Ok(disk)
}

// What was read at a place: no file, the check that fails, or the lengths of body and file.
#[derive(Clone, Copy, PartialEq, Eq)]
enum Seen {
    Absent,
    Unfit(Unfit),
    Fits(u32, u64),
}

fn seen_of(read: EntryRead) -> Seen {
    match read {
        EntryRead::Absent => Seen::Absent,
        EntryRead::Unfit(check) => Seen::Unfit(check),
        EntryRead::Fits { meta, size } => Seen::Fits(meta.offset, size),
    }
}

fn seen_at<D: Disk>(
    alloc: Global,
    disk: &mut D,
    place: &Place,
    name: &Name,
) -> Result<Seen, DiskFault>
    ensures { Looks D.Disk (ending result) disk.old disk.new }
{
    Ok(seen_of(read_meta(alloc, disk, place, name)?))
}
