ghost use Rattle.std.specs.Prelude.{◌≡◌, length, IfOk};

use cache_base::{Buffer, Bytes, CHUNK, Name, NoMemory};
use chunk_store::{ChunkAnswer, append_chunk, check_chunk, read_chunk};
use disk_model::MemDisk;
use disk_theory::{Disk, DiskFault, Place};
use std::alloc::Global;
use std::test::Fail;

const ENTRY: Place = Place::Entry(Name([7; 20]));

// A chunk of 262,144 bytes, all the same.
fn whole_chunk(alloc: Global, byte: u8) -> Result<Buffer, NoMemory>
    ensures { IfOk result (λ chunk. length chunk ≡ CHUNK) }
{
    let mut buffer = Buffer::new(alloc)?;
    buffer.set_len(CHUNK);
    buffer.as_mut_slice().fill(byte);
    Ok(buffer)
}

// Whether the buffer holds a chunk of 262,144 times this byte.
fn is_whole(buffer: &Buffer, byte: u8) -> bool {
    let chunk = buffer.as_slice();
    chunk.len() == 262_144 && chunk.iter().all(|x| *x == byte)
}

// A disk on which a chunk of the byte `a` and these bytes after it stand.
fn disk_with(alloc: Global, rest: &[u8]) -> Result<MemDisk, NoMemory> {
    let mut file = Bytes::from_vec(vec![in alloc; b'a'; 262_144]?);
    file.extend(rest)?;
    let mut disk = MemDisk::new(alloc);
    disk.put_file(ENTRY, file)?;
    Ok(disk)
}

// Makes an empty file and appends the chunk in the buffer, through the trait.
fn append_first<D: Disk>(disk: &mut D, buf: &mut Buffer) -> Result<(), DiskFault>
    requires { length buf.old ≡ CHUNK }
{
    disk.create(&ENTRY)?;
    append_chunk(disk, &ENTRY, 0, buf)
}

// Whether a whole chunk and the two bytes after it are read, by one call each.
fn reads_each(disk: &mut MemDisk, buffer: &mut Buffer) -> Result<bool, DiskFault> {
    read_chunk(disk, &ENTRY, 262_146, 0, buffer)?;
    let whole = is_whole(buffer, b'a');
    read_chunk(disk, &ENTRY, 262_146, 1, buffer)?;
    Ok(whole && buffer.as_slice() == b"yz".as_slice() && disk.calls() == 2)
}

#[test]
fn each_chunk_of_a_body_is_read(rt: HostRuntime) -> Result<(), Fail> {
    let mut buffer = Buffer::new(rt.alloc())?;
    let mut disk = disk_with(rt.alloc(), b"yz and what is no part of the body")?;
    assert!(rt; reads_each(&mut disk, &mut buffer) == Ok(true));
    Ok(())
}

// Whether zeros are read after the end of a file, and where none stands.
fn reads_zeros(disk: &mut MemDisk, buffer: &mut Buffer) -> Result<bool, DiskFault> {
    read_chunk(disk, &ENTRY, 262_149, 1, buffer)?;
    let behind = buffer.as_slice() == b"yz\0\0\0".as_slice();
    read_chunk(disk, &Place::Index, 3, 0, buffer)?;
    Ok(behind && buffer.as_slice() == b"\0\0\0".as_slice())
}

#[test]
fn what_a_file_does_not_have_is_zeros(rt: HostRuntime) -> Result<(), Fail> {
    let mut buffer = whole_chunk(rt.alloc(), b'x')?;
    let mut disk = disk_with(rt.alloc(), b"yz")?;
    assert!(rt; reads_zeros(&mut disk, &mut buffer) == Ok(true));
    Ok(())
}

#[test]
fn chunks_are_checked_by_their_hashes(rt: HostRuntime) {
    assert!(rt; check_chunk(0x399e, b"hello") == ChunkAnswer::Fits);
    let differs = ChunkAnswer::Differs {
        stored: 0x399e,
        found: 0x6daa,
    };
    assert!(rt; check_chunk(0x399e, b"jello") == differs);
}

// Whether the file is this chunk and the stop tail.
fn has_chunk(disk: &MemDisk, chunk: &[u8]) -> bool {
    match disk.file(&ENTRY) {
        Some(file) => file.len() == 262_148
            && file.starts_with(chunk)
            && file.ends_with(b"\xff\xff\xff\xff"),
        None => false,
    }
}

// Whether the chunk of the byte `b` is appended by the second call, and kept.
fn appends(disk: &mut MemDisk, buffer: &mut Buffer) -> bool
    requires { length buffer.old ≡ CHUNK }
{
    append_first(disk, buffer).is_ok()
        && has_chunk(disk, buffer.as_slice())
        && disk.calls() == 2
        && is_whole(buffer, b'b')
}

#[test]
fn a_chunk_is_appended_with_the_stop_tail(rt: HostRuntime) -> Result<(), Fail> {
    let mut buffer = whole_chunk(rt.alloc(), b'b')?;
    let mut disk = MemDisk::new(rt.alloc());
    assert!(rt; appends(&mut disk, &mut buffer));
    Ok(())
}

// Whether the second call and the third fail, and a chunk is kept that was not written.
fn keeps(disk: &mut MemDisk, buffer: &mut Buffer) -> bool
    requires { length buffer.old ≡ CHUNK }
{
    append_first(disk, buffer) == Err(DiskFault::Failed)
        && buffer.as_slice().len() == 262_144
        && read_chunk(disk, &ENTRY, 5, 0, buffer) == Err(DiskFault::Failed)
        && disk.calls() == 3
}

#[test]
fn the_buffer_is_kept_where_the_disk_fails(rt: HostRuntime) -> Result<(), Fail> {
    let mut buffer = whole_chunk(rt.alloc(), b'b')?;
    let mut disk = MemDisk::new(rt.alloc());
    disk.stop_after(1);
    assert!(rt; keeps(&mut disk, &mut buffer));
    Ok(())
}
