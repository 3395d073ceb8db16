ghost use Rattle.std.specs.Prelude.{◌≡◌, ◌<◌, ◌≤◌, ◌++◌, length, drop, replicate, slice_set};

use cache_base::{
    BUFFER_MAX, Buffer, Bytes, Name, Names, NoMemory, Numbers, Status, chunks, number,
};
use std::alloc::Global;
use std::test::Fail;

#[test]
fn statuses_have_the_codes_of_the_program(rt: HostRuntime) {
    for (status, code) in [
        (Status::Done, 0),
        (Status::Memory, 1),
        (Status::Words, 2),
        (Status::Script, 3),
        (Status::Source, 4),
        (Status::Sink, 5),
        (Status::Disk, 6),
        (Status::No, 7),
    ] {
        assert!(rt; status.code() == code, "code {code}");
    }
}

#[test]
fn a_body_has_one_chunk_for_each_262144_bytes_begun(rt: HostRuntime) {
    for (len, count) in [
        (0, 0),
        (1, 1),
        (262_144, 1),
        (262_145, 2),
        (52_428_800, 200),
    ] {
        assert!(rt; chunks(len) == count, "of {len} bytes");
    }
}

// Whether bytes that are pushed and added stand in their order.
fn bytes_are_joined(alloc: Global) -> Result<bool, NoMemory> {
    let mut bytes = Bytes::new(alloc);
    bytes.push(b'h')?;
    bytes.extend(b"ello")?;
    Ok(bytes.as_slice() == b"hello".as_slice())
}

fn names_after_a_push(alloc: Global) -> Result<usize, NoMemory> {
    let mut names = Names::new(alloc);
    names.push(Name([7; 20]))?;
    Ok(names.as_slice().len())
}

// Whether a list has the number that was pushed, and not another.
fn a_number_is_found(alloc: Global) -> Result<bool, NoMemory> {
    let mut numbers = Numbers::new(alloc);
    numbers.push(3)?;
    Ok(numbers.has(3) && !numbers.has(4))
}

// Whether a list with room is empty, and has the number that is pushed.
fn room_is_filled(alloc: Global) -> Result<bool, NoMemory> {
    let mut roomy = Numbers::with_room(alloc, 2)?;
    let begins_empty = roomy.as_slice().is_empty();
    roomy.push(7)?;
    Ok(begins_empty && roomy.has(7))
}

#[test]
fn lists_grow_at_their_end(rt: HostRuntime) -> Result<(), Fail> {
    assert!(rt; bytes_are_joined(rt.alloc())?);
    assert!(rt; names_after_a_push(rt.alloc())? == 1);
    assert!(rt; a_number_is_found(rt.alloc())?);
    assert!(rt; room_is_filled(rt.alloc())?);
    Ok(())
}

fn fill_front(b: &mut Buffer, x: u8)
    requires { 0 < length b.old }
    ensures { b.new ≡ slice_set b.old 0 x }
{
    b.as_mut_slice()[0] = x;
}

fn wipe(b: &mut Buffer)
    ensures { b.new ≡ replicate (length b.old) 0 }
{
    b.as_mut_slice().fill(0);
}

fn overwrite(b: &mut Buffer, bytes: &[u8])
    requires { length b.old ≡ length bytes.now }
    ensures { b.new ≡ bytes.now }
{
    b.as_mut_slice().copy_from_slice(bytes);
}

fn put_front(slice: &mut [u8], bytes: &[u8])
    requires { length bytes.now ≤ length slice.old }
    ensures { slice.new ≡ bytes.now ++ drop (length bytes.now) slice.old }
{
    slice[..bytes.len()].copy_from_slice(bytes);
}

fn overwrite_front(b: &mut Buffer, bytes: &[u8])
    requires { length bytes.now ≤ length b.old }
    ensures { b.new ≡ bytes.now ++ drop (length bytes.now) b.old }
{
    put_front(b.as_mut_slice(), bytes);
}

// Whether four bytes are filled, then overwritten, as they should be.
fn four_bytes_are_filled(buffer: &mut Buffer) -> bool
    requires { length buffer.old ≡ 0 }
{
    buffer.push(b'a');
    buffer.push(b'b');
    buffer.set_len(4);
    let zeros_follow = buffer.as_slice() == b"ab\0\0".as_slice();
    fill_front(buffer, b'x');
    let front_is_filled = buffer.as_slice() == b"xb\0\0".as_slice();
    overwrite_front(buffer, b"cde");
    zeros_follow && front_is_filled && buffer.as_slice() == b"cde\0".as_slice()
}

// Whether a buffer is cut to two bytes, grown to its limit, wiped and emptied.
fn lengths_are_set(buffer: &mut Buffer) -> bool {
    buffer.set_len(2);
    overwrite(buffer, b"fg");
    let two_stay = buffer.as_slice() == b"fg".as_slice();
    buffer.set_len(BUFFER_MAX);
    let is_long = buffer.as_slice().len() == 262_148;
    wipe(buffer);
    let is_wiped = buffer.as_slice().iter().all(|x| *x == 0);
    buffer.set_len(0);
    two_stay && is_long && is_wiped && buffer.as_slice().is_empty()
}

#[test]
fn a_buffer_is_filled_and_cut_in_place(rt: HostRuntime) -> Result<(), Fail> {
    let mut buffer = Buffer::new(rt.alloc())?;
    let begins_empty = buffer.as_slice().len() == 0;
    let is_filled = four_bytes_are_filled(&mut buffer);
    let is_cut = lengths_are_set(&mut buffer);
    assert!(rt; begins_empty && is_filled && is_cut);
    Ok(())
}

#[test]
fn numbers_in_decimal_have_one_form(rt: HostRuntime) {
    for (word, due) in [
        (b"0".as_slice(), Some(0)),
        (b"4294967295", Some(4_294_967_295)),
        (b"", None),
        (b"00", None),
        (b"007", None),
        (b"4294967296", None),
        (b"+1", None),
        (b"1 ", None),
    ] {
        assert!(rt; number(word) == due, "{word:?}");
    }
}
