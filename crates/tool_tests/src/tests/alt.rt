//! Alternative data after a body: `putalt`, `getalt` and `main`.

mod edges;
mod looks;
mod refusals;
mod values;
mod verbs;

use super::*;
use std::test::Fail;

const VERIFY: Row<'static> = ("1000 verify", b"", Status::Done, b"findings 0\n");

// Adds a word, a number and what stands after them.
fn add_number(
    alloc: Global,
    text: &mut Bytes,
    word: &[u8],
    number: usize,
    after: &[u8],
) -> Result<(), NoMemory> {
    text.extend(word)?;
    text.extend_decimal(alloc, number as u64)?;
    text.extend(after)
}

// Adds so many times `m` and so many times `d`, and a newline.
fn add_bytes(alloc: Global, text: &mut Bytes, main: usize, data: usize) -> Result<(), Fail> {
    let bytes = repeated(alloc, b"", b'm', main, b"")?;
    text.extend(bytes.as_slice())?;
    let bytes = repeated(alloc, b"", b'd', data, b"\n")?;
    text.extend(bytes.as_slice())?;
    Ok(())
}

// Adds a word, the number of these bytes, what stands after it, and the bytes.
fn add_data(
    alloc: Global,
    text: &mut Bytes,
    word: &[u8],
    after: &[u8],
    main: usize,
    data: usize,
) -> Result<(), Fail> {
    add_number(alloc, text, word, main.wrapping_add(data), after)?;
    add_bytes(alloc, text, main, data)
}
