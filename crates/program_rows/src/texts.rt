//! Bytes, numbers and words in memory.

ghost use Rattle.std.specs.Prelude.{◌≡◌, ◌∷◌, ◌++◌, [], IfOk, flat_map, replicate};

use cache_base::{Bytes, NoMemory, Numbers};
use std::alloc::{AllocError, Global};
use std::test::Fail;

/// These bytes, in memory of their own. Fails only where memory ran out.
pub fn bytes(alloc: Global, of: &[u8]) -> Result<Bytes, NoMemory>
    ensures { IfOk result (λ list. list ≡ of.now) }
{
    Bytes::from_slice(alloc, of)
}

/// The list of one number, as of the one call that fails. Fails only where memory ran out.
pub fn one_number(alloc: Global, number: u32) -> Result<Numbers, NoMemory>
    ensures { IfOk result (λ list. list ≡ number ∷ []) }
{
    let mut list = Numbers::new(alloc);
    list.push(number)?;
    Ok(list)
}

/// The words of a line, which single spaces separate. Fails only where memory ran out.
pub fn words_of(alloc: Global, line: &str) -> Result<Vec<String>, AllocError> {
    let mut words = Vec::new(alloc);
    for word in line.split(' ') {
        words.push(String::from_str(alloc, word)?)?;
    }
    Ok(words)
}

/// So many times this byte, and what stands before and after. Fails only where memory ran out.
pub fn repeated(
    alloc: Global,
    before: &[u8],
    byte: u8,
    times: usize,
    after: &[u8],
) -> Result<Bytes, Fail>
    ensures { IfOk result (λ list. list ≡ before.now ++ replicate times byte ++ after.now) }
{
    let mut list = bytes(alloc, before)?;
    list.extend(&vec![in alloc; byte; times]?)?;
    list.extend(after)?;
    Ok(list)
}

/// The parts, one after the other. Fails only where memory ran out.
pub fn joined(alloc: Global, parts: &[&[u8]]) -> Result<Bytes, Fail>
    ensures { IfOk result (λ list. list ≡ flat_map (λ part. part.now) parts.now) }
{
    let mut text = Bytes::new(alloc);
    for index in 0..parts.len() {
        text.extend(parts[index])?;
    }
    Ok(text)
}
