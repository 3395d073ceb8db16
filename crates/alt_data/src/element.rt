//! The element that says where alternative data begin.

ghost use Rattle.std.specs.Prelude.{◌≡◌, ◌≤◌, IfOk, IfSome, codes, length, option_map};
ghost use Rattle.entry_parts.specs.Elements.{HasNoZero, element};
ghost use Rattle.alt_data.specs.AltData.{alt_in, alt_of, alt_told, alt_value, before_comma};

use cache_base::{Bytes, NoMemory, number};
use entry_parts::Elements;
use std::alloc::Global;

/// The name of the element.
pub const ALT_DATA: &[u8] = b"alt-data";

// What the value of the element begins with: the version of its form.
const FORM: &[u8] = b"1;";

/// Alternative data after a main body.
#[derive(Clone, Copy, Debug, PartialEq, Eq)]
pub struct AltInfo<'a> {
    /// Where they begin: the length of the main body.
    pub offset: u32,
    /// Of which kind they are: one or more bytes, none of them zero.
    pub kind: &'a [u8],
}

// How many bytes stand before the first comma, or all where there is none.
fn comma_at(b: &[u8]) -> usize
    ensures at { result ≡ length (before_comma b.now) }
    ensures inside { result ≤ length b.now }
{
    let mut at = 0;
    while at < b.len() && b[at] != b',' {
        at += 1;
    }
    at
}

// What a value of the element says.
fn read_value(value: &[u8]) -> Option<AltInfo<'_>>
    requires { HasNoZero value.now }
    ensures { option_map alt_told result ≡ alt_in value.now }
{
    if value.len() < 2 {
        return None;
    }
    let (form, rest) = value.split_at(2);
    if form != FORM {
        return None;
    }
    let at = comma_at(rest);
    if at + 1 >= rest.len() {
        return None;
    }
    let offset = number(&rest[..at])?;
    Some(AltInfo {
        offset,
        kind: &rest[at + 1..],
    })
}

// The value of the first element `alt-data`.
fn stored_value(elements: &Elements) -> Option<&[u8]>
    ensures value { option_map (λ value. value.now) result
        ≡ element (codes "alt-data") elements.now }
    ensures no_zero { IfSome result (λ value. HasNoZero value.now) }
{
    elements.print();
    elements.get(ALT_DATA)
}

/// The alternative data that the elements tell of in a body of `len` bytes: none where the first element `alt-data`
/// does not have the form `1;OFFSET,TYPE`, or where its offset is past the body's end. It takes no memory.
pub fn info(elements: &Elements, len: u32) -> Option<AltInfo<'_>>
    ensures { option_map alt_told result ≡ alt_of elements.now len }
{
    let found = read_value(stored_value(elements)?)?;
    if found.offset > len {
        return None;
    }
    Some(found)
}

/// The value of the element `alt-data` for alternative data of this kind that begin at the offset.
pub fn alt_value(alloc: Global, offset: u32, kind: &[u8]) -> Result<Bytes, NoMemory>
    ensures { IfOk result (λ value. value ≡ alt_value offset kind.now) }
{
    let mut value = Bytes::new(alloc);
    value.extend(FORM)?;
    value.extend_decimal(alloc, u64::from(offset))?;
    value.push(b',')?;
    value.extend(kind)?;
    Ok(value)
}
