//! What is printed of a record.

ghost use Rattle.std.specs.Prelude.{◌≡◌, ◌<◌, ◌≤◌, ◌^◌, ◌++◌, IfOk, OnOk, [], ◌∷◌, decimal, string_bytes};
ghost use Rattle.std.specs.Int.{to_be_bytes, w64};
ghost use Rattle.cache_base.specs.Bytes.{be32};
ghost use Rattle.hex.specs.Hex.{encode_upper};
ghost use Rattle.cache_script.specs.Numbers.{NumbersFit};
ghost use Rattle.cache_theory.specs.Text.{record_words, spaced};

use cache_base::{Bytes, NoMemory, bytes_fit};
use index_record::IndexRecord;
use itoa::Buffer;
use std::alloc::Global;

// The longest line: 40, 10, 16, 5, 5, 3 and 8 bytes, and six spaces.
const LINE_LEN: usize = 93;

// Adds bytes in upper-case hexadecimal digits, at most 20 of them.
fn extend_hex<const N: usize>(line: &mut Bytes, bytes: [u8; N]) -> Result<(), NoMemory>
    requires { N ≤ 20 }
    ensures { OnOk result (line.new ≡ line.old ++ encode_upper bytes.entry) }
{
    bytes_fit(bytes.as_slice());
    let mut room = [0; 40];
    let digits = &mut room[..2 * N];
    if hex::encode_to_slice(bytes, digits).is_err() {
        unreachable!();
    }
    digits.make_ascii_uppercase();
    line.extend(digits)
}

// Adds a number in decimal, and a space.
fn extend_number(line: &mut Bytes, n: u32) -> Result<(), NoMemory>
    ensures { OnOk result (line.new ≡ line.old ++ (decimal n ++ 32 ∷ [])) }
{
    let mut digits = Buffer::new();
    line.extend(digits.format(n).as_bytes())?;
    line.push(b' ')
}

// Adds the words up to the origin, with a space after each.
fn extend_first(line: &mut Bytes, r: &IndexRecord) -> Result<(), NoMemory>
    ensures { OnOk result (line.new ≡ line.old
        ++ (encode_upper r.now.name.0 ++ (32 ∷ (decimal r.now.frecency
        ++ (32 ∷ (encode_upper (to_be_bytes w64 r.now.origin) ++ 32 ∷ [])))))) }
{
    extend_hex(line, r.name.0)?;
    line.push(b' ')?;
    extend_number(line, r.frecency)?;
    extend_hex(line, r.origin.to_be_bytes())?;
    line.push(b' ')
}

// Adds the words after the origin.
fn extend_last(line: &mut Bytes, r: &IndexRecord) -> Result<(), NoMemory>
    ensures { OnOk result (line.new ≡ line.old
        ++ (decimal r.now.on_start ++ (32 ∷ (decimal r.now.on_stop
        ++ (32 ∷ (decimal r.now.content ++ (32 ∷ encode_upper (be32 r.now.flags)))))))) }
{
    extend_number(line, u32::from(r.on_start))?;
    extend_number(line, u32::from(r.on_stop))?;
    extend_number(line, u32::from(r.content))?;
    extend_hex(line, r.flags.to_be_bytes())
}

/// Adds the line that is printed of a record, without its newline. Where memory runs out a part of it may be there.
pub fn extend_record(line: &mut Bytes, r: &IndexRecord) -> Result<(), NoMemory>
    ensures { OnOk result (line.new ≡ line.old ++ spaced (record_words r.now)) }
{
    extend_first(line, r)?;
    extend_last(line, r)
}

// It tells that a number fits its type.
fn fits(n: u32)
    ensures { n < 2 ^ 32 }
{}

// And so do those of a record.
fn numbers_fit(r: &IndexRecord)
    ensures { NumbersFit r.now }
{
    fits(r.frecency);
    fits(u32::from(r.on_start));
    fits(u32::from(r.on_stop));
    fits(u32::from(r.content));
}

/// The same line as a text of its own. Fails only out of memory.
pub fn record_text(alloc: Global, r: &IndexRecord) -> Result<String, NoMemory>
    ensures { IfOk result (λ text. string_bytes text ≡ spaced (record_words r.now)) }
{
    numbers_fit(r);
    let mut line = Bytes::with_room(alloc, LINE_LEN)?;
    extend_record(&mut line, r)?;
    match str::from_utf8(line.as_slice()) {
        Ok(text) => Ok(String::from_str(alloc, text)?),
        Err(_) => unreachable!(),
    }
}
