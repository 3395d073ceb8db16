//! The record of an entry's metadata.

ghost use Rattle.std.specs.Prelude.{◌≡◌, ◌+◌, ◌/◌, ◌^◌, ◌≤◌, codes, if◌then◌else◌, is_some, min, option_map, true};
ghost use Rattle.std.specs.Char.{is_ascii_digit};
ghost use Rattle.std.specs.List.{list_all};
ghost use Rattle.std.specs.Str.Parse.{digits_value};
ghost use Rattle.entry_key.specs.Tags.{has_tag, origin_hash as origin_hash_of, tags_of};
ghost use Rattle.entry_key.specs.Walk.{read_key, reads};
ghost use Rattle.entry_metadata.specs.Meta.{meta_of};
ghost use Rattle.entry_parts.specs.Elements.{element};
ghost use Rattle.index_record.specs.Filling as spec;
ghost use Rattle.index_record.specs.Record.{has_bit};

use crate::record::{ALT_DATA, ANONYMOUS, INITIALIZED, IndexRecord, NO_TIME, PINNED, SIZE_MAX};
use cache_base::Name;
use entry_key::origin_hash;
use entry_metadata::Meta;
use entry_parts::Elements;

// The largest response time in a record.
const TIME_MAX: u16 = 0xFFFE;

// The flag of a pinned entry in the header of its metadata.
const PINNED_ENTRY: u32 = 1;

// The bytes of a KB.
const KB: u64 = 1024;

fn all_digits(text: &[u8]) -> bool
    ensures { result ≡ list_all is_ascii_digit text.now }
{
    text.iter().all(|digit| digit.is_ascii_digit())
}

// The number that the digits spell, or `most` where it is larger.
fn number_up_to(digits: &[u8], most: u16) -> u16
    requires { list_all is_ascii_digit digits.now ≡ true }
    ensures { result ≡ min (digits_value 10 digits.now) most }
{
    let most = u32::from(most);
    let mut number = 0u32;
    for &digit in digits {
        number = (number * 10 + u32::from(digit - b'0')).min(most);
    }
    number as u16
}

// The number in a text, or `most` where it is larger. `parse` would take a sign, and refuse a long number.
fn number_in(text: &[u8], most: u16) -> Option<u16>
    ensures { result ≡ option_map (λ n. min n most) (spec.number_in text.now) }
{
    if text.is_empty() {
        return None;
    }
    if all_digits(text) {
        Some(number_up_to(text, most))
    } else {
        None
    }
}

// The number in the first element of this name, or `most` where it is larger.
fn number_of(elements: &Elements, name: &[u8], most: u16) -> Option<u16>
    ensures { result ≡ option_map (λ n. min n most) (spec.number_of name.now elements.now) }
{
    number_in(elements.get(name)?, most)
}

// A response time in the first element of this name.
fn time_of(elements: &Elements, name: &[u8]) -> u16
    ensures { result ≡ spec.time_of name.now elements.now }
{
    number_of(elements, name, TIME_MAX).unwrap_or(NO_TIME)
}

// The content type, or 0 where there is none or it is no byte.
fn content_of(elements: &Elements) -> u8
    ensures { result ≡ spec.content_of elements.now }
{
    match number_of(elements, b"ctid", 256) {
        Some(content) if content <= 255 => content as u8,
        _ => 0,
    }
}

// Whether the tags of a key make its entry anonymous, and the hash of its origin.
fn key_fields(key: &[u8]) -> (bool, u64)
    requires { reads (read_key key.now) ≡ true }
    ensures anonymous { result.0 ≡ has_tag 97 (tags_of key.now) }
    ensures origin { result.1 ≡ origin_hash_of (tags_of key.now) }
{
    match entry_key::parse(key) {
        Ok(tags) => (tags.anonymous, origin_hash(&tags)),
        Err(_) => unreachable!(),
    }
}

// The size of a file in KB, rounded up, or the largest that a record has room for.
fn kilobytes(size: u64) -> u32
    ensures { result ≡ min ((size + 1023) / 1024) 0xFFFFFF }
{
    size.div_ceil(KB).min(u64::from(SIZE_MAX)) as u32
}

// The flag, where the test holds.
fn flag_if(test: bool, flag: u32) -> u32
    ensures { result ≡ (if test then flag else 0) }
{
    if test { flag } else { 0 }
}

fn is_pinned(flags: u32) -> bool
    ensures { result ≡ has_bit 0 flags }
{
    flags & PINNED_ENTRY != 0
}

fn flags_of(anonymous: bool, pinned: bool, alt_data: bool, size: u64) -> u32
    ensures { result ≡ 2 ^ 31 + spec.bit_if anonymous 30 + spec.bit_if pinned 26
        + spec.bit_if alt_data 25 + min ((size + 1023) / 1024) 0xFFFFFF }
{
    INITIALIZED
        + flag_if(anonymous, ANONYMOUS)
        + flag_if(pinned, PINNED)
        + flag_if(alt_data, ALT_DATA)
        + kilobytes(size)
}

/// The record of the entry with this name and metadata, whose file has `size` bytes. A time or a content type that is
/// no plain decimal number counts as none.
#[tactic(auto, unfolding(crate::specs::Filling::record_of_meta))]
pub fn of_meta(name: &Name, meta: &Meta, size: u64) -> IndexRecord
    ensures { result ≡ spec.record_of_meta name.now (meta_of meta.now) size }
{
    let (anonymous, origin) = key_fields(meta.key.as_slice());
    let pinned = is_pinned(meta.header.flags);
    let alt_data = meta.elements.get(b"alt-data").is_some();
    IndexRecord {
        name: *name,
        frecency: meta.header.frecency,
        origin,
        on_start: time_of(&meta.elements, b"net-response-time-onstart"),
        on_stop: time_of(&meta.elements, b"net-response-time-onstop"),
        content: content_of(&meta.elements),
        flags: flags_of(anonymous, pinned, alt_data, size),
    }
}
