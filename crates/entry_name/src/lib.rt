//! Names of entries: the SHA-1 of a key, and its text, which is the name of the entry's file. A name's text reads
//! back as that name, and no other text reads as a name.
#![tactic(auto)]

ghost use Rattle.std.specs.Prelude.{◌≡◌, ◌↔◌, IfOk, IsSome, string_bytes};
ghost use Rattle.std.specs.List.{list_all};
ghost use Rattle.cache_base.specs.declared.name.Name.{Name};
ghost use Rattle.entry_name.specs.EntryName.{
  IsNameText,
  IsTextOf,
  file_name,
  is_upper_digit,
};

use cache_base::{Name, NoMemory};
use hex::FromHex;
use sha1::Sha1;
use std::alloc::Global;

/// The name of a key's file. It takes no memory.
pub fn name_of(key: &[u8]) -> Name
    ensures { result.0 ≡ file_name key.now }
{
    Name(Sha1::digest(key))
}

/// A name as 40 upper-case digits.
pub fn text_of(alloc: Global, name: &Name) -> Result<String, NoMemory>
    ensures { IfOk result (λ text. IsTextOf name.now.0 (string_bytes text)) }
{
    let bytes = name.0.as_slice();
    Ok(hex::encode_upper(alloc, bytes)?)
}

// Whether each byte is one of `0` to `9` and `A` to `F`.
fn has_upper_digits(text: &str) -> bool
    ensures { result ≡ list_all is_upper_digit text.now }
{
    text.as_bytes()
        .iter()
        .all(|&c| matches!(c, b'0'..=b'9' | b'A'..=b'F'))
}

/// The name that has this text, or `None` where the text is not 40 upper-case digits. It takes no memory.
pub fn read_text(text: &str) -> Option<Name>
    ensures name { (name : Name) → (result ≡ Some name) ↔ IsTextOf name.0 text.now }
    ensures digits { IsSome result ↔ IsNameText text.now }
{
    if !has_upper_digits(text) {
        return None;
    }
    match <[u8; 20] as FromHex>::from_hex(text) {
        Ok(bytes) => Some(Name(bytes)),
        Err(_) => None,
    }
}
