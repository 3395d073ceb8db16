//! What the tags of a key say.

ghost use Rattle.std.specs.Prelude.{
  ◌≡◌,
  ◌≤◌,
  ◌==◌,
  ◌||◌,
  IfErr,
  IfOk,
  drop,
  if◌then◌else◌,
  length,
};
ghost use Rattle.entry_key.specs.KeyTags.{KeySays};
ghost use Rattle.entry_key.specs.Walk.{read_key};

use crate::KeyFault;
use crate::value::value_end;

/// What the tags of a key say, with each value as it is spelled there, and the key's address.
#[derive(Clone, Copy, Debug, PartialEq, Eq)]
pub struct KeyTags<'a> {
    /// Whether there is the tag `a`.
    pub anonymous: bool,
    /// The value of the tag `O`, or no bytes.
    pub origin: &'a [u8],
    /// The value of the tag `~`, or no bytes.
    pub extra: &'a [u8],
    /// What follows the tags and the colon.
    pub address: &'a [u8],
}

// The tags with one more, which has this spelled value.
fn with_tag<'a>(tags: KeyTags<'a>, letter: u8, value: &'a [u8]) -> KeyTags<'a>
    ensures anonymous { result.anonymous ≡ ((letter == 97) || tags.entry.anonymous) }
    ensures origin { result.origin.now
        ≡ (if letter == 79 then value.now else tags.entry.origin.now) }
    ensures extra { result.extra.now ≡ (if letter == 126 then value.now else tags.entry.extra.now) }
{
    match letter {
        b'a' => KeyTags {
            anonymous: true,
            ..tags
        },
        b'O' => KeyTags {
            origin: value,
            ..tags
        },
        b'~' => KeyTags {
            extra: value,
            ..tags
        },
        _ => tags,
    }
}

/// What the tags of a key say, and its address, or the key's first fault from the left.
pub fn parse(key: &[u8]) -> Result<KeyTags<'_>, KeyFault>
    ensures tags { IfOk result (KeySays key.now) }
    ensures fault { IfErr result (λ f. read_key key.now ≡ Err f) }
{
    let mut tags = KeyTags {
        anonymous: false,
        origin: &key[..0],
        extra: &key[..0],
        address: &key[..0],
    };
    let mut last = b',';
    let mut at = 0;
    while at < key.len() {
        let letter = key[at];
        if letter == b':' {
            tags.address = &key[at + 1..];
            return Ok(tags);
        }
        if letter <= last {
            return Err(KeyFault::Order(at));
        }
        let end = value_end(key, at + 1, letter)?;
        let value = &key[at + 1..end];
        tags = with_tag(tags, letter, value);
        last = letter;
        at = end + 1;
    }
    Err(KeyFault::NoAddress)
}
