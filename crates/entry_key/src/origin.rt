//! The hash of a key's origin.

ghost use Rattle.std.specs.Int.{from_be_bytes, w64};
ghost use Rattle.std.specs.Prelude.{ℕ, ◌≡◌, ◌<◌, ◌==◌, IfSome, List, length, position};
ghost use Rattle.entry_key.specs.Key.{doubled};
ghost use Rattle.entry_key.specs.Tags.{value_hash};
ghost use Rattle.sha1.specs.Sha1.{sha1};

use crate::KeyTags;
use sha1::Sha1;

// The place of the first comma.
fn first_comma(bytes: &[u8]) -> Option<usize>
    ensures first { result ≡ position (λ x. x == 44) bytes.now }
    ensures within { IfSome result (λ at. at < length bytes.now) }
{
    bytes.iter().position(|&x| x == b',')
}

// The SHA-1 of the value that is spelled so. Whole runs are hashed, each up to a comma and with it.
fn sha1_of_spelled(spelled: &[u8]) -> [u8; 20]
    ensures { (value : List ℕ) → spelled.now ≡ doubled value → result ≡ sha1 value }
{
    let mut hasher = Sha1::new();
    let mut rest = spelled;
    while let Some(comma) = first_comma(rest) {
        hasher.update(&rest[..comma + 1]);
        rest = &rest[rest.len().min(comma + 2)..];
    }
    hasher.update(rest);
    hasher.finalize()
}

// The first eight bytes of a SHA-1, as a number.
fn first_eight(hash: &[u8; 20]) -> u64
    ensures { result ≡ from_be_bytes w64 hash.now }
{
    u64::from_be_bytes([
        hash[0], hash[1], hash[2], hash[3], hash[4], hash[5], hash[6], hash[7],
    ])
}

/// The first eight bytes of the SHA-1 of the origin's value, with its doubled commas made single.
#[tactic(auto, unfolding(crate::specs::Tags::value_hash))]
pub fn origin_hash(tags: &KeyTags<'_>) -> u64
    ensures { (value : List ℕ) → tags.now.origin.now ≡ doubled value → result ≡ value_hash value }
{
    first_eight(&sha1_of_spelled(tags.origin))
}

/// The same hash of an origin as it stands, with its commas single: the hash of the keys whose tag spells it.
#[tactic(auto, unfolding(crate::specs::Tags::value_hash))]
pub fn hash_of_origin(origin: &[u8]) -> u64
    ensures { result ≡ value_hash origin.now }
{
    first_eight(&Sha1::digest(origin))
}
