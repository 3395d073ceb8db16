//! Which keys may be written.

ghost use Rattle.std.specs.Prelude.{◌≡◌};
ghost use Rattle.std.specs.List.{list_all};
ghost use Rattle.entry_key.specs.Writing.{is_plain_byte, may_write as may_write_of};

use crate::parse;
use cache_base::KEY_MAX;

// Whether no byte ends a text or a line.
fn all_plain(key: &[u8]) -> bool
    ensures { result ≡ list_all is_plain_byte key.now }
{
    key.iter().all(|&x| x != 0 && x != b'\n')
}

/// Whether an entry may be written under this key: it has 1 to 16,384 bytes, no zero byte and no newline, and it
/// can be parsed.
#[tactic(auto, unfolding(crate::specs::Writing::may_write))]
pub fn may_write(key: &[u8]) -> bool
    ensures { result ≡ may_write_of key.now }
{
    if key.is_empty() || key.len() > KEY_MAX || !all_plain(key) {
        return false;
    }
    parse(key).is_ok()
}
