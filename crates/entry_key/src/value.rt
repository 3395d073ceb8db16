//! The value of a tag.

ghost use Rattle.std.specs.Prelude.{◌≡◌, ◌≤◌, IfErr, IfOk, drop, length};
ghost use Rattle.entry_key.specs.Key.{is_bare as is_bare_of};
ghost use Rattle.entry_key.specs.ValueEnds.{ValueEnds};
ghost use Rattle.entry_key.specs.Walk.{behind_letter, read_from};

use crate::KeyFault;

// Whether a tag of this letter has an empty value.
fn is_bare(letter: u8) -> bool
    ensures { result ≡ is_bare_of letter }
{
    letter == b'a' || letter == b'b' || letter == b'p'
}

/// The place of the comma that ends the value after this letter, which begins at `from`.
pub(crate) fn value_end(key: &[u8], from: usize, letter: u8) -> Result<usize, KeyFault>
    requires { from ≤ length key.now }
    ensures end { IfOk result (ValueEnds key.now letter from) }
    ensures fault { IfErr result (λ f.
        read_from (behind_letter letter) from (drop from key.now) ≡ Err f) }
{
    if is_bare(letter) {
        if from < key.len() && key[from] == b',' {
            return Ok(from);
        }
        return Err(KeyFault::NoComma(from));
    }
    let mut at = from;
    while at < key.len() {
        if key[at] != b',' {
            at += 1;
        } else if at + 1 < key.len() && key[at + 1] == b',' {
            at += 2;
        } else {
            return Ok(at);
        }
    }
    Err(KeyFault::NoComma(at))
}
