//! Names of entries, and moments.

ghost use Rattle.std.specs.Prelude.{[], ◌∷◌};
ghost use Rattle.std.proofs.Common.{rules};
ghost use Rattle.std.specs.Cmp.Rules.{comparing, hashing};

use std::hash::{Hash, Hasher};

/// The name of an entry's file: the SHA-1 of its key. Ordered by bytes.
#[derive(Clone, Copy, Debug, PartialEq, Eq, PartialOrd, Ord)]
pub struct Name(pub [u8; 20]);

// All bytes at once: the derived form goes by single bytes.
impl Hash for Name {
    ghost hash_input = { λ name. name.0 ∷ [] };

    ghost respects_eq = { Prim.search (comparing, hashing, rules) };

    fn hash<H: Hasher>(&self, state: &mut H) {
        state.write(&self.0);
    }
}

/// A moment, in seconds since 1970.
pub type Moment = u32;
