//! Elements are equal where the bytes that spell them are, and are shown as these bytes.

ghost use Rattle.std.specs.Prelude.{bytes_eq};
ghost use Rattle.std.specs.Cmp.{on_equiv, on_per, partial_equiv_from_equiv};
ghost use Rattle.std.specs.Cmp.Lexicographic.{nat_list_eq_equiv};
ghost use Rattle.entry_parts.specs.Elements.{elements_bytes};

use crate::Elements;
use std::fmt;

impl PartialEq for Elements {
    ghost eq = { λ a b. bytes_eq (elements_bytes a) (elements_bytes b) };

    ghost laws = { on_per elements_bytes (partial_equiv_from_equiv nat_list_eq_equiv) };

    fn eq(&self, other: &Elements) -> bool {
        self.print() == other.print()
    }
}

impl Eq for Elements {
    ghost laws = { on_equiv elements_bytes nat_list_eq_equiv };
}

impl fmt::Debug for Elements {
    fn fmt<W: fmt::Write>(&self, f: &mut fmt::Formatter<W>) -> fmt::Result {
        fmt::Debug::fmt(self.print(), f)
    }
}
