//! The elements of an entry's metadata, kept as the bytes that spell them.

ghost use Rattle.std.specs.Prelude.{◌≡◌, ℕ, true, false, ◌↔◌, ◌==◌, ◌++◌, ◌∷◌, List, [], Err, IfErr, IfOk, ◌⊎◌, length, filter, option_map};
ghost use Rattle.entry_parts.specs.Elements.{AreElements, Element, HasNoZero, element, elements_bytes, elements_of, have_form};
ghost use Rattle.entry_parts.specs.declared.fault.PartsFault.TheVariants.{BadForm, Memory};

use crate::PartsFault;
use cache_base::NoMemory;
use std::alloc::Global;
use std::marker::Model;

/// Names with values, in order. A name may stand more than once, and names and values may be empty.
#[derive(Drop)]
pub struct Elements {
    pub(crate) bytes: Vec<u8>,
}

impl Model for Elements {
    ghost Value = { List Element };

    ghost view = { λ s. elements_of s.bytes.items };

    ghost invariant = { λ s. have_form s.bytes.items ≡ true };
}

fn zeros(b: &[u8]) -> usize
    ensures { result ≡ length (filter (λ x. x == 0) b.now) }
{
    b.iter().filter(|x| **x == 0).count()
}

// Whether the bytes spell elements.
fn has_form(b: &[u8]) -> bool
    ensures { result ≡ have_form b.now }
{
    let zeros = zeros(b);
    b.is_empty() || b[b.len() - 1] == 0 && zeros % 2 == 0
}

// The place of the first zero byte.
fn first_zero(b: &[u8]) -> usize
    ensures { (field rest : List ℕ) → HasNoZero field → b.now ≡ field ++ 0 ∷ rest
        → result ≡ length field }
{
    let mut end = 0;
    while end < b.len() && b[end] != 0 {
        end += 1;
    }
    end
}

// What stands before the first zero byte, and what after it.
pub(crate) fn cut(b: &[u8]) -> (&[u8], &[u8])
    requires { (field : List ℕ) × (rest : List ℕ) × HasNoZero field × (b.now ≡ field ++ 0 ∷ rest) }
    ensures { (field rest : List ℕ) → HasNoZero field → b.now ≡ field ++ 0 ∷ rest
        → (result.0.now ≡ field) × (result.1.now ≡ rest) }
{
    let end = first_zero(b);
    (&b[..end], &b[end + 1..])
}

impl Elements {
    /// No elements. It takes no memory, and keeps the allocator.
    pub fn new(alloc: Global) -> Self
        ensures { result ≡ [] }
    {
        Elements {
            bytes: Vec::new(alloc),
        }
    }

    /// The elements that the bytes spell. The bytes have the form of elements exactly where they are empty, or the
    /// last is zero and the number of zero bytes is even.
    pub fn parse(alloc: Global, b: &[u8]) -> Result<Elements, PartsFault>
        ensures spelled { IfOk result (λ elements. elements ≡ elements_of b.now) }
        ensures bad_form { (result ≡ Err BadForm) ↔ (have_form b.now ≡ false) }
        ensures faults { IfErr result (λ fault. (fault ≡ BadForm) ⊎ (fault ≡ Memory)) }
    {
        if !has_form(b) {
            return Err(PartsFault::BadForm);
        }
        Ok(Elements {
            bytes: Vec::from_slice(alloc, b)?,
        })
    }

    /// The same elements once more.
    pub fn copy(&self, alloc: Global) -> Result<Elements, NoMemory>
        ensures { IfOk result (λ copy. copy ≡ self.now) }
    {
        Ok(Elements {
            bytes: Vec::from_slice(alloc, self.bytes.as_slice())?,
        })
    }

    /// The bytes that spell the elements.
    pub fn print(&self) -> &[u8]
        ensures elements { AreElements self.now }
        ensures bytes { result.now ≡ elements_bytes self.now }
    {
        self.bytes.as_slice()
    }

    /// The number of bytes that spell the elements.
    pub fn len(&self) -> usize
        ensures { result ≡ length (elements_bytes self.now) }
    {
        self.print().len()
    }

    /// The value of the first element of this name, or none where no element has it.
    pub fn get(&self, name: &[u8]) -> Option<&[u8]>
        ensures { option_map (λ value. value.now) result ≡ element name.now self.now }
    {
        let mut rest = self.print();
        while !rest.is_empty() {
            let (first, behind) = cut(rest);
            let (value, after) = cut(behind);
            if first == name {
                return Some(value);
            }
            rest = after;
        }
        None
    }
}
