//! Setting and removing one element.

ghost use Rattle.std.specs.Prelude.{◌≡◌, ◌≢◌, ◌+◌, ◌++◌, None, Some, true, IfErr, IfOk, OnErr, OnOk, is_some, nat_le, length, take, drop, ◌≤◌};
ghost use Rattle.cache_base.specs.declared.limits.TheConstants.{ELEMENTS_MAX};
ghost use Rattle.entry_parts.specs.Elements.{element, element_bytes, elements_of, have_form};
ghost use Rattle.entry_parts.specs.Places.{IsPlace};
ghost use Rattle.entry_parts.specs.Setting.{has_zero, set_fault, with_element, without_element};
ghost use Rattle.entry_parts.specs.declared.fault.PartsFault;

use crate::elements::cut;
use crate::{Elements, PartsFault};
use cache_base::ELEMENTS_MAX;
use std::alloc::{AllocError, Global};

// Where an element stands in the bytes of elements.
#[derive(Clone, Copy)]
struct Place {
    start: usize,
    end: usize,
}

// The place of the first element of the name, or the end where no element has it.
fn place_of(b: &[u8], name: &[u8]) -> Place
    requires { have_form b.now ≡ true }
    ensures { IsPlace name.now b.now result.start result.end }
{
    let mut rest = b;
    while !rest.is_empty() {
        let (first, behind) = cut(rest);
        let (_, after) = cut(behind);
        if first == name {
            return Place {
                start: b.len() - rest.len(),
                end: b.len() - after.len(),
            };
        }
        rest = after;
    }
    Place {
        start: b.len(),
        end: b.len(),
    }
}

fn has_zero(b: &[u8]) -> bool
    ensures { result ≡ has_zero b.now }
{
    b.contains(&0)
}

// Whether elements of `kept` bytes and one more are not too large.
fn fits(kept: usize, name: usize, value: usize) -> bool
    ensures { result ≡ nat_le (kept + name + value + 2) ELEMENTS_MAX }
{
    if kept > ELEMENTS_MAX || name > ELEMENTS_MAX || value > ELEMENTS_MAX {
        return false;
    }
    kept + name + value + 2 <= ELEMENTS_MAX
}

// The place of the element that is to be set, or the first failing check.
fn place_to_set(b: &[u8], name: &[u8], value: &[u8]) -> Result<Place, PartsFault>
    requires { have_form b.now ≡ true }
    ensures place { IfOk result (λ place. IsPlace name.now b.now place.start place.end) }
    ensures passes { OnOk result (set_fault name.now value.now (elements_of b.now) ≡ None) }
    ensures fault { IfErr result (λ fault.
        set_fault name.now value.now (elements_of b.now) ≡ Some fault) }
{
    if name.is_empty() || has_zero(name) {
        return Err(PartsFault::BadName);
    }
    if has_zero(value) {
        return Err(PartsFault::BadBytes);
    }
    let place = place_of(b, name);
    let kept = b.len() - (place.end - place.start);
    if !fits(kept, name.len(), value.len()) {
        return Err(PartsFault::TooLarge);
    }
    Ok(place)
}

// The bytes of an element between other bytes.
fn joined(
    alloc: Global,
    front: &[u8],
    name: &[u8],
    value: &[u8],
    rest: &[u8],
) -> Result<Vec<u8>, AllocError>
    ensures { IfOk result (λ bytes.
        bytes.items ≡ front.now
        ++ (element_bytes (record { name = name.now; value = value.now }) ++ rest.now)) }
{
    let mut bytes = Vec::from_slice(alloc, front)?;
    bytes.extend_from_slice(name)?;
    bytes.push(0)?;
    bytes.extend_from_slice(value)?;
    bytes.push(0)?;
    bytes.extend_from_slice(rest)?;
    Ok(bytes)
}

fn cut_out(bytes: &mut Vec<u8>, place: Place)
    requires in_order { place.start ≤ place.end }
    requires inside { place.end ≤ length bytes.old.items }
    ensures { bytes.new.items ≡ take place.start bytes.old.items ++ drop place.end bytes.old.items }
{
    drop(bytes.drain(place.start..place.end));
}

impl Elements {
    /// Sets the value of the first element of this name in its place, or adds the element at the end. On a refusal
    /// nothing changes.
    pub fn set(&mut self, name: &[u8], value: &[u8]) -> Result<(), PartsFault>
        ensures ok { OnOk result (self.new ≡ with_element name.now value.now self.old) }
        ensures err { OnErr result (self.new ≡ self.old) }
        ensures done { OnOk result (set_fault name.now value.now self.old ≡ None) }
        ensures fault { IfErr result (λ fault.
            fault ≢ PartsFault.Memory → set_fault name.now value.now self.old ≡ Some fault) }
    {
        let old = self.bytes.as_slice();
        let place = place_to_set(old, name, value)?;
        let alloc = *self.bytes.allocator();
        self.bytes = joined(alloc, &old[..place.start], name, value, &old[place.end..])?;
        Ok(())
    }

    /// Removes the first element of this name. It takes no memory.
    pub fn remove(&mut self, name: &[u8]) -> bool
        ensures removed { result ≡ is_some (element name.now self.old) }
        ensures elements { self.new ≡ without_element name.now self.old }
    {
        let place = place_of(self.bytes.as_slice(), name);
        cut_out(&mut self.bytes, place);
        place.start < place.end
    }
}
