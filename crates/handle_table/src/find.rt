//! Finds the object in use of a name, or of a key.

ghost use Rattle.std.specs.Prelude.{◌≡◌, ◌<◌, IfSome, IsSome};
ghost use Rattle.cache_base.specs.declared.limits.TheConstants.{SLOTS};
ghost use Rattle.handle_table.specs.Finding.{is_user};

use crate::HandleTable;
use crate::object::{Entry, Object};
use cache_base::Name;

// Whether it is an undoomed object of the name.
fn is_user_of(object: &Option<Object>, name: &Name) -> bool
    ensures { result ≡ is_user name.now object.now }
{
    match object {
        Some(object) => !object.doomed && object.name == *name,
        None => false,
    }
}

impl HandleTable {
    ghost use Rattle.handle_table.specs.Finding.{is_writing as is_writing_in, used_place, user_place};
    ghost use Rattle.handle_table.specs.Kept.{kept_in, object_at as object_kept_at};

    /// The place of the undoomed object in use of a name.
    pub fn user(&self, name: &Name) -> Option<usize>
        ensures found { result ≡ user_place (kept_in self.now) name.now }
        ensures ranged { IfSome result (λ place. place < SLOTS) }
        ensures there { IfSome result (λ place. IsSome (object_kept_at (kept_in self.now) place)) }
    {
        self.has_rows();
        self.rows
            .objects
            .iter()
            .position(|object| is_user_of(object, name))
    }

    /// The place of the undoomed object in use that has this key, whose name is given.
    pub fn used_by(&self, name: &Name, key: &[u8]) -> Option<usize>
        ensures found { result ≡ used_place (kept_in self.now) name.now key.now }
        ensures ranged { IfSome result (λ place. place < SLOTS) }
        ensures there { IfSome result (λ place. IsSome (object_kept_at (kept_in self.now) place)) }
    {
        let place = self.user(name)?;
        if self.object_at(place).key() == key {
            Some(place)
        } else {
            None
        }
    }

    /// Whether the undoomed object in use that has this key is being written.
    pub fn is_writing(&self, name: &Name, key: &[u8]) -> bool
        ensures { result ≡ is_writing_in (kept_in self.now) name.now key.now }
    {
        let Some(place) = self.used_by(name, key) else {
            return false;
        };
        matches!(self.object_at(place).entry, Entry::Draft(_))
    }
}
