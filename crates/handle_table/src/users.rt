//! How many slots use the entry of a name, and the names of the entries in use.

ghost use Rattle.std.specs.Prelude.{◌≡◌, IfOk, false, filter, length, true};
ghost use Rattle.std.specs.List.{list_any};
ghost use Rattle.cache_base.specs.Names.{AreSorted, has_name};
ghost use Rattle.cache_base.specs.declared.name.Name.{Name as AName};
ghost use Rattle.cache_theory.specs.Covers.{covers};
ghost use Rattle.entry_key.specs.Tags.{origin_hash as origin_hash_of, tags_of};
ghost use Rattle.entry_key.specs.Walk.{read_key, reads};
ghost use Rattle.handle_table.specs.Held.{header_in, key_in};
ghost use Rattle.handle_table.specs.Seats.{is_use_of};
ghost use Rattle.handle_table.specs.Users.{counts, is_counted};
ghost use Rattle.index_record.specs.Record.{has_bit};

use crate::HandleTable;
use crate::object::{Entry, Object, Use};
use crate::seats::uses;
use cache_base::{Name, Names, NoMemory, listed, name_set};
use entry_key::{origin_hash, parse};
use entry_parts::Header;
use std::alloc::Global;

/// Which undoomed entries in use are asked for.
#[derive(Clone, Copy)]
enum Asked {
    All,
    /// Those that are still being written.
    Drafts,
    /// Those of the origin with this hash that are not pinned.
    Of { origin: u64 },
}

// The number of slots that use a place.
fn count_uses(slots: &[Option<Use>], place: usize) -> usize
    ensures { result ≡ length (filter (is_use_of place) slots.now) }
{
    slots.iter().filter(|used| uses(used, place)).count()
}

// The hash of a key's origin.
fn origin_of(key: &[u8]) -> u64
    requires { reads (read_key key.now) ≡ true }
    ensures { result ≡ origin_hash_of (tags_of key.now) }
{
    match parse(key) {
        Ok(tags) => origin_hash(&tags),
        Err(_) => unreachable!(),
    }
}

// Whether the header of an entry says that it is pinned.
fn is_pinned(header: Header) -> bool
    ensures { result ≡ has_bit 0 header.flags }
{
    header.flags % 2 == 1
}

// Whether an entry with this key and header is of the origin with this hash, and not pinned.
fn is_covered(key: &[u8], header: Header, origin: u64) -> bool
    requires { reads (read_key key.now) ≡ true }
    ensures { result ≡ covers origin key.now header }
{
    origin_of(key) == origin && !is_pinned(header)
}

// The same of an entry in use.
fn is_covered_entry(entry: &Entry, origin: u64) -> bool
    ensures { result ≡ covers origin (key_in entry.now) (header_in entry.now) }
{
    match entry {
        Entry::Draft(draft) => is_covered(draft.key.as_slice(), draft.header, origin),
        Entry::Finished(meta) => is_covered(meta.key.as_slice(), meta.header, origin),
    }
}

// Whether an object is undoomed and asked for.
fn is_asked(asked: Asked, object: &Object) -> bool
    ensures { result ≡ counts asked object.now }
{
    match asked {
        Asked::All => !object.doomed,
        Asked::Drafts => matches!(object.entry, Entry::Draft(_)) && !object.doomed,
        Asked::Of { origin } => is_covered_entry(&object.entry, origin) && !object.doomed,
    }
}

// The names of the undoomed objects that are asked for.
fn asked_names(alloc: Global, objects: &[Option<Object>], asked: Asked) -> Result<Names, NoMemory>
    ensures { IfOk result (λ names. (q : AName) →
        has_name names q ≡ list_any (is_counted asked q) objects.now) }
{
    let mut names = Names::new(alloc);
    for object in objects {
        match object {
            Some(object) => {
                if is_asked(asked, object) {
                    names.push(object.name)?;
                }
            }
            None => {}
        }
    }
    Ok(names)
}

// The same in name order, each once.
fn asked_in_order(
    alloc: Global,
    objects: &[Option<Object>],
    asked: Asked,
) -> Result<Names, NoMemory>
    ensures names { IfOk result (λ names. (q : AName) →
        has_name names q ≡ list_any (is_counted asked q) objects.now) }
    ensures sorted { IfOk result AreSorted }
{
    let names = asked_names(alloc, objects, asked)?;
    listed(alloc, name_set(alloc, names.as_slice())?)
}

impl HandleTable {
    ghost use Rattle.handle_table.specs.Kept.{kept_in};
    ghost use Rattle.handle_table.specs.Users.{AreCoveredNames, AreOpenNames, AreWritingNames, users_of};

    /// The number of slots that use the undoomed entry of a name. It takes no memory.
    pub fn users(&self, name: &Name) -> usize
        ensures { result ≡ users_of (kept_in self.now) name.now }
    {
        match self.user(name) {
            Some(place) => count_uses(&self.rows.slots, place),
            None => 0,
        }
    }

    /// The names of undoomed entries in use, in name order.
    pub fn open_names(&self, alloc: Global) -> Result<Names, NoMemory>
        ensures names { IfOk result (AreOpenNames (kept_in self.now)) }
        ensures unused { IfOk result (λ names. (name : AName) →
            has_name names name ≡ false → users_of (kept_in self.now) name ≡ 0) }
    {
        asked_in_order(alloc, &self.rows.objects, Asked::All)
    }

    /// The names of undoomed entries that are still being written, in name order.
    pub fn writing_names(&self, alloc: Global) -> Result<Names, NoMemory>
        ensures { IfOk result (AreWritingNames (kept_in self.now)) }
    {
        asked_in_order(alloc, &self.rows.objects, Asked::Drafts)
    }

    /// The names of undoomed entries in use that are of the origin with this hash and not pinned, in name order.
    pub fn open_of(&self, alloc: Global, origin: u64) -> Result<Names, NoMemory>
        ensures names { IfOk result (AreCoveredNames (kept_in self.now) origin) }
        ensures sorted { IfOk result AreSorted }
    {
        asked_in_order(alloc, &self.rows.objects, Asked::Of { origin })
    }
}
