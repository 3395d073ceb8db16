//! An entry that is in use, and a slot's use of it.

ghost use Rattle.std.specs.Prelude.{◌≡◌, ◌<◌, ◌≤◌, length, true};
ghost use Rattle.cache_base.specs.declared.limits.TheConstants.{ELEMENTS_MAX, KEY_MAX, SLOTS};
ghost use Rattle.entry_key.specs.Walk.{read_key, reads};
ghost use Rattle.entry_parts.specs.Elements.{elements_bytes};
ghost use Rattle.entry_parts.specs.declared.header.TheConstants.{VERSION};

use cache_base::{Bytes, Name};
use disk_theory::Place;
use entry_file::NewEntry;
use entry_metadata::Meta;
use entry_parts::{Elements, Header};

/// An entry that is being written.
#[derive(Drop)]
pub struct Draft {
    pub body: NewEntry,
    pub header: Header,
    pub key: Bytes,
    pub elements: Elements,
    pub ghost version: { header.version ≡ VERSION },
    pub ghost key_size: { header.key_size ≡ length key },
    pub ghost grammar: { reads (read_key key) ≡ true },
    pub ghost short_key: { length key ≤ KEY_MAX },
    pub ghost short_elements: { length (elements_bytes elements) ≤ ELEMENTS_MAX },
}

/// A header and elements with which an entry is finished in place of its own.
#[derive(Drop)]
pub struct Parts {
    pub header: Header,
    pub elements: Elements,
}

/// What is held of an entry: all but the chunks of its body that are on the disk.
#[derive(Drop)]
pub enum Entry {
    Draft(Draft),
    Finished(Meta),
}

/// What is held of an object beside its entry.
#[derive(Clone, Copy)]
pub struct Label {
    pub number: u64,
    pub name: Name,
    pub doomed: bool,
    pub aside: Option<u32>,
}

/// An entry that is in use.
#[derive(Drop)]
pub struct Object {
    /// How many objects were made before it.
    pub number: u64,
    pub name: Name,
    /// Whether it has lost its name.
    pub doomed: bool,
    /// The number of its file, if that stands aside, among the doomed: where it is doomed, or not finished.
    pub aside: Option<u32>,
    pub entry: Entry,
}

/// The use that a slot makes of an object: its place, and whether the slot writes it.
#[derive(Clone, Copy)]
pub struct Use {
    pub place: usize,
    pub writes: bool,
    pub ghost ranged: { place < SLOTS },
}

impl Label {
    ghost use Rattle.handle_table.specs.Held.{place_of};

    /// Where the file stands.
    pub fn file_place(self) -> Place
        ensures { result ≡ place_of self.name self.aside }
    {
        match self.aside {
            Some(number) => Place::Doomed(number),
            None => Place::Entry(self.name),
        }
    }
}

impl Object {
    ghost use Rattle.handle_table.specs.Held.{body_len_in, elements_in, key_in, object_place, rest_in};

    /// Where its file stands.
    pub fn file_place(&self) -> Place
        ensures { result ≡ object_place self.now }
    {
        let label = Label {
            number: self.number,
            name: self.name,
            doomed: self.doomed,
            aside: self.aside,
        };
        label.file_place()
    }

    /// Its key.
    pub fn key(&self) -> &[u8]
        ensures { result.now ≡ key_in self.now.entry }
    {
        match &self.entry {
            Entry::Draft(draft) => draft.key.as_slice(),
            Entry::Finished(meta) => meta.key.as_slice(),
        }
    }

    /// Its elements.
    pub fn elements(&self) -> &Elements
        ensures { result.now ≡ elements_in self.now.entry }
    {
        match &self.entry {
            Entry::Draft(draft) => &draft.elements,
            Entry::Finished(meta) => &meta.elements,
        }
    }

    /// The number of bytes of its body.
    pub fn body_len(&self) -> u32
        ensures { result ≡ body_len_in self.now.entry }
    {
        match &self.entry {
            Entry::Draft(draft) => draft.body.len(),
            Entry::Finished(meta) => meta.offset,
        }
    }

    /// The bytes of its body that are not on the disk yet.
    pub fn rest(&self) -> &[u8]
        ensures { result.now ≡ rest_in self.now.entry }
    {
        match &self.entry {
            Entry::Draft(draft) => draft.body.rest(),
            Entry::Finished(_) => &[],
        }
    }
}
