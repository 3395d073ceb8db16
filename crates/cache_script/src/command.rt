//! The commands of a script.

use cache_base::Moment;
use entry_parts::{Elements, Header};

/// A command, with its texts as they stand in the script. A slot is a number below 64.
#[derive(Clone, Copy, Debug, PartialEq, Eq)]
pub enum Command<'a> {
    /// The moment from now on.
    At {
        now: Moment,
    },
    /// A new entry of the key, with the slot as its writer.
    Create {
        slot: u8,
        key: &'a [u8],
    },
    /// The entry of the key, with the slot as a reader.
    OpenKey {
        slot: u8,
        key: &'a [u8],
    },
    /// These bytes are added to the body, at most `PIECE_MAX`.
    Append {
        slot: u8,
        bytes: &'a [u8],
    },
    /// The entry is finished.
    Finish {
        slot: u8,
    },
    /// The entry is finished with this header and these elements in place of its own; the header's version and key size
    /// are set. A load of a dump does so, and no script spells it.
    FinishAs {
        slot: u8,
        header: Header,
        elements: &'a Elements,
    },
    /// The element of the name gets the value, at most `ELEMENTS_MAX` bytes.
    SetElement {
        slot: u8,
        name: &'a [u8],
        value: &'a [u8],
    },
    /// The element of the name is removed.
    UnsetElement {
        slot: u8,
        name: &'a [u8],
    },
    /// The value of the element of the name.
    Element {
        slot: u8,
        name: &'a [u8],
    },
    /// The alternative data of the entry are of this kind and these bytes, at most `ALT_MAX`.
    PutAlt {
        slot: u8,
        kind: &'a [u8],
        alt: &'a [u8],
    },
    /// One more fetch of the entry is counted, and its frecency rises.
    UseEntry {
        slot: u8,
    },
    /// The entry is pinned, so that neither `evict` nor `clear` removes it.
    Pin {
        slot: u8,
    },
    /// The entry is no longer pinned.
    Unpin {
        slot: u8,
    },
    /// The bytes of the body from a place on, at most `len`.
    ReadPart {
        slot: u8,
        from: u32,
        len: u32,
    },
    /// The slot is given up.
    Close {
        slot: u8,
    },
    /// The entry of the key is doomed.
    Doom {
        key: &'a [u8],
    },
    /// The whole entry of the key.
    Get {
        key: &'a [u8],
    },
    /// The alternative data of the entry of the key, with their kind.
    GetAlt {
        key: &'a [u8],
    },
    /// The body of the entry of the key, without its alternative data.
    MainBody {
        key: &'a [u8],
    },
    /// Whether there is an entry of the key.
    Has {
        key: &'a [u8],
    },
    /// The records of all entries.
    List,
    /// The least valuable entries are removed, none of them in use or pinned, until all take at most
    /// so many KB.
    Evict {
        kb: u32,
    },
    /// The entries of the origin that are not pinned are removed, those in use too.
    Clear {
        origin: &'a [u8],
    },
    /// The clearing is done that was stopped, if the mark of one stands. Each run begins with it, and no script
    /// spells it.
    Resume,
    /// All that was done is brought to the disk.
    Flush,
    /// The update of the index reads so many names more.
    Step {
        n: u32,
    },
    /// How far the update of the index is.
    State,
    /// What is wrong with files and records.
    Verify,
    /// The index is written anew from all files.
    Rebuild,
    /// All entries as one stream. The verb `dump` does so, and no script spells it.
    Dump,
}
