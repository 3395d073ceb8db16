//! Where files stand.

use cache_base::Name;

/// Where a file stands in the cache's directory.
#[derive(Clone, Copy, Debug, PartialEq, Eq, PartialOrd, Ord)]
pub enum Place {
    /// The file of an entry, in the folder `entries` under the 40 upper-case digits of its name.
    Entry(Name),
    /// The file of a doomed entry that is still in use, in the folder `doomed` under a decimal number.
    Doomed(u32),
    /// The file `index`.
    Index,
    /// The journal `index.log`.
    Log,
    /// The file `index.tmp`, which becomes `index`.
    Tmp,
    /// The file `clear`, which stands while the entries of an origin are cleared.
    Clear,
}

/// A change of the names since the last sync. Files go by their numbers.
#[derive(Clone, Copy, Debug, PartialEq, Eq)]
pub enum NameStep {
    /// A new file takes the place.
    Create(Place, usize),
    /// The file of the first place takes the second.
    Rename(Place, Place),
    /// No file stands at the place any more.
    Remove(Place),
}
