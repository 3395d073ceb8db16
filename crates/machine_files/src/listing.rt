//! The names in a folder.

ghost use Rattle.std.specs.Prelude.{◌≡◌, IfOk, OnOk};
ghost use Rattle.std.specs.Fs.{IsDir, IsFile};
ghost use Rattle.std.specs.List.{All};
ghost use Rattle.std.specs.List.Sorted.{IsStrictlySortedBy};
ghost use Rattle.machine_files.specs.Listed.{GainsAtMost, IsReadFrom};

use cache_base::{Items, NoMemory};
use std::alloc::Global;
use std::collections::BTreeSet;
use std::fs::{self, FileType};
use std::io::{self, ErrorKind};
use std::rt::Files;

/// What stands in a folder, as its names read.
#[derive(Drop)]
pub struct Found<T: Ord + Drop> {
    /// The regular files.
    pub files: BTreeSet<T, Global>,
    /// The folders.
    pub folders: BTreeSet<T, Global>,
}

impl<T: Ord + Drop> Found<T> {
    // Adds what stands there, where it is a file or a folder.
    fn add(&mut self, item: T, kind: FileType) -> io::Result<()>
        ensures files { OnOk result (GainsAtMost T.cmp item self.old.files self.new.files) }
        ensures folders { OnOk result (GainsAtMost T.cmp item self.old.folders self.new.folders) }
        ensures file { OnOk result (IsFile kind → self.new.folders ≡ self.old.folders) }
        ensures folder { OnOk result (IsDir kind → self.new.files ≡ self.old.files) }
    {
        if kind.is_file() {
            self.files.insert(item)?;
        } else if kind.is_dir() {
            self.folders.insert(item)?;
        }
        Ok(())
    }
}

/// What stands in the folder. Names that read as nothing, or are no UTF-8, are foreign and left alone, as is what is
/// neither a file nor a folder: a socket, a link. A missing folder has no names.
pub fn read_names<R: Files + AllocGlobal + Clone + Drop, T: Ord + Drop, P: Fn(&str) -> Option<T>>(
    rt: &R,
    folder: &str,
    read: P,
) -> io::Result<Found<T>>
    requires { P.IsAlwaysCallable read }
    ensures files { IfOk result (λ found. All (IsReadFrom P.Fn read) found.files.keys) }
    ensures folders { IfOk result (λ found. All (IsReadFrom P.Fn read) found.folders.keys) }
{
    let mut found = Found {
        files: BTreeSet::new(rt.alloc()),
        folders: BTreeSet::new(rt.alloc()),
    };
    let names = match fs::read_dir(rt, folder) {
        Ok(names) => names,
        Err(error) if error.kind() == ErrorKind::NotFound => return Ok(found),
        Err(error) => return Err(error),
    };
    'names: for name in names {
        match name {
            Ok(name) => {
                if let Some(item) = read(name.file_name()) {
                    found.add(item, name.file_type()?)?;
                }
            }
            Err(error) if error.kind() == ErrorKind::InvalidFilename => {}
            Err(error) => return Err(error),
        }
    }
    Ok(found)
}

/// The items of the set, in order.
pub fn rising<T: Ord + Drop>(
    alloc: Global,
    mut items: BTreeSet<T, Global>,
) -> Result<Items<T>, NoMemory>
    ensures sorted { IfOk result (λ list. IsStrictlySortedBy T.cmp list) }
    ensures same { IfOk result (λ list. list ≡ items.keys) }
{
    let mut list = Items::with_room(alloc, items.len())?;
    while let Some(item) = items.pop_first() {
        list.push(item)?;
    }
    Ok(list)
}
