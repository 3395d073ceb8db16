//! The folders of the cache, and paths of places.

ghost use Rattle.std.specs.Prelude.{◌≡◌, IfOk, string_bytes, codes, decimal};
ghost use Rattle.hex.specs.Hex.{IsBytes, encode_upper};
ghost use Rattle.folder_paths.specs.Areas.{area_in};
ghost use Rattle.folder_paths.specs.Paths.{IsIn, IsPathOf, IsPathOfArea, IsTop, base_text, below};

use crate::numbers::Folders;
use cache_base::Name;
use disk_theory::Place;
use entry_name::text_of;
use std::alloc::AllocError;
use std::io::{self, ErrorKind};

/// The name of the folder of entries.
pub const ENTRIES: &str = "entries";

/// The name of the folder of doomed entries.
pub const DOOMED: &str = "doomed";

/// The name of the index.
pub const INDEX: &str = "index";

/// The name of its journal.
pub const LOG: &str = "index.log";

/// The name of an index that is not whole yet, and of a journal that was set aside.
pub const TMP: &str = "index.tmp";

/// The name of the mark of a clearing.
pub const CLEAR: &str = "clear";

/// A folder that places lie in. The folders are synced in this order, the one above last: a mark that guards changes
/// in the others stands or goes with them.
#[derive(Clone, Copy, Debug, PartialEq, Eq, PartialOrd, Ord)]
pub enum Area {
    /// The folder of entries.
    Entries,
    /// The folder of doomed entries.
    Doomed,
    /// The folder of the cache, with the files of the index and the mark of a clearing.
    Top,
}

/// The folder that a place lies in.
pub fn area_of(place: &Place) -> Area
    ensures { result ≡ area_in place.now }
{
    match place {
        Place::Entry(_) => Area::Entries,
        Place::Doomed(_) => Area::Doomed,
        Place::Index => Area::Top,
        Place::Log => Area::Top,
        Place::Tmp => Area::Top,
        Place::Clear => Area::Top,
    }
}

/// The path of a folder.
pub fn path_of_area<R: AllocGlobal>(rt: &R, dir: &str, area: &Area) -> Result<String, AllocError>
    ensures { IfOk result (λ path. IsPathOfArea dir.now area.now (string_bytes path)) }
{
    match area {
        Area::Top => String::from_str(rt.alloc(), top_of(dir)),
        Area::Entries => path_in(rt, dir, ENTRIES),
        Area::Doomed => path_in(rt, dir, DOOMED),
    }
}

/// The path of a place. The files of doomed entries pass over the numbers of folders, and one whose number would then be
/// past the last has no path.
pub fn path_of<R: AllocGlobal>(
    rt: &R,
    dir: &str,
    numbers: &Folders,
    place: &Place,
) -> io::Result<String>
    ensures { IfOk result (λ path. IsPathOf dir.now numbers.now place.now (string_bytes path)) }
{
    match place {
        Place::Entry(name) => Ok(path_of_entry(rt, dir, name)?),
        Place::Doomed(number) => match numbers.named(*number) {
            Some(named) => Ok(path_of_doomed(rt, dir, named)?),
            None => Err(ErrorKind::Other.into()),
        },
        Place::Index => Ok(path_in(rt, dir, INDEX)?),
        Place::Log => Ok(path_in(rt, dir, LOG)?),
        Place::Tmp => Ok(path_in(rt, dir, TMP)?),
        Place::Clear => Ok(path_in(rt, dir, CLEAR)?),
    }
}

fn path_of_entry<R: AllocGlobal>(rt: &R, dir: &str, name: &Name) -> Result<String, AllocError>
    ensures bytes { IfOk result (λ path. IsBytes name.now.0) }
    ensures path { IfOk result (λ path.
        IsIn dir.now (below (codes "entries") (encode_upper name.now.0)) (string_bytes path)) }
{
    let digits = text_of(rt.alloc(), name).map_err(|_| AllocError)?;
    path_below(rt, dir, ENTRIES, digits.as_str())
}

// The path of the doomed file with this number in its name.
fn path_of_doomed<R: AllocGlobal>(rt: &R, dir: &str, named: u32) -> Result<String, AllocError>
    ensures { IfOk result (λ path. IsIn dir.now (below (codes "doomed") (decimal named)) (string_bytes path)) }
{
    let digits = format!(in rt.alloc(); "{named}")?;
    path_below(rt, dir, DOOMED, digits.as_str())
}

// The path of a name in a folder of the cache. Its memory is asked for once, since each call on an entry makes one.
fn path_below<R: AllocGlobal>(
    rt: &R,
    dir: &str,
    folder: &str,
    name: &str,
) -> Result<String, AllocError>
    ensures { IfOk result (λ path. IsIn dir.now (below folder.now name.now) (string_bytes path)) }
{
    let base = base_of(dir);
    let len = base
        .len()
        .saturating_add(folder.len())
        .saturating_add(name.len())
        .saturating_add(2);
    let mut path = String::with_capacity(rt.alloc(), len)?;
    path.push_str(base)?;
    path.push_str("/")?;
    path.push_str(folder)?;
    path.push_str("/")?;
    path.push_str(name)?;
    Ok(path)
}

/// The path of a name in the folder of the cache.
pub fn path_in<R: AllocGlobal>(rt: &R, dir: &str, name: &str) -> Result<String, AllocError>
    ensures { IfOk result (λ path. IsIn dir.now name.now (string_bytes path)) }
{
    let base = base_of(dir);
    let len = base.len().saturating_add(name.len()).saturating_add(1);
    let mut path = String::with_capacity(rt.alloc(), len)?;
    path.push_str(base)?;
    path.push_str("/")?;
    path.push_str(name)?;
    Ok(path)
}

// How paths in the folder begin: it has no slash at its end. An empty one is the current folder, and not the root.
fn base_of(dir: &str) -> &str
    ensures { result.now ≡ base_text dir.now }
{
    if dir.is_empty() {
        "."
    } else {
        dir.trim_end_matches("/")
    }
}

fn top_of(dir: &str) -> &str
    ensures { IsTop dir.now result.now }
{
    let top = base_of(dir);
    if top.is_empty() { "/" } else { top }
}
