//! What waits for a sync: the places whose files have changed since the last one, and the folders in which names have.
//! And what is kept open: the files that wait, the one that was used last, and the folders that were synced before.
//!
//! No note is lost before a sync that succeeds. The file that is handed out for a place was kept of it, and one that
//! waits for a sync is closed only once it was synced.
#![tactic(auto)]

mod file_notes;
mod kept;
mod notes;
mod open_folders;

pub use file_notes::{move_note, note_if, take_back};
pub use kept::{Kept, Opened};
pub use notes::{FolderNotes, sync_folder};
pub use open_folders::OpenFolders;
