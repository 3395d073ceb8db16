//! Opens, writes and closes the files of the cache's index: `index`, its journal `index.log`, and `index.tmp`, under
//! which a whole index is written and the journal is set aside. The order of the changes and of the syncs between them
//! is what a crash relies on: each call names all states that it may leave.
#![tactic(auto)]

mod index_close;
mod index_open;
mod index_refresh;
mod index_write;
mod large_file;
mod laws;
mod records;
mod start_table;
mod whole_file;

pub use index_close::close_index;
pub use index_open::{Opened, open_index};
pub use index_refresh::refresh_index;
pub use index_write::write_index;
pub use laws::{changes_keep_index, opening_ends_trust, records_at_start, spared_entries_stand};
pub use start_table::{IndexKind, LogKind, Start, decide};
