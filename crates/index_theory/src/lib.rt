//! When the index on the disk is trusted: the record of an entry file, the scan of all entry files, how an opening
//! starts, and which directories are honest, that is, have an index that says what a scan would wherever it is
//! trusted. The laws say what each change of the disk keeps of that, whatever a crash leaves. No function here does
//! anything: their contracts are the laws, for the crates above to cite.
#![tactic(auto)]

mod kinds;
mod laws;

pub use kinds::{IndexKind, LogKind, Start};
pub use laws::{
    changes_at_clear, changes_keep_apart, changes_keep_unclean, changes_leave_beside,
    changes_leave_entries, changes_leave_index, closing_leaves_honest, opening_leaves_honest,
    ready_is_scan, scan_is_one, spelled_has_kind, unclean_leaves_honest, whole_keeps_unclean,
};
