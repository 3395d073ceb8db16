//! What the cache is to do, as definitions and laws: a machine of whole entries, of the objects that are in use and
//! of the slots that use them, with one step for each command. No body here does anything; the crates above are to be
//! proved to do this.
#![tactic(auto)]

mod laws;
mod refusal;

pub use laws::{
    alt_goes_by_get, changes_are_touched, changes_file_once, changes_keep_safe, changes_leave_rest,
    changes_leave_unpublished, clear_goes_by_scan, cleared_stay_gone, entries_are_refiled,
    entries_have_records, evict_is_of_names, evict_takes_off, faults_are_left_out, faults_are_told,
    items_are_stocked, marks_are_worded, opens_proper, replies_are_not_empty, replies_go_by_scan,
    safe_is_crash_safe, shelf_stays_table, stays_proper,
};
pub use refusal::Refusal;
