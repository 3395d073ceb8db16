//! Checks all entries: every file is read, with its whole body, and held against the record of its name. What is
//! listed is exactly what is wrong, in name order, and nothing of the entries that are being written.
#![tactic(auto)]

mod body;
mod checking;
mod entry;
mod finding;
mod finding_list;
mod laws;
mod rows;

pub use checking::findings;
pub use finding::{Finding, What};
pub use finding_list::FindingList;
pub use laws::{files_have_table, findings_agree, findings_are_exact, only_one_table};
