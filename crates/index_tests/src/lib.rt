//! Tests of records, of the index's files, of what reads and writes them, of the check of all entries, and of what a
//! clearing needs.
#![tactic(auto)]

#[cfg(test)]
mod checks;
#[cfg(test)]
mod clearing;
#[cfg(test)]
mod evictions;
#[cfg(test)]
mod examples;
#[cfg(test)]
mod files;
#[cfg(test)]
mod journals;
#[cfg(test)]
mod lists;
#[cfg(test)]
mod maps;
#[cfg(test)]
mod records;
#[cfg(test)]
mod starts;
#[cfg(test)]
mod updates;
