//! Tests of open entries and of the store over them, in a folder of the machine.
#![tactic(auto)]

#[cfg(test)]
mod doomed;
#[cfg(test)]
mod handles;
#[cfg(test)]
mod store;
