//! Tests of dumps, with streams from another program.
#![tactic(auto)]

#[cfg(test)]
mod bodies;
#[cfg(test)]
mod dumps;
#[cfg(test)]
mod reading;
#[cfg(test)]
mod writing;
