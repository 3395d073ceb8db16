//! Tests of entry files and their parts, with values from another program.
#![tactic(auto)]

#[cfg(test)]
mod alt;
#[cfg(test)]
mod chunks;
#[cfg(test)]
mod files;
#[cfg(test)]
mod keys;
#[cfg(test)]
mod metadata;
#[cfg(test)]
mod names;
#[cfg(test)]
mod parts;
