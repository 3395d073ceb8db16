//! Tests of the crates without files, of the streams, and of the disks in memory.
#![tactic(auto)]

#[cfg(test)]
mod disks;
#[cfg(test)]
mod frecencies;
#[cfg(test)]
mod hashes;
#[cfg(test)]
mod held_chunks;
#[cfg(test)]
mod lists;
#[cfg(test)]
mod streams;
