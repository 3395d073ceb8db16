//! Tests of the disk whose changes stay in memory.
#![tactic(auto)]

#[cfg(test)]
mod tests;
