//! Tests of what stops, faults and clearings leave, on disks in memory.
#![tactic(auto)]

#[cfg(test)]
mod tests;
