//! Tests of the program's verbs and scripts on disks in memory.
#![tactic(auto)]

#[cfg(test)]
mod tests;
