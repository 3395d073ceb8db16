//! Tests of the disk over a folder of the machine.
#![tactic(auto)]

#[cfg(test)]
mod folders;
