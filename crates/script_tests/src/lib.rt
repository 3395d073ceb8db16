//! Tests of the script language.
#![tactic(auto)]

#[cfg(test)]
mod reading;
