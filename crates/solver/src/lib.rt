// The least estimate of an accepted table, and its leak.
#![tactic(auto)]

pub mod analyse;
mod solve;
