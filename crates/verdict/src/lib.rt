// The verdict on a system: its leak, compared with a bound.
#![tactic(auto)]

pub mod judge;
pub mod limit;
