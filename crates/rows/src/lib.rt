// The rows of an estimate: what a rule does to them, a row at a time.
#![tactic(auto)]

pub mod layout;
pub mod row;
