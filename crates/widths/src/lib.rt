// Narrow tables made wide and wide tables made narrow.
#![tactic(auto)]

pub mod convert;
mod fit;
pub mod numbers;

use table::Refusal;

// Why a converter refuses: the table, or a word 0 of the other kind; more handlers than a narrow table has, a name that it does not
// have; or an output that is too short. `fault_number` and `fault_place` of specs/Answers.antt give each its number and place.
#[derive(Clone, Copy, PartialEq, Eq)]
pub enum Fault {
    Table(Refusal),
    TooManyHandlers,
    WideName(usize),
    ShortOutput,
}
