// A table laid over another: the look-up of a block in the two, and the joined table.
#![tactic(auto)]

pub mod join;
pub mod lookup;
pub mod numbers;
mod search;

ghost use Rattle.std.specs.Prelude.{◌≡◌};
ghost use Rattle.overlay.specs.Lookup.{tables_read};
ghost use Rattle.overlay.specs.Answers.{checked_as};

use table::Refusal;
use table::read::read_narrow;

// Why a look-up or a join is refused: one of the tables, no block with the key, or a join that is too large for a table or for
// the output. `fault_number` and `fault_place` of specs/Answers.antt give each its number and place.
#[derive(Clone, Copy, PartialEq, Eq)]
pub enum Fault {
    Base(Refusal),
    Overlay(Refusal),
    NoBlock,
    TooManyHandlers,
    TooManyWords,
    ShortOutput,
}

// Where a block is: in which table, from which word up to which. `found_as` of specs/Answers.antt says what each case means.
#[derive(Clone, Copy, PartialEq, Eq)]
pub enum Found {
    Base(usize, usize),
    Overlay(usize, usize),
}

// Whether both tables are accepted.
fn check(base: &[u32], overlay: &[u32]) -> Result<(), Fault>
    ensures { checked_as result ≡ tables_read base.now overlay.now }
{
    read_narrow(base).map_err(Fault::Base)?;
    read_narrow(overlay).map_err(Fault::Overlay)
}
