// The listing of a system: a text with one word to a line. `write::write` makes it from the words, `read::read` the words from it.
#![tactic(auto)]

mod depth;
mod guess;
mod keywords;
pub mod numbers;
pub mod read;
mod spell;
pub mod write;

ghost use Rattle.std.specs.Prelude.{◌≡◌};
ghost use Rattle.listing.specs.declared.Refusal.TheVariants.{Table};

// Why a call is refused: by the numbers of the table, at a line, or for its sizes. `number` and `place` of specs/Answer.antt give each its
// number and place.
#[derive(Clone, Copy, PartialEq, Eq)]
pub enum Refusal {
    Table(table::Refusal),
    Line(usize),
    TooLong,
    NoRoom,
}

impl From<table::Refusal> for Refusal {
    ghost from_gives = { λ refusal result. result ≡ Table refusal };

    fn from(refusal: table::Refusal) -> Refusal {
        Refusal::Table(refusal)
    }
}
