// The number and the place of a refusal. A refusal has two numbers and not one, so no `From` stands for either.
ghost use Rattle.std.specs.Prelude.{◌≡◌};
ghost use Rattle.listing.specs.Answer.{number, place};

use crate::Refusal;

#[tactic(auto, unfolding(crate::specs::Answer::number))]
pub fn refusal_number(r: Refusal) -> u32
    ensures { result ≡ number r }
{
    match r {
        Refusal::Table(t) => table::numbers::refusal_number(t),
        Refusal::Line(_) => 40,
        Refusal::TooLong => 41,
        Refusal::NoRoom => 42,
    }
}

#[tactic(auto, unfolding(crate::specs::Answer::place))]
pub fn refusal_place(r: Refusal) -> usize
    ensures { result ≡ place r }
{
    match r {
        Refusal::Table(t) => table::numbers::refusal_place(t),
        Refusal::Line(n) => n,
        Refusal::TooLong | Refusal::NoRoom => 0,
    }
}
