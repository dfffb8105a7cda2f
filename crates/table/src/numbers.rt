// Document 01's number of a refusal, and its place. A refusal has two numbers and not one, so no `From` stands for either.
ghost use Rattle.std.specs.Prelude.{◌≡◌};
ghost use Rattle.table.specs.Answer.{number, place};

use crate::Refusal;

#[tactic(auto, unfolding(crate::specs::Answer::number))]
pub fn refusal_number(r: Refusal) -> u32
    ensures { result ≡ number r }
{
    match r {
        Refusal::NotTable => 1,
        Refusal::TooManyWords => 2,
        Refusal::TooManyHandlers => 3,
        Refusal::NotBlock(_) => 4,
        Refusal::NameRange(_) => 5,
        Refusal::KeyUsed(_) => 6,
        Refusal::NotTerm(_) => 7,
        Refusal::NoTerm(_) => 8,
        Refusal::ArgumentRange(_) => 9,
        Refusal::NoBinder(_) => 10,
        Refusal::TooDeep(_) => 11,
        Refusal::Trailing(_) => 12,
    }
}

#[tactic(auto, unfolding(crate::specs::Answer::place))]
pub fn refusal_place(r: Refusal) -> usize
    ensures { result ≡ place r }
{
    match r {
        Refusal::NotTable | Refusal::TooManyWords | Refusal::TooManyHandlers => 0,
        Refusal::NotBlock(p)
        | Refusal::NameRange(p)
        | Refusal::KeyUsed(p)
        | Refusal::NotTerm(p)
        | Refusal::NoTerm(p)
        | Refusal::ArgumentRange(p)
        | Refusal::NoBinder(p)
        | Refusal::TooDeep(p)
        | Refusal::Trailing(p) => p,
    }
}
