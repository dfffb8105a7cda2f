// The number of a refusal; its place is 0. A function, as for the refusals that have a place.
ghost use Rattle.std.specs.Prelude.{◌≡◌};
ghost use Rattle.manifest.specs.Answer.{number};

use crate::Refusal;

pub fn refusal_number(r: Refusal) -> u32
    ensures { result ≡ number r }
{
    match r {
        Refusal::NotObject => 43,
        Refusal::KeyRepeated => 44,
        Refusal::NoVersion => 45,
        Refusal::NotStrings => 46,
    }
}
