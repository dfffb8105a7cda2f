// What may be wrong with a call, and document 01's number and place for it.
#![tactic(auto)]

ghost use Rattle.std.specs.Prelude.{◌≡◌};
ghost use Rattle.calls.specs.declared.Fault.TheVariants.{Table};
ghost use Rattle.calls.specs.declared.LimitFault.TheVariants.{Call};

pub mod checks;
pub mod numbers;

use table::Refusal;

// Why a call is refused: the table, ρ, the bound that a leak is compared with, or a lent slice that is too short.
#[derive(Clone, Copy)]
pub enum Fault {
    Table(Refusal),
    Rho,
    Bound,
    ShortEstimate,
    ShortWork,
}

impl From<Refusal> for Fault {
    ghost from_gives = { λ r f. f ≡ Table r };

    fn from(r: Refusal) -> Fault {
        Fault::Table(r)
    }
}

// Why a call under a ceiling on facts is refused: as one without, or since the least estimate has more facts than the ceiling, which stands beside.
#[derive(Clone, Copy)]
pub enum LimitFault {
    Call(Fault),
    Facts(usize),
}

impl From<Fault> for LimitFault {
    ghost from_gives = { λ f l. l ≡ Call f };

    fn from(f: Fault) -> LimitFault {
        LimitFault::Call(f)
    }
}
