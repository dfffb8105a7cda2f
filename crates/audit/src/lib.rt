// Estimates from elsewhere: whether one obeys every rule, and the leak read from it.
#![tactic(auto)]

ghost use Rattle.std.specs.Prelude.{◌≡◌};
ghost use Rattle.audit.specs.declared.AuditFault.TheVariants.{Table};

pub mod judge;
pub mod numbers;

use table::Refusal;

// Why an estimate is refused: the table is, or ρ, or the slice has another length; the first word with a stray bit; or the lowest word whose rule is
// broken. `said` of specs/Audited.antt gives each its number and place.
#[derive(Clone, Copy)]
pub enum AuditFault {
    Table(Refusal),
    Rho,
    Length,
    Stray(usize),
    Broken(usize),
}

impl From<Refusal> for AuditFault {
    ghost from_gives = { λ r f. f ≡ Table r };

    fn from(r: Refusal) -> AuditFault {
        AuditFault::Table(r)
    }
}
