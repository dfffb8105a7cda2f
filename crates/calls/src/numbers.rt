// Document 01's numbers and places in code. A refusal has two numbers and not one, so no `From` stands for either.
ghost use Rattle.std.specs.Prelude.{◌≡◌};
ghost use Rattle.calls.specs.Faults.{fault_number, fault_place};

use crate::Fault;
use table::numbers::{refusal_number, refusal_place};

#[tactic(auto, unfolding(crate::specs::Faults::fault_number))]
pub fn fault_number(f: Fault) -> u32
    ensures { result ≡ fault_number f }
{
    match f {
        Fault::Table(r) => refusal_number(r),
        Fault::Rho => 20,
        Fault::Bound => 20,
        Fault::ShortEstimate => 21,
        Fault::ShortWork => 22,
    }
}

#[tactic(auto, unfolding(crate::specs::Faults::fault_place))]
pub fn fault_place(f: Fault) -> usize
    ensures { result ≡ fault_place f }
{
    match f {
        Fault::Table(r) => refusal_place(r),
        Fault::Rho => 0,
        Fault::Bound => 0,
        Fault::ShortEstimate => 0,
        Fault::ShortWork => 0,
    }
}
