// The number and the place of a refusal. A refusal has two numbers and not one, so no `From` stands for either.
ghost use Rattle.std.specs.Prelude.{◌≡◌};
ghost use Rattle.widths.specs.Answers.{fault_number, fault_place};

use crate::Fault;
use table::numbers::{refusal_number, refusal_place};

pub fn fault_number(f: Fault) -> u32
    ensures { result ≡ fault_number f }
{
    match f {
        Fault::Table(r) => refusal_number(r),
        Fault::TooManyHandlers => 55,
        Fault::WideName(_) => 56,
        Fault::ShortOutput => 57,
    }
}

pub fn fault_place(f: Fault) -> usize
    ensures { result ≡ fault_place f }
{
    match f {
        Fault::Table(r) => refusal_place(r),
        Fault::TooManyHandlers => 0,
        Fault::WideName(p) => p,
        Fault::ShortOutput => 0,
    }
}
