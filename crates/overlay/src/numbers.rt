// The number and the place of a refusal. A refusal has two numbers and not one, so no `From` stands for either.
ghost use Rattle.std.specs.Prelude.{◌≡◌};
ghost use Rattle.overlay.specs.Answers.{fault_number, fault_place};

use crate::Fault;
use table::numbers::{refusal_number, refusal_place};

pub fn fault_number(f: Fault) -> u32
    ensures { result ≡ fault_number f }
{
    match f {
        Fault::Base(r) => refusal_number(r),
        Fault::Overlay(r) => 100 + refusal_number(r),
        Fault::NoBlock => 47,
        Fault::TooManyHandlers => 48,
        Fault::TooManyWords => 49,
        Fault::ShortOutput => 50,
    }
}

pub fn fault_place(f: Fault) -> usize
    ensures { result ≡ fault_place f }
{
    match f {
        Fault::Base(r) => refusal_place(r),
        Fault::Overlay(r) => refusal_place(r),
        Fault::NoBlock => 0,
        Fault::TooManyHandlers => 0,
        Fault::TooManyWords => 0,
        Fault::ShortOutput => 0,
    }
}
