// What the C interface makes of numbers: an answer as one number, and what is wrong with the bytes of a system before they are read.
#![tactic(auto)]

ghost use Rattle.std.specs.Prelude.{◌≡◌, ◌+◌, ◌*◌, ◌^◌, ◌<◌, MatchOption};
ghost use Rattle.comparison.specs.Values.{answer_of};
ghost use Rattle.table.specs.Scan.{first_of};
ghost use Rattle.interface.specs.Numbers.{answer_number, system_tests};
ghost use Rattle.interface.specs.Places.{PlaceFits};

use calls::Fault;
use calls::numbers::{fault_number, fault_place};
use comparison::Verdict;

// The number that refuses a system of this many bytes before it is read.
pub fn system_fault(size: usize) -> Option<u32>
    ensures { MatchOption result (first_of (system_tests size) ≡ 0) (λ n. (n ≡ first_of (system_tests size)) × (0 < n)) }
{
    if 1024 < size {
        return Some(31);
    }
    if size % 4 != 0 {
        return Some(30);
    }
    None
}

// A refusal as one number.
pub fn refusal(number: u32, place: usize) -> u64
    requires { place < 65536 }
    ensures { result ≡ 2 ^ 32 + number * 65536 + place }
{
    4294967296 + number as u64 * 65536 + place as u64
}

// An answer as one number.
#[tactic(auto, unfolding(crate::specs::Numbers::answer_number, comparison::specs::Values::answer_of))]
pub fn answer_number(answer: Result<Verdict, Fault>) -> u64
    requires { PlaceFits answer }
    ensures { result ≡ answer_number (answer_of answer) }
{
    match answer {
        Err(f) => refusal(fault_number(f), fault_place(f)),
        Ok(Verdict::Within(report)) => report.leak.bits as u64,
        Ok(Verdict::Over(report, _)) => report.leak.bits as u64 + 16777216,
    }
}
