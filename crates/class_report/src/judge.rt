// What the analysis says of a system.
ghost use Rattle.std.specs.Prelude.{◌≡◌, ◌≤◌, length};
ghost use Rattle.comparison.specs.Values.{answer_of};
ghost use Rattle.class_report.specs.Report.{outcome_of, answer_on};
ghost use Rattle.class_report.specs.Report.{outcome as Report·outcome};

use crate::{Outcome, Refusal};
use calls::Fault;
use calls::numbers::{fault_number, fault_place};
use comparison::Verdict;
use little_endian::words_of;
use verdict::judge::verdict;

#[tactic(auto, unfolding(crate::specs::Report::outcome_of, comparison::specs::Values::answer_of))]
fn outcome_of(answer: Result<Verdict, Fault>) -> Outcome
    ensures { result ≡ outcome_of (answer_of answer) }
{
    match answer {
        Err(f) => Err(Refusal {
            number: fault_number(f),
            place: fault_place(f),
        }),
        Ok(Verdict::Within(r)) => Ok(r.leak),
        Ok(Verdict::Over(r, _)) => Ok(r.leak),
    }
}

// Of at most 256 words, over slices with room for them in tables of either width.
fn judge_in(words: &[u32], rho: u32, est: &mut [u32], work: &mut [u32]) -> Outcome
    requires { (length words.now ≤ 256) × (length est.old ≡ 5888) × (length work.old ≡ 1024) }
    ensures { result ≡ outcome_of (answer_on words.now rho) }
{
    outcome_of(verdict(words, rho, 0x80000000, est, work))
}

// The same over slices of its own.
fn judge_words(words: &[u32], rho: u32) -> Outcome
    requires { length words.now ≤ 256 }
    ensures { result ≡ outcome_of (answer_on words.now rho) }
{
    let mut est = [0u32; 5888];
    let mut work = [0u32; 1024];
    judge_in(words, rho, &mut est, &mut work)
}

// Of the bytes of at most 256 words.
pub fn judge(bytes: &[u8], rho: u32) -> Outcome
    requires { length bytes.now ≤ 1024 }
    ensures { result ≡ Report·outcome (record { rho = rho; bytes = bytes.now }) }
{
    let mut words = [0u32; 256];
    let n = words_of(bytes, &mut words);
    judge_words(&words[..n], rho)
}
