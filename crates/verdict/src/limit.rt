// The verdict under a ceiling on facts.
ghost use Rattle.std.specs.Prelude.{◌≡◌, length};
ghost use Rattle.calculus.specs.Answer.{work_after};
ghost use Rattle.calculus.specs.Correct.{Correct, Guaranteed};
ghost use Rattle.verdict.specs.Limits.{limited_answer, answer_under, estimate_under};

use calls::LimitFault;
use calls::checks::check;
use comparison::{Verdict, bound_used, compared};
use permset::PermSet;
use solver::analyse::find_within;

// The verdict on a table, as `judge::verdict` gives it, or that its least estimate has more facts than the ceiling. Then the words of est that the
// estimate would take are zero, and work is as on success. A verdict is correct by the words that it leaves in est, and its leak covers every run, as
// `judge::verdict` promises; nothing of that is said where the ceiling is passed. It stays beside `judge::verdict`, whose type says that no ceiling
// refuses it.
pub fn verdict_within(
    words: &[u32],
    rho: u32,
    bound: u32,
    ceiling: usize,
    est: &mut [u32],
    work: &mut [u32],
) -> Result<Verdict, LimitFault>
    ensures answer { limited_answer result ≡ answer_under words.now rho bound ceiling (length est.old) (length work.old) }
    ensures estimate { est.new ≡ estimate_under words.now rho bound ceiling est.old work.old }
    ensures work { work.new ≡ work_after words.now rho bound est.old work.old }
    ensures correct { Correct words.now rho bound est.new (limited_answer result) }
    ensures guarantee { Guaranteed words.now rho (limited_answer result) }
{
    check(words, rho, bound, est.len(), work.len())?;
    let found = find_within(words, PermSet { bits: rho }, ceiling, est, work)?;
    Ok(compared(found, bound_used(bound)))
}
