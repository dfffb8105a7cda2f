// The verdict.
ghost use Rattle.std.specs.Prelude.{◌≡◌, length};
ghost use Rattle.calculus.specs.Answer.{answer, estimate_after, work_after};
ghost use Rattle.calculus.specs.Correct.{Correct, Guaranteed};
ghost use Rattle.comparison.specs.Values.{answer_of};

use calls::Fault;
use calls::checks::check;
use comparison::{Verdict, bound_used, compared};
use permset::PermSet;
use solver::analyse::find;

// The verdict on a table where the opponent holds rho, compared with a bound (80000000 hex: the empty set). Of the slices, est gets the
// least estimate in its first words, and the first words of work are zeroed; a refusal leaves both as they were.
pub fn verdict(
    words: &[u32],
    rho: u32,
    bound: u32,
    est: &mut [u32],
    work: &mut [u32],
) -> Result<Verdict, Fault>
    ensures answer { answer_of result ≡ answer words.now rho bound (length est.old) (length work.old) }
    ensures estimate { est.new ≡ estimate_after words.now rho bound est.old work.old }
    ensures work { work.new ≡ work_after words.now rho bound est.old work.old }
    ensures correct { Correct words.now rho bound est.new (answer_of result) }
    ensures guarantee { Guaranteed words.now rho (answer_of result) }
{
    check(words, rho, bound, est.len(), work.len())?;
    let found = find(words, PermSet { bits: rho }, est, work);
    Ok(compared(found, bound_used(bound)))
}
