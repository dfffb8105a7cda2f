// The analysis of any words, refused or not.
ghost use Rattle.std.specs.Prelude.{◌≡◌, ◌+◌, ◌*◌, ◌≤◌, length};
ghost use Rattle.calculus.specs.Answer.{standing_bound, answer as Answer·answer, estimate_after, work_after};
ghost use Rattle.solver.specs.Analysis.{said, summary, Sound, FoundIn};
ghost use Rattle.solver.specs.Ceiling.{SolvedIn, outcome_of, outcome, answer_within, estimate_within, BoundedIn, SoundWithin};
ghost use Rattle.calls.specs.Calls.{Fit};

use crate::solve::solve;
use calls::checks::{check, words_needed};
use calls::{Fault, LimitFault};
use comparison::Findings;
use permset::PermSet;
use rows::layout::Layout;

// The least estimate in the first words of its slice, or zeros where it has more than `ceiling` facts, and zeros in those of the work slice,
// where both are long enough.
pub fn solve_in(
    words: &[u32],
    rho: PermSet,
    ceiling: usize,
    est: &mut [u32],
    work: &mut [u32],
) -> Findings
    requires { Fit words.now (length est.old) (length work.old) }
    ensures { SolvedIn words.now rho.bits ceiling est.old work.old est.new work.new result }
{
    let need = words_needed(words);
    let room = 4 * words.len();
    solve(words, rho, ceiling, &mut est[..need], &mut work[..room])
}

// No estimate has more facts.
fn most_facts(l: Layout) -> usize
    requires { (l.size ≤ 1024) × (l.lead ≤ 36) }
    ensures { result ≡ l.size * (2 * (32 * l.lead + l.size) + 25) }
{
    l.size * (2 * (32 * l.lead + l.size) + 25)
}

// The same without a ceiling: the least estimate, in slices that are both long enough.
pub fn find(words: &[u32], rho: PermSet, est: &mut [u32], work: &mut [u32]) -> Findings
    requires { Fit words.now (length est.old) (length work.old) }
    ensures { FoundIn words.now rho.bits est.old work.old est.new work.new result }
{
    let most = most_facts(Layout::of(words));
    solve_in(words, rho, most, est, work)
}

// The least estimate of a table where the opponent holds rho. Of the slices, est gets the estimate in its first words, and the first words
// of work are zeroed; a refusal leaves both as they were.
pub fn analyse(words: &[u32], rho: u32, est: &mut [u32], work: &mut [u32]) -> Result<PermSet, Fault>
    ensures answer { said result ≡ summary (Answer·answer words.now rho standing_bound (length est.old) (length work.old)) }
    ensures estimate { est.new ≡ estimate_after words.now rho standing_bound est.old work.old }
    ensures work { work.new ≡ work_after words.now rho standing_bound est.old work.old }
    ensures sound { Sound words.now rho est.new (said result) }
{
    check(words, rho, 0x80000000, est.len(), work.len())?;
    let found = find(words, PermSet { bits: rho }, est, work);
    Ok(found.leak)
}

// The same as `find`, refused where there are more facts than `ceiling`; zeros stand then in the place of the estimate.
pub fn find_within(
    words: &[u32],
    rho: PermSet,
    ceiling: usize,
    est: &mut [u32],
    work: &mut [u32],
) -> Result<Findings, LimitFault>
    requires { Fit words.now (length est.old) (length work.old) }
    ensures { BoundedIn words.now rho.bits ceiling est.old work.old est.new work.new result }
{
    let found = solve_in(words, rho, ceiling, est, work);
    if ceiling < found.facts {
        return Err(LimitFault::Facts(ceiling));
    }
    Ok(found)
}

// The same as `analyse` with a ceiling on facts: refused with 23, at the ceiling, exactly where the least estimate has more. Then the words
// of est that the estimate would take are zero, and work is as on success.
pub fn analyse_within(
    words: &[u32],
    rho: u32,
    ceiling: usize,
    est: &mut [u32],
    work: &mut [u32],
) -> Result<Findings, LimitFault>
    ensures answer { outcome_of result ≡ outcome (answer_within words.now rho ceiling (length est.old) (length work.old)) }
    ensures estimate { est.new ≡ estimate_within words.now rho ceiling est.old work.old }
    ensures work { work.new ≡ work_after words.now rho standing_bound est.old work.old }
    ensures sound { SoundWithin words.now rho est.new (outcome_of result) }
{
    check(words, rho, 0x80000000, est.len(), work.len())?;
    find_within(words, PermSet { bits: rho }, ceiling, est, work)
}
