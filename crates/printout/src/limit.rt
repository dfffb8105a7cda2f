// The text of a system under a ceiling on facts.
ghost use Rattle.std.specs.Prelude.{◌≡◌, false, ◌≤◌, eqb, length, get_or};
ghost use Rattle.table.specs.Words.{kind};
ghost use Rattle.printout.specs.Program.{room};
ghost use Rattle.printout.specs.Answers.{ToldUnder};

use crate::system::answer_text;
use calls::LimitFault;
use report::refusal_line;
use table::read::is_wide;
use verdict::limit::verdict_within;

// The verdict under a ceiling on a system that is no wide table, told at the start of `out`.
#[tactic(auto, using(crate::proofs::Texts::held_under), unfolding(crate::specs::Program::unless_wide, crate::specs::Program::answer_text, verdict::specs::Limits::limited_answer))]
fn tell_narrow_within(
    words: &[u32],
    rho: u32,
    bound: u32,
    ceiling: usize,
    est: &mut [u32],
    work: &mut [u32],
    out: &mut [u8],
) -> usize
    requires { (room ≤ length out.old) × (eqb (kind (get_or words.now 0 0)) 5 ≡ false) }
    ensures { ToldUnder words.now rho bound ceiling est.old work.old out.old result est.new
        work.new out.new }
{
    match verdict_within(words, rho, bound, ceiling, est, work) {
        Ok(v) => answer_text(Ok(v), words, rho, est, out),
        Err(fault) => match fault {
            LimitFault::Call(f) => answer_text(Err(f), words, rho, est, out),
            LimitFault::Facts(n) => refusal_line(out, 0, 23, n),
        },
    }
}

// The verdict on a system under a ceiling, told at the start of `out`; a wide table is refused, and its slices are left alone.
#[tactic(auto, unfolding(crate::specs::Program::unless_wide, crate::specs::Program::answer_text))]
pub fn tell_within(
    words: &[u32],
    rho: u32,
    bound: u32,
    ceiling: usize,
    est: &mut [u32],
    work: &mut [u32],
    out: &mut [u8],
) -> usize
    requires { room ≤ length out.old }
    ensures { ToldUnder words.now rho bound ceiling est.old work.old out.old result est.new
        work.new out.new }
{
    if is_wide(words) {
        return refusal_line(out, 0, 1, 0);
    }
    tell_narrow_within(words, rho, bound, ceiling, est, work, out)
}
