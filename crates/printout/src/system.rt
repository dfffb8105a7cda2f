// The text of a system: the first line of its answer, and a line for each handler.
ghost use Rattle.std.specs.Prelude.{◌≡◌, false, ◌+◌, ◌≤◌, eqb, length, get_or};
ghost use Rattle.table.specs.Words.{kind};
ghost use Rattle.table.specs.Code.{code};
ghost use Rattle.calculus.specs.Estimate.{estimate};
ghost use Rattle.comparison.specs.Values.{answer_of};
ghost use Rattle.text.specs.Writing.{Wrote};
ghost use Rattle.report.specs.Lines.{verdict_line};
ghost use Rattle.printout.specs.Program.{handler_lines, first_line, answer_text, room};
ghost use Rattle.printout.specs.Answers.{Held, HeldFor, Told};

use crate::handlers::handler_lines;
use calls::Fault;
use calls::checks::words_needed;
use calls::numbers::{fault_number, fault_place};
use comparison::{Report, Verdict};
use report::{refusal_line, verdict_line};
use table::read::is_wide;
use verdict::judge::verdict;

fn report_line(r: Report, over: bool, first: u32, out: &mut [u8], at: usize) -> usize
    requires { at + 96 ≤ length out.old }
    ensures wrote { Wrote out.old at (verdict_line (record {
      leak = r.leak.bits;
      bound = r.bound.bits;
      over = over;
      first = first;
      facts = r.facts;
    })) out.new result }
    ensures upper_bound { result ≤ at + 96 }
{
    let leak = r.leak;
    let bound = r.bound;
    verdict_line(out, at, leak.bits, bound.bits, over, first, r.facts)
}

// The first line of an answer.
#[tactic(auto, unfolding(crate::specs::Program::first_line, comparison::specs::Values::answer_of))]
pub fn answer_line(answer: Result<Verdict, Fault>, out: &mut [u8], at: usize) -> usize
    requires { at + 96 ≤ length out.old }
    ensures wrote { Wrote out.old at (first_line (answer_of answer)) out.new result }
    ensures upper_bound { result ≤ at + 96 }
{
    match answer {
        Err(f) => refusal_line(out, at, fault_number(f), fault_place(f)),
        Ok(v) => match v {
            Verdict::Within(r) => report_line(r, false, 32, out, at),
            Verdict::Over(r, first) => report_line(r, true, first, out, at),
        },
    }
}

// The lines of the handlers, by the estimate in the first words of a slice.
fn handlers_of(words: &[u32], rho: u32, est: &[u32], out: &mut [u8], at: usize) -> usize
    requires { Held words.now rho est.now × (at + 3072 ≤ length out.old) }
    ensures { Wrote out.old at (handler_lines (code words.now) rho (estimate (code words.now) rho) 0
        (code words.now).blocks) out.new result }
{
    let need = words_needed(words);
    handler_lines(words, rho, &est[..need], out, at)
}

// All lines of an answer.
#[tactic(auto, unfolding(crate::specs::Program::answer_text, crate::specs::Program::first_line, comparison::specs::Values::answer_of))]
pub fn answer_text(
    answer: Result<Verdict, Fault>,
    words: &[u32],
    rho: u32,
    est: &[u32],
    out: &mut [u8],
) -> usize
    requires { HeldFor words.now rho est.now (answer_of answer) × (room ≤ length out.old) }
    ensures { Wrote out.old 0 (answer_text rho words.now (answer_of answer)) out.new result }
{
    let at = answer_line(answer, out, 0);
    match answer {
        Err(_) => at,
        Ok(_) => handlers_of(words, rho, est, out, at),
    }
}

// The verdict on a system that is no wide table, told at the start of `out`.
#[tactic(auto, using(crate::proofs::Texts::held_after), unfolding(crate::specs::Program::unless_wide))]
fn tell_narrow(
    words: &[u32],
    rho: u32,
    bound: u32,
    est: &mut [u32],
    work: &mut [u32],
    out: &mut [u8],
) -> usize
    requires { (room ≤ length out.old) × (eqb (kind (get_or words.now 0 0)) 5 ≡ false) }
    ensures { Told words.now rho bound est.old work.old out.old result est.new
        work.new out.new }
{
    let answer = verdict(words, rho, bound, est, work);
    answer_text(answer, words, rho, est, out)
}

// The verdict on a system, told at the start of `out`; a wide table is refused, and its slices are left alone.
#[tactic(auto, unfolding(crate::specs::Program::unless_wide, crate::specs::Program::answer_text))]
pub fn tell(
    words: &[u32],
    rho: u32,
    bound: u32,
    est: &mut [u32],
    work: &mut [u32],
    out: &mut [u8],
) -> usize
    requires { room ≤ length out.old }
    ensures { Told words.now rho bound est.old work.old out.old result est.new
        work.new out.new }
{
    if is_wide(words) {
        return refusal_line(out, 0, 1, 0);
    }
    tell_narrow(words, rho, bound, est, work, out)
}
