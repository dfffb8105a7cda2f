// A step of a solver: a clause of a live word.
ghost use Rattle.std.specs.Prelude.{◌<◌};
ghost use Rattle.table.specs.Code.{code};
ghost use Rattle.calculus.specs.Layout.{WellFormed};
ghost use Rattle.queries.specs.Ready.{Ready};
ghost use Rattle.worklist.specs.Memory.{Kept};
ghost use Rattle.firing.specs.Fired.{Fired};
ghost use Rattle.firing.specs.Step.{step_at};

use crate::fire::fire;
use clauses::make::clause;
use queries::is_live;
use rows::layout::Layout;

// What clause k of the word p asks, where p is live, for all its targets or (f not 0) for the target f. It answers how many bits that added.
pub fn step(
    words: &[u32],
    links: &[u32],
    masks: &[u32],
    est: &mut [u32],
    h: &mut [u32],
    l: Layout,
    p: usize,
    k: usize,
    f: usize,
) -> usize
    requires { Ready words.now links.now masks.now l × WellFormed (code words.now) est.old × (p < l.size) }
    ensures fired { Fired (code words.now) (step_at words.now links.now p k f) est.old est.new result }
    ensures kept { Kept h.old h.new }
{
    if !is_live(est, l, p) {
        return 0;
    }
    let asked = clause(words, links, 32 * l.lead, p, k);
    fire(words, links, masks, est, h, l, asked, f)
}
