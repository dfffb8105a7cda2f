// What the opponent's permissions ask of the blocks whose guards let it in.
ghost use Rattle.std.specs.Prelude.{◌<◌};
ghost use Rattle.table.specs.Code.{code};
ghost use Rattle.calculus.specs.Layout.{WellFormed};
ghost use Rattle.rows.specs.Laid.{Sized};
ghost use Rattle.checker.specs.Words.{Accepted};
ghost use Rattle.fixpoint.specs.Grown.{Tried, Entered};

use checker::opens;
use firing::{fill, mark, wake};
use permset::PermSet;
use rows::layout::Layout;

// The element of C(p) that says that the opponent may send to the block at p.
const OPPONENT: usize = 7;

// The entry of the word p, if it is a block that lets the opponent in: it is live, the opponent's data is in B(p), and the opponent is a sender.
pub fn enter(
    words: &[u32],
    est: &mut [u32],
    h: &mut [u32],
    l: Layout,
    rho: PermSet,
    p: usize,
) -> usize
    requires { Accepted words.now l × Sized l est.old × WellFormed (code words.now) est.old × (p < l.size) }
    ensures { Tried (code words.now) rho.bits (Entered words.now rho.bits p) est.old est.new result }
{
    if !opens(words, l, rho, p) {
        return 0;
    }
    let started = wake(est, h, l, p);
    let filled = fill(est, h, l, 2 * p + 1);
    started + (filled + mark(est, l, 2 * p, OPPONENT))
}
