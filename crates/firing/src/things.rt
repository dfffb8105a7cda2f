// What an effect asks for each thing of a mask in a value set.
ghost use Rattle.std.specs.Prelude.{◌+◌, ◌*◌};
ghost use Rattle.table.specs.Code.{Linked};
ghost use Rattle.rows.specs.Laid.{Sized};
ghost use Rattle.calculus.specs.Constraint.{every};
ghost use Rattle.clauses.specs.Asks.{for_thing, at_thing, things};
ghost use Rattle.queries.specs.Passes.{Masked};
ghost use Rattle.firing.specs.Fired.{FiredFor, FiredIn};
ghost use Rattle.firing.specs.Placed.{Placed, Each};

use crate::targets::{flow, lift, wake};
use clauses::{Effect, What};
use queries::{has_thing, next_thing};
use rows::layout::Layout;

// What is asked at the word x, and of the row y, for the thing f.
fn for_thing(
    est: &mut [u32],
    h: &mut [u32],
    l: Layout,
    what: What,
    x: usize,
    y: usize,
    f: usize,
) -> usize
    requires { Sized l est.old × Placed l what x y f }
    ensures { FiredIn l (for_thing what x y f) est.old est.new result }
{
    match what {
        What::Enter => wake(est, h, l, f + 1),
        What::Lower => lift(est, h, l, f + 1, x),
        What::Hand => flow(est, h, l, y, 2 * f + 1),
        What::Take => flow(est, h, l, 2 * f + 1, y),
        What::Back => flow(est, h, l, 2 * (f + 1), y),
        _ => 0,
    }
}

// The effect for each thing of the mask z in C(x + 1).
fn each_thing(est: &mut [u32], masks: &[u32], h: &mut [u32], l: Layout, e: Effect) -> usize
    requires { Sized l est.old × Each l masks.now e }
    ensures { FiredFor l (λ c. Masked c l masks.now) (λ c. every c.size (at_thing c e.what e.x e.y e.z))
        est.old est.new result }
{
    let what = e.what;
    let x = e.x;
    let y = e.y;
    let z = e.z;
    let r = 2 * (x + 1);
    let size = l.size;
    let mut added = 0;
    let mut f = next_thing(est, masks, l, r, z, 0);
    // From one thing of the row to the next, in an estimate that grows meanwhile: no range and no iterator.
    while f < size {
        added += for_thing(est, h, l, what, x, y, f);
        f = next_thing(est, masks, l, r, z, f + 1);
    }
    added
}

// The same, or (f not 0) the effect for the thing f, where C(x + 1) and the mask z have it. Past the table there is none.
pub fn fire_things(
    est: &mut [u32],
    masks: &[u32],
    h: &mut [u32],
    l: Layout,
    e: Effect,
    f: usize,
) -> usize
    requires { Sized l est.old × Each l masks.now e }
    ensures { FiredFor l (λ c. Linked c × Masked c l masks.now) (λ c. things c e.what e.x e.y e.z f) est.old
        est.new result }
{
    if f == 0 {
        return each_thing(est, masks, h, l, e);
    }
    if l.size <= f {
        return 0;
    }
    let what = e.what;
    let x = e.x;
    let y = e.y;
    if has_thing(est, masks, l, 2 * (x + 1), e.z, f) {
        for_thing(est, h, l, what, x, y, f)
    } else {
        0
    }
}
