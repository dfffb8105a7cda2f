// The effects of one term: its parts, and the results of an operation.
ghost use Rattle.std.specs.Prelude.{◌≡◌, not, ◌+◌, ◌<◌, eqb};
ghost use Rattle.table.specs.Words.{operation_of};
ghost use Rattle.table.specs.Code.{operation};
ghost use Rattle.calculus.specs.Constraint.{only, ◌and◌};
ghost use Rattle.calculus.specs.Rules.{part as Part, waiting, two_rule};
ghost use Rattle.calculus.specs.Layout.{WellFormed};
ghost use Rattle.rows.specs.Laid.{Sized};
ghost use Rattle.firing.specs.Fired.{FiredFor, FiredIn};

use crate::targets::{grew, lift, lift_if, part, part_if, put_bits};
use rows::layout::Layout;
use table::operation_of;
use worklist::notes::Growth;

// The parts p + 1, b and d, which are live with p; b and d may be 0.
pub fn parts(est: &mut [u32], h: &mut [u32], l: Layout, p: usize, b: usize, d: usize) -> usize
    requires { Sized l est.old × (p + 1 < l.size) × (b < l.size) × (d < l.size) }
    ensures { FiredIn l (Part p (p + 1) and only (not (eqb b 0)) (Part p b) and only (not (eqb d 0)) (Part p d)) est.old
        est.new result }
{
    let first = part(est, h, l, p, p + 1);
    let second = part_if(est, h, l, p, b);
    first + (second + part_if(est, h, l, p, d))
}

// The part p + 1, which is live with p, and the branches b and d, which wait; d may be 0.
pub fn branches(est: &mut [u32], h: &mut [u32], l: Layout, p: usize, b: usize, d: usize) -> usize
    requires { Sized l est.old × (p + 1 < l.size) × (b < l.size) × (d < l.size) }
    ensures { FiredIn l (Part p (p + 1) and waiting p b and only (not (eqb d 0)) (waiting p d)) est.old est.new result }
{
    let first = part(est, h, l, p, p + 1);
    let second = lift(est, h, l, b, p);
    first + (second + lift_if(est, h, l, d, p))
}

// The results of the operation o on C(p + 1) and C(d) in C(p).
pub fn operate_at(est: &mut [u32], h: &mut [u32], l: Layout, p: usize, d: usize, o: usize) -> usize
    requires { Sized l est.old × (p + 1 < l.size) × (d < l.size) × (d ≡ p → ⊥) × (o < 4294967296) }
    ensures { FiredFor l (λ c. WellFormed c est.old) (λ c. two_rule c p (operation (operation_of o)) (p + 1) d) est.old
        est.new result }
{
    let row = l.row;
    let a = 2 * (p + 1);
    let bits = results::operate_at(est, l.lead, operation_of(o as u32), a * row, 2 * d * row);
    let added = put_bits(est, row, 2 * p, 0, bits);
    grew(h, Growth::Row(2 * p), added);
    added
}
