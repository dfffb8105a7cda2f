// One row, or one word of permissions and flag, that grows. A row is lent from its own start, as a middle part of the estimate.
ghost use Rattle.std.specs.Prelude.{not, [], ◌∷◌, ◌+◌, ◌*◌, ◌^◌, ◌<◌, ◌≤◌, eqb, length};
ghost use Rattle.permset.specs.Sets.{width, member};
ghost use Rattle.calculus.specs.Constraint.{P, L, put as Put, sub as Sub, only as Only, every};
ghost use Rattle.calculus.specs.Rules.{fill as Fill, pass as Pass, part as Part};
ghost use Rattle.calculus.specs.Layout.{WellFormed};
ghost use Rattle.rows.specs.Laid.{Sized};
ghost use Rattle.rows.specs.Rows.{Poured};
ghost use Rattle.clauses.specs.Asks.{row_at, sort_at};
ghost use Rattle.queries.specs.Passes.{Masked};
ghost use Rattle.worklist.specs.Memory.{Kept};
ghost use Rattle.firing.specs.Fired.{FiredFor, FiredIn};

use rows::layout::Layout;
use rows::row;
use worklist::notes::{Growth, note};

// Below the live flag stand the permissions.
const LIVE_FLAG: u32 = 16777216;

// ---- rows

// Bits of the word k of the row r.
pub fn put_bits(est: &mut [u32], row: usize, r: usize, k: usize, bits: u32) -> usize
    requires { (r * row + row ≤ length est.old) × (k < row) }
    ensures { Poured est.old est.new (r * row + k) (bits ∷ []) result }
{
    let at = r * row;
    row::set(&mut est[at..at + row], k, bits)
}

// Bits of the word of permissions and flag of p.
fn gain(est: &mut [u32], l: Layout, p: usize, bits: u32) -> usize
    requires { Sized l est.old × (p < l.size) }
    ensures { Poured est.old est.new (2 * l.size * l.row + p) (bits ∷ []) result }
{
    let at = l.flags(p);
    row::set(&mut est[at..at + 1], 0, bits)
}

// ---- what grows is noted

pub fn grew(h: &mut [u32], growth: Growth, added: usize) {
    if added != 0 {
        note(h, growth);
    }
}

// Element v in the row r. It is not noted: for a row that no rule reads.
pub fn mark(est: &mut [u32], l: Layout, r: usize, v: usize) -> usize
    requires { (r * l.row + l.row ≤ length est.old) × (v < 32 * l.row) }
    ensures { FiredIn l (Put (row_at r) v) est.old est.new result }
{
    let row = l.row;
    let at = r * row;
    row::put(&mut est[at..at + row], v)
}

// Element v in the row r, and the row is noted.
pub fn put(est: &mut [u32], h: &mut [u32], l: Layout, r: usize, v: usize) -> usize
    requires { (r * l.row + l.row ≤ length est.old) × (v < 32 * l.row) }
    ensures { FiredIn l (Put (row_at r) v) est.old est.new result }
{
    let added = mark(est, l, r, v);
    grew(h, Growth::Row(r), added);
    added
}

// The row a in the row b.
pub fn flow(est: &mut [u32], h: &mut [u32], l: Layout, a: usize, b: usize) -> usize
    requires { (a * l.row + l.row ≤ length est.old) × (b * l.row + l.row ≤ length est.old) × (l.row ≤ 36) }
    ensures { FiredIn l (Sub (row_at a) (row_at b)) est.old est.new result }
{
    let added = row::join(est, l.row, a, b);
    grew(h, Growth::Row(b), added);
    added
}

// All plain elements in the row r: so many full words.
pub fn fill(est: &mut [u32], h: &mut [u32], l: Layout, r: usize) -> usize
    requires { Sized l est.old × (r < 2 * l.size) }
    ensures fired_for { FiredFor l (λ c. WellFormed c est.old) (λ c. Fill c (row_at r)) est.old est.new result }
    ensures kept { Kept h.old h.new }
{
    let row = l.row;
    let lead = l.lead;
    let mut added = 0;
    for k in 0..lead {
        added += put_bits(est, row, r, k, u32::MAX);
    }
    grew(h, Growth::Row(r), added);
    added
}

// What the row a has of the mask m in the row b.
pub fn pass(
    est: &mut [u32],
    masks: &[u32],
    h: &mut [u32],
    l: Layout,
    a: usize,
    m: usize,
    b: usize,
) -> usize
    requires { Sized l est.old × (a < 2 * l.size) × (b < 2 * l.size) × (m < 4) × (4 * l.row ≤ length masks.now) }
    ensures { FiredFor l (λ c. WellFormed c est.old
        × Masked c l masks.now) (λ c. Pass c (row_at a) (sort_at m c) (row_at b)) est.old est.new result }
{
    let row = l.row;
    let at = m * row;
    let added = row::join_masked(est, &masks[at..at + row], row, a, b);
    grew(h, Growth::Row(b), added);
    added
}

// The permissions `bits` in P(p). Not one function with `put`: three lines each, and what is asked differs.
pub fn permit(est: &mut [u32], h: &mut [u32], l: Layout, p: usize, bits: u32) -> usize
    requires { Sized l est.old × (p < l.size) × (bits < 2 ^ width) }
    ensures { FiredFor l (λ c. WellFormed c est.old) (λ c. every width (λ i. Only (member bits i) (Put (P p) i))) est.old
        est.new result }
{
    let added = gain(est, l, p, bits);
    grew(h, Growth::Permissions(p), added);
    added
}

// P(q) in P(p).
pub fn lift(est: &mut [u32], h: &mut [u32], l: Layout, q: usize, p: usize) -> usize
    requires { Sized l est.old × (q < l.size) × (p < l.size) }
    ensures { FiredIn l (Sub (P q) (P p)) est.old est.new result }
{
    let at = l.flags(q);
    let bits = est[at] % LIVE_FLAG;
    let added = gain(est, l, p, bits);
    grew(h, Growth::Permissions(p), added);
    added
}

// q is live. It is not noted: whoever is live with it says so.
fn start(est: &mut [u32], l: Layout, q: usize) -> usize
    requires { Sized l est.old × (q < l.size) }
    ensures { FiredIn l (Put (L q) 0) est.old est.new result }
{
    let at = l.flags(q);
    row::put(&mut est[at..at + 1], 24)
}

// q is live, and is noted.
pub fn wake(est: &mut [u32], h: &mut [u32], l: Layout, q: usize) -> usize
    requires { Sized l est.old × (q < l.size) }
    ensures fired_in { FiredIn l (Put (L q) 0) est.old est.new result }
    ensures kept { Kept h.old h.new }
{
    let added = start(est, l, q);
    grew(h, Growth::Live(q), added);
    added
}

// The part q is live with p, and its permissions are in P(p).
pub fn part(est: &mut [u32], h: &mut [u32], l: Layout, p: usize, q: usize) -> usize
    requires { Sized l est.old × (p < l.size) × (q < l.size) }
    ensures { FiredIn l (Part p q) est.old est.new result }
{
    let started = start(est, l, q);
    started + lift(est, h, l, q, p)
}

// The same where q is a part, and not 0. This and `lift_if` are not one function over what is added: no clause can say of a function that is handed
// on what it does to `est`.
pub fn part_if(est: &mut [u32], h: &mut [u32], l: Layout, p: usize, q: usize) -> usize
    requires { Sized l est.old × (p < l.size) × (q < l.size) }
    ensures { FiredIn l (Only (not (eqb q 0)) (Part p q)) est.old est.new result }
{
    if q == 0 {
        return 0;
    }
    part(est, h, l, p, q)
}

// P(q) in P(p) where q is a part, and not 0.
pub fn lift_if(est: &mut [u32], h: &mut [u32], l: Layout, q: usize, p: usize) -> usize
    requires { Sized l est.old × (q < l.size) × (p < l.size) }
    ensures { FiredIn l (Only (not (eqb q 0)) (Sub (P q) (P p))) est.old est.new result }
{
    if q == 0 {
        return 0;
    }
    lift(est, h, l, q, p)
}
