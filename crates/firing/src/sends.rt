// What a send does for each block that it may start.
ghost use Rattle.std.specs.Prelude.{◌≡◌, ◌+◌, ◌*◌, ◌<◌, ◌≤◌, length, get_or};
ghost use Rattle.table.specs.Words.{kind};
ghost use Rattle.table.specs.Code.{code};
ghost use Rattle.calculus.specs.Constraint.{P, L, put as Put, sub, each, ◌and◌};
ghost use Rattle.calculus.specs.Rules.{pass as Pass};
ghost use Rattle.calculus.specs.Layout.{WellFormed};
ghost use Rattle.rows.specs.Laid.{Sized};
ghost use Rattle.clauses.specs.Asks.{row_at, sort_at, at_block, blocks};
ghost use Rattle.queries.specs.Passes.{Masked};
ghost use Rattle.queries.specs.Ready.{Ready};
ghost use Rattle.firing.specs.Fired.{Fired, FiredFor};
ghost use Rattle.firing.specs.Sending.{Sends, Sending};

use crate::targets::{lift, mark, pass, wake};
use clauses::Effect;
use clauses::make::permissions_of;
use permset::PermSet;
use queries::starts;
use rows::layout::Layout;
use table::{kind_of, kinds};
use table_links::link_at;

// The block of a send: its permissions and its first word.
#[derive(Clone, Copy)]
pub struct Sender {
    pub perms: PermSet,
    pub home: usize,
}

// The block b is live, what C(d) has of messages is in B(b), P(b) is in P(p), and C(b) has the block at `home`, from which it was sent.
fn deliver(
    est: &mut [u32],
    masks: &[u32],
    h: &mut [u32],
    l: Layout,
    p: usize,
    d: usize,
    home: usize,
    b: usize,
) -> usize
    requires { Sized l est.old × (p < l.size) × (d < l.size) × (b < l.size) × (4 * l.row ≤ length masks.now) × (home < l.size) }
    ensures { FiredFor l (λ c. WellFormed c est.old × Masked c l masks.now)
        (λ c. (Put (L b) 0 and Pass c (row_at (2 * d)) (sort_at 3 c) (row_at (2 * b + 1)) and sub (P b) (P p)) and Put (row_at (2 * b))
        (32 * l.lead + home)) est.old est.new result }
{
    let started = wake(est, h, l, b);
    let passed = pass(est, masks, h, l, 2 * d, 3, 2 * b + 1);
    let delivered = started + (passed + lift(est, h, l, b, p));
    delivered + mark(est, l, 2 * b, 32 * l.lead + home)
}

// What a send does for the block at b.
fn send_to(
    words: &[u32],
    est: &mut [u32],
    masks: &[u32],
    h: &mut [u32],
    l: Layout,
    e: Effect,
    own: Sender,
    b: usize,
) -> usize
    requires { Sends words.now masks.now l e own × WellFormed (code words.now) est.old × (kind (get_or words.now b 0) ≡ 2) }
    ensures { Fired (code words.now) (at_block (code words.now) e.x e.y e.z b) est.old est.new result }
{
    let x = e.x;
    let required = PermSet { bits: e.z as u32 };
    if !starts(words, est, l, x, required, own.perms, b) {
        return 0;
    }
    deliver(est, masks, h, l, x, e.y, own.home, b)
}

// What a send does for each block in turn.
fn send_all(
    words: &[u32],
    links: &[u32],
    est: &mut [u32],
    masks: &[u32],
    h: &mut [u32],
    l: Layout,
    e: Effect,
    own: Sender,
) -> usize
    requires { Ready words.now links.now masks.now l × Sends words.now masks.now l e own × WellFormed (code words.now) est.old }
    ensures { Fired (code words.now) (each (code words.now).blocks (at_block (code words.now) e.x e.y
        e.z)) est.old est.new result }
{
    let mut added = 0;
    let mut b = 1;
    // From block to block by the links: no range.
    while b < words.len() {
        added += send_to(words, est, masks, h, l, e, own, b);
        b = link_at(links, b + 3).end;
    }
    added
}

// A send to all blocks, or (f not 0) to the block f, if there is one.
pub fn send(
    words: &[u32],
    links: &[u32],
    masks: &[u32],
    est: &mut [u32],
    h: &mut [u32],
    l: Layout,
    e: Effect,
    f: usize,
) -> usize
    requires { Ready words.now links.now masks.now l × WellFormed (code words.now) est.old × Sending words.now l e.x e.y e.z }
    ensures { Fired (code words.now) (blocks (code words.now) e.x e.y e.z f) est.old est.new result }
{
    let home = link_at(links, e.x).home;
    let perms = permissions_of(words, links, e.x);
    let own = Sender { perms, home };
    if f == 0 {
        return send_all(words, links, est, masks, h, l, e, own);
    }
    if words.len() <= f {
        return 0;
    }
    if kind_of(words[f]) == kinds::BLOCK {
        send_to(words, est, masks, h, l, e, own, f)
    } else {
        0
    }
}
