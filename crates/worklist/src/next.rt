// The next event: live words first, the lowest of them; then rows by their turns, going round; then permissions, the highest word first.
ghost use Rattle.std.specs.Prelude.{◌≤◌, IfSome};
ghost use Rattle.worklist.specs.Memory.{Kept};

use crate::events::{permissions_grew, row_grew, woke};
use crate::memory::{LIVE, PER_ROW, PERMISSIONS, ROW, TURN, TURNS, get, put};
use crate::sets::{take_high, take_low, take_turn};
use rows::layout::Layout;

// Takes the next event from a turn on out of what waits, and writes the clauses that it calls for into `out`. Answers the turn after it; None if
// nothing waits.
pub fn next(
    words: &[u32],
    links: &[u32],
    masks: &[u32],
    est: &[u32],
    h: &mut [u32],
    out: &mut [u32],
    l: Layout,
    turn: usize,
) -> Option<usize>
    ensures turn { IfSome result (λ t. t ≤ 2048) }
    ensures memory { Kept h.old h.new }
    ensures choices { Kept out.old out.new }
{
    let from = turn % TURNS;
    put(out, 0, 0);
    if h.len() < TURN {
        return None;
    }
    if let Some(q) = take_low(h, LIVE) {
        woke(words, links, h, out, q);
        return Some(from);
    }
    if let Some(t) = take_turn(h, from) {
        let r = get(h, ROW + PER_ROW * t) % TURNS;
        put(h, TURN + PER_ROW * r, TURNS + t);
        row_grew(words, links, masks, est, h, out, l, r);
        return Some(t + 1);
    }
    if let Some(p) = take_high(h, PERMISSIONS) {
        permissions_grew(words, est, h, out, l, p);
        return Some(from);
    }
    None
}
