// Choices fired: what the worklist chooses, and in a sweep the clauses of all words. One place drains a list, into which the compiler puts a whole step.
ghost use Rattle.std.specs.Prelude.{◌≡◌, ◌<◌, length};
ghost use Rattle.table.specs.Code.{code};
ghost use Rattle.calculus.specs.Rules.{Estimate};
ghost use Rattle.calculus.specs.Layout.{WellFormed, sets};
ghost use Rattle.queries.specs.Ready.{Ready};
ghost use Rattle.fixpoint.specs.Grown.{Grown, Tried, Exhausted};

use crate::entry::enter;
use choices::{choice_at, choice_clause, choice_place, choice_target, choice_word, count};
use firing::step::step;
use permset::PermSet;
use rows::layout::Layout;
use worklist::next::next;
use worklist::past;
use worklist::plan::prepare;

// So many events are followed at most, so that it ends whatever the memory of the worklist holds.
const EVENTS: usize = 16777216;

// No word has more clauses.
const CLAUSES: usize = 5;

// The place p of a choice, or word 0 where p is past the table.
fn within(p: usize, size: usize) -> usize
    requires { 0 < size }
    ensures { (result < size) × (p < size → result ≡ p) }
{
    if p < size { p } else { 0 }
}

// All choices of a list, until more than `room` facts are added.
fn drain(
    words: &[u32],
    links: &[u32],
    masks: &[u32],
    est: &mut [u32],
    h: &mut [u32],
    list: &[u32],
    l: Layout,
    room: usize,
) -> usize
    requires { Ready words.now links.now masks.now l × WellFormed (code words.now) est.old }
    ensures { Exhausted words.now links.now l.size list.now est.old est.new result }
{
    let last = count(list);
    let mut added = 0;
    for i in 0..last {
        if room < added {
            return added;
        }
        let w = choice_at(list, i + 1);
        let p = within(choice_place(w), l.size);
        let k = choice_clause(w);
        let f = choice_target(w);
        added += step(words, links, masks, est, h, l, p, k, f);
    }
    added
}

// The choices of a list, then what the worklist chooses, until nothing waits or more than `room` facts are added.
fn events(
    words: &[u32],
    links: &[u32],
    masks: &[u32],
    est: &mut [u32],
    h: &mut [u32],
    out: &mut [u32],
    l: Layout,
    room: usize,
) -> usize
    requires { Ready words.now links.now masks.now l × WellFormed (code words.now) est.old }
    ensures { Exhausted words.now links.now l.size out.old est.old est.new result }
{
    let mut added = 0;
    let mut turn = 0;
    for event in 0..EVENTS {
        if room < added {
            return added;
        }
        added += drain(words, links, masks, est, h, out, l, room - added);
        let Some(after) = next(words, links, masks, est, h, out, l, turn) else {
            return added;
        };
        turn = after;
    }
    added
}

// The entries of all blocks, and what follows from them, until nothing waits or more than `room` facts are added.
pub fn follow(
    words: &[u32],
    links: &[u32],
    masks: &[u32],
    est: &mut [u32],
    h: &mut [u32],
    out: &mut [u32],
    l: Layout,
    rho: PermSet,
    room: usize,
) -> usize
    requires { Ready words.now links.now masks.now l × WellFormed (code words.now) est.old }
    ensures { Grown (code words.now) rho.bits est.old est.new result }
{
    prepare(words, links, h);
    let size = l.size;
    let mut added = 0;
    let mut p = 1;
    // From block to block by the links: no range.
    while p < size {
        added += enter(words, est, h, l, rho, p);
        p = past(links, p + 3);
    }
    if room < added {
        return added;
    }
    added + events(words, links, masks, est, h, out, l, room - added)
}

// The entries and clauses of all words, and what follows from them, until more than `room` facts are added.
pub fn sweep(
    words: &[u32],
    links: &[u32],
    masks: &[u32],
    est: &mut [u32],
    h: &mut [u32],
    out: &mut [u32],
    l: Layout,
    rho: PermSet,
    room: usize,
) -> usize
    requires { Ready words.now links.now masks.now l × WellFormed (code words.now) est.old × (1 < length out.old) }
    ensures { Tried (code words.now) rho.bits (λ e. Estimate (code words.now) rho.bits (sets (code words.now) e))
        est.old est.new result }
{
    let last = CLAUSES * l.size;
    let mut added = 0;
    for i in 0..last {
        if room < added {
            return added;
        }
        let p = i / CLAUSES;
        out[0] = 1;
        out[1] = choice_word(i % CLAUSES, p, 0);
        added += enter(words, est, h, l, rho, p)
            + events(words, links, masks, est, h, out, l, room);
    }
    added
}
