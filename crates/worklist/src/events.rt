// The clauses that an event calls for.
ghost use Rattle.std.specs.Prelude.{◌<◌, ◌≤◌, length};

use crate::chosen::{choose, choose_some, choose_unless};
use crate::clause;
use crate::memory::{MOST, PARENT, PER_WORD, RECEIVER, USE, get, planned};
use crate::sets::waits;
use crate::things::{follow_names, meet_new, notify, tell};
use crate::view::{close, has_rows, kind_at, kind_within, link, past, row_at};
use choices::word;
use rows::layout::Layout;
use table::kinds;

// The strings among the elements of the first word of a row.
const STRINGS: u32 = 4294967040;

// ---- live words

// The word p, which is live: its value, and its parts.
fn start(words: &[u32], links: &[u32], h: &[u32], out: &mut [u32], p: usize)
    requires { p < length words.now }
{
    let kind = kind_within(words, p);
    match kind {
        kinds::VARIABLE => choose_unless(
            h,
            out,
            2 * link(links, p).binder + 1,
            clause::VALUE,
            p,
            0,
        ),
        kinds::CELL | kinds::SEND | kinds::EXERCISE => {
            choose_some(out, clause::PARTS, clause::OWN_END, p);
        }
        _ => if has_rows(kind) {
            choose(out, clause::PARTS, p, 0);
        },
    }
}

// The next word after p that may be live with it: past the body of a function.
fn after(words: &[u32], links: &[u32], p: usize) -> usize
    requires { (p < length words.now) × (p < 2048) }
    ensures { p < result }
{
    if kind_within(words, p) == kinds::FUNCTION {
        past(links, p)
    } else {
        p + 1
    }
}

// The word p, if it is live with the words before it: no branch of an if and no body of a while is. Answers the next word that may be.
fn visit(words: &[u32], links: &[u32], h: &[u32], out: &mut [u32], p: usize) -> usize
    requires { (p < length words.now) × (p < 2048) }
    ensures { p < result }
{
    let q = planned(h, PARENT, p);
    let kind = kind_at(words, q);
    if (kind == kinds::IF || kind == kinds::WHILE) && p != q + 1 {
        return past(links, p);
    }
    start(words, links, h, out, p);
    after(words, links, p)
}

// The block or the term at q is live, and what is live with it.
pub fn woke(words: &[u32], links: &[u32], h: &[u32], out: &mut [u32], q: usize)
    requires { q < 2048 }
{
    if words.len() <= q {
        return;
    }
    let e = close(words, links, q).min(words.len());
    start(words, links, h, out, q);
    let mut p = after(words, links, q);
    // Each word says which one is next: no range.
    while p < e {
        p = visit(words, links, h, out, p);
    }
}

// ---- rows

// A part of p, a get or a set whose second part is at d: nothing, until C(d) has a string.
fn record_part(
    masks: &[u32],
    est: &[u32],
    h: &mut [u32],
    out: &mut [u32],
    l: Layout,
    kind: u32,
    d: usize,
    p: usize,
)
    requires { (d < 2048) × (p < 1024) }
{
    if word(est, row_at(l, 2 * d)) & STRINGS == 0 {
        return;
    }
    let take = if kind == kinds::SET {
        clause::SET_TAKE
    } else {
        clause::GET_TAKE
    };
    choose_some(out, clause::RECORDS_FIRST, take, p);
    meet_new(masks, est, h, out, l, kind, d, p);
}

// Part i of p, a term that does not act on things, whose second part is at d.
fn plain_part(out: &mut [u32], kind: u32, d: usize, p: usize, i: usize)
    requires { p < 1024 }
{
    let first = i == p + 1;
    match kind {
        kinds::LET => if first {
            choose(out, clause::LET_BIND, p, 0);
        } else {
            choose(out, clause::LET_RESULT, p, 0);
        },
        kinds::SEQUENCE => if !first {
            choose(out, clause::SEQUENCE_RESULT, p, 0);
        },
        kinds::IF => if first {
            choose_some(out, clause::TESTS, clause::TESTS_END, p);
        } else if i == d {
            choose(out, clause::IF_THEN, p, 0);
        } else {
            choose(out, clause::IF_ELSE, p, 0);
        },
        kinds::WHILE => if first {
            choose_some(out, clause::TESTS, clause::TESTS_END, p);
        },
        kinds::OPERATION => choose(out, clause::OPERATION_RESULT, p, 0),
        kinds::DELETE => choose(out, clause::DELETE_RESULT, p, 0),
        kinds::CELL => choose(out, clause::CELL_HOLD, p, 0),
        _ => {}
    }
}

// A part of the send at p, whose message is at d: what is sent goes to the one block of its names, or to all where they have more.
fn send_part(h: &[u32], out: &mut [u32], d: usize, p: usize)
    requires { (d < 2048) × (p < 1024) }
{
    let b = get(h, RECEIVER + PER_WORD * p);
    if b < MOST && !waits(h, 2 * (p + 1)) {
        choose_unless(h, out, 2 * d, clause::SEND_SEND, p, b);
    }
}

// The value of i, a part of p, has grown.
fn part_grew(
    words: &[u32],
    links: &[u32],
    masks: &[u32],
    est: &[u32],
    h: &mut [u32],
    out: &mut [u32],
    l: Layout,
    i: usize,
)
    requires { i < 1024 }
{
    let p = planned(h, PARENT, i);
    let kind = kind_at(words, p);
    let first = i == p + 1;
    let d = link(links, p + 1).end;
    match kind {
        kinds::FUNCTION => notify(words, h, out, l.size, p),
        kinds::APPLY => if first {
            meet_new(masks, est, h, out, l, kind, d, p);
        } else {
            choose(out, clause::APPLY_HAND, p, 0);
        },
        kinds::GET | kinds::SET => record_part(masks, est, h, out, l, kind, d, p),
        kinds::READ => meet_new(masks, est, h, out, l, kind, d, p),
        kinds::ASSIGN => {
            choose(out, clause::ASSIGN_RESULT, p, 0);
            if first {
                meet_new(masks, est, h, out, l, kind, d, p);
            } else {
                choose(out, clause::ASSIGN_HAND, p, 0);
            }
        }
        kinds::SEND => if first {
            follow_names(words, links, est, h, l, p);
            send_part(h, out, d, p);
        } else {
            send_part(h, out, d, p);
        },
        _ => plain_part(out, kind, d, p, i),
    }
}

// The uses of the binder i, from the last to the first.
fn uses(h: &[u32], out: &mut [u32], i: usize)
    requires { i < 1024 }
{
    let mut v = planned(h, USE, i);
    // 0 is no use: the memory begins with zeros.
    while 0 < v {
        choose(out, clause::VALUE, v, 0);
        let before = planned(h, USE, v);
        v = if before < v { before } else { 0 };
    }
}

// The row r has grown.
pub fn row_grew(
    words: &[u32],
    links: &[u32],
    masks: &[u32],
    est: &[u32],
    h: &mut [u32],
    out: &mut [u32],
    l: Layout,
    r: usize,
)
    requires { r < 2048 }
{
    let i = r / 2;
    if r % 2 == 0 {
        part_grew(words, links, masks, est, h, out, l, i);
    } else if kind_at(words, i) < kinds::RECORD {
        uses(h, out, i);
    } else {
        notify(words, h, out, l.size, i);
    }
}

// ---- permissions

// The permissions of the word i have grown.
pub fn permissions_grew(words: &[u32], est: &[u32], h: &[u32], out: &mut [u32], l: Layout, i: usize)
    requires { i < 2048 }
{
    if kind_at(words, i) == kinds::BLOCK {
        tell(est, h, out, l, clause::SEND_SEND, i, i);
        return;
    }
    let q = planned(h, PARENT, i);
    if kind_at(words, q) == kinds::FUNCTION {
        tell(est, h, out, l, clause::APPLY_LOWER, q, i);
    } else {
        choose(out, clause::PARTS, q, 0);
    }
}
