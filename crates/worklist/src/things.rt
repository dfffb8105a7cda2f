// What acts on things: the terms that follow the functions, records or cells of their first part, and the sends that follow blocks.
ghost use Rattle.std.specs.Prelude.{◌<◌, length};

use crate::chosen::{choose, choose_unless};
use crate::clause;
use crate::memory::{BITS, MOST, PER_WORD, RECEIVER, TURNS, at_followers, has_bit, lowest, put};
use crate::sets::{follow, next_follower};
use crate::view::{flags, kind_at, past, row_at, width};
use rows::layout::Layout;
use rows::row::next_common;
use table::{argument_of, kinds};

// The masks, by the rows where they stand.
const FUNCTIONS: usize = 0;

const RECORDS: usize = 1;

const CELLS: usize = 2;

// The element of the first name.
const NAMES: usize = 32;

// Below the live flag stand the permissions.
const LIVE_FLAG: u32 = 16777216;

// The term p, of a kind, whose second part is at d, meets the thing f. What of it waits comes at its turn.
fn meet(h: &[u32], out: &mut [u32], kind: u32, d: usize, p: usize, f: usize)
    requires { (d < 2048) × (f < 4096) }
{
    match kind {
        kinds::APPLY => {
            choose(out, clause::APPLY_ENTER, p, f);
            choose_unless(h, out, 2 * d, clause::APPLY_HAND, p, f);
            choose_unless(h, out, 2 * f + 2, clause::APPLY_BACK, p, f);
        }
        kinds::GET => choose_unless(h, out, 2 * f + 1, clause::GET_TAKE, p, f),
        kinds::SET => choose_unless(h, out, 2 * f + 1, clause::SET_TAKE, p, f),
        kinds::READ => choose_unless(h, out, 2 * f + 1, clause::READ_TAKE, p, f),
        _ => choose_unless(h, out, 2 * d, clause::ASSIGN_HAND, p, f),
    }
}

// The mask of the things that a term of a kind acts on. No `From`: kinds and masks are numbers among others here.
fn mask_of(kind: u32) -> usize
    ensures { result < 4 }
{
    match kind {
        kinds::APPLY => FUNCTIONS,
        kinds::GET | kinds::SET => RECORDS,
        _ => CELLS,
    }
}

// The same, if p did not follow f before; it does from then on.
fn meet_once(h: &mut [u32], out: &mut [u32], n: usize, kind: u32, d: usize, p: usize, f: usize)
    requires { (d < 2048) × (f < 4096) }
{
    if follow(h, n, f, p) {
        meet(h, out, kind, d, p, f);
    }
}

// The things that are bits of one word, the first of them f, as far as they are new to p.
fn meet_word(
    h: &mut [u32],
    out: &mut [u32],
    n: usize,
    kind: u32,
    d: usize,
    p: usize,
    f: usize,
    members: u32,
)
    requires { (d < 2048) × (f < 2048) }
{
    let mut bits = members;
    while let Some(i) = lowest(bits) {
        meet_once(h, out, n, kind, d, p, f + i);
        bits &= bits - 1;
    }
}

// The things of C(p + 1) that are new to p.
pub fn meet_new(
    masks: &[u32],
    est: &[u32],
    h: &mut [u32],
    out: &mut [u32],
    l: Layout,
    kind: u32,
    d: usize,
    p: usize,
)
    requires { (d < 2048) × (p < 1024) }
{
    let at = row_at(l, 2 * (p + 1));
    let mask = row_at(l, mask_of(kind));
    let first = l.lead;
    let end = width(l);
    if est.len() < at + end || masks.len() < mask + end {
        return;
    }
    let row = &est[at..at + end];
    let sort = &masks[mask..mask + end];
    let mut k = next_common(row, sort, first);
    // From one word with a bit to the next: no range.
    while k < end {
        let bits = row[k] & sort[k];
        meet_word(h, out, l.size, kind, d, p, BITS * (k - first), bits);
        k = next_common(row, sort, k + 1);
    }
}

// The block b is followed by the send at p, if its name is in the row of an estimate that starts at a word. Answers the target of a choice for
// the blocks that were found, where `found` is that so far: the only block, 0 if there are more.
fn follow_name(
    words: &[u32],
    est: &[u32],
    h: &mut [u32],
    n: usize,
    at: usize,
    p: usize,
    b: usize,
    found: Option<usize>,
) -> Option<usize>
    requires { (at < 4294967296) × (b < length words.now) }
{
    let name = argument_of(words[b]) as usize;
    if !has_bit(est, at, NAMES + name) {
        return found;
    }
    follow(h, n, b, p);
    Some(if found.is_none() { b } else { 0 })
}

// The blocks of a name in C(p + 1) are followed by the send at p, and noted as its receivers, in a word of the memory: MOST where there are none.
pub fn follow_names(words: &[u32], links: &[u32], est: &[u32], h: &mut [u32], l: Layout, p: usize)
    requires { p < 1024 }
{
    let at = row_at(l, 2 * (p + 1));
    let end = words.len() % TURNS;
    let mut found = None;
    let mut b = 1;
    // From block to block by the links: no range.
    while b < end {
        found = follow_name(words, est, h, l.size, at, p, b, found);
        b = past(links, b + 3);
    }
    put(h, RECEIVER + PER_WORD * p, found.unwrap_or(MOST));
}

// The word p, which acts on f, takes what f holds or gives.
fn take_from(words: &[u32], out: &mut [u32], p: usize, f: usize) {
    match kind_at(words, p) {
        kinds::APPLY => choose(out, clause::APPLY_BACK, p, f),
        kinds::GET => choose(out, clause::GET_TAKE, p, f),
        kinds::SET => choose(out, clause::SET_TAKE, p, f),
        kinds::READ => choose(out, clause::READ_TAKE, p, f),
        _ => {}
    }
}

// What f holds or gives has grown: those who act on it take it.
pub fn notify(words: &[u32], h: &[u32], out: &mut [u32], n: usize, f: usize) {
    let base = at_followers(n, f);
    let mut from = 0;
    while let Some(p) = next_follower(h, base, from) {
        take_from(words, out, p, f);
        from = p + 1;
    }
}

// The word p has clause k for f, if it lacks some of the permissions in `set`.
fn tell_one(est: &[u32], out: &mut [u32], l: Layout, k: usize, p: usize, f: usize, set: u32) {
    if set & !flags(est, l, p) != 0 {
        choose(out, k, p, f);
    }
}

// The followers of f that lack some of P(q) have clause k for f.
pub fn tell(est: &[u32], h: &[u32], out: &mut [u32], l: Layout, k: usize, f: usize, q: usize) {
    let base = at_followers(l.size, f);
    let set = flags(est, l, q) % LIVE_FLAG;
    let mut from = 0;
    while let Some(p) = next_follower(h, base, from) {
        tell_one(est, out, l, k, p, f, set);
        from = p + 1;
    }
}
