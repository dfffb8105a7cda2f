// Before the first step: the parents, the uses of binders, and the turns of rows. A row's turn comes where the machine makes its values: B of a
// block or a function before its body, B of a let before its second part, and C of a word, after B of what it makes, when all its parts are done.
ghost use Rattle.std.specs.Prelude.{◌<◌, ◌≤◌, length};
ghost use Rattle.worklist.specs.Memory.{Kept};

use crate::memory::{MOST, PARENT, PER_ROW, PER_WORD, ROW, TURN, TURNS, USE, planned, put};
use crate::view::{close, has_rows, kind_within, link};
use table::kinds;

// The next turn, and the innermost word that is not done: word 0, the head of the table, round all others.
#[derive(Clone, Copy)]
struct Place {
    turn: usize,
    word: usize,
}

// The row r has the turn t. Answers the next turn.
fn give(h: &mut [u32], t: usize, r: usize) -> usize
    requires { r < 2048 }
{
    let turn = t % TURNS;
    put(h, TURN + PER_ROW * r, turn);
    put(h, ROW + PER_ROW * turn, r);
    turn + 1
}

// The same, for a row that has a turn of its own only if `due`.
fn give_if(h: &mut [u32], t: usize, r: usize, due: bool) -> usize
    requires { r < 2048 }
{
    if due { give(h, t, r) } else { t }
}

// The word q is done. A record or a cell holds what it makes, in B.
fn leave(words: &[u32], h: &mut [u32], t: usize, q: usize) -> usize
    requires { (q < length words.now) × (length words.now ≤ 1024) }
{
    let kind = kind_within(words, q);
    let held = kind == kinds::RECORD || kind == kinds::SET || kind == kinds::CELL;
    let turn = give_if(h, t, 2 * q + 1, held);
    give(h, turn, 2 * q)
}

// Leaves the words that are done before p.
fn leave_all(words: &[u32], links: &[u32], h: &mut [u32], place: Place, p: usize) -> Place
    requires { (place.word < length words.now) × (length words.now ≤ 1024) }
    ensures { result.word < length words.now }
{
    let mut turn = place.turn;
    let mut q = place.word;
    // From each word to the one round it: no range.
    while 0 < q {
        if p < close(words, links, q) {
            return Place { turn, word: q };
        }
        turn = leave(words, h, turn, q);
        let around = planned(h, PARENT, q);
        q = if around < q { around } else { 0 };
    }
    Place { turn, word: 0 }
}

// A variable at p is the last use of its binder so far.
fn add_use(words: &[u32], links: &[u32], h: &mut [u32], p: usize)
    requires { (p < length words.now) × (length words.now ≤ 1024) }
{
    if kind_within(words, p) == kinds::VARIABLE {
        let b = link(links, p).binder;
        let before = planned(h, USE, b);
        put(h, USE + PER_WORD * p, before);
        put(h, USE + PER_WORD * b, p);
    }
}

// The word p, a part of q. A let has its value before its second part; what a block or a function binds comes from outside, before its body.
fn enter(words: &[u32], links: &[u32], h: &mut [u32], t: usize, q: usize, p: usize) -> usize
    requires { (q < length words.now) × (p < length words.now) × (length words.now ≤ 1024) }
{
    put(h, PARENT + PER_WORD * p, q);
    add_use(words, links, h, p);
    let bound = kind_within(words, q) == kinds::LET && p != q + 1;
    let turn = give_if(h, t, 2 * q + 1, bound);
    let kind = kind_within(words, p);
    let opened = kind == kinds::BLOCK || kind == kinds::FUNCTION;
    give_if(h, turn, 2 * p + 1, opened)
}

fn prepare_word(words: &[u32], links: &[u32], h: &mut [u32], place: Place, p: usize) -> Place
    requires { (place.word < length words.now) × (p < length words.now) × (length words.now ≤ 1024) }
    ensures { result.word < length words.now }
{
    if has_rows(kind_within(words, p)) {
        let at = leave_all(words, links, h, place, p);
        let turn = enter(words, links, h, at.turn, at.word, p);
        return Place { turn, word: p };
    }
    place
}

// Fills a memory of zeros; nothing for more than MOST words.
pub fn prepare(words: &[u32], links: &[u32], h: &mut [u32])
    ensures { Kept h.old h.new }
{
    let n = words.len();
    if n == 0 || MOST < n {
        return;
    }
    let mut place = Place { turn: 0, word: 0 };
    for p in 1..n {
        place = prepare_word(words, links, h, place, p);
    }
    leave_all(words, links, h, place, n);
}
