// Sets in the memory: s summary words, then a bit for each member.
ghost use Rattle.std.specs.Prelude.{◌+◌, ◌/◌, ◌<◌, ◌≤◌, IfSome, length};

use crate::memory::{
    BITS, MOST, PER_ROW, ROWS, TOPS, TURN, TURN_TOPS, TURN_WORDS, TURNS, WORDS, at_followers, get,
    has_bit, highest, lowest, lowest_from, set_bit,
};
use choices::word;

pub fn add(h: &mut [u32], base: usize, s: usize, i: usize)
    requires { (s ≤ 2) × (i < 2048) × (i / 1024 < s) × (base + s + i / 32 < length h.old) }
{
    set_bit(h, base, i / BITS);
    set_bit(h, base + s, i);
}

// Changes a bit of a word. Answers the word then.
fn flip(h: &mut [u32], at: usize, bit: usize) -> u32
    requires { (bit < 32) × (at < length h.old) }
{
    let w = h[at] ^ (1u32 << bit as u32);
    h[at] = w;
    w
}

// Takes bit d of word k out of a set, and that of the summary where nothing is left of the word.
fn take(h: &mut [u32], base: usize, s: usize, k: usize, d: usize) -> usize
    requires { (k < 64) × (d < 32) × (base + s + k < length h.old) }
    ensures { result < 2048 }
{
    if flip(h, base + s + k, d) == 0 {
        flip(h, base + k / BITS, k % BITS);
    }
    BITS * k + d
}

// The lowest member of a set with one summary word, and the highest. Not one function over `lowest` or `highest`: what is asked and promised of a
// function that is handed on is longer than both bodies.
pub fn take_low(h: &mut [u32], base: usize) -> Option<usize>
    requires { base + 33 ≤ length h.old }
    ensures { IfSome result (λ i. i < 2048) }
{
    let k = lowest(h[base])?;
    let bit = lowest(h[base + TOPS + k])?;
    Some(take(h, base, TOPS, k, bit))
}

pub fn take_high(h: &mut [u32], base: usize) -> Option<usize>
    requires { base + 33 ≤ length h.old }
    ensures { IfSome result (λ i. i < 2048) }
{
    let k = highest(h[base])?;
    let bit = highest(h[base + TOPS + k])?;
    Some(take(h, base, TOPS, k, bit))
}

// The first word from k on of the set of turns that has one.
fn word_from(h: &[u32], k: usize) -> Option<usize>
    requires { 2 ≤ length h.now }
    ensures { IfSome result (λ i. i < 64) }
{
    if k < BITS {
        let low = lowest_from(h[ROWS], k);
        if low.is_some() {
            return low;
        }
    }
    if TURN_WORDS <= k {
        return None;
    }
    let high = lowest_from(h[ROWS + 1], k.saturating_sub(BITS))?;
    Some(BITS + high)
}

// Takes the next turn that waits from t on, going round.
pub fn take_turn(h: &mut [u32], t: usize) -> Option<usize>
    requires { (t < 2048) × (66 ≤ length h.old) }
    ensures { IfSome result (λ i. i < 2048) }
{
    let k = t / BITS;
    if let Some(bit) = lowest_from(h[ROWS + TURN_TOPS + k], t % BITS) {
        return Some(take(h, ROWS, TURN_TOPS, k, bit));
    }
    let next = match word_from(h, k + 1) {
        Some(ahead) => ahead,
        None => word_from(h, 0)?,
    };
    let bit = lowest(h[ROWS + TURN_TOPS + next])?;
    Some(take(h, ROWS, TURN_TOPS, next, bit))
}

// Whether the row r waits, or has not grown yet. One word holds its turn and whether it has had it, by TURNS added.
pub fn waits(h: &[u32], r: usize) -> bool
    requires { r < 65536 }
{
    let turn = get(h, TURN + PER_ROW * r);
    turn < TURNS || has_bit(h, ROWS + TURN_TOPS, turn - TURNS)
}

// The word p follows f, a thing or a block; whether that is new.
pub fn follow(h: &mut [u32], n: usize, f: usize, p: usize) -> bool {
    let base = at_followers(n, f);
    let i = p % MOST;
    if h.len() <= base + TOPS + i / BITS {
        return false;
    }
    if has_bit(h, base + TOPS, i) {
        return false;
    }
    add(h, base, TOPS, i);
    true
}

// The next follower from `from` on, of those at `base`.
pub fn next_follower(h: &[u32], base: usize, from: usize) -> Option<usize>
    requires { base < 131072 }
    ensures { IfSome result (λ p. (from ≤ p) × (p < 1024)) }
{
    if MOST <= from {
        return None;
    }
    let k = from / BITS;
    if let Some(bit) = lowest_from(word(h, base + TOPS + k), from % BITS) {
        return Some(BITS * k + bit);
    }
    if WORDS <= k + 1 {
        return None;
    }
    let next = lowest_from(word(h, base), k + 1)?;
    let bit = lowest(word(h, base + TOPS + next))?;
    Some(BITS * next + bit)
}
