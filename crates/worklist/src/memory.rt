// Where the parts of a memory stand, which `memory_words` of specs/Memory.antt lists, and how they are read and written. One slice holds them all,
// at offsets: there is no heap, and their lengths go by the table.
ghost use Rattle.std.specs.Prelude.{◌≡◌, ◌+◌, ◌/◌, ◌<◌, ◌≤◌, IfSome, length, get_or};
ghost use Rattle.std.specs.Int.{bit_at};

use choices::word;

// The most words of a table, and the most turns: two rows for each.
pub const MOST: usize = 1024;

pub const TURNS: usize = 2048;

// The bits of a word; the words that a set of turns and a set of words of the table need; and how many summary words these have.
pub const BITS: usize = 32;

pub const TURN_WORDS: usize = TURNS / BITS;

pub const WORDS: usize = MOST / BITS;

pub const TURN_TOPS: usize = TURN_WORDS / BITS;

pub const TOPS: usize = WORDS / BITS;

// The three sets of what waits.
pub const ROWS: usize = 0;

pub const LIVE: usize = ROWS + TURN_TOPS + TURN_WORDS;

pub const PERMISSIONS: usize = LIVE + TOPS + WORDS;

// The plan has so many words for each row, where 2p is C(p) and 2p + 1 is B(p), and for each word of the table.
pub const PER_ROW: usize = 3;

pub const PER_WORD: usize = 2 * PER_ROW;

// From TURN on the turn of each row, from ROW on the row of each turn; from PARENT on of each word the word that it is a part of, and from USE on
// the last use of a binder or the use before a use.
pub const TURN: usize = PERMISSIONS + TOPS + WORDS;

pub const ROW: usize = TURN + 1;

pub const PARENT: usize = TURN + 2;

pub const USE: usize = TURN + 5;

// A send is no binder and no use.
pub const RECEIVER: usize = USE;

// One more than the largest number that a word holds.
pub const LIMIT: usize = 4294967296;

// The set of the followers of f.
pub fn at_followers(n: usize, f: usize) -> usize
    ensures { result < 131072 }
{
    let size = n % TURNS;
    TURN + PER_WORD * size + f % MOST * (size / BITS + 1 + TOPS)
}

// The word at a place as a number, 0 past the end, as `choices::word` has it.
pub fn get(h: &[u32], i: usize) -> usize
    ensures { (result ≡ get_or h.now i 0) × (result < 4294967296) }
{
    word(h, i) as usize
}

// Writes a number; nothing past the end.
pub fn put(h: &mut [u32], i: usize, v: usize) {
    if i < h.len() {
        h[i] = (v % LIMIT) as u32;
    }
}

// Bit i of the words from a place on.
pub fn set_bit(h: &mut [u32], at: usize, i: usize)
    requires { (i < 4294967296) × (at + i / 32 < length h.old) }
{
    let k = at + i / BITS;
    h[k] = h[k] | (1u32 << (i % BITS) as u32);
}

pub fn has_bit(h: &[u32], at: usize, i: usize) -> bool
    requires { (at < 4294967296) × (i < 4294967296) }
{
    (word(h, at + i / BITS) >> (i % BITS) as u32) % 2 == 1
}

// The lowest bit of a word, and the highest.
pub fn lowest(w: u32) -> Option<usize>
    ensures { IfSome result (λ i. (i < 32) × (bit_at w i ≡ 1) × (0 < w)) }
{
    if w == 0 {
        None
    } else {
        Some(w.trailing_zeros() as usize)
    }
}

pub fn highest(w: u32) -> Option<usize>
    ensures { IfSome result (λ i. i < 32) }
{
    if w == 0 {
        None
    } else {
        Some((31 - w.leading_zeros()) as usize)
    }
}

// The lowest bit from i on.
pub fn lowest_from(w: u32, i: usize) -> Option<usize>
    requires { i < 32 }
    ensures { IfSome result (λ k. (i ≤ k) × (k < 32)) }
{
    let above = lowest(w >> i as u32)?;
    Some(i + above)
}

// The word at PARENT or USE of p.
pub fn planned(h: &[u32], part: usize, p: usize) -> usize
    requires { (part < 2048) × (p < 2048) }
    ensures { result < 1024 }
{
    get(h, part + PER_WORD * p) % MOST
}
