// A row by itself, lent from its own start, and a row of an estimate that is or-ed into another.
ghost use Rattle.std.specs.Prelude.{◌≡◌, ℕ, List, [], ◌∷◌, ◌+◌, ◌*◌, ◌/◌, ◌%◌, ◌^◌, ◌<◌, ◌≤◌, length, drop, take};
ghost use Rattle.calculus.specs.Layout.{masked};
ghost use Rattle.calculus.specs.ResultWords.{nonzero};
ghost use Rattle.rows.specs.Rows.{Poured, NextCommon, Sifted, meets, lacking};

// Sets bits of the word k, and answers how many that added.
pub fn set(row: &mut [u32], k: usize, bits: u32) -> usize
    requires { k < length row.old }
    ensures { Poured row.old row.new k (bits ∷ []) result }
{
    let old = row[k];
    let new = old | bits;
    if new == old {
        return 0;
    }
    row[k] = new;
    u32::count_ones(new ^ old) as usize
}

// Sets the bit v of a row, and answers 1 where that is new, else 0.
pub fn put(row: &mut [u32], v: usize) -> usize
    requires { v < 32 * length row.old }
    ensures { Poured row.old row.new (v / 32) (2 ^ (v % 32) ∷ []) result }
{
    let k = v / 32;
    let bit = 1u32 << (v % 32) as u32;
    let old = row[k];
    if old & bit == 0 {
        row[k] = old | bit;
        return 1;
    }
    0
}

// Sets bits of the four words from k on, and answers how many that added. Four are or-ed in or left alone together: the compiler takes them at once.
fn set_four(row: &mut [u32], k: usize, a: u32, b: u32, c: u32, d: u32) -> usize
    requires { k + 4 ≤ length row.old }
    ensures { Poured row.old row.new k (a ∷ b ∷ c ∷ d ∷ []) result }
{
    let w = row[k];
    let x = row[k + 1];
    let y = row[k + 2];
    let z = row[k + 3];
    let e = (w | a) ^ w;
    let f = (x | b) ^ x;
    let g = (y | c) ^ y;
    let h = (z | d) ^ z;
    if (e | f) | (g | h) == 0 {
        return 0;
    }
    row[k] = w | a;
    row[k + 1] = x | b;
    row[k + 2] = y | c;
    row[k + 3] = z | d;
    let low = u32::count_ones(e) + u32::count_ones(f);
    let high = u32::count_ones(g) + u32::count_ones(h);
    (low + high) as usize
}

// Or-s into the row b of an estimate what counts of each word of its row a, by the word's place, and answers how many bits that added.
// Four words are read before one is written: the compiler then takes them at once, as in set_four.
fn join_counting<F: Fn(usize, u32) -> u32>(
    est: &mut [u32],
    row: usize,
    a: usize,
    b: usize,
    counts: F,
) -> usize
    requires rows { (a * row + row ≤ length est.old) × (b * row + row ≤ length est.old) × (row < 64) }
    requires callable { (k w : ℕ) → k < row → w < 2 ^ 32 → F.pre counts k w }
    ensures { (ws : List ℕ) × Sifted (F.post counts) (take row (drop (a * row) est.old)) ws × Poured est.old est.new (b * row) ws result }
{
    let from = a * row;
    let to = b * row;
    let fours = row / 4;
    let mut added = 0;
    for k in 0..fours {
        let i = 4 * k;
        let w = counts(i, est[from + i]);
        let x = counts(i + 1, est[from + i + 1]);
        let y = counts(i + 2, est[from + i + 2]);
        let z = counts(i + 3, est[from + i + 3]);
        added += set_four(&mut est[to..to + row], i, w, x, y, z);
    }
    for i in 4 * fours..row {
        let bits = counts(i, est[from + i]);
        added += set(&mut est[to..to + row], i, bits);
    }
    added
}

// Or-s the row a of an estimate into its row b, and answers how many bits that added.
pub fn join(est: &mut [u32], row: usize, a: usize, b: usize) -> usize
    requires { (a * row + row ≤ length est.old) × (b * row + row ≤ length est.old) × (row < 64) }
    ensures { Poured est.old est.new (b * row) (take row (drop (a * row) est.old)) result }
{
    join_counting(est, row, a, b, |_, word| word)
}

// The same for what the row a has in common with a mask.
pub fn join_masked(est: &mut [u32], mask: &[u32], row: usize, a: usize, b: usize) -> usize
    requires { (a * row + row ≤ length est.old) × (b * row + row ≤ length est.old) × (row < 64) × (length mask.now ≡ row) }
    ensures { Poured est.old est.new (b * row) (masked mask.now (take row (drop (a * row) est.old))) result }
{
    join_counting(est, row, a, b, |i, word| mask[i] & word)
}

// Whether some word is not 0. No branch: the compiler takes several words at a time.
pub fn some(words: &[u32]) -> bool
    ensures { result ≡ nonzero words.now }
{
    let mut bits = 0u32;
    for word in words {
        bits |= *word;
    }
    bits != 0
}

// The first word from `from` on that two rows have something in common in; `from` or their length where there is none.
pub fn next_common(row: &[u32], other: &[u32], from: usize) -> usize
    requires { length other.now ≡ length row.now }
    ensures { NextCommon row.now other.now from result }
{
    for i in from..row.len() {
        if row[i] & other[i] != 0 {
            return i;
        }
    }
    usize::max(from, row.len())
}

// Whether a row has something in common with a mask.
pub fn any(row: &[u32], mask: &[u32]) -> bool
    requires { length mask.now ≡ length row.now }
    ensures { result ≡ meets mask.now row.now }
{
    next_common(mask, row, 0) < mask.len()
}

// Whether the row of so many words at `to` lacks something of what counts of each word of the one at `from`, by the word's place.
fn lacks_counting<F: Fn(usize, u32) -> u32>(
    est: &[u32],
    row: usize,
    from: usize,
    to: usize,
    counts: F,
) -> bool
    requires rows { (from + row ≤ length est.now) × (to + row ≤ length est.now) }
    requires callable { (k w : ℕ) → k < row → w < 2 ^ 32 → F.pre counts k w }
    ensures { (ws : List ℕ) × Sifted (F.post counts) (take row (drop from est.now)) ws × (result ≡ lacking ws (take row (drop to est.now))) }
{
    let mut missing = 0u32;
    for i in 0..row {
        let x = counts(i, est[from + i]);
        missing |= x ^ (x & est[to + i]);
    }
    missing != 0
}

// Whether the row of so many words at `to` lacks something of the one at `from`.
pub fn lacks(est: &[u32], row: usize, from: usize, to: usize) -> bool
    requires { (from + row ≤ length est.now) × (to + row ≤ length est.now) }
    ensures { result ≡ lacking (take row (drop from est.now)) (take row (drop to est.now)) }
{
    lacks_counting(est, row, from, to, |_, word| word)
}

// Whether the row of so many words at `to` lacks something of what the one at `from` has in common with a mask.
pub fn lacks_masked(est: &[u32], mask: &[u32], row: usize, from: usize, to: usize) -> bool
    requires { (from + row ≤ length est.now) × (to + row ≤ length est.now) × (length mask.now ≡ row) }
    ensures { result ≡ lacking (masked mask.now (take row (drop from est.now))) (take row (drop to est.now)) }
{
    lacks_counting(est, row, from, to, |i, word| mask[i] & word)
}
