// What a word gives by itself, as bits of the first word of a row: constants, the signs of numbers, and the results of operations.
#![tactic(auto)]

ghost use Rattle.std.specs.Prelude.{◌≡◌, ◌∷◌, ◌+◌, ◌^◌, ◌<◌, ◌≤◌, length, get_or, take, drop};
ghost use Rattle.permset.specs.Sets.{member};
ghost use Rattle.calculus.specs.Estimate.{facts};
ghost use Rattle.calculus.specs.ResultWords.{sign_entry, signs_below, nonzero, same_mask, apart, apart_mask, equal_mask, operation_mask};
ghost use Rattle.results.specs.Signs.{sign_table};

use rows::row::{any, some};
use table::Operation;

// Bits of a first word: the truths, the signs from the negative one on, the elements that stand for more than one value, and all but the opponent's record.
const TRUE: u32 = 4;

const FALSE: u32 = 8;

const NEGATIVE: u32 = 16;

const SIGNS: u32 = 112;

const SEVERAL: u32 = 336;

const COMPARABLE: u32 = 4294967167;

// Digit i of a word.
#[tactic(auto, unfolding(permset::specs::Sets::member))]
fn has_digit(x: u32, i: u32) -> bool
    requires { i < 32 }
    ensures { result ≡ member x i }
{
    (x >> i) % 2 == 1
}

// The word whose one digit is i.
pub fn digit(i: u32) -> u32
    requires { i < 32 }
    ensures { result ≡ 2 ^ i }
{
    1u32 << i
}

// What pair i of signs gives: the first is i / 3, the second i % 3.
fn sign_result(sum: bool, i: usize) -> u32
    requires { i < 9 }
    ensures { result ≡ get_or (sign_table sum) i 0 }
{
    // negative 0, zero 1, positive 2
    let x = i / 3;
    let y = i % 3;
    if sum {
        // equal signs stay, zero is neutral, opposite signs give all three
        if x == y {
            return NEGATIVE << x;
        }
        if x == 1 {
            return NEGATIVE << y;
        }
        return if y == 1 { NEGATIVE << x } else { SIGNS };
    }
    // negative, zero, positive in that order; equal non-zero signs give both truths, zero with zero false
    if x == y {
        return if x == 1 { FALSE } else { TRUE | FALSE };
    }
    if x < y { TRUE } else { FALSE }
}

// The entry of pair i if both rows have its signs.
#[tactic(auto, unfolding(calculus::specs::ResultWords::sign_entry))]
fn sign_entry(sum: bool, x: u32, y: u32, i: usize) -> u32
    requires { i < 9 }
    ensures { result ≡ sign_entry (sign_table sum) x y i }
{
    if has_digit(x, (4 + i / 3) as u32) && has_digit(y, (4 + i % 3) as u32) {
        sign_result(sum, i)
    } else {
        0
    }
}

#[tactic(auto, unfolding(calculus::specs::ResultWords::signs_below))]
fn signs(sum: bool, x: u32, y: u32) -> u32
    ensures { result ≡ signs_below (sign_table sum) x y 9 }
{
    let mut r = 0u32;
    for i in 0..9 {
        r |= sign_entry(sum, x, y, i);
    }
    r
}

// How many digits words have.
fn count(words: &[u32]) -> u32
    requires { length words.now ≤ 36 }
    ensures { result ≡ facts words.now }
{
    let mut n = 0u32;
    for word in words {
        n += u32::count_ones(*word);
    }
    n
}

// A side of an operation is its first word, x or y, and the words of names after it, a or d.

// Whether a side has an element.
#[tactic(auto, unfolding(calculus::specs::ResultWords::nonzero))]
fn any_element(x: u32, a: &[u32]) -> bool
    ensures { result ≡ nonzero (x ∷ a.now) }
{
    x != 0 || some(a)
}

#[tactic(auto, using(rows::proofs::Laws::meets_nonzero), unfolding(calculus::specs::ResultWords::same_mask, calculus::specs::ResultWords::nonzero, calculus::specs::Layout::masked))]
fn same_bits(x: u32, y: u32, a: &[u32], d: &[u32]) -> u32
    requires { length a.now ≡ length d.now }
    ensures { result ≡ same_mask (x ∷ a.now) (y ∷ d.now) }
{
    if x & y != 0 || any(d, a) { TRUE } else { 0 }
}

// Whether the sides give two different values.
#[tactic(auto, using(crate::proofs::Apart::apart_tests))]
fn differ(x: u32, y: u32, a: &[u32], d: &[u32]) -> bool
    requires { (length a.now ≡ length d.now) × (length a.now ≤ 36) }
    ensures { result ≡ apart (x ∷ a.now) (y ∷ d.now) }
{
    x & y & SEVERAL != 0 || x != y || a != d || 1 < u32::count_ones(x) + count(a)
}

#[tactic(auto, unfolding(calculus::specs::ResultWords::apart_mask))]
fn differ_bits(x: u32, y: u32, a: &[u32], d: &[u32]) -> u32
    requires { (length a.now ≡ length d.now) × (length a.now ≤ 36) }
    ensures { result ≡ apart_mask (x ∷ a.now) (y ∷ d.now) }
{
    if differ(x, y, a, d) { FALSE } else { 0 }
}

// Equal, where 7 is left out: same gives true, different gives false.
#[tactic(auto, unfolding(calculus::specs::ResultWords::equal_mask))]
fn compare(x: u32, y: u32, a: &[u32], d: &[u32]) -> u32
    requires { (length a.now ≡ length d.now) × (length a.now ≤ 36) }
    ensures { result ≡ equal_mask (x ∷ a.now) (y ∷ d.now) }
{
    if !any_element(x, a) || !any_element(y, d) {
        return 0;
    }
    same_bits(x, y, a, d) | differ_bits(x, y, a, d)
}

// The results of an operation on two sides; 7 is not compared.
#[tactic(auto, unfolding(calculus::specs::ResultWords::operation_mask, calculus::specs::ResultWords::comparables, crate::specs::Signs::sign_table))]
fn operate(o: Operation, x: u32, y: u32, a: &[u32], d: &[u32]) -> u32
    requires { (length a.now ≡ length d.now) × (length a.now ≤ 36) }
    ensures { result ≡ operation_mask o (x ∷ a.now) (y ∷ d.now) }
{
    match o {
        Operation::Add => signs(true, x, y),
        Operation::Less => signs(false, x, y),
        Operation::Equal => compare(x & COMPARABLE, y & COMPARABLE, a, d),
    }
}

// The results of an operation on the sides of `lead` words that start at the words x and y.
pub fn operate_at(est: &[u32], lead: usize, o: Operation, x: usize, y: usize) -> u32
    requires { (x + lead ≤ length est.now) × (y + lead ≤ length est.now) × (1 ≤ lead) × (lead ≤ 36) }
    ensures { result ≡ operation_mask o (take lead (drop x est.now)) (take lead (drop y est.now)) }
{
    operate(
        o,
        est[x],
        est[y],
        &est[x + 1..x + lead],
        &est[y + 1..y + lead],
    )
}
