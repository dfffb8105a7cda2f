// Numbers: number = [ minus ] int [ frac ] [ exp ].
ghost use Rattle.std.specs.Prelude.{◌≡◌, drop};
ghost use Rattle.json_text.specs.Numbers.{digits, some_digits, minus, int, frac, sign, exp, number};
ghost use Rattle.json_text.specs.Answers.{ended};

use crate::bytes::{byte, is_either, is_within};

// The place behind the digits at a place, as in `space`.
fn digits(text: &[u8], at: usize) -> usize
    ensures { drop result text.now ≡ digits (drop at text.now) }
{
    let mut p = at;
    while is_within(48, 57, byte(text, p)) {
        p += 1;
    }
    p
}

#[tactic(auto, using(crate::proofs::Places::reading), unfolding(crate::specs::Numbers::some_digits))]
fn some_digits(text: &[u8], at: usize) -> Option<usize>
    ensures { ended text.now result ≡ some_digits (drop at text.now) }
{
    if is_within(48, 57, byte(text, at)) {
        Some(digits(text, at + 1))
    } else {
        None
    }
}

#[tactic(auto, using(crate::proofs::Places::reading), unfolding(crate::specs::Numbers::minus))]
fn minus(text: &[u8], at: usize) -> usize
    ensures { drop result text.now ≡ minus (drop at text.now) }
{
    if byte(text, at) == 45 { at + 1 } else { at }
}

#[tactic(auto, using(crate::proofs::Places::reading), unfolding(crate::specs::Numbers::int))]
fn int(text: &[u8], at: usize) -> Option<usize>
    ensures { ended text.now result ≡ int (drop at text.now) }
{
    if byte(text, at) == 48 {
        Some(at + 1)
    } else {
        some_digits(text, at)
    }
}

#[tactic(auto, using(crate::proofs::Places::reading), unfolding(crate::specs::Numbers::frac))]
fn frac(text: &[u8], at: usize) -> Option<usize>
    ensures { ended text.now result ≡ frac (drop at text.now) }
{
    if byte(text, at) == 46 {
        some_digits(text, at + 1)
    } else {
        Some(at)
    }
}

#[tactic(auto, using(crate::proofs::Places::reading), unfolding(crate::specs::Numbers::sign))]
fn sign(text: &[u8], at: usize) -> usize
    ensures { drop result text.now ≡ sign (drop at text.now) }
{
    if is_either(45, 43, byte(text, at)) {
        at + 1
    } else {
        at
    }
}

#[tactic(auto, using(crate::proofs::Places::reading), unfolding(crate::specs::Numbers::exp))]
fn exp(text: &[u8], at: usize) -> Option<usize>
    ensures { ended text.now result ≡ exp (drop at text.now) }
{
    if is_either(101, 69, byte(text, at)) {
        some_digits(text, sign(text, at + 1))
    } else {
        Some(at)
    }
}

#[tactic(auto, using(crate::proofs::Places::reading), unfolding(crate::specs::Numbers::number, crate::specs::Bytes::then))]
pub fn number(text: &[u8], at: usize) -> Option<usize>
    ensures { ended text.now result ≡ number (drop at text.now) }
{
    let p = int(text, minus(text, at))?;
    let q = frac(text, p)?;
    exp(text, q)
}
