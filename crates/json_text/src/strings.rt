// Strings: their characters as UTF-16 units, and where they end.
ghost use Rattle.std.specs.Prelude.{◌≡◌, ◌≢◌, List, ℕ, ◌+◌, ◌*◌, ◌<◌, ◌≤◌, MatchOption, drop};
ghost use Rattle.json_text.specs.Bytes.{head};
ghost use Rattle.json_text.specs.Strings.{hex_of, hexed, hex_unit, escape_of, escaped, continued, low, high, second, point_of, pointed, character, string};
ghost use Rattle.json_text.specs.Answers.{ended, placed, code_of, read};

use crate::Character;
use crate::bytes::{byte, is_within};

// A number that is read byte by byte, and the place behind it.
#[derive(Clone, Copy)]
struct Scalar {
    code: u32,
    at: usize,
}

// The number of a hexadecimal digit.
#[tactic(auto, using(crate::proofs::Places::reading), unfolding(crate::specs::Strings::hex_of))]
fn hex_of(b: u32) -> Option<u32>
    ensures { MatchOption result (hex_of b ≡ 16) (λ d. (d ≡ hex_of b) × (d < 16)) }
{
    if is_within(0x30, 0x39, b) {
        return Some(b - 0x30);
    }
    if is_within(0x41, 0x46, b) {
        return Some(b - 0x37);
    }
    if is_within(0x61, 0x66, b) {
        return Some(b - 0x57);
    }
    None
}

// With one more hexadecimal digit.
#[tactic(auto, using(crate::proofs::Places::reading), unfolding(crate::specs::Strings::hexed))]
fn hexed(text: &[u8], s: Scalar) -> Option<Scalar>
    requires { s.code < 4096 }
    ensures reads { placed text.now result ≡ hexed (placed text.now (Some s)) }
    ensures small { code_of result < s.code * 16 + 16 }
{
    let digit = hex_of(byte(text, s.at))?;
    Some(Scalar {
        code: s.code * 16 + digit,
        at: s.at + 1,
    })
}

// The units of a code point.
#[tactic(auto, using(crate::proofs::Places::reading), unfolding(crate::specs::Strings::units_of, crate::specs::Strings::pointed))]
fn units_of(s: Scalar) -> Character
    ensures { (text : List ℕ) → read text (Some result) ≡ pointed (placed text (Some s)) }
{
    if s.code < 0x10000 {
        return Character::One(s.code, s.at);
    }
    let bits = s.code - 0x10000;
    Character::Two(0xd800 + bits / 0x400, 0xdc00 + bits % 0x400, s.at)
}

#[tactic(auto, using(crate::proofs::Places::reading), unfolding(crate::specs::Strings::hex_unit, crate::specs::Strings::hexed, crate::specs::Strings::pointed))]
fn hex_unit(text: &[u8], at: usize) -> Option<Character>
    ensures { read text.now result ≡ hex_unit (drop at text.now) }
{
    let a = hexed(text, Scalar { code: 0, at })?;
    let b = hexed(text, a)?;
    let c = hexed(text, b)?;
    let d = hexed(text, c)?;
    Some(units_of(d))
}

// What the byte behind a backslash stands for.
#[tactic(auto, unfolding(crate::specs::Strings::escape_of))]
fn escape_of(b: u32) -> Option<u32>
    ensures { MatchOption result (escape_of b ≡ 0) (λ u. (u ≡ escape_of b) × (u ≢ 0)) }
{
    match b {
        0x22 => Some(0x22),
        0x5c => Some(0x5c),
        0x2f => Some(0x2f),
        0x62 => Some(0x08),
        0x66 => Some(0x0c),
        0x6e => Some(0x0a),
        0x72 => Some(0x0d),
        0x74 => Some(0x09),
        _ => None,
    }
}

#[tactic(auto, using(crate::proofs::Places::reading), unfolding(crate::specs::Strings::escaped))]
fn escaped(text: &[u8], at: usize) -> Option<Character>
    ensures { read text.now result ≡ escaped (drop at text.now) }
{
    let b = byte(text, at);
    if b == 0x75 {
        return hex_unit(text, at + 1);
    }
    let unit = escape_of(b)?;
    Some(Character::One(unit, at + 1))
}

// With one more byte of a character, between two bounds.
#[tactic(auto, using(crate::proofs::Places::reading), unfolding(crate::specs::Strings::continued))]
fn continued(text: &[u8], low: u32, high: u32, s: Scalar) -> Option<Scalar>
    requires { (128 ≤ low) × (high < 256) × (s.code < 1048576) }
    ensures reads { placed text.now result ≡ continued low high (placed text.now (Some s)) }
    ensures small { code_of result < s.code * 64 + 128 }
{
    let b = byte(text, s.at);
    if is_within(low, high, b) {
        Some(Scalar {
            code: s.code * 64 + (b - 0x80),
            at: s.at + 1,
        })
    } else {
        None
    }
}

// The bounds of a character's second byte, by its first.
#[tactic(auto, unfolding(crate::specs::Strings::low))]
fn low(a: u32) -> u32
    ensures { (result ≡ low a) × (128 ≤ result) }
{
    match a {
        0xe0 => 0xa0,
        0xf0 => 0x90,
        _ => 0x80,
    }
}

#[tactic(auto, unfolding(crate::specs::Strings::high))]
fn high(a: u32) -> u32
    ensures { (result ≡ high a) × (result < 256) }
{
    match a {
        0xed => 0x9f,
        0xf4 => 0x8f,
        _ => 0xbf,
    }
}

// The first two bytes of a character.
#[tactic(auto, using(crate::proofs::Places::reading), unfolding(crate::specs::Strings::second))]
fn second(text: &[u8], at: usize, base: u32) -> Option<Scalar>
    requires { (base ≤ head (drop at text.now)) × (head (drop at text.now) < base + 32) × (head (drop at text.now) < 256) }
    ensures reads { placed text.now result ≡ second base (drop at text.now) }
    ensures small { code_of result < 4096 }
{
    let a = byte(text, at);
    let first = Scalar {
        code: a - base,
        at: at + 1,
    };
    continued(text, low(a), high(a), first)
}

// The code point of a character of two, three or four bytes.
#[tactic(auto, using(crate::proofs::Places::reading), unfolding(crate::specs::Strings::point_of, crate::specs::Strings::continued))]
fn point_of(text: &[u8], at: usize) -> Option<Scalar>
    ensures { placed text.now result ≡ point_of (drop at text.now) }
{
    let a = byte(text, at);
    if is_within(0xc2, 0xdf, a) {
        return second(text, at, 0xc0);
    }
    if is_within(0xe0, 0xef, a) {
        let two = second(text, at, 0xe0)?;
        return continued(text, 0x80, 0xbf, two);
    }
    if is_within(0xf0, 0xf4, a) {
        let two = second(text, at, 0xf0)?;
        let three = continued(text, 0x80, 0xbf, two)?;
        return continued(text, 0x80, 0xbf, three);
    }
    None
}

// The character of a string at a place.
#[tactic(auto, using(crate::proofs::Places::reading), unfolding(crate::specs::Strings::character, crate::specs::Strings::pointed))]
pub fn character(text: &[u8], at: usize) -> Option<Character>
    ensures { read text.now result ≡ character (drop at text.now) }
{
    let b = byte(text, at);
    if b == 0x22 {
        return Some(Character::Ends(at + 1));
    }
    if b == 0x5c {
        return escaped(text, at + 1);
    }
    if b < 0x20 {
        return None;
    }
    if b < 0x80 {
        return Some(Character::One(b, at + 1));
    }
    let point = point_of(text, at)?;
    Some(units_of(point))
}

// Where a string ends, behind its first quotation mark.
pub fn string(text: &[u8], at: usize) -> Option<usize>
    ensures { ended text.now result ≡ string (drop at text.now) }
{
    let mut p = at;
    loop {
        match character(text, p)? {
            Character::One(_, q) => p = q,
            Character::Two(_, _, q) => p = q,
            Character::Ends(q) => return Some(q),
        }
    }
}
