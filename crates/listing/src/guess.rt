// The word that a line spells: the one that it could be is spelled again and compared. `letters` are the keywords as crate::keywords holds
// them.
ghost use Rattle.std.specs.Prelude.{◌≡◌, ◌&&◌, ◌<◌, ◌≤◌, ◌^◌, drop, IfSome};
ghost use Rattle.listing.specs.Keywords.{entry_of, used};
ghost use Rattle.listing.specs.Keywords.{letters as Keywords·letters};
ghost use Rattle.listing.specs.Listing.{NoneAtZero};
ghost use Rattle.listing.specs.Spelling.{prefix, guessed_kind, digit_of, guessed_argument, line_word};
ghost use Rattle.listing.specs.Spelling.{folded as Spelling·folded};

use crate::keywords::Style;
use crate::spell::{keyword_size, spell, style_at};
use table::kinds::ARGUMENTS;

// Whether a line starts with the keyword of a kind.
fn has_keyword(letters: &[u8], k: usize, l: &[u8]) -> bool
    requires { (letters.now ≡ Keywords·letters) × (k ≤ 36) }
    ensures { result ≡ (used (entry_of k) && prefix (entry_of k).keyword l.now) }
{
    let n = keyword_size(letters, k);
    let from = 16 * k + 2;
    n != 0 && l.starts_with(&letters[from..from + n])
}

// The first kind whose keyword a line starts with.
fn guessed_kind(letters: &[u8], l: &[u8]) -> Option<usize>
    requires { letters.now ≡ Keywords·letters }
    ensures kind { NoneAtZero (guessed_kind l.now) result }
    ensures upper_bound { IfSome result (λ k. k ≤ 36) }
{
    for k in 0..37 {
        if has_keyword(letters, k, l) {
            return Some(k);
        }
    }
    None
}

fn digit(b: u8) -> u32
    ensures { (result ≡ digit_of b) × (result ≤ 42) }
{
    u32::from(b % 16) + 9 * u32::from(b / 64)
}

// The number of the digits from a place on up to the line feed, modulo 2^24.
fn folded(l: &[u8], at: usize, base: u32) -> u32
    requires { base ≤ 16 }
    ensures { (result ≡ Spelling·folded base 0 (drop at l.now)) × (result < 2 ^ 24) }
{
    let mut v = 0;
    for i in at..l.len() {
        let b = l[i];
        if b == b'\n' {
            return v;
        }
        v = (v * base + digit(b)) % ARGUMENTS;
    }
    v
}

fn signed_argument(l: &[u8], at: usize) -> u32
    requires { at ≤ 11 }
    ensures { (result ≡ guessed_argument Style.Signed (drop at l.now)) × (result < 2 ^ 24) }
{
    let first = at + 1;
    if first < l.len() && l[first] == b'-' {
        return (ARGUMENTS - folded(l, at + 2, 10)) % ARGUMENTS;
    }
    folded(l, first, 10)
}

// The argument, from what stands behind the keyword.
fn guessed_argument(l: &[u8], at: usize, style: Style) -> u32
    requires { at ≤ 11 }
    ensures value { result ≡ guessed_argument style (drop at l.now) }
    ensures upper_bound { result < 2 ^ 24 }
{
    match style {
        Style::Omitted => 0,
        Style::Hex => folded(l, at + 1, 16),
        Style::Whole => folded(l, at + 1, 10),
        Style::Signed => signed_argument(l, at),
    }
}

// The word that a line without leading spaces spells.
pub fn line_word(letters: &[u8], l: &[u8]) -> Option<u32>
    requires { letters.now ≡ Keywords·letters }
    ensures { NoneAtZero (line_word l.now) result }
{
    let k = guessed_kind(letters, l)?;
    let n = keyword_size(letters, k);
    let style = style_at(letters, k);
    let w = k as u32 * ARGUMENTS + guessed_argument(l, n, style);
    let mut line = [0u8; 48];
    let size = spell(letters, w, &mut line);
    if &line[..size] == l { Some(w) } else { None }
}
