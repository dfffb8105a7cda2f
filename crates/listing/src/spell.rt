// How a word is spelled. `letters` are the keywords as crate::keywords holds them.
ghost use Rattle.std.specs.Prelude.{◌≡◌, ◌+◌, ◌<◌, ◌≤◌, ◌^◌, length};
ghost use Rattle.table.specs.Words.{kind};
ghost use Rattle.text.specs.Writing.{Wrote, Line};
ghost use Rattle.listing.specs.Keywords.{entry_of};
ghost use Rattle.listing.specs.Keywords.{letters as Keywords·letters};
ghost use Rattle.listing.specs.Spelling.{spelled_argument, spelled};

use crate::keywords::Style;
use table::{argument_of, kind_of};
use text::{number_field, put, set_field};

// A number of 24 bits with its sign, and the space before it.
fn signed_field(out: &mut [u8], at: usize, a: u32) -> usize
    requires { (at + 22 ≤ length out.old) × (a < 2 ^ 24) }
    ensures wrote { Wrote out.old at (spelled_argument Style.Signed a) out.new result }
    ensures upper_bound { result ≤ at + 22 }
{
    if a < 8388608 {
        number_field(out, at, b" ", a as u64)
    } else {
        number_field(out, at, b" -", (16777216 - a) as u64)
    }
}

// The argument of a word, in its style.
fn argument_field(out: &mut [u8], at: usize, style: Style, a: u32) -> usize
    requires { (at + 22 ≤ length out.old) × (a < 2 ^ 24) }
    ensures wrote { Wrote out.old at (spelled_argument style a) out.new result }
    ensures upper_bound { result ≤ at + 22 }
{
    match style {
        Style::Omitted => at,
        Style::Hex => set_field(out, at, b" ", a),
        Style::Whole => number_field(out, at, b" ", a as u64),
        Style::Signed => signed_field(out, at, a),
    }
}

// The length of a kind's keyword.
pub fn keyword_size(letters: &[u8], k: usize) -> usize
    requires { (letters.now ≡ Keywords·letters) × (k ≤ 36) }
    ensures { result ≡ length (entry_of k).keyword }
{
    usize::from(letters[16 * k])
}

// A kind's style, by its letter.
pub fn style_at(letters: &[u8], k: usize) -> Style
    requires { (letters.now ≡ Keywords·letters) × (k ≤ 36) }
    ensures { result ≡ (entry_of k).style }
{
    match letters[16 * k + 1] {
        b'o' => Style::Omitted,
        b'h' => Style::Hex,
        b'w' => Style::Whole,
        _ => Style::Signed,
    }
}

// The keyword of a kind, at the start of out.
fn keyword_field(letters: &[u8], k: usize, out: &mut [u8]) -> usize
    requires { (letters.now ≡ Keywords·letters) × (k ≤ 36) × (11 ≤ length out.old) }
    ensures wrote { Wrote out.old 0 (entry_of k).keyword out.new result }
    ensures upper_bound { result ≤ 11 }
{
    let from = 16 * k + 2;
    let to = from + keyword_size(letters, k);
    put(out, 0, &letters[from..to])
}

// The line of a word without leading spaces, at the start of out, and its length.
pub fn spell(letters: &[u8], w: u32, out: &mut [u8; 48]) -> usize
    requires { (letters.now ≡ Keywords·letters) × (kind w ≤ 36) }
    ensures line { Line out.old (spelled w) out.new result }
    ensures upper_bound { result ≤ 48 }
{
    let k = kind_of(w) as usize;
    let a = keyword_field(letters, k, out);
    let b = argument_field(out, a, style_at(letters, k), argument_of(w));
    put(out, b, b"\n")
}
