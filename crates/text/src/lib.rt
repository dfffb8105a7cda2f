// Text in a lent slice of bytes. A writer takes the place to write at and answers the place after its text.
#![tactic(auto)]

pub mod room;

ghost use Rattle.std.specs.Prelude.{◌≡◌, ◌++◌, ◌+◌, ◌<◌, ◌≤◌, max, length};
ghost use Rattle.text.specs.Text.{left_out, decimal, set, hex_word, choice};
ghost use Rattle.text.specs.Text.{glyph as Text·glyph};
ghost use Rattle.text.specs.Text.{numeral as Text·numeral};
ghost use Rattle.text.specs.Writing.{Wrote};

// The bytes of s. A loop: with `copy_from_slice` here the archive for C asks for `memmove` (tests/symbols).
pub fn put(out: &mut [u8], at: usize, s: &[u8]) -> usize
    requires { at + length s.now ≤ length out.old }
    ensures { Wrote out.old at s.now out.new result }
{
    for (i, &b) in s.iter().enumerate() {
        out[at + i] = b;
    }
    at + s.len()
}

// The byte of a digit.
fn glyph(d: u64) -> u8
    requires { d < 16 }
    ensures { result ≡ Text·glyph d }
{
    if d < 10 {
        b'0' + d as u8
    } else {
        b'a' + (d - 10) as u8
    }
}

// Whether no digit stands at the places that are left.
fn left_out(optional: usize, places: usize, n: u64) -> bool
    ensures { result ≡ left_out optional places n }
{
    n == 0 && places <= optional
}

// The digits of n in a base.
fn numeral(out: &mut [u8], at: usize, base: u64, optional: usize, places: usize, n: u64) -> usize
    requires base_nonzero { 0 < base }
    requires base_bound { base ≤ 16 }
    requires places_in_bounds { at + places ≤ length out.old }
    ensures wrote { Wrote out.old at (Text·numeral base optional places n) out.new result }
    ensures upper_bound { result ≤ at + places }
{
    if places == 0 {
        return at;
    }
    if left_out(optional, places, n) {
        return at;
    }
    let next = numeral(out, at, base, optional, places - 1, n / base);
    out[next] = glyph(n % base);
    next + 1
}

// A label and one of two words.
pub fn word_field(out: &mut [u8], at: usize, label: &[u8], flag: bool, a: &[u8], b: &[u8]) -> usize
    requires a_in_bounds { at + length label.now + length a.now ≤ length out.old }
    requires b_in_bounds { at + length label.now + length b.now ≤ length out.old }
    ensures wrote { Wrote out.old at (label.now ++ choice flag a.now b.now) out.new result }
    ensures upper_bound { result ≤ at + length label.now + max (length a.now) (length b.now) }
{
    let next = put(out, at, label);
    if flag {
        put(out, next, a)
    } else {
        put(out, next, b)
    }
}

// A label and a whole number in decimal digits.
pub fn number_field(out: &mut [u8], at: usize, label: &[u8], n: u64) -> usize
    requires { at + length label.now + 20 ≤ length out.old }
    ensures wrote { Wrote out.old at (label.now ++ decimal n) out.new result }
    ensures upper_bound { result ≤ at + length label.now + 20 }
{
    let next = put(out, at, label);
    numeral(out, next, 10, 19, 20, n)
}

// A label and a set in six hexadecimal digits.
pub fn set_field(out: &mut [u8], at: usize, label: &[u8], s: u32) -> usize
    requires { at + length label.now + 6 ≤ length out.old }
    ensures wrote { Wrote out.old at (label.now ++ set s) out.new result }
    ensures upper_bound { result ≤ at + length label.now + 6 }
{
    let next = put(out, at, label);
    numeral(out, next, 16, 0, 6, s as u64)
}

// A label and a word in eight hexadecimal digits. Not one function with `set_field`: two lines each, and each definition says its own width.
pub fn hex_field(out: &mut [u8], at: usize, label: &[u8], w: u32) -> usize
    requires { at + length label.now + 8 ≤ length out.old }
    ensures wrote { Wrote out.old at (label.now ++ hex_word w) out.new result }
    ensures upper_bound { result ≤ at + length label.now + 8 }
{
    let next = put(out, at, label);
    numeral(out, next, 16, 0, 8, w as u64)
}
