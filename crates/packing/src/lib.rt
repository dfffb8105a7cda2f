// A system of the stream of a class, made of a listing or of words, whether they are right or not.
#![tactic(auto)]

ghost use Rattle.std.specs.Prelude.{◌≡◌, List, ℕ, ◌≤◌, length, take};
ghost use Rattle.std.specs.Option.{ForSome};
ghost use Rattle.text.specs.Writing.{Wrote};
ghost use Rattle.listing.specs.Listing.{words_of as line_words};
ghost use Rattle.packing.specs.Packing.{holds, kept, packed, listing_packed, table_words, table_packed, size_of, is_held};
ghost use Rattle.packing.specs.Held.{Held};

use listing::read::{line_end, word_of_line};
use little_endian::{bytes_of, words_of};

// The most bytes of input that a stream holds.
const MOST: usize = 65536;

// The input is larger than a stream can hold: an empty system of so many bytes stands in the stream.
#[derive(Clone, Copy, PartialEq, Eq)]
pub struct TooLarge {
    pub size: usize,
}

// The length, ρ and the words.
fn put_packed(rho: u32, words: &[u32], out: &mut [u8]) -> usize
    requires { (length words.now ≤ 256) × (1032 ≤ length out.old) }
    ensures { Wrote out.old 0 (packed rho words.now) out.new result }
{
    let head = [words.len() as u32, rho];
    bytes_of(&head, out);
    let n = bytes_of(words, &mut out[8..]);
    8 + 4 * n
}

// The words of a listing's lines, at the start of a slice, and how many they are, if no more than 256.
fn line_words(text: &[u8], words: &mut [u32]) -> Option<usize>
    requires { length words.old ≡ 256 }
    ensures { Held (line_words text.now) words.new result }
{
    let mut at = 0;
    for (n, word) in words.iter_mut().enumerate() {
        if text.len() <= at {
            return Some(n);
        }
        let end = line_end(text, at);
        *word = word_of_line(&text[at..end]).unwrap_or(0);
        at = end;
    }
    if text.len() <= at { Some(256) } else { None }
}

// The whole words of bytes and 0 for a part of one, at the start of a slice, and how many they are, if no more than 256.
fn table_words(bytes: &[u8], words: &mut [u32]) -> Option<usize>
    requires { length words.old ≡ 256 }
    ensures { Held (table_words bytes.now) words.new result }
{
    if 1024 < bytes.len() {
        return None;
    }
    let n = words_of(bytes, words);
    if bytes.len() % 4 == 0 {
        return Some(n);
    }
    words[n] = 0;
    Some(n + 1)
}

// The system of the first words, or an empty one.
fn put_held(
    rho: u32,
    bytes: usize,
    words: &[u32],
    n: Option<usize>,
    out: &mut [u8],
) -> Result<usize, TooLarge>
    requires { (length words.now ≡ 256) × (1032 ≤ length out.old) × ForSome n (λ k. k ≤ 256) }
    ensures { (all : List ℕ) → Held all words.now n
        → Wrote out.old 0 (packed rho (kept bytes all)) out.new (size_of result) × (is_held result ≡ holds bytes all) }
{
    match n {
        Some(n) if bytes <= MOST => Ok(put_packed(rho, &words[..n], out)),
        _ => Err(TooLarge {
            size: put_packed(rho, &words[..0], out),
        }),
    }
}

// A listing as a system of the stream: the word of each line, leading spaces aside, 0 for a line that spells none.
pub fn pack_listing(rho: u32, text: &[u8], out: &mut [u8]) -> Result<usize, TooLarge>
    requires { 1032 ≤ length out.old }
    ensures wrote { Wrote out.old 0 (listing_packed rho text.now) out.new (size_of result) }
    ensures result_value { is_held result ≡ holds (length text.now) (line_words text.now) }
{
    let mut words = [0u32; 256];
    let n = line_words(text, &mut words);
    put_held(rho, text.len(), &words, n, out)
}

// The bytes of words as a system of the stream, 0 for a part of a word at the end. Not one function with `pack_listing`: three lines each, and what is
// read differs.
pub fn pack_words(rho: u32, bytes: &[u8], out: &mut [u8]) -> Result<usize, TooLarge>
    requires { 1032 ≤ length out.old }
    ensures wrote { Wrote out.old 0 (table_packed rho bytes.now) out.new (size_of result) }
    ensures result_value { is_held result ≡ holds (length bytes.now) (table_words bytes.now) }
{
    let mut words = [0u32; 256];
    let n = table_words(bytes, &mut words);
    put_held(rho, bytes.len(), &words, n, out)
}
