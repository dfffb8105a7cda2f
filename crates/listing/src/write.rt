// The writer: the table's numbers, then the length of the listing, then the room for it.
ghost use Rattle.std.specs.Prelude.{◌≡◌, ◌++◌, ◌+◌, ◌*◌, ◌≤◌, ◌<◌, length, take, drop, replicate};
ghost use Rattle.table.specs.Words.{kind};
ghost use Rattle.table.specs.Scan.{accepted, narrow_reading};
ghost use Rattle.text.specs.Writing.{Wrote};
ghost use Rattle.listing.specs.Keywords.{letters as Keywords·letters};
ghost use Rattle.listing.specs.Spelling.{space};
ghost use Rattle.listing.specs.Listing.{indented, listing, written, left, text_after};
ghost use Rattle.listing.specs.Listing.{depths as Listing·depths};
ghost use Rattle.listing.specs.Answer.{answered};

use crate::Refusal;
use crate::depth::find_depths;
use crate::keywords::LETTERS;
use crate::spell::spell;
use table::read::read_narrow;
use text::put;

// So many spaces.
fn put_spaces(out: &mut [u8], at: usize, count: usize) -> usize
    requires { at + count ≤ length out.old }
    ensures { Wrote out.old at (replicate count space) out.new result }
{
    let next = at + count;
    out[at..next].fill(b' ');
    next
}

// The line of a word at a depth.
fn put_line(letters: &[u8], w: u32, d: u8, out: &mut [u8], at: usize) -> usize
    requires { (letters.now ≡ Keywords·letters) × (kind w ≤ 36) × (at + length (indented d w) ≤ length out.old) }
    ensures { Wrote out.old at (indented d w) out.new result }
{
    let mut line = [0u8; 48];
    let n = spell(letters, w, &mut line);
    let next = put_spaces(out, at, 2 * usize::from(d));
    put(out, next, &line[..n])
}

// The length of the listing.
fn text_size(letters: &[u8], words: &[u32], depths: &[u8]) -> usize
    requires letters_value { (letters.now ≡ Keywords·letters) × (narrow_reading words.now ≡ accepted) }
    requires depths_value { take (length words.now) depths.now ≡ Listing·depths words.now }
    ensures { result ≡ length (listing words.now) }
{
    let mut line = [0u8; 48];
    let mut n = 0;
    for (i, &w) in words.iter().enumerate() {
        n += 2 * usize::from(depths[i]) + spell(letters, w, &mut line);
    }
    n
}

// The lines of all words.
fn put_lines(letters: &[u8], words: &[u32], depths: &[u8], out: &mut [u8])
    requires letters_value { (letters.now ≡ Keywords·letters) × (narrow_reading words.now ≡ accepted) }
    requires depths_value { take (length words.now) depths.now ≡ Listing·depths words.now }
    requires words_in_bounds { length (listing words.now) ≤ length out.old }
    ensures { out.new ≡ listing words.now ++ drop (length (listing words.now)) out.old }
{
    let mut at = 0;
    for (i, &w) in words.iter().enumerate() {
        at = put_line(letters, w, depths[i], out, at);
    }
}

fn write_accepted(words: &[u32], out: &mut [u8]) -> Result<usize, Refusal>
    requires { narrow_reading words.now ≡ accepted }
    ensures result_value { answered result ≡ written words.now (length out.old) }
    ensures out_after { out.new ≡ left (answered result) (listing words.now) out.old }
{
    let letters = LETTERS;
    let mut depths = [0u8; 1024];
    find_depths(words, &mut depths);
    let n = text_size(&letters, words, &depths);
    if 65536 < n {
        return Err(Refusal::TooLong);
    }
    if out.len() < n {
        return Err(Refusal::NoRoom);
    }
    put_lines(&letters, words, &depths, out);
    Ok(n)
}

// The listing of a system, at the start of out, and its length.
pub fn write(words: &[u32], out: &mut [u8]) -> Result<usize, Refusal>
    ensures answer { answered result ≡ written words.now (length out.old) }
    ensures text { out.new ≡ text_after words.now out.old }
{
    read_narrow(words)?;
    write_accepted(words, out)
}
