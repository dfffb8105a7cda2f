// The reader: the length of the text, its lines, the table's numbers, the leading spaces, then the room for the words.
ghost use Rattle.std.specs.Prelude.{◌≡◌, position, take_while, ◌==◌, List, ◌++◌, map, ◌⊎◌, ℕ, ◌+◌, ◌<◌, ◌≤◌, length, drop, get_or};
ghost use Rattle.table.specs.Scan.{accepted, refused, narrow_reading};
ghost use Rattle.table.specs.Answer.{number, place as Table·place};
ghost use Rattle.listing.specs.Keywords.{letters as Keywords·letters};
ghost use Rattle.listing.specs.Listing.{cut, word_in, words_of, indents, tabled, spelt, read_as, left, words_after, NoneAtZero};
ghost use Rattle.listing.specs.Listing.{indent as Listing·indent};
ghost use Rattle.listing.specs.Listing.{misspelled as Listing·misspelled};
ghost use Rattle.listing.specs.Listing.{misplaced as Listing·misplaced};
ghost use Rattle.listing.specs.Decoding.{line_size, DecodedAs, AreTaken};
ghost use Rattle.listing.specs.Answer.{answered};

use crate::Refusal;
use crate::depth::find_depths;
use crate::guess::line_word;
use crate::keywords::LETTERS;
use table::kind_of;
use table::kinds::TABLE;
use table::read::read_narrow;

// The lines that were read: how many, and the place after them.
#[derive(Clone, Copy)]
struct Lines {
    count: usize,
    end: usize,
}

// The place of the first line feed.
pub fn first_feed(text: &[u8]) -> Option<usize>
    ensures { result ≡ position (λ b. b == 10) text.now }
{
    text.iter().position(|&b| b == b'\n')
}

// The place after the line that starts at a place.
pub fn line_end(text: &[u8], at: usize) -> usize
    requires { at ≤ length text.now }
    ensures { (result ≡ at + line_size (drop at text.now)) × (result ≤ length text.now) }
{
    match first_feed(&text[at..]) {
        Some(i) => at + i + 1,
        None => text.len(),
    }
}

// The number of leading spaces.
fn indent(l: &[u8]) -> usize
    ensures spaces { result ≡ length (take_while (λ b. b == 32) l.now) }
    ensures upper_bound { result ≤ length l.now }
{
    l.iter().take_while(|&&b| b == b' ').count()
}

// The word of a line, its leading spaces aside; so many they are.
fn word_in(letters: &[u8], l: &[u8], spaces: usize) -> Option<u32>
    requires { (letters.now ≡ Keywords·letters) × (spaces ≡ Listing·indent l.now) × (spaces ≤ length l.now) }
    ensures { NoneAtZero (word_in l.now) result }
{
    line_word(letters, &l[spaces..])
}

// The word of one line, leading spaces aside, none where it spells none.
pub fn word_of_line(l: &[u8]) -> Option<u32>
    ensures { NoneAtZero (word_in l.now) result }
{
    let letters = LETTERS;
    let s = indent(l);
    word_in(&letters, l, s)
}

// The words and the leading spaces of the first 1,024 lines.
fn decode(
    letters: &[u8],
    text: &[u8],
    words: &mut [u32],
    spaces: &mut [usize],
) -> Result<Lines, Refusal>
    requires { (letters.now ≡ Keywords·letters) × (1024 ≤ length words.old) × (1024 ≤ length spaces.old) }
    ensures { DecodedAs text.now result words.new spaces.new }
{
    let mut at = 0;
    for n in 0..1024 {
        if text.len() <= at {
            return Ok(Lines { count: n, end: at });
        }
        let end = line_end(text, at);
        let l = &text[at..end];
        let s = indent(l);
        let Some(w) = word_in(letters, l, s) else {
            return Err(Refusal::Line(n + 1));
        };
        words[n] = w;
        spaces[n] = s;
        at = end;
    }
    Ok(Lines {
        count: 1024,
        end: at,
    })
}

// The number of the first line from a place on that spells no word; so many lines are before it.
fn misspelled(letters: &[u8], text: &[u8], start: usize, before: usize) -> Option<usize>
    requires { (letters.now ≡ Keywords·letters) × (start ≤ length text.now) × (before ≤ 1024) }
    ensures { NoneAtZero (Listing·misspelled (before + 1) (map word_in (cut (drop start text.now)))) result }
{
    let mut n = before;
    let mut at = start;
    // No `for`: the end of one line says where the next starts, and only the text's end where to stop.
    while at < text.len() {
        let end = line_end(text, at);
        let l = &text[at..end];
        let s = indent(l);
        n += 1;
        if word_in(letters, l, s).is_none() {
            return Some(n);
        }
        at = end;
    }
    None
}

// The number of the first line whose leading spaces are not two for each depth.
fn misplaced(depths: &[u8], spaces: &[usize]) -> Option<usize>
    ensures { NoneAtZero (Listing·misplaced 1 depths.now spaces.now) result }
{
    for (i, (depth, space)) in depths.iter().zip(spaces).enumerate() {
        if *space != 2 * usize::from(*depth) {
            return Some(i + 1);
        }
    }
    None
}

fn place_accepted(words: &[u32], spaces: &[usize], out: &mut [u32]) -> Result<usize, Refusal>
    requires { narrow_reading words.now ≡ accepted }
    ensures result_value { answered result ≡ tabled words.now spaces.now (length out.old) }
    ensures out_after { out.new ≡ left (answered result) words.now out.old }
{
    let n = words.len();
    let mut depths = [0u8; 1024];
    find_depths(words, &mut depths);
    if let Some(line) = misplaced(&depths[..n], spaces) {
        return Err(Refusal::Line(line));
    }
    if out.len() < n {
        return Err(Refusal::NoRoom);
    }
    out[..n].copy_from_slice(words);
    Ok(n)
}

// The words of all lines, with their leading spaces: from the table's numbers on.
fn place(words: &[u32], spaces: &[usize], out: &mut [u32]) -> Result<usize, Refusal>
    ensures result_value { answered result ≡ tabled words.now spaces.now (length out.old) }
    ensures out_after { out.new ≡ left (answered result) words.now out.old }
{
    read_narrow(words)?;
    place_accepted(words, spaces, out)
}

// Why a table of more than 1,024 words is refused, by its first word.
fn too_many(w: u32) -> table::Refusal
    ensures { (ws : List ℕ) → 1024 < length ws → get_or ws 0 0 ≡ w → narrow_reading ws ≡ refused (number result) (Table·place result) }
{
    if kind_of(w) == TABLE {
        table::Refusal::TooManyWords
    } else {
        table::Refusal::NotTable
    }
}

// The text behind the lines that were read: all lines are tested, and more than 1,024 are no table.
fn finish(
    letters: &[u8],
    text: &[u8],
    words: &[u32],
    spaces: &[usize],
    lines: Lines,
    out: &mut [u32],
) -> Result<usize, Refusal>
    requires letters_value { (letters.now ≡ Keywords·letters) × (1024 ≤ length words.now) × (1024 ≤ length spaces.now) }
    requires taken { AreTaken text.now lines words.now spaces.now }
    ensures result_value { answered result ≡ spelt (words_of text.now) (indents text.now) (length out.old) }
    ensures out_after { out.new ≡ left (answered result) (words_of text.now) out.old }
{
    if lines.end < text.len() {
        if let Some(wrong) = misspelled(letters, text, lines.end, lines.count) {
            return Err(Refusal::Line(wrong));
        }
        return Err(Refusal::Table(too_many(words[0])));
    }
    place(&words[..lines.count], &spaces[..lines.count], out)
}

// The words of a listing, at the start of out, and how many they are.
pub fn read(text: &[u8], out: &mut [u32]) -> Result<usize, Refusal>
    ensures answer { answered result ≡ read_as text.now (length out.old) }
    ensures words { out.new ≡ words_after text.now out.old }
{
    if 65536 < text.len() {
        return Err(Refusal::TooLong);
    }
    let letters = LETTERS;
    let mut words = [0u32; 1024];
    let mut spaces = [0usize; 1024];
    let lines = decode(&letters, text, &mut words, &mut spaces)?;
    finish(&letters, text, &words, &spaces, lines, out)
}
