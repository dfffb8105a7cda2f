// The lines of a text, counted from 0, and the words that they spell.
#![tactic(auto)]

ghost use Rattle.std.specs.Prelude.{◌≤◌, length, take};
ghost use Rattle.text.specs.Writing.{Wrote};
ghost use Rattle.listing.specs.Listing.{words_of};
ghost use Rattle.lines.specs.Lines.{Starts, Stops};

use listing::read::{first_feed, line_end, word_of_line};

// The place where line k starts.
pub fn line_start(text: &[u8], k: usize) -> usize
    ensures { Starts text.now k result }
{
    let mut at = 0;
    for _ in 0..k {
        at = line_end(text, at);
    }
    at
}

// The place of the line feed that ends the line from a place on, or the end of the text.
pub fn line_stop(text: &[u8], start: usize) -> usize
    requires { start ≤ length text.now }
    ensures { Stops text.now start result }
{
    match first_feed(&text[start..]) {
        Some(i) => start + i,
        None => text.len(),
    }
}

// The words of the first lines, as many as there is room for; 0 for a line that spells none.
pub fn line_words(text: &[u8], words: &mut [u32]) -> usize
    ensures { Wrote words.old 0 (take (length words.old) (words_of text.now)) words.new result }
{
    let mut at = 0;
    for (n, word) in words.iter_mut().enumerate() {
        if text.len() <= at {
            return n;
        }
        let end = line_end(text, at);
        *word = word_of_line(&text[at..end]).unwrap_or(0);
        at = end;
    }
    words.len()
}
