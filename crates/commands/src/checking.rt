// The command `check`: whether a listing is accepted, and if not, the line that is wrong, as it stands and as the writer makes it.
ghost use Rattle.std.specs.Prelude.{◌≡◌, ◌+◌, ◌<◌, ◌≤◌, length, take};
ghost use Rattle.text.specs.Writing.{Wrote};
ghost use Rattle.listing.specs.Listing.{done, refusal, words_of};
ghost use Rattle.commands.specs.Checked.{first_line, shown_line, right_line, line_of, wrong_line, checked_text, check_text};
ghost use Rattle.commands.specs.Checked.{labelled as Checked·labelled};

use crate::explain::sentence;
use crate::lines::behind;
use listing::numbers::{refusal_number, refusal_place};
use listing::read::{line_end, read, word_of_line};
use listing::write::write;
use report::refusal_line;
use text::{number_field, put};

// The first line of a text, with a line feed.
fn put_first(out: &mut [u8], at: usize, text: &[u8]) -> usize
    requires { (0 < length text.now) × (at + length text.now + 1 ≤ length out.old) }
    ensures wrote { Wrote out.old at (first_line text.now) out.new result }
    ensures upper_bound { result ≤ at + length text.now + 1 }
{
    let end = line_end(text, 0);
    let next = put(out, at, &text[..end]);
    if text[end - 1] == 10 {
        return next;
    }
    put(out, next, b"\n")
}

// The same behind a label and a number.
fn labelled(out: &mut [u8], at: usize, label: &[u8], n: usize, text: &[u8]) -> usize
    requires { (length label.now ≤ 12) × (at + length text.now + 64 ≤ length out.old) }
    ensures wrote { Wrote out.old at (Checked·labelled label.now n text.now) out.new result }
    ensures upper_bound { result ≤ at + length text.now + 64 }
{
    if text.len() == 0 {
        return at;
    }
    let a = number_field(out, at, label, n as u64);
    let b = put(out, a, b": ");
    put_first(out, b, text)
}

// Line k, counted from 0.
fn shown_line(out: &mut [u8], at: usize, label: &[u8], k: usize, text: &[u8]) -> usize
    requires { (length label.now ≤ 12) × (k ≤ 65536) × (at + length text.now + 64 ≤ length out.old) }
    ensures wrote { Wrote out.old at (shown_line label.now k text.now) out.new result }
    ensures upper_bound { result ≤ at + length text.now + 64 }
{
    let start = behind(text, 0, k);
    labelled(out, at, label, k + 1, &text[start..])
}

// Line k as the writer makes it.
fn right_line(out: &mut [u8], at: usize, k: usize, words: &[u32]) -> usize
    requires { (k ≤ 65536) × (at + 65600 ≤ length out.old) }
    ensures wrote { Wrote out.old at (right_line k words.now) out.new result }
    ensures upper_bound { result ≤ at + 65600 }
{
    let mut listed = [0u8; 65536];
    match write(words, &mut listed) {
        Ok(n) => shown_line(out, at, b"right, line ", k, &listed[..n]),
        Err(_) => at,
    }
}

// The words of the first lines, as many as there is room for; 0 for a line that spells none.
fn line_words(text: &[u8], words: &mut [u32]) -> usize
    ensures { Wrote words.old 0 (take (length words.old) (words_of text.now)) words.new result }
{
    let mut at = 0;
    for (n, word) in words.iter_mut().enumerate() {
        if text.len() <= at {
            return n;
        }
        let end = line_end(text, at);
        *word = word_of_line(&text[at..end]).unwrap_or(0);
        at = end;
    }
    words.len()
}

// The same from the text: of more than 1,024 lines the first 1,025 decide.
fn corrected(out: &mut [u8], at: usize, k: usize, text: &[u8]) -> usize
    requires { (k ≤ 65536) × (at + 65600 ≤ length out.old) }
    ensures wrote { Wrote out.old at (right_line k (words_of text.now)) out.new result }
    ensures upper_bound { result ≤ at + 65600 }
{
    let mut words = [0u32; 1025];
    let n = line_words(text, &mut words);
    right_line(out, at, k, &words[..n])
}

// The number of the line that a refusal is about.
fn line_of(number: u32, place: usize) -> usize
    requires { place ≤ 65536 }
    ensures { (result ≡ line_of number place) × (result ≤ 65537) }
{
    if number < 40 { place + 1 } else { place }
}

// Line n as it stands in the text, and as it should.
fn wrong_line(out: &mut [u8], at: usize, n: usize, text: &[u8]) -> usize
    requires { (n ≤ 65537) × (at + length text.now + 65664 ≤ length out.old) }
    ensures wrote { Wrote out.old at (wrong_line n text.now) out.new result }
    ensures upper_bound { result ≤ at + length text.now + 65664 }
{
    if n == 0 {
        return at;
    }
    let next = shown_line(out, at, b"line ", n - 1, text);
    corrected(out, next, n - 1, text)
}

fn refused_text(number: u32, place: usize, text: &[u8], out: &mut [u8]) -> usize
    requires { (place ≤ 65536) × (81920 + length text.now ≤ length out.old) }
    ensures { Wrote out.old 0 (checked_text (refusal number place) text.now) out.new result }
{
    let a = refusal_line(out, 0, number, place);
    let b = wrong_line(out, a, line_of(number, place), text);
    sentence(out, b, number)
}

fn accepted_text(n: usize, text: &[u8], out: &mut [u8]) -> usize
    requires { 96 ≤ length out.old }
    ensures { Wrote out.old 0 (checked_text (done n) text.now) out.new result }
{
    let next = number_field(out, 0, b"accepted ", n as u64);
    put(out, next, b"\n")
}

// A listing in, what is wrong with it out.
pub fn check_text(input: &[u8], out: &mut [u8]) -> usize
    requires { 81920 + length input.now ≤ length out.old }
    ensures { Wrote out.old 0 (check_text input.now) out.new result }
{
    let mut words = [0u32; 1024];
    match read(input, &mut words) {
        Ok(n) => accepted_text(n, input, out),
        Err(r) => refused_text(refusal_number(r), refusal_place(r), input, out),
    }
}
