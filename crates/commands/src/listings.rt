// The commands `text` and `words`.
ghost use Rattle.std.specs.Prelude.{◌≤◌, length};
ghost use Rattle.text.specs.Writing.{Wrote};
ghost use Rattle.commands.specs.Printed.{listing_text, text_text, words_text};

use listing::numbers::{refusal_number, refusal_place};
use listing::read::read;
use listing::write::write;
use little_endian::{bytes_of, words_of};
use report::refusal_line;

// The listing of words.
pub fn listing_text(words: &[u32], out: &mut [u8]) -> usize
    requires { 65536 ≤ length out.old }
    ensures { Wrote out.old 0 (listing_text words.now) out.new result }
{
    match write(words, out) {
        Ok(n) => n,
        Err(r) => refusal_line(out, 0, refusal_number(r), refusal_place(r)),
    }
}

// Words in, their listing out: of more than 1,025 words the first decide.
pub fn text_text(input: &[u8], out: &mut [u8]) -> usize
    requires { 65536 ≤ length out.old }
    ensures { Wrote out.old 0 (text_text input.now) out.new result }
{
    if input.len() % 4 != 0 {
        return refusal_line(out, 0, 30, 0);
    }
    let mut words = [0u32; 1025];
    let n = words_of(input, &mut words);
    listing_text(&words[..n], out)
}

// A listing in, its words out.
pub fn words_text(input: &[u8], out: &mut [u8]) -> usize
    requires { 65536 ≤ length out.old }
    ensures { Wrote out.old 0 (words_text input.now) out.new result }
{
    let mut words = [0u32; 1024];
    match read(input, &mut words) {
        Ok(n) => 4 * bytes_of(&words[..n], out),
        Err(r) => refusal_line(out, 0, refusal_number(r), refusal_place(r)),
    }
}
