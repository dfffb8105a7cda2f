// The command `pack`: a listing in, a system of the stream of a class out.
ghost use Rattle.std.specs.Prelude.{◌≤◌, length};
ghost use Rattle.text.specs.Writing.{Wrote};
ghost use Rattle.commands.specs.Printed.{packed, system_text, pack_text};

use listing::numbers::{refusal_number, refusal_place};
use listing::read::read;
use little_endian::bytes_of;
use report::refusal_line;

// The length, ρ and the words.
fn put_packed(rho: u32, words: &[u32], out: &mut [u8]) -> usize
    requires { (length words.now ≤ 256) × (65536 ≤ length out.old) }
    ensures { Wrote out.old 0 (packed rho words.now) out.new result }
{
    let head = [words.len() as u32, rho];
    bytes_of(&head, out);
    let n = bytes_of(words, &mut out[8..]);
    8 + 4 * n
}

// Of at most 256 words.
fn put_system(rho: u32, words: &[u32], out: &mut [u8]) -> usize
    requires { 65536 ≤ length out.old }
    ensures { Wrote out.old 0 (system_text rho words.now) out.new result }
{
    if 256 < words.len() {
        return refusal_line(out, 0, 59, 0);
    }
    put_packed(rho, words, out)
}

pub fn pack_text(rho: u32, input: &[u8], out: &mut [u8]) -> usize
    requires { 65536 ≤ length out.old }
    ensures { Wrote out.old 0 (pack_text rho input.now) out.new result }
{
    let mut words = [0u32; 1024];
    match read(input, &mut words) {
        Ok(n) => put_system(rho, &words[..n], out),
        Err(r) => refusal_line(out, 0, refusal_number(r), refusal_place(r)),
    }
}
