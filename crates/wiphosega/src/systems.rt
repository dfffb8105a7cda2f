// What the commands ask of a listing's system: the listing is read, and the answer or a refusal is printed.
use listing::Refusal;
use listing::numbers::{refusal_number, refusal_place};
use listing::read::read;
use std::io;
use std::io::{Read, Write};
use streams::read_input;

pub fn refusal(out: &mut impl Write, r: Refusal) -> io::Result<()> {
    streams::refusal(out, refusal_number(r), refusal_place(r))
}

// Not inlined: what one command keeps on the stack is then not kept for all of them.
#[inline(never)]
fn answer_in<W: Write, F: FnOnce(&mut W, &[u32]) -> io::Result<()>>(
    out: &mut W,
    text: &[u8],
    answer: F,
) -> io::Result<()>
    requires { F.IsAlwaysCallable answer }
{
    let mut words = [0u32; 1024];
    match read(text, &mut words) {
        Ok(n) => answer(out, &words[..n]),
        Err(r) => refusal(out, r),
    }
}

// The answer to the words of the listing on standard input, or its refusal.
pub fn run<W: Write, F: FnOnce(&mut W, &[u32]) -> io::Result<()>>(
    input: &mut impl Read,
    out: &mut W,
    answer: F,
) -> io::Result<()>
    requires { F.IsAlwaysCallable answer }
{
    let mut text = [0u8; 65537];
    let n = read_input(input, &mut text)?;
    answer_in(out, &text[..n], answer)
}
