// Reads the opponent's permissions, a bound and a system from standard input, as little-endian words, and prints the verdict.
#![tactic(auto)]

ghost use Rattle.std.specs.Prelude.{IfSome, OnOk, take};
ghost use Rattle.std.specs.Io.KnownBytes.{Appends};
ghost use Rattle.printout.specs.Program.{printed};

use printout::program::print;
use std::io;
use std::io::{Read, Write};

fn answer<W: Write>(out: &mut W, input: &[u8]) -> io::Result<()>
    ensures { OnOk result (Appends (W.contents out.old) (W.contents out.new) (printed input.now)) }
{
    let mut text = [0u8; 3168];
    let n = print(input, &mut text);
    streams::text(out, &text[..n])
}

// Nothing is printed before all is read. One byte more than a system may have is kept of a longer input: it is refused by its length.
fn run<R: Read, W: Write>(input: &mut R, out: &mut W) -> io::Result<()>
    ensures { OnOk result (IfSome (R.remaining input.old) (λ xs. Appends (W.contents out.old) (W.contents out.new) (printed (take 1033 xs)))) }
{
    let mut bytes = [0u8; 1033];
    let n = streams::read_input(input, &mut bytes)?;
    answer(out, &bytes[..n])
}

fn main(rt: HostRuntime) -> io::Result<()> {
    run(&mut rt.stdin(), &mut rt.stdout())
}
