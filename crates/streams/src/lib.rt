// Standard input, read to its end, and what the programs write to standard output. The reader and the writer are the caller's, so the contracts say
// which bytes are read and written, where those are known.
#![tactic(auto)]

ghost use Rattle.std.specs.Prelude.{◌≡◌, ◌*◌, ◌^◌, ◌<◌, ◌≤◌, length, take, IfSome, IfOk, OnOk, OnErr};
ghost use Rattle.std.specs.Io.{ReadsAtMost};
ghost use Rattle.std.specs.Io.KnownBytes.{Appends, Consumes, IsAtEnd, Keeps};
ghost use Rattle.report.specs.Lines.{refusal_line};
ghost use Rattle.streams.specs.Failures.{Loses, LosesTo};

use report::refusal_line;
use std::io;
use std::io::{Read, Write};

// Reads until the buffer is full or the input ends, and answers how many bytes are kept.
pub fn read_full<R: Read>(input: &mut R, buffer: &mut [u8]) -> io::Result<usize>
    ensures bound { ReadsAtMost result buffer.new }
    ensures bytes { IfOk result (λ n. Consumes (R.remaining input.old) (R.remaining input.new) (take n buffer.new)) }
    ensures end { IfOk result (λ n. n < length buffer.new → IsAtEnd (R.remaining input.new)) }
    ensures broken { OnErr result (LosesTo (R.remaining input.old) (R.remaining input.new) buffer.new) }
{
    // No `for`: a read may give any number of bytes.
    let mut done = 0;
    while done < buffer.len() {
        let n = input.read(&mut buffer[done..])?;
        if n == 0 {
            break;
        }
        done += n;
    }
    Ok(done)
}

// Reads what is left of the input, in at most 2^32 turns of a buffer.
fn read_rest<R: Read>(input: &mut R, buffer: &mut [u8]) -> io::Result<()>
    ensures end { OnOk result (IfSome (R.remaining input.old) (λ xs. length xs < 2 ^ 32 * length buffer.old → IsAtEnd (R.remaining input.new))) }
    ensures broken { OnErr result (Loses (R.remaining input.old) (R.remaining input.new)) }
{
    for _ in 0..4294967296u64 {
        if read_full(input, buffer)? == 0 {
            return Ok(());
        }
    }
    Ok(())
}

// Fills a buffer, reads the rest of the input, up to 16 TiB, and answers how many bytes are kept.
pub fn read_input<R: Read>(input: &mut R, buffer: &mut [u8]) -> io::Result<usize>
    ensures bound { ReadsAtMost result buffer.new }
    ensures bytes { IfOk result (λ n. IfSome (R.remaining input.old) (λ xs. take n buffer.new ≡ take (length buffer.old) xs)) }
    ensures end { OnOk result (IfSome (R.remaining input.old) (λ xs. length xs < 2 ^ 44 → IsAtEnd (R.remaining input.new))) }
    ensures broken { OnErr result (Loses (R.remaining input.old) (R.remaining input.new)) }
{
    let n = read_full(input, buffer)?;
    if n == buffer.len() {
        let mut rest = [0u8; 4096];
        read_rest(input, &mut rest)?;
    }
    Ok(n)
}

pub fn text<W: Write>(out: &mut W, s: &[u8]) -> io::Result<()>
    ensures { OnOk result (Appends (W.contents out.old) (W.contents out.new) s.now) }
{
    out.write_all(s)
}

// The first n bytes of a text, and none of one that has fewer.
pub fn first<W: Write>(out: &mut W, s: &[u8], n: usize) -> io::Result<()>
    ensures written { n ≤ length s.now → OnOk result (Appends (W.contents out.old) (W.contents out.new) (take n s.now)) }
    ensures too_many { length s.now < n → OnOk result (Keeps (W.contents out.old) (W.contents out.new)) }
{
    if n <= s.len() {
        return text(out, &s[..n]);
    }
    Ok(())
}

// The line of a refusal.
pub fn refusal<W: Write>(out: &mut W, number: u32, place: usize) -> io::Result<()>
    ensures { OnOk result (Appends (W.contents out.old) (W.contents out.new) (refusal_line number place)) }
{
    let mut line = [0u8; 96];
    let n = refusal_line(&mut line, 0, number, place);
    text(out, &line[..n])
}
