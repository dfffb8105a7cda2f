// The converters. Each answers how many words it wrote.
ghost use Rattle.std.specs.Prelude.{◌≡◌, true, false, ◌<◌, ◌≤◌, length};
ghost use Rattle.table.specs.Scan.{accepted};
ghost use Rattle.widths.specs.Converters.{rekinded, answer, out_after, convert_answer, convert_out};
ghost use Rattle.widths.specs.Answers.{converted_as};

use crate::Fault;
use crate::fit::{check_narrow, read_as};
use table::{argument_of, kinds};

// The words of an accepted table, of which word 0 has the kind, at the start of the output.
fn put(words: &[u32], kind: u32, out: &mut [u32]) -> Result<usize, Fault>
    requires { (0 < length words.now) × (kind ≤ 255) }
    ensures answer { converted_as result ≡ answer accepted (length words.now) (length out.old) }
    ensures out { out.new ≡ out_after (answer accepted (length words.now) (length out.old)) (rekinded kind words.now) out.old }
{
    let n = words.len();
    if out.len() < n {
        return Err(Fault::ShortOutput);
    }
    out[..n].copy_from_slice(words);
    out[0] = kind * kinds::ARGUMENTS + argument_of(words[0]);
    Ok(n)
}

// A narrow table made wide, or a wide one made narrow.
pub fn convert(wide: bool, words: &[u32], out: &mut [u32]) -> Result<usize, Fault>
    ensures answer { converted_as result ≡ convert_answer wide words.now (length out.old) }
    ensures out { out.new ≡ convert_out wide words.now out.old }
{
    if wide {
        read_as(words, kinds::TABLE)?;
        put(words, kinds::WIDE_TABLE, out)
    } else {
        check_narrow(words)?;
        put(words, kinds::TABLE, out)
    }
}

// A narrow table made wide.
pub fn widen(words: &[u32], out: &mut [u32]) -> Result<usize, Fault>
    ensures answer { converted_as result ≡ convert_answer true words.now (length out.old) }
    ensures out { out.new ≡ convert_out true words.now out.old }
{
    convert(true, words, out)
}

// A wide table made narrow.
pub fn narrow(words: &[u32], out: &mut [u32]) -> Result<usize, Fault>
    ensures answer { converted_as result ≡ convert_answer false words.now (length out.old) }
    ensures out { out.new ≡ convert_out false words.now out.old }
{
    convert(false, words, out)
}
