// The commands `widen` and `narrow`: the words of a system in, those of the converted system out.
ghost use Rattle.std.specs.Prelude.{◌≤◌, length};
ghost use Rattle.text.specs.Writing.{Wrote};
ghost use Rattle.commands.specs.Printed.{converted_text, convert_text};

use little_endian::{bytes_of, words_of};
use report::refusal_line;
use widths::convert::convert;
use widths::numbers::{fault_number, fault_place};

// The converted words.
fn converted_text(wide: bool, words: &[u32], out: &mut [u8]) -> usize
    requires { 65536 ≤ length out.old }
    ensures { Wrote out.old 0 (converted_text wide words.now) out.new result }
{
    let mut converted = [0u32; 1024];
    match convert(wide, words, &mut converted) {
        Ok(n) => 4 * bytes_of(&converted[..n], out),
        Err(f) => refusal_line(out, 0, fault_number(f), fault_place(f)),
    }
}

// The words of the input: of more than 1,025 words the first decide.
pub fn convert_text(wide: bool, input: &[u8], out: &mut [u8]) -> usize
    requires { 65536 ≤ length out.old }
    ensures { Wrote out.old 0 (convert_text wide input.now) out.new result }
{
    if input.len() % 4 != 0 {
        return refusal_line(out, 0, 30, 0);
    }
    let mut words = [0u32; 1025];
    let n = words_of(input, &mut words);
    converted_text(wide, &words[..n], out)
}
