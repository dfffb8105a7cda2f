// Narrow tables made wide and wide tables made narrow, for programs in C, over bytes.
ghost use Rattle.std.specs.Prelude.{◌≡◌, true, false, length};
ghost use Rattle.little_endian.specs.LittleEndian.{words_of};
ghost use Rattle.widths.specs.Converters.{convert_answer, convert_out};
ghost use Rattle.widths.specs.Answers.{converted_as};
ghost use Rattle.capi_text.specs.Interface.{answer_number};
ghost use Rattle.capi_text.specs.Converters.{converted_answer, out_after};

use crate::put_words;
use fields::refusal;
use little_endian::words_of;
use widths::Fault;
use widths::convert::convert;
use widths::numbers::{fault_number, fault_place};

// `convert` over the whole words of bytes: of more than 1,025 words the first decide.
fn convert_in(wide: bool, system: &[u8], out: &mut [u32]) -> Result<usize, Fault>
    ensures answer { converted_as result ≡ convert_answer wide (words_of system.now) (length out.old) }
    ensures out { out.new ≡ convert_out wide (words_of system.now) out.old }
{
    let mut words = [0u32; 1025];
    let n = words_of(system, &mut words);
    convert(wide, &words[..n], out)
}

// The converted table: how many bytes it has; refused, 2^32 + number × 65,536 + place. The output counts whole words.
fn convert_bytes(wide: bool, system: &[u8], out: &mut [u8]) -> u64
    ensures answer { result ≡ answer_number (converted_answer wide system.now (length out.old)) }
    ensures out { out.new ≡ out_after wide system.now out.old }
{
    if system.len() % 4 != 0 {
        return refusal(30, 0);
    }
    let mut words = [0u32; 1024];
    match convert_in(wide, system, &mut words) {
        Ok(count) => put_words(&words, count, out, 57),
        Err(f) => refusal(fault_number(f), fault_place(f)),
    }
}

// A narrow table made wide.
pub fn wiphosega_widen(system: &[u8], out: &mut [u8]) -> u64
    ensures answer { result ≡ answer_number (converted_answer true system.now (length out.old)) }
    ensures out { out.new ≡ out_after true system.now out.old }
{
    convert_bytes(true, system, out)
}

// A wide table made narrow.
pub fn wiphosega_narrow(system: &[u8], out: &mut [u8]) -> u64
    ensures answer { result ≡ answer_number (converted_answer false system.now (length out.old)) }
    ensures out { out.new ≡ out_after false system.now out.old }
{
    convert_bytes(false, system, out)
}
