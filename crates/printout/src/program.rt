// All that the program prints, from the bytes of its input.
ghost use Rattle.std.specs.Prelude.{◌≡◌, ◌≤◌, length, get_or, drop};
ghost use Rattle.table.specs.Scan.{first_of};
ghost use Rattle.text.specs.Writing.{Wrote};
ghost use Rattle.printout.specs.Program.{feeder_tests, system_text, printed, room, text_after, text_size};

use crate::system::tell;
use little_endian::words_of;
use report::refusal_line;

// The number that refuses an input of this many bytes, and 0 where none does.
#[tactic(auto, unfolding(crate::specs::Program::feeder_tests, table::specs::Scan::first_of))]
fn feeder_fault(size: usize) -> u32
    ensures { result ≡ first_of (feeder_tests size) }
{
    if 1032 < size {
        return 31;
    }
    if size < 8 {
        return 30;
    }
    if size % 4 == 0 { 0 } else { 30 }
}

// The text of a system of at most 256 words, over slices with room for it.
#[tactic(auto, using(crate::proofs::Texts::system_exact))]
fn sized_text(
    words: &[u32],
    rho: u32,
    bound: u32,
    est: &mut [u32],
    work: &mut [u32],
    out: &mut [u8],
) -> usize
    requires { (length words.now ≤ 256) × (length est.old ≡ 5888) × (length work.old ≡ 1024) × (room ≤ length out.old) }
    ensures { Wrote out.old 0 (system_text rho bound words.now) out.new result }
{
    tell(words, rho, bound, est, work, out)
}

// The same over slices of its own.
fn own_text(words: &[u32], rho: u32, bound: u32, out: &mut [u8]) -> usize
    requires { (length words.now ≤ 256) × (room ≤ length out.old) }
    ensures { Wrote out.old 0 (system_text rho bound words.now) out.new result }
{
    let mut est = [0u32; 5888];
    let mut work = [0u32; 1024];
    sized_text(words, rho, bound, &mut est, &mut work, out)
}

// The text of words that are ρ, the bound and the system.
fn words_text(words: &[u32], out: &mut [u8]) -> usize
    requires { (2 ≤ length words.now) × (length words.now ≤ 258) × (room ≤ length out.old) }
    ensures { Wrote out.old 0 (system_text (get_or words.now 0 0) (get_or words.now 1 0)
        (drop 2 words.now)) out.new result }
{
    own_text(&words[2..], words[0], words[1], out)
}

// The text of an input, over words that are lent.
fn lent_text(input: &[u8], out: &mut [u8], words: &mut [u32]) -> usize
    requires { (first_of (feeder_tests (length input.now)) ≡ 0) × (length words.old ≡ 258) × (room ≤ length out.old) }
    ensures { Wrote out.old 0 (printed input.now) out.new result }
{
    let n = words_of(input, words);
    words_text(&words[..n], out)
}

// The text of an input.
#[tactic(auto, unfolding(crate::specs::Program::printed))]
fn input_text(input: &[u8], out: &mut [u8]) -> usize
    requires { room ≤ length out.old }
    ensures { Wrote out.old 0 (printed input.now) out.new result }
{
    let fault = feeder_fault(input.len());
    if fault != 0 {
        return refusal_line(out, 0, fault, 0);
    }
    let mut words = [0u32; 258];
    lent_text(input, out, &mut words)
}

// What the program prints for the bytes of its standard input, at the start of `out`, and how long it is. A slice of less than 3,168 bytes gets
// nothing.
#[tactic(auto, unfolding(crate::specs::Program::text_after, crate::specs::Program::text_size, crate::specs::Program::with_room))]
pub fn print(input: &[u8], out: &mut [u8]) -> usize
    ensures size { result ≡ text_size (printed input.now) (length out.old) }
    ensures text { out.new ≡ text_after (printed input.now) out.old }
    ensures fits { result ≤ length out.old }
{
    if out.len() < 3168 {
        return 0;
    }
    input_text(input, out)
}
