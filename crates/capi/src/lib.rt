// The verdict for programs in C, over bytes.
#![tactic(auto)]

pub mod check;
mod slices;

ghost use Rattle.std.specs.Prelude.{◌≡◌, ◌/◌, ◌≤◌, length};
ghost use Rattle.little_endian.specs.LittleEndian.{words_of};
ghost use Rattle.calculus.specs.Answer.{answer};
ghost use Rattle.interface.specs.Numbers.{answer_number};
ghost use Rattle.capi.specs.Interface.{bytes_answer, estimate_bytes, work_bytes, Answered, CorrectNumber, GuaranteedNumber};

use crate::slices::with_bytes;
use interface::{answer_number, refusal, system_fault};
use little_endian::words_of;

fn of_words(words: &[u32], rho: u32, bound: u32, estimate: &mut [u8], work: &mut [u8]) -> u64
    requires { length words.now ≤ 256 }
    ensures { Answered words.now rho (answer words.now rho bound (length estimate.old / 4)
        (length work.old / 4)) estimate.old work.old result estimate.new work.new }
{
    answer_number(with_bytes(words, rho, bound, estimate, work))
}

// The whole words of a system, over words that are lent.
fn of_system(
    system: &[u8],
    rho: u32,
    bound: u32,
    estimate: &mut [u8],
    work: &mut [u8],
    words: &mut [u32],
) -> u64
    requires { (length system.now ≤ 1024) × (length words.old ≡ 256) }
    ensures { Answered (words_of system.now) rho (answer (words_of system.now) rho bound
        (length estimate.old / 4) (length work.old / 4)) estimate.old work.old result estimate.new
        work.new }
{
    let n = words_of(system, words);
    of_words(&words[..n], rho, bound, estimate, work)
}

// The verdict on the bytes of a system: the leak, plus 2^24 if it is over the bound; refused, 2^32 + number × 65,536 + place. The other
// two slices count whole words; a refusal leaves both as they were, and a verdict changes their first words alone.
pub fn wiphosega_verdict(
    system: &[u8],
    rho: u32,
    bound: u32,
    estimate: &mut [u8],
    work: &mut [u8],
) -> u64
    ensures answer { result ≡ answer_number (bytes_answer system.now rho bound (length estimate.old) (length work.old)) }
    ensures estimate { estimate.new ≡ estimate_bytes (words_of system.now) rho
        (bytes_answer system.now rho bound (length estimate.old) (length work.old)) estimate.old }
    ensures work { work.new ≡ work_bytes (words_of system.now) (bytes_answer system.now rho bound
        (length estimate.old) (length work.old)) work.old }
    ensures correct { CorrectNumber (words_of system.now) rho bound estimate.new result }
    ensures guarantee { GuaranteedNumber (words_of system.now) rho result }
{
    if let Some(number) = system_fault(system.len()) {
        return refusal(number, 0);
    }
    let mut words = [0u32; 256];
    of_system(system, rho, bound, estimate, work, &mut words)
}
