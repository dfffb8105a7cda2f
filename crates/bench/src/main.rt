// Solves the system on standard input, of up to 1,024 words, as often as the first argument says, under the ceiling on facts that is the second,
// and prints its leak and facts.
#![tactic(auto)]

ghost use Rattle.std.specs.Prelude.{◌≤◌};

use calls::LimitFault;
use calls::numbers::{fault_number, fault_place};
use comparison::Findings;
use little_endian::words_of;
use solver::analyse::analyse_within;
use std::env::{Env, FillError};
use std::io;
use std::io::Write;

// More than any estimate has.
const NO_CEILING: usize = 1000000000;

// The number that refuses an input of this many bytes.
fn feeder_fault(size: usize) -> Option<u32> {
    if 4104 < size {
        return Some(31);
    }
    if size < 8 || size % 4 != 0 {
        return Some(30);
    }
    None
}

fn digit(b: u8) -> usize
    ensures { result ≤ 255 }
{
    b.saturating_sub(b'0') as usize
}

// A number in decimal digits; one that is too large stays below 10^9.
fn number(digits: &[u8]) -> usize {
    let mut n: usize = 0;
    for b in digits {
        n = (n * 10 + digit(*b)) % 1000000000;
    }
    n
}

// The argument at a place, or another number where it is absent or has 16 bytes; one that is longer counts as 0.
fn argument(rt: &impl Env, at: usize, otherwise: usize) -> usize {
    let mut digits = [0u8; 16];
    match rt.arg(at, &mut digits) {
        Ok(n) if n < 16 => number(&digits[..n]),
        Ok(_) | Err(FillError::NotPresent) => otherwise,
        Err(FillError::TooLong) => 0,
    }
}

fn answer(out: &mut impl Write, found: Result<Findings, LimitFault>) -> io::Result<()> {
    match found {
        Ok(s) => writeln!(out, "leak {:06x} facts {}", s.leak.bits, s.facts),
        Err(LimitFault::Call(f)) => streams::refusal(out, fault_number(f), fault_place(f)),
        Err(LimitFault::Facts(n)) => streams::refusal(out, 23, n),
    }
}

// Solves so many times, and once where that is 0.
fn solve(
    words: &[u32],
    rho: u32,
    ceiling: usize,
    est: &mut [u32],
    work: &mut [u32],
    times: usize,
) -> Result<Findings, LimitFault> {
    let mut found = analyse_within(words, rho, ceiling, est, work);
    for _ in 1..times {
        found = analyse_within(words, rho, ceiling, est, work);
    }
    found
}

fn run(
    rt: &impl Env,
    out: &mut impl Write,
    words: &[u32],
    rho: u32,
    est: &mut [u32],
    work: &mut [u32],
) -> io::Result<()> {
    let times = argument(rt, 1, 1);
    let ceiling = argument(rt, 2, NO_CEILING);
    answer(out, solve(words, rho, ceiling, est, work, times))
}

fn with_slices(rt: &impl Env, out: &mut impl Write, words: &[u32], rho: u32) -> io::Result<()> {
    let mut est = [0u32; 72704];
    let mut work = [0u32; 4096];
    run(rt, out, words, rho, &mut est, &mut work)
}

// The words are ρ, a bound, which is not looked at, and the system.
fn bench_words(rt: &impl Env, out: &mut impl Write, words: &[u32]) -> io::Result<()> {
    if 2 <= words.len() {
        return with_slices(rt, out, &words[2..], words[0]);
    }
    Ok(())
}

fn bench(rt: &impl Env, out: &mut impl Write, input: &[u8]) -> io::Result<()> {
    if let Some(number) = feeder_fault(input.len()) {
        return streams::refusal(out, number, 0);
    }
    let mut words = [0u32; 1026];
    let n = words_of(input, &mut words);
    bench_words(rt, out, &words[..n])
}

fn main(rt: HostRuntime) -> io::Result<()> {
    let mut input = [0u8; 4105];
    let n = streams::read_full(&mut rt.stdin(), &mut input)?;
    bench(&rt, &mut rt.stdout(), &input[..n])
}
