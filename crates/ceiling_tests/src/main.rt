// Analyses document 01's sample `direct` under ceilings on facts, in slices of ones that are longer than it needs, and prints what each call answers and how
// many words of the two slices are zero then.
#![tactic(auto)]

use calls::LimitFault;
use calls::numbers::{fault_number, fault_place};
use comparison::Findings;
use solver::analyse::analyse_within;
use std::io;
use std::io::Write;

fn number(out: &mut impl Write, label: &[u8], n: usize) -> io::Result<()> {
    streams::text(out, label)?;
    write!(out, "{n}")
}

fn refused(out: &mut impl Write, n: u32, place: usize) -> io::Result<()> {
    number(out, b" refused ", n as usize)?;
    number(out, b" at ", place)
}

fn found(out: &mut impl Write, s: Findings) -> io::Result<()> {
    let leak = s.leak;
    number(out, b" leak ", leak.bits as usize)?;
    number(out, b" facts ", s.facts)
}

fn answer(out: &mut impl Write, analysis: Result<Findings, LimitFault>) -> io::Result<()> {
    match analysis {
        Ok(s) => found(out, s),
        Err(LimitFault::Call(f)) => refused(out, fault_number(f), fault_place(f)),
        Err(LimitFault::Facts(n)) => refused(out, 23, n),
    }
}

// How many words are zero.
fn zeros(words: &[u32]) -> usize {
    words.iter().filter(|w| **w == 0).count()
}

// 35 words of estimate and 20 of work are needed.
fn show(out: &mut impl Write, rho: u32, ceiling: usize) -> io::Result<()> {
    let words = [
        0x01000001u32,
        0x02000000,
        0x03000003,
        0x04000000,
        0x24000002,
    ];
    let mut est = [1u32; 40];
    let mut work = [1u32; 24];
    number(out, b"ceiling ", ceiling)?;
    answer(
        out,
        analyse_within(&words, rho, ceiling, &mut est, &mut work),
    )?;
    number(out, b" zeros ", zeros(&est))?;
    number(out, b" and ", zeros(&work))?;
    streams::text(out, b"\n")
}

fn main(rt: HostRuntime) -> io::Result<()> {
    let out = &mut rt.stdout();
    show(out, 0, 0)?;
    show(out, 0, 69)?;
    show(out, 0, 70)?;
    show(out, 0, 71)?;
    show(out, 0, 814)?;
    show(out, 0, 815)?;
    show(out, 0x01000000, 0)
}
