// Runs the writers of lines on document 01's examples and on the widest numbers, and prints each line.
#![tactic(auto)]

use std::io;
use std::io::Write;

fn show_refusal(out: &mut impl Write, number: u32, place: usize) -> io::Result<()> {
    let mut line = [0u8; 96];
    let n = report::refusal_line(&mut line, 0, number, place);
    streams::first(out, &line, n)
}

fn show_verdict(
    out: &mut impl Write,
    leak: u32,
    bound: u32,
    over: bool,
    first: u32,
    facts: usize,
) -> io::Result<()> {
    let mut line = [0u8; 96];
    let n = report::verdict_line(&mut line, 0, leak, bound, over, first, facts);
    streams::first(out, &line, n)
}

fn show_handler(
    out: &mut impl Write,
    position: usize,
    name: u32,
    entry: bool,
    live: bool,
    permissions: u32,
) -> io::Result<()> {
    let mut line = [0u8; 96];
    let n = report::handler_line(&mut line, 0, position, name, entry, live, permissions);
    streams::first(out, &line, n)
}

fn main(rt: HostRuntime) -> io::Result<()> {
    let out = &mut rt.stdout();
    show_verdict(out, 2, 0, true, 1, 207)?;
    show_handler(out, 0, 0, true, true, 2)?;
    show_handler(out, 1, 1, false, true, 2)?;
    show_refusal(out, 10, 4)?;
    show_verdict(out, 0, 11259375, false, 32, 0)?;
    show_verdict(out, 16777215, 0, true, 4294967295, 18446744073709551615)?;
    show_handler(out, 18446744073709551615, 4294967295, true, false, 16777215)?;
    show_refusal(out, 4294967295, 18446744073709551615)
}
