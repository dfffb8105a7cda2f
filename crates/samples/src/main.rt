// Runs every sample of document 01 and prints the first line of its verdict, with bound 0.
#![tactic(auto)]

mod large;
mod small;

use std::io;
use std::io::Write;

fn written_out(out: &mut impl Write) -> io::Result<()> {
    small::bodies(out)?;
    small::others(out)?;
    small::branches(out)?;
    small::relays(out)
}

fn main(rt: HostRuntime) -> io::Result<()> {
    let out = &mut rt.stdout();
    written_out(out)?;
    small::refusals(out)?;
    large::depths(out)?;
    large::sizes(out)
}
