// Reads tables, accepted and refused ones, and prints one line for each.
#![tactic(auto)]

mod cases;
mod keys;
mod kinds;
mod nesting;
mod places;
mod samples;
mod sizes;

use std::io;

fn main(rt: HostRuntime) -> io::Result<()> {
    let out = &mut rt.stdout();
    samples::run(out)?;
    places::run(out)?;
    kinds::run(out)?;
    keys::run(out)?;
    nesting::run(out)?;
    sizes::run(out)
}
