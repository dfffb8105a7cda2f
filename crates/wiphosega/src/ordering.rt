// The command `order`: an order of a system's live handlers in which each follows all that may send to it, or else a loop.
use crate::arguments::set;
use crate::explain::help;
use crate::systems::run;
use std::env::Env;
use std::io;
use std::io::{Read, Write};

// More than any estimate has.
const NO_CEILING: usize = 4294967296;

// Enough for every system: 96 bytes, and 21 for each position.
fn order_of(out: &mut impl Write, words: &[u32], rho: u32) -> io::Result<()> {
    let mut est = [0u32; 72704];
    let mut work = [0u32; 4096];
    let mut positions = [0u32; 64];
    let mut text = [0u8; 1440];
    let reply = reading_order::order(words, rho, NO_CEILING, &mut est, &mut work, &mut positions);
    let n = order_text::write(reply, &positions, &mut text);
    streams::first(out, &text, n)
}

pub fn order(rt: &impl Env, input: &mut impl Read, out: &mut impl Write) -> io::Result<()> {
    let Some(rho) = set(rt, 2) else {
        return help(out);
    };
    run(input, out, |out, words| order_of(out, words, rho))
}
