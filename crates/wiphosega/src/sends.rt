// The command `deliveries`: for each send of a system and each handler whether it is delivered, and if not, why.
use crate::systems::{refusal, run};
use std::io;
use std::io::{Read, Write};

// Enough for every system: 447 sends at most, where each message is a send, with a line of at most 37 bytes for each of 32 handlers.
fn deliveries_of(out: &mut impl Write, words: &[u32]) -> io::Result<()> {
    let mut text = [0u8; 532480];
    match deliveries::write(words, &mut text) {
        Ok(n) => streams::first(out, &text, n),
        Err(r) => refusal(out, r),
    }
}

pub fn deliveries(input: &mut impl Read, out: &mut impl Write) -> io::Result<()> {
    run(input, out, |out, words| deliveries_of(out, words))
}
