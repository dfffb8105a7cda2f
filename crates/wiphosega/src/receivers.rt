// The command `senders`: for each handler of a system who may have sent to it, by the least estimate.
use crate::arguments::set;
use crate::explain::help;
use crate::systems::{refusal, run};
use calls::numbers::{fault_number, fault_place};
use solver::analyse::analyse;
use std::env::Env;
use std::io;
use std::io::{Read, Write};

// Enough for every system: 32 lines of at most 119 bytes.
fn senders_by(out: &mut impl Write, words: &[u32], est: &[u32]) -> io::Result<()> {
    let mut text = [0u8; 4096];
    match senders::write(words, est, &mut text) {
        Ok(n) => streams::first(out, &text, n),
        Err(r) => refusal(out, r),
    }
}

fn senders_of(out: &mut impl Write, words: &[u32], rho: u32) -> io::Result<()> {
    let mut est = [0u32; 72704];
    let mut work = [0u32; 4096];
    match analyse(words, rho, &mut est, &mut work) {
        Err(f) => streams::refusal(out, fault_number(f), fault_place(f)),
        Ok(_) => senders_by(out, words, &est),
    }
}

pub fn senders(rt: &impl Env, input: &mut impl Read, out: &mut impl Write) -> io::Result<()> {
    let Some(rho) = set(rt, 2) else {
        return help(out);
    };
    run(input, out, |out, words| senders_of(out, words, rho))
}
