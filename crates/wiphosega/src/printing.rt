// The commands whose text a proved function writes: arguments and input are read, the text is written. The output has room for 81,920 bytes more than
// the input.
use crate::arguments::argument;
use std::env::Env;
use std::io;
use std::io::{Read, Write};
use streams::read_input;

fn print(rt: &impl Env, out: &mut impl Write, input: &[u8]) -> io::Result<()> {
    let mut command = [0u8; 16];
    let mut first = [0u8; 16];
    let mut second = [0u8; 16];
    let mut text = [0u8; 212996];
    let n = commands::run(
        argument(rt, 1, &mut command),
        argument(rt, 2, &mut first),
        argument(rt, 3, &mut second),
        input,
        &mut text,
    );
    streams::first(out, &text, n)
}

// Of a longer input 131,076 bytes are kept: two listings of the most bytes, and a word more, which decide.
pub fn with_input(rt: &impl Env, input: &mut impl Read, out: &mut impl Write) -> io::Result<()> {
    let mut bytes = [0u8; 131076];
    let n = read_input(input, &mut bytes)?;
    print(rt, out, &bytes[..n])
}

pub fn without_input(rt: &impl Env, out: &mut impl Write) -> io::Result<()> {
    print(rt, out, b"")
}

fn print_leak(rt: &impl Env, out: &mut impl Write, rho: &[u8], input: &[u8]) -> io::Result<()> {
    let mut bound = [0u8; 16];
    let mut ceiling = [0u8; 16];
    let mut text = [0u8; 147457];
    let n = leaks::run(
        rho,
        argument(rt, 3, &mut bound),
        argument(rt, 4, &mut ceiling),
        input,
        &mut text,
    );
    streams::first(out, &text, n)
}

fn leak_of(
    rt: &impl Env,
    input: &mut impl Read,
    out: &mut impl Write,
    rho: &[u8],
) -> io::Result<()> {
    let mut bytes = [0u8; 65537];
    let n = read_input(input, &mut bytes)?;
    print_leak(rt, out, rho, &bytes[..n])
}

// The command `leak`; without its first argument the help is printed, and no input is read.
pub fn leak(rt: &impl Env, input: &mut impl Read, out: &mut impl Write) -> io::Result<()> {
    let mut rho = [0u8; 16];
    match argument(rt, 2, &mut rho) {
        [] => without_input(rt, out),
        rho => leak_of(rt, input, out, rho),
    }
}
