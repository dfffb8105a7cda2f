// The samples that document 01 writes out.
use printout::answer_line;
use std::io;
use std::io::Write;
use test_tables::tables::{RELAY, copy, head, put};
use verdict::judge::verdict;

// The first line of a verdict with bound 0, over slices of its own.
fn answer(out: &mut impl Write, words: &[u32], rho: u32) -> io::Result<()> {
    let mut est = [0u32; 72704];
    let mut work = [0u32; 4096];
    let v = verdict(words, rho, 0, &mut est, &mut work);
    let mut line = [0u8; 96];
    let n = answer_line(v, &mut line, 0);
    streams::text(out, &line[..n])
}

pub fn sample(out: &mut impl Write, label: &[u8], words: &[u32], rho: u32) -> io::Result<()> {
    streams::text(out, label)?;
    streams::text(out, b": ")?;
    answer(out, words, rho)
}

// The first words of a slice.
pub fn first(
    out: &mut impl Write,
    label: &[u8],
    words: &[u32],
    n: usize,
    rho: u32,
) -> io::Result<()> {
    if n <= words.len() {
        sample(out, label, &words[..n], rho)?;
    }
    Ok(())
}

// One handler with permissions 0 and 1, a guard and a body.
fn guarded(
    out: &mut impl Write,
    label: &[u8],
    guard: u32,
    body: &[u32],
    rho: u32,
) -> io::Result<()> {
    let mut words = [0u32; 8];
    head(&mut words);
    put(&mut words, 3, guard);
    copy(&mut words, 4, body);
    if body.len() <= 4 {
        first(out, label, &words, 4 + body.len(), rho)?;
    }
    Ok(())
}

fn single(out: &mut impl Write, label: &[u8], body: &[u32]) -> io::Result<()> {
    guarded(out, label, 0x04000000, body, 0)
}

pub fn bodies(out: &mut impl Write) -> io::Result<()> {
    sample(out, b"01000000 alone", &[0x01000000], 0)?;
    single(out, b"direct", &[0x24000002])?;
    guarded(out, b"guard 4", 0x04000004, &[0x24000002], 0)?;
    guarded(out, b"guard 4 and opponent 4", 0x04000004, &[0x24000002], 4)
}

pub fn others(out: &mut impl Write) -> io::Result<()> {
    single(out, b"24000004", &[0x24000004])?;
    single(out, b"14000001", &[0x14000001])
}

pub fn branches(out: &mut impl Write) -> io::Result<()> {
    single(
        out,
        b"if on true",
        &[0x19000000, 0x10000002, 0x24000001, 0x24000002],
    )?;
    single(
        out,
        b"if on the message",
        &[0x19000000, 0x14000000, 0x24000001, 0x24000002],
    )?;
    single(
        out,
        b"a function applied",
        &[0x16000000, 0x15000000, 0x24000001, 0x10000000],
    )?;
    single(out, b"a function alone", &[0x15000000, 0x24000001])
}

// Relay where word 0 and the sent word are others, and what follows it.
fn changed(
    out: &mut impl Write,
    label: &[u8],
    start: u32,
    send: u32,
    more: &[u32],
) -> io::Result<()> {
    let mut words = [0u32; 15];
    copy(&mut words, 0, &RELAY);
    put(&mut words, 0, start);
    put(&mut words, 4, send);
    copy(&mut words, 11, more);
    if more.len() <= 4 {
        first(out, label, &words, 11 + more.len(), 0)?;
    }
    Ok(())
}

pub fn relays(out: &mut impl Write) -> io::Result<()> {
    changed(out, b"relay", 0x01000002, 0x23000000, &[])?;
    changed(out, b"relay with 23000001", 0x01000002, 0x23000001, &[])?;
    changed(
        out,
        b"twins",
        0x01000003,
        0x23000004,
        &[0x02000001, 0x03000004, 0x04000008, 0x24000004],
    )
}

pub fn refusals(out: &mut impl Write) -> io::Result<()> {
    sample(out, b"no words", &[], 0)?;
    sample(out, b"01000020", &[0x01000020], 0)?;
    sample(out, b"01000021", &[0x01000021], 0)?;
    sample(out, b"01000000 twice", &[0x01000000, 0x01000000], 0)
}
