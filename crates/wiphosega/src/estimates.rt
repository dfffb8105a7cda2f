// The commands `estimate`, the words of a system's least estimate, and `audit`, the check of an estimate from elsewhere.
use crate::arguments::set;
use crate::explain::help;
use crate::systems::run;
use audit::AuditFault;
use audit::numbers::{audit_number, audit_place};
use calls::numbers::{fault_number, fault_place};
use little_endian::{bytes_of, words_of};
use permset::PermSet;
use rows::layout::Layout;
use solver::analyse::analyse;
use std::env::Env;
use std::io;
use std::io::{Read, Write};
use streams::read_input;
use text::{put, set_field};

// So many words, as bytes.
fn first_words(out: &mut impl Write, bytes: &[u8], count: usize) -> io::Result<()> {
    if count <= 72704 {
        return streams::first(out, bytes, 4 * count);
    }
    Ok(())
}

fn print_words(out: &mut impl Write, est: &[u32]) -> io::Result<()> {
    let mut bytes = [0u8; 290816];
    let n = bytes_of(est, &mut bytes);
    first_words(out, &bytes, n)
}

// The first words of a slice: those of an estimate of a system.
fn print_estimate(out: &mut impl Write, est: &[u32], words: &[u32]) -> io::Result<()> {
    if 1024 < words.len() {
        return Ok(());
    }
    let n = Layout::of(words).words();
    if est.len() < n {
        return Ok(());
    }
    print_words(out, &est[..n])
}

fn estimate_of(out: &mut impl Write, words: &[u32], rho: u32) -> io::Result<()> {
    let mut est = [0u32; 72704];
    let mut work = [0u32; 4096];
    match analyse(words, rho, &mut est, &mut work) {
        Err(f) => streams::refusal(out, fault_number(f), fault_place(f)),
        Ok(_) => print_estimate(out, &est, words),
    }
}

pub fn estimate(rt: &impl Env, input: &mut impl Read, out: &mut impl Write) -> io::Result<()> {
    let Some(rho) = set(rt, 2) else {
        return help(out);
    };
    run(input, out, |out, words| estimate_of(out, words, rho))
}

fn obeys(out: &mut impl Write, leak: u32) -> io::Result<()> {
    let mut line = [0u8; 64];
    let a = set_field(&mut line, 0, b"obeys leak ", leak);
    let n = put(&mut line, a, b"\n");
    streams::first(out, &line, n)
}

fn said(out: &mut impl Write, checked: Result<PermSet, AuditFault>) -> io::Result<()> {
    match checked {
        Ok(leak) => obeys(out, leak.bits),
        Err(_) => streams::refusal(out, audit_number(checked), audit_place(checked)),
    }
}

// The first word says how many the system has; the others are the system and the estimate.
fn audit_words(out: &mut impl Write, words: &[u32], rho: u32) -> io::Result<()> {
    if words.len() == 0 {
        return streams::refusal(out, 30, 0);
    }
    let size = words[0] as usize;
    if words.len() <= size {
        return streams::refusal(out, 30, 0);
    }
    let end = size + 1;
    said(out, audit::judge::audit(&words[1..end], rho, &words[end..]))
}

// The words of the input, over words that are lent.
fn audit_room(out: &mut impl Write, input: &[u8], rho: u32, room: &mut [u32]) -> io::Result<()> {
    let n = words_of(input, room);
    audit_words(out, &room[..n], rho)
}

fn audit_in(out: &mut impl Write, input: &[u8], rho: u32) -> io::Result<()> {
    if input.len() % 4 != 0 {
        return streams::refusal(out, 30, 0);
    }
    let mut words = [0u32; 73730];
    audit_room(out, input, rho, &mut words)
}

// Of a longer input 294,920 bytes are kept: a word more than the largest system and its estimate, which decides.
fn audit_with(input: &mut impl Read, out: &mut impl Write, rho: u32) -> io::Result<()> {
    let mut bytes = [0u8; 294920];
    let n = read_input(input, &mut bytes)?;
    audit_in(out, &bytes[..n], rho)
}

pub fn audited(rt: &impl Env, input: &mut impl Read, out: &mut impl Write) -> io::Result<()> {
    match set(rt, 2) {
        Some(rho) => audit_with(input, out, rho),
        None => help(out),
    }
}
