// Tables that are written as text: words of eight hex digits, a blank between two words, a full stop after each table.
ghost use Rattle.std.specs.Prelude.{◌≤◌};

use std::io;
use std::io::Write;
use test_tables::tables::{copy, first, head, put};
use test_tables::{end, hex, text};

// The value of a hex digit, 0 for another byte.
fn digit(b: u8) -> u32
    ensures { result ≤ 15 }
{
    char::from(b).to_digit(16).unwrap_or(0)
}

// The value of the digits so far, after one more byte.
fn value_after(value: u32, b: u8) -> u32 {
    if b < b'0' { 0 } else { (value << 4) | digit(b) }
}

// How many words there are before the one that is being read, after one more byte. The first `start` stay.
fn count_after(count: usize, start: usize, b: u8) -> usize
    requires { (count ≤ 64) × (start ≤ 64) }
    ensures { result ≤ 64 }
{
    match b {
        b' ' => 64.min(count + 1),
        b'.' => start,
        _ => count,
    }
}

// The words from a place on, and what the reading of all of them answers.
fn line(
    out: &mut impl Write,
    label: &[u8],
    words: &[u32],
    start: usize,
    n: usize,
) -> io::Result<()> {
    text(out, label)?;
    for w in words.iter().take(n).skip(start) {
        hex(out, b" ", *w)?;
    }
    first(out, b": ", words, n)?;
    end(out)
}

// Ends a word at a blank, and a word and its table at a full stop.
fn finish(
    out: &mut impl Write,
    label: &[u8],
    words: &mut [u32],
    start: usize,
    count: usize,
    value: u32,
    b: u8,
) -> io::Result<()>
    requires { count ≤ 64 }
{
    if b < b'0' {
        put(words, count, value);
        if b == b'.' {
            line(out, label, words, start, count + 1)?;
        }
    }
    Ok(())
}

// The tables of a text, each after the first `start` words of a slice.
fn each(
    out: &mut impl Write,
    label: &[u8],
    words: &mut [u32],
    start: usize,
    tables: &[u8],
) -> io::Result<()>
    requires { start ≤ 64 }
{
    let mut value = 0;
    let mut count = start;
    for &b in tables {
        finish(out, label, words, start, count, value, b)?;
        value = value_after(value, b);
        count = count_after(count, start, b);
    }
    Ok(())
}

pub fn tables(out: &mut impl Write, text: &[u8]) -> io::Result<()> {
    let mut words = [0u32; 16];
    each(out, b"table", &mut words, 0, text)
}

// Bodies of one handler.
pub fn bodies(out: &mut impl Write, text: &[u8]) -> io::Result<()> {
    let mut words = [0u32; 16];
    head(&mut words);
    each(out, b"body", &mut words, 4, text)
}

// Second blocks, after one of name 0 and permissions 3.
pub fn second_blocks(out: &mut impl Write, text: &[u8]) -> io::Result<()> {
    let mut words = [0u32; 16];
    copy(
        &mut words,
        0,
        &[0x01000002, 0x02000000, 0x03000003, 0x04000000, 0x1c000000],
    );
    each(out, b"second block", &mut words, 5, text)
}
