// What stands at each word of accepted tables, and the links that `link` writes.
#![tactic(auto)]

use std::io;
use std::io::Write;
use table::Item;
use table_links::{item_at, link_at};
use test_tables::tables::{RELAY, blocks};
use test_tables::{end, hex, item, link, number, text};

// A let around a function and an application, with a let in a function inside.
const NESTED: [u32; 17] = [
    0x01000001, 0x02000007, 0x03000003, 0x04800000, 0x17000000, 0x15000000, 0x1b000001, 0x14000000,
    0x14000001, 0x16000000, 0x15000000, 0x17000000, 0x14000001, 0x16000000, 0x14000000, 0x14000003,
    0x14000000,
];

// An if with the other constants, a sum and two numbers.
const CONSTANTS: [u32; 12] = [
    0x01000001, 0x02000000, 0x03000003, 0x04000000, 0x19000000, 0x10000002, 0x18000000, 0x10000000,
    0x10000001, 0x1b000000, 0x11000001, 0x11ffffff,
];

// What stands at a word; of a term its link too.
fn line(out: &mut impl Write, words: &[u32], links: &[u32], p: usize) -> io::Result<()> {
    number(out, b"word ", p)?;
    text(out, b" ")?;
    let i = item_at(words, p);
    item(out, i)?;
    if matches!(i, Item::Term(_)) {
        link(out, link_at(links, p))?;
    }
    end(out)
}

fn lines(out: &mut impl Write, words: &[u32], links: &[u32]) -> io::Result<()> {
    for p in 0..words.len() {
        line(out, words, links, p)?;
    }
    Ok(())
}

// The word of a slice of links after those of the table.
fn rest(out: &mut impl Write, words: &[u32], links: &[u32]) -> io::Result<()> {
    let n = words.len();
    if n < links.len() {
        hex(out, b"the next word of the slice ", links[n])?;
        end(out)?;
    }
    Ok(())
}

// The links of a table of at most 32 words.
fn of(out: &mut impl Write, label: &[u8], words: &[u32]) -> io::Result<()> {
    let mut links = [u32::MAX; 32];
    table_links::link(words, &mut links);
    text(out, label)?;
    end(out)?;
    lines(out, words, &links)?;
    rest(out, words, &links)
}

// A slice that is too short.
fn short(out: &mut impl Write) -> io::Result<()> {
    let mut links = [u32::MAX; 10];
    table_links::link(&RELAY, &mut links);
    hex(
        out,
        b"relay with 10 words for its links, the first ",
        links[0],
    )?;
    end(out)
}

// The last word of a table of 1,024 words, whose last block starts at 991.
fn last(out: &mut impl Write) -> io::Result<()> {
    let mut words = [0u32; 1024];
    words[0] = 0x0100001f;
    blocks(&mut words, 33, 0);
    let mut links = [0u32; 1024];
    table_links::link(&words, &mut links);
    text(out, b"1,024 words: the last two, and the place after them")?;
    end(out)?;
    line(out, &words, &links, 1022)?;
    line(out, &words, &links, 1023)?;
    line(out, &words, &links, 1024)
}

fn main(rt: HostRuntime) -> io::Result<()> {
    let out = &mut rt.stdout();
    of(out, b"links of relay", &RELAY)?;
    of(out, b"links of a nested table", &NESTED)?;
    of(out, b"links of an if", &CONSTANTS)?;
    short(out)?;
    last(out)
}
