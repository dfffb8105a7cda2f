// Tables of 1,023 to 1,025 words: 31 blocks of 33 words each, the body of each of depth 30.
use std::io;
use std::io::Write;
use test_tables::tables::{blocks, changed, first_words};

fn lengths(out: &mut impl Write, words: &mut [u32]) -> io::Result<()> {
    changed(out, b"1,024 words", words, 1024, 0, 0x0100001f)?;
    first_words(out, b"the first 1,023 of them", words, 1023)?;
    first_words(out, b"the first 992 of them", words, 992)?;
    first_words(out, b"1,025 words", words, 1025)?;
    changed(
        out,
        b"1,025 words and 33 handlers",
        words,
        1025,
        0,
        0x01000021,
    )?;
    changed(
        out,
        b"1,025 words, word 0 of kind 2",
        words,
        1025,
        0,
        0x02000000,
    )
}

fn handlers(out: &mut impl Write, words: &mut [u32]) -> io::Result<()> {
    changed(
        out,
        b"1,024 words, a handler less",
        words,
        1024,
        0,
        0x0100001e,
    )?;
    changed(
        out,
        b"1,024 words, a handler more",
        words,
        1024,
        0,
        0x01000020,
    )?;
    changed(out, b"1,024 words again", words, 1024, 0, 0x0100001f)
}

fn last(out: &mut impl Write, label: &[u8], words: &mut [u32], w: u32) -> io::Result<()> {
    changed(out, label, words, 1024, 1023, w)
}

fn last_words(out: &mut impl Write, words: &mut [u32]) -> io::Result<()> {
    last(out, b"its last word of kind 37", words, 0x25000000)?;
    last(out, b"its last word constant 4", words, 0x10000004)?;
    last(out, b"its last word variable 1", words, 0x14000001)?;
    last(out, b"its last word a cell", words, 0x20000000)?;
    last(out, b"its last word a number", words, 0x11ffffff)
}

pub fn run(out: &mut impl Write) -> io::Result<()> {
    let mut words = [0u32; 1025];
    blocks(&mut words, 33, 0);
    lengths(out, &mut words)?;
    handlers(out, &mut words)?;
    last_words(out, &mut words)
}
