// A handler's key is its name together with its permissions.
use crate::cases::{second_blocks, tables};
use std::io;
use std::io::Write;
use test_tables::tables::{blocks, changed};

// After a block of name 0 and permissions 3, and whole tables of two blocks.
fn pairs(out: &mut impl Write) -> io::Result<()> {
    second_blocks(
        out,
        b"02000001 03000003 04000000 1c000000.02000000 03000002 04000000 1c000000.",
    )?;
    second_blocks(
        out,
        b"02000000 03000003 04000000 1c000000.02000000 03000003 04000001 1c000000.",
    )?;
    tables(
        out,
        b"01000002 0200001f 03ffffff 04000000 1c000000 0200001f 03fffffe 04000000 1c000000.",
    )?;
    tables(
        out,
        b"01000002 0200001f 03ffffff 04000000 1c000000 0200001f 03ffffff 04000000 1c000000.",
    )?;
    tables(
        out,
        b"01000002 02000020 03000003 04000000 1c000000 02000020 03000003 04000000 1c000000.",
    )
}

fn change(
    out: &mut impl Write,
    label: &[u8],
    words: &mut [u32],
    at: usize,
    w: u32,
) -> io::Result<()> {
    changed(out, label, words, 129, at, w)
}

// 32 blocks of one name, of four words each. The permissions of the second stand at 6, those of the 32nd at 126.
fn second(out: &mut impl Write, words: &mut [u32]) -> io::Result<()> {
    blocks(words, 4, 5);
    change(
        out,
        b"32 blocks of one name, each with its own permissions",
        words,
        0,
        0x01000020,
    )?;
    change(
        out,
        b"the second with the first's permissions",
        words,
        6,
        0x03000000,
    )?;
    change(out, b"the second with its own again", words, 6, 0x03000001)
}

fn last(out: &mut impl Write, words: &mut [u32]) -> io::Result<()> {
    change(
        out,
        b"the 32nd with the first's permissions",
        words,
        126,
        0x03000000,
    )?;
    change(out, b"the same in a word of kind 4", words, 126, 0x04000000)?;
    change(
        out,
        b"the 32nd with the 31st's permissions",
        words,
        126,
        0x0300001e,
    )?;
    change(out, b"the same with another name", words, 125, 0x02000004)
}

pub fn run(out: &mut impl Write) -> io::Result<()> {
    pairs(out)?;
    let mut words = [0u32; 129];
    second(out, &mut words)?;
    last(out, &mut words)
}
