// Each number at several places, and numbers that meet at one word. Numbers 2 and 11 are in `sizes` and `nesting`, 6 is in `keys`.
use crate::cases::{bodies, second_blocks, tables};
use std::io;
use std::io::Write;
use test_tables::answer;

// 1 and 3, then 4 for a word that is absent or of another kind, and 5.
fn block_words(out: &mut impl Write) -> io::Result<()> {
    tables(
        out,
        b"00000000.02000000 02000000.02000021.01ffffff.01000021 ff000000.",
    )?;
    tables(
        out,
        b"01000001.01000001 02000000.01000001 02000000 03000000.",
    )?;
    tables(
        out,
        b"01000001 03000000.01000001 10000000.01000001 02000000 04000000.01000001 02000000 03000000 03000000.",
    )?;
    tables(
        out,
        b"01000001 0200001f.01000001 02000020.01000001 02ffffff.01000001 03000020.01000001 02000020 ff000000.",
    )?;
    second_blocks(
        out,
        b"02000001 03000003 04000000 1c000000.05000001.02000020.02000001 02000003.",
    )?;
    second_blocks(
        out,
        b"02000001 03000003 1c000000.02000001 03000003 04000000 04000000.",
    )?;
    second_blocks(
        out,
        b"02000001 03000003 04000000 18000000.02000001 03000003 04000000 1c000001.",
    )
}

// 7, then 8 for a body and for each part, then 9 and which of two wrong words counts.
fn terms(out: &mut impl Write) -> io::Result<()> {
    answer(
        out,
        b"no body",
        &[0x01000001, 0x02000000, 0x03000003, 0x04000000],
    )?;
    bodies(
        out,
        b"00000000.01000000.02000000.0f000000.25000000.ffffffff.",
    )?;
    bodies(
        out,
        b"18000000 1c000000 0f000000.19000000 1c000000 1c000000 25000000.",
    )?;
    bodies(
        out,
        b"15000000.18000000 1c000000.19000000 1c000000 1c000000.18000000 1c000000 20000000.",
    )?;
    bodies(
        out,
        b"18000000 1c000000 10000004.18000001.18000000 12000017 25000000.18000000 25000000 12000017.",
    )
}

// 10: the argument is bound in a function's body, let's first part in its second, and neither after the term.
fn variables(out: &mut impl Write) -> io::Result<()> {
    second_blocks(
        out,
        b"02000001 03000003 04000000 14000000.02000001 03000003 04000000 14000001.",
    )?;
    bodies(
        out,
        b"14000000.14ffffff.15000000 14000001.15000000 14000002.18000000 15000000 1c000000 14000001.",
    )?;
    bodies(
        out,
        b"17000000 14000001 1c000000.17000000 1c000000 14000001.17000000 1c000000 14000002.",
    )?;
    bodies(out, b"18000000 17000000 1c000000 1c000000 14000001.")
}

// 12, and a wrong word before it.
fn trailing(out: &mut impl Write) -> io::Result<()> {
    tables(out, b"01000000 ffffffff.")?;
    bodies(
        out,
        b"1c000000 1c000000.18000000 1c000000 1c000000 02000000 ff000000.25000000 1c000000.",
    )
}

pub fn run(out: &mut impl Write) -> io::Result<()> {
    block_words(out)?;
    terms(out)?;
    variables(out)?;
    trailing(out)
}
