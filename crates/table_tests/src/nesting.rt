// Bodies of depth 64 and 65. A body's own word has depth 1.
use std::io;
use std::io::Write;
use test_tables::tables::{fill, first_words, head, put};

// A body of `count` words, two in turn, around a last one.
fn nest(
    out: &mut impl Write,
    label: &[u8],
    even: u32,
    odd: u32,
    count: usize,
    last: u32,
) -> io::Result<()> {
    let mut words = [0u32; 160];
    head(&mut words);
    fill(&mut words, 4, even, odd);
    if count < 156 {
        put(&mut words, 4 + count, last);
        first_words(out, label, &words, 5 + count)?;
    }
    Ok(())
}

fn cells(out: &mut impl Write, label: &[u8], count: usize, last: u32) -> io::Result<()> {
    nest(out, label, 0x20000000, 0x20000000, count, last)
}

fn functions(out: &mut impl Write, label: &[u8], count: usize, last: u32) -> io::Result<()> {
    nest(out, label, 0x15000000, 0x15000000, count, last)
}

// Each let has a constant as its first part, and the next one as its second.
fn lets(out: &mut impl Write, label: &[u8], count: usize, last: u32) -> io::Result<()> {
    nest(out, label, 0x17000000, 0x10000001, count, last)
}

pub fn run(out: &mut impl Write) -> io::Result<()> {
    cells(out, b"a record in 63 cells", 63, 0x1c000000)?;
    cells(out, b"a record in 64 cells", 64, 0x1c000000)?;
    cells(out, b"64 cells and nothing in them", 63, 0x20000000)?;
    functions(out, b"variable 63 in 63 functions", 63, 0x1400003f)?;
    functions(out, b"variable 64 in 63 functions", 63, 0x14000040)?;
    functions(out, b"variable 64 in 64 functions", 64, 0x14000040)?;
    lets(out, b"variable 63 in 63 lets", 126, 0x1400003f)?;
    lets(out, b"variable 64 in 64 lets", 128, 0x14000040)?;
    cells(out, b"kind 37 with argument 1 in 64 cells", 64, 0x25000001)?;
    cells(out, b"constant 4 in 64 cells", 64, 0x10000004)?;
    cells(out, b"variable 1 in 64 cells", 64, 0x14000001)?;
    cells(out, b"a block's word in 64 cells", 64, 0x02000000)?;
    cells(out, b"a record with argument 1 in 64 cells", 64, 0x1c000001)
}
