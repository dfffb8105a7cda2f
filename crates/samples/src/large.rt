// The samples at the limits of depth and size.
use crate::small::first;
use std::io;
use std::io::Write;
use test_tables::tables::{blocks, fill, head, put};

// A constant in so many functions.
fn nested(out: &mut impl Write, label: &[u8], count: usize) -> io::Result<()> {
    let mut words = [0u32; 80];
    head(&mut words);
    fill(&mut words, 4, 0x15000000, 0x15000000);
    if count < 70 {
        put(&mut words, 4 + count, 0x10000000);
        first(out, label, &words, 5 + count, 0)?;
    }
    Ok(())
}

pub fn depths(out: &mut impl Write) -> io::Result<()> {
    nested(out, b"depth 64", 63)?;
    nested(out, b"depth 65", 64)
}

// 31 handlers of 33 words, and one word more.
pub fn sizes(out: &mut impl Write) -> io::Result<()> {
    let mut words = [0u32; 1025];
    blocks(&mut words, 33, 0);
    put(&mut words, 0, 0x0100001f);
    first(out, b"1,024 words", &words, 1024, 0)?;
    first(out, b"1,025 words", &words, 1025, 0)
}
