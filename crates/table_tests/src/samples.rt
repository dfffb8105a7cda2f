// The tables of document 01's samples.
use crate::cases::{bodies, tables};
use std::io;
use std::io::Write;
use test_tables::answer;
use test_tables::tables::RELAY;

const TWINS: [u32; 15] = [
    0x01000003, 0x02000000, 0x03000008, 0x04000000, 0x23000004, 0x13000001, 0x14000000, 0x02000001,
    0x03000002, 0x04000008, 0x24000002, 0x02000001, 0x03000004, 0x04000008, 0x24000004,
];

pub fn run(out: &mut impl Write) -> io::Result<()> {
    answer(out, b"no words", &[])?;
    tables(out, b"01000020.01000021.01000000.01000000 01000000.")?;
    bodies(
        out,
        b"24000002.24000004.19000000 10000002 24000001 24000002.19000000 14000000 24000001 24000002.",
    )?;
    bodies(
        out,
        b"16000000 15000000 24000001 10000000.15000000 24000001.14000001.",
    )?;
    answer(out, b"relay", &RELAY)?;
    answer(out, b"twins", &TWINS)
}
