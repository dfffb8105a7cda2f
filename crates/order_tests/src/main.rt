// Calls for an order of document 01's sample `relay`, in slices of ones and positions of nines, of several lengths and under several ceilings. It prints the
// first and the last word that a call may change of the estimate and of the work slice, each with the word behind it, the positions, and the reply's line.
#![tactic(auto)]

mod rings;

ghost use Rattle.std.specs.Prelude.{◌≤◌, length};

use reading_order::{Arrangement, OrderFault, order};
use std::io;
use std::io::Write;
use test_tables::tables::RELAY;

fn three(out: &mut impl Write, label: &[u8], a: u32, b: u32, c: u32) -> io::Result<()> {
    streams::text(out, label)?;
    write!(out, "{a} {b} {c}")
}

// The line of a reply.
pub fn line(
    out: &mut impl Write,
    reply: Result<Arrangement, OrderFault>,
    positions: &[u32],
) -> io::Result<()> {
    let mut written = [0u8; 1440];
    let n = order_text::write(reply, positions, &mut written);
    streams::first(out, &written, n)
}

// The call on the first words of slices: 77 of estimate, 44 of work and 2 positions are needed.
fn ask(
    ceiling: usize,
    estimate: usize,
    room: usize,
    count: usize,
    est: &mut [u32],
    work: &mut [u32],
    positions: &mut [u32],
) -> Result<Arrangement, OrderFault>
    requires { (estimate ≤ length est.old) × (room ≤ length work.old) × (count ≤ length positions.old) }
{
    let words = RELAY;
    order(
        &words,
        0,
        ceiling,
        &mut est[..estimate],
        &mut work[..room],
        &mut positions[..count],
    )
}

fn show(
    out: &mut impl Write,
    ceiling: usize,
    estimate: usize,
    room: usize,
    count: usize,
) -> io::Result<()>
    requires { (estimate ≤ 80) × (room ≤ 48) × (count ≤ 3) }
{
    let mut est = [1u32; 80];
    let mut work = [1u32; 48];
    let mut positions = [9u32; 3];
    let reply = ask(
        ceiling,
        estimate,
        room,
        count,
        &mut est,
        &mut work,
        &mut positions,
    );
    three(out, b"estimate ", est[0], est[76], est[77])?;
    three(out, b" work ", work[0], work[43], work[44])?;
    three(
        out,
        b" positions ",
        positions[0],
        positions[1],
        positions[2],
    )?;
    streams::text(out, b": ")?;
    line(out, reply, &positions)
}

fn main(rt: HostRuntime) -> io::Result<()> {
    let out = &mut rt.stdout();
    show(out, 1000, 80, 48, 3)?;
    show(out, 1000, 77, 44, 2)?;
    show(out, 207, 77, 44, 2)?;
    show(out, 206, 77, 44, 2)?;
    show(out, 206, 77, 44, 1)?;
    show(out, 1000, 77, 44, 0)?;
    show(out, 206, 77, 43, 1)?;
    show(out, 206, 76, 43, 1)?;
    rings::show(out)
}
