// Arranges some relations and prints each answer with the whole slice, in which 99 stands where nothing was written.
#![tactic(auto)]

ghost use Rattle.std.specs.Prelude.{◌<◌, ◌≤◌};

use graph::Arrangement;
use std::io;
use std::io::Write;

fn text(out: &mut impl Write, s: &[u8]) -> io::Result<()> {
    out.write_all(s)
}

fn number(out: &mut impl Write, n: u64) -> io::Result<()> {
    write!(out, " {n}")
}

fn position(out: &mut impl Write, p: u32) -> io::Result<()> {
    number(out, u64::from(p))
}

fn answer(out: &mut impl Write, a: Option<Arrangement>) -> io::Result<()> {
    match a {
        None => text(out, b" short"),
        Some(Arrangement::Ordered(count)) => {
            text(out, b" order of")?;
            number(out, count as u64)
        }
        Some(Arrangement::Looped(count)) => {
            text(out, b" loop of")?;
            number(out, count as u64)
        }
    }
}

fn slice(out: &mut impl Write, positions: &[u32]) -> io::Result<()> {
    for p in positions {
        position(out, *p)?;
    }
    Ok(())
}

fn show(
    out: &mut impl Write,
    label: &[u8],
    rows: &[u64],
    live: u64,
    positions: &mut [u32],
) -> io::Result<()> {
    text(out, label)?;
    answer(out, graph::arrange(rows, live, positions))?;
    text(out, b":")?;
    slice(out, positions)?;
    text(out, b"\n")
}

// How many positions a slice has room for.
const FEW: usize = 5;

const MANY: usize = 66;

// A slice with so much room.
fn with_room<W: Write, const ROOM: usize>(
    out: &mut W,
    label: &[u8],
    rows: &[u64],
    live: u64,
) -> io::Result<()>
    requires { ROOM < 65536 }
{
    let mut positions = [99u32; ROOM];
    show(out, label, rows, live, &mut positions)
}

// Each position gets the one sender that is so many places on, going round.
fn turn(rows: &mut [u64], by: usize)
    requires { by ≤ 64 }
{
    let n = rows.len();
    for (t, row) in rows.iter_mut().enumerate() {
        *row = 1u64 << ((t + by) % n % 64) as u32;
    }
}

fn orders(out: &mut impl Write) -> io::Result<()> {
    with_room::<_, FEW>(out, b"no rows:", &[], 255)?;
    with_room::<_, FEW>(out, b"none live:", &[1, 2, 4], 0)?;
    with_room::<_, FEW>(out, b"none may send:", &[0, 0, 0], 7)?;
    with_room::<_, FEW>(out, b"0 to 2 to 1:", &[0, 4, 1], 7)?;
    with_room::<_, FEW>(out, b"1 to 2 to 0:", &[4, 0, 2], 7)?;
    with_room::<_, FEW>(out, b"3 to 0:", &[8, 0, 0, 0], 15)?;
    with_room::<_, FEW>(out, b"1 to 0:", &[2, 0, 0, 0], 15)?;
    with_room::<_, FEW>(out, b"0 to 2 to 1, and 2 is not live:", &[0, 4, 1], 3)?;
    with_room::<_, FEW>(out, b"1 to itself, and is not live:", &[0, 2, 0], 5)?;
    with_room::<_, FEW>(out, b"0 to 2 to 1 to 0, and 2 is not live:", &[2, 4, 1], 3)?;
    with_room::<_, FEW>(
        out,
        b"from where there is no row:",
        &[0x8000000000000000, 4],
        0xffffffffffffffff,
    )?;
    with_room::<_, FEW>(out, b"as many as there is room for:", &[0, 0, 0, 0, 0], 31)?;
    with_room::<_, FEW>(out, b"one more:", &[0, 0, 0, 0, 0, 0], 31)
}

fn loops(out: &mut impl Write) -> io::Result<()> {
    with_room::<_, FEW>(out, b"0 to 2 to 0:", &[4, 0, 1], 7)?;
    with_room::<_, FEW>(out, b"1 to itself, and 0 to 2 to 0:", &[4, 2, 1], 7)?;
    with_room::<_, FEW>(out, b"0 to 2 to 1 to 0:", &[2, 4, 1], 7)?;
    with_room::<_, FEW>(out, b"0 to 3 to 0, and 1 to 2 to 1:", &[8, 4, 2, 1], 15)?;
    with_room::<_, FEW>(
        out,
        b"0 to 1 to 2 to 0, and 3 to 4 to 3:",
        &[4, 1, 2, 16, 8],
        31,
    )?;
    with_room::<_, FEW>(out, b"0 to 2 or 3 to 1 to 0:", &[2, 12, 1, 1], 15)?;
    with_room::<_, FEW>(out, b"the same, and 2 is not live:", &[2, 12, 1, 1], 11)?;
    with_room::<_, FEW>(out, b"0 to 1 to 0, and from 2 and to 3:", &[6, 1, 0, 3], 15)
}

fn wide(out: &mut impl Write) -> io::Result<()> {
    let mut ring = [0u64; 64];
    turn(&mut ring, 63);
    with_room::<_, MANY>(out, b"64 round:", &ring, 0xffffffffffffffff)?;
    ring[0] = 0;
    with_room::<_, MANY>(out, b"64 in a line:", &ring, 0xffffffffffffffff)?;
    turn(&mut ring, 1);
    with_room::<_, MANY>(out, b"64 round the other way:", &ring, 0xffffffffffffffff)?;
    ring[63] = 0;
    with_room::<_, MANY>(
        out,
        b"64 in a line the other way:",
        &ring,
        0xffffffffffffffff,
    )?;
    let mut half = [0u64; 32];
    turn(&mut half, 31);
    with_room::<_, MANY>(out, b"32 round:", &half, 0xffffffff)?;
    with_room::<_, MANY>(out, b"32 round, and 31 is not live:", &half, 0x7fffffff)?;
    with_room::<_, MANY>(out, b"66 rows:", &[0; 66], 0xffffffffffffffff)
}

fn main(rt: HostRuntime) -> io::Result<()> {
    let out = &mut rt.stdout();
    orders(out)?;
    loops(out)?;
    wide(out)
}
