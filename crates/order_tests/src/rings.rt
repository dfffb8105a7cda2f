// A ring of 64 handlers, as many as a wide table has: each sends to the one so many names on.
ghost use Rattle.std.specs.Prelude.{◌≤◌, ◌<◌};

use crate::line;
use reading_order::order;
use std::io;
use std::io::Write;
use test_tables::tables::{put, word};

// The handler of a name, without permissions or guard, which sends its message to another name.
fn put_handler(words: &mut [u32], name: usize, to: usize)
    requires { name < 64 }
{
    let at = 1 + 6 * name;
    put(words, at, word(2, name));
    put(words, at + 1, word(3, 0));
    put(words, at + 2, word(4, 0));
    put(words, at + 3, word(35, 0));
    put(words, at + 4, word(19, to));
    put(words, at + 5, word(20, 0));
}

fn put_ring(words: &mut [u32], step: usize)
    requires { step ≤ 64 }
{
    put(words, 0, word(5, 64));
    for name in 0..64 {
        put_handler(words, name, (name + step) % 64);
    }
}

// The ring's line, with so many positions.
fn show_in(out: &mut impl Write, step: usize, positions: &mut [u32]) -> io::Result<()>
    requires { step ≤ 64 }
{
    let mut words = [0u32; 385];
    let mut est = [0u32; 12705];
    let mut work = [0u32; 1540];
    put_ring(&mut words, step);
    let reply = order(&words, 0, 1000000, &mut est, &mut work, positions);
    line(out, reply, positions)
}

// Each to the next, and to the one before; a position too few.
pub fn show(out: &mut impl Write) -> io::Result<()> {
    let mut positions = [0u32; 64];
    show_in(out, 1, &mut positions)?;
    show_in(out, 63, &mut positions)?;
    let mut few = [0u32; 63];
    show_in(out, 1, &mut few)
}
