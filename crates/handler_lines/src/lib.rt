// The parts of a report's line on a handler, each written into a lent slice where it has room.
#![tactic(auto)]

ghost use Rattle.std.specs.Prelude.{◌≡◌, ◌++◌, ◌+◌, ◌≤◌, ◌<◌, length, get_or};
ghost use Rattle.text.specs.Text.{decimal, set};
ghost use Rattle.text.specs.Writing.{Line};
ghost use Rattle.text.specs.Added.{Added};
ghost use Rattle.handler_lines.specs.Parts.{head_at, tail_at};

use table::argument_of;
use text::room::put_room;
use text::{number_field, set_field};

// A label and a number, at the start of out, and their length.
fn number_line(out: &mut [u8; 64], label: &[u8], n: usize) -> usize
    requires { length label.now ≤ 40 }
    ensures line { Line out.old (label.now ++ decimal n) out.new result }
    ensures upper_bound { result ≤ 64 }
{
    number_field(out, 0, label, n as u64)
}

// A label and a number, where they have room, and the place after them.
pub fn add_number(out: &mut [u8], at: usize, label: &[u8], n: usize) -> usize
    requires { (at ≤ 1000000000) × (length label.now ≤ 40) }
    ensures added { Added out.old at (label.now ++ decimal n) out.new result }
    ensures upper_bound { result ≤ at + 64 }
{
    let mut line = [0u8; 64];
    let size = number_line(&mut line, label, n);
    put_room(out, at, &line[..size])
}

// A label and a set, at the start of out, and their length.
fn set_line(out: &mut [u8; 64], label: &[u8], s: u32) -> usize
    requires { length label.now ≤ 40 }
    ensures line { Line out.old (label.now ++ set s) out.new result }
    ensures upper_bound { result ≤ 64 }
{
    set_field(out, 0, label, s)
}

// A label and a set, where they have room, and the place after them. Not one function with `add_number`: three lines each, and what is written differs.
pub fn add_set(out: &mut [u8], at: usize, label: &[u8], s: u32) -> usize
    requires { (at ≤ 1000000000) × (length label.now ≤ 40) }
    ensures added { Added out.old at (label.now ++ set s) out.new result }
    ensures upper_bound { result ≤ at + 64 }
{
    let mut line = [0u8; 64];
    let size = set_line(&mut line, label, s);
    put_room(out, at, &line[..size])
}

// The word at a place, 0 past the end: as the specification's `get_or` has it.
fn word_at(words: &[u32], p: usize) -> u32
    ensures { result ≡ get_or words.now p 0 }
{
    words.get(p).copied().unwrap_or(0)
}

// Which handler it is that starts at b.
pub fn put_head(words: &[u32], b: usize, position: usize, out: &mut [u8], at: usize) -> usize
    requires { at ≤ 900000000 }
    ensures added { Added out.old at (head_at words.now b position) out.new result }
    ensures upper_bound { result ≤ at + 128 }
{
    let name = argument_of(word_at(words, b));
    let next = add_number(out, at, b"handler ", position);
    add_number(out, next, b" name ", name as usize)
}

// What tells it from another with its name, and the end of the line.
pub fn put_tail(words: &[u32], b: usize, out: &mut [u8], at: usize) -> usize
    requires { (b < 1024) × (at ≤ 900000000) }
    ensures added { Added out.old at (tail_at words.now b) out.new result }
    ensures upper_bound { result ≤ at + 129 }
{
    let permissions = argument_of(word_at(words, b + 1));
    let line = add_number(out, at, b"  line ", b + 1);
    let next = add_set(out, line, b" permissions ", permissions);
    put_room(out, next, b"\n")
}
