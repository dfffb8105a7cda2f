// The lines of the program, written as bytes into a lent slice from a place on. Each has at most 96 bytes.
#![tactic(auto)]

ghost use Rattle.std.specs.Prelude.{◌++◌, ◌+◌, ◌≤◌, length};
ghost use Rattle.text.specs.Text.{bytes};
ghost use Rattle.text.specs.Writing.{Wrote};
ghost use Rattle.report.specs.Lines.{first_outside, refusal_line, verdict_line, handler_line};

use text::{number_field, put, set_field, word_field};

fn first_field(out: &mut [u8], at: usize, over: bool, first: u32) -> usize
    requires { at + 27 ≤ length out.old }
    ensures wrote { Wrote out.old at (bytes " first " ++ first_outside over first) out.new result }
    ensures upper_bound { result ≤ at + 27 }
{
    if over {
        number_field(out, at, b" first ", first as u64)
    } else {
        put(out, at, b" first -")
    }
}

// The line of a refusal.
pub fn refusal_line(out: &mut [u8], at: usize, number: u32, place: usize) -> usize
    requires { at + 96 ≤ length out.old }
    ensures wrote { Wrote out.old at (refusal_line number place) out.new result }
    ensures upper_bound { result ≤ at + 96 }
{
    let a = number_field(out, at, b"refused ", number as u64);
    let b = number_field(out, a, b" at ", place as u64);
    put(out, b, b"\n")
}

// The first line of a verdict. `over` and `first` stay two, as in the record `Verdict` of calculus, which the clause names.
pub fn verdict_line(
    out: &mut [u8],
    at: usize,
    leak: u32,
    bound: u32,
    over: bool,
    first: u32,
    facts: usize,
) -> usize
    requires { at + 96 ≤ length out.old }
    ensures wrote { Wrote out.old at (verdict_line (record { leak = leak; bound = bound; over = over; first = first; facts = facts }))
        out.new result }
    ensures upper_bound { result ≤ at + 96 }
{
    let a = set_field(out, at, b"leak ", leak);
    let b = set_field(out, a, b" bound ", bound);
    let c = word_field(out, b, b" verdict ", over, b"over", b"within");
    let d = first_field(out, c, over, first);
    let e = number_field(out, d, b" facts ", facts as u64);
    put(out, e, b"\n")
}

// The line of one handler.
pub fn handler_line(
    out: &mut [u8],
    at: usize,
    position: usize,
    name: u32,
    entry: bool,
    live: bool,
    permissions: u32,
) -> usize
    requires { at + 96 ≤ length out.old }
    ensures wrote { Wrote out.old at (handler_line position name entry live permissions) out.new result }
    ensures upper_bound { result ≤ at + 96 }
{
    let a = number_field(out, at, b"handler ", position as u64);
    let b = number_field(out, a, b" name ", name as u64);
    let c = word_field(out, b, b" entry ", entry, b"yes", b"no");
    let d = word_field(out, c, b" live ", live, b"yes", b"no");
    let e = set_field(out, d, b" set ", permissions);
    put(out, e, b"\n")
}
