// The lines of a text, counted from 0.
ghost use Rattle.std.specs.Prelude.{◌+◌, ◌≤◌, length};
ghost use Rattle.text.specs.Writing.{Wrote};
ghost use Rattle.commands.specs.Meanings.{line_at, lines_at, Behind};

use listing::read::line_end;
use text::put;

// The place behind k lines from a place on.
pub fn behind(text: &[u8], start: usize, k: usize) -> usize
    requires { start ≤ length text.now }
    ensures { Behind text.now start k result }
{
    let mut at = start;
    for _ in 0..k {
        at = line_end(text, at);
    }
    at
}

// Line k of a text.
pub fn put_line(out: &mut [u8], at: usize, text: &[u8], k: usize) -> usize
    requires { at + length text.now ≤ length out.old }
    ensures wrote { Wrote out.old at (line_at k text.now) out.new result }
    ensures upper_bound { result ≤ at + length text.now }
{
    let start = behind(text, 0, k);
    let end = line_end(text, start);
    put(out, at, &text[start..end])
}

// So many lines of a text, from line k on.
pub fn put_lines(out: &mut [u8], text: &[u8], k: usize, count: usize) -> usize
    requires { length text.now ≤ length out.old }
    ensures { Wrote out.old 0 (lines_at k count text.now) out.new result }
{
    let start = behind(text, 0, k);
    let end = behind(text, start, count);
    put(out, 0, &text[start..end])
}
