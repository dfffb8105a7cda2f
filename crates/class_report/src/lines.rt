// The line of a system and those of the totals, written into a lent slice from a place on. Each has at most 96 bytes after the fingerprint.
ghost use Rattle.std.specs.Prelude.{◌≡◌, ◌+◌, ◌≤◌, length};
ghost use Rattle.permset.specs.Sets.{width};
ghost use Rattle.text.specs.Writing.{Wrote};
ghost use Rattle.class_report.specs.Report.{outcome_text, line, permission_line, permission_lines, count_line, totals};
ghost use Rattle.class_report.specs.Writing.{count_in};

use crate::{Outcome, PERMISSIONS};
use permset::PermSet;
use report::refusal_line;
use text::{hex_field, number_field, put, set_field};

// The leak, and a line feed.
fn put_leak(out: &mut [u8], at: usize, leak: PermSet) -> usize
    requires { at + 12 ≤ length out.old }
    ensures { Wrote out.old at (outcome_text (Ok leak)) out.new result }
{
    let next = set_field(out, at, b"leak ", leak.bits);
    put(out, next, b"\n")
}

// What an analysis says of a system, and a line feed.
fn put_outcome(out: &mut [u8], at: usize, outcome: Outcome) -> usize
    requires { at + 96 ≤ length out.old }
    ensures { Wrote out.old at (outcome_text outcome) out.new result }
{
    match outcome {
        Ok(s) => put_leak(out, at, s),
        Err(r) => refusal_line(out, at, r.number, r.place),
    }
}

// The line of a system, at the start of out.
pub fn system_line(out: &mut [u8], position: usize, fingerprint: u32, outcome: Outcome) -> usize
    requires { 126 ≤ length out.old }
    ensures { Wrote out.old 0 (line position fingerprint outcome) out.new result }
{
    let a = number_field(out, 0, b"", position as u64);
    let b = hex_field(out, a, b" ", fingerprint);
    let c = put(out, b, b" ");
    put_outcome(out, c, outcome)
}

// The line of a permission.
fn permission_line(out: &mut [u8], at: usize, permission: usize, leaks: u32, of: u32) -> usize
    requires { at + 96 ≤ length out.old }
    ensures wrote { Wrote out.old at (permission_line permission leaks of) out.new result }
    ensures upper_bound { result ≤ at + 96 }
{
    let a = number_field(out, at, b"permission ", permission as u64);
    let b = number_field(out, a, b" leaks ", leaks as u64);
    let c = number_field(out, b, b" of ", of as u64);
    put(out, c, b"\n")
}

// The lines of all permissions.
fn permission_lines(out: &mut [u8], start: usize, leaks: &[u32], of: u32) -> usize
    requires { (start + 2304 ≤ length out.old) × (length leaks.now ≡ width) }
    ensures { Wrote out.old start (permission_lines width 0 of (count_in leaks.now)) out.new result }
{
    let mut at = start;
    for i in 0..PERMISSIONS {
        at = permission_line(out, at, i, leaks[i], of);
    }
    at
}

// The first line of the totals.
fn count_line(out: &mut [u8], accepted: u32, refused: u32) -> usize
    requires { 96 ≤ length out.old }
    ensures wrote { Wrote out.old 0 (count_line accepted refused) out.new result }
    ensures upper_bound { result ≤ 96 }
{
    let a = number_field(out, 0, b"accepted ", accepted as u64);
    let b = number_field(out, a, b" refused ", refused as u64);
    put(out, b, b"\n")
}

// The totals, at the start of out.
pub fn put_totals(out: &mut [u8], accepted: u32, refused: u32, leaks: &[u32]) -> usize
    requires { (2400 ≤ length out.old) × (length leaks.now ≡ width) }
    ensures { Wrote out.old 0 (totals accepted refused (count_in leaks.now)) out.new result }
{
    let at = count_line(out, accepted, refused);
    permission_lines(out, at, leaks, accepted)
}
