// What the program prints: the text of each command, written into lent bytes from its arguments and its input.
#![tactic(auto)]

pub mod arguments;
mod checking;
mod converters;
mod explain;
mod lines;
mod listings;
mod manifests;
mod overlays;
mod packing;

ghost use Rattle.std.specs.Prelude.{◌≡◌, ◌+◌, ◌≤◌, length};
ghost use Rattle.text.specs.Writing.{Wrote};
ghost use Rattle.commands.specs.Printed.{key_text, explain_text, block_text, packed_for, other_text, room, printed, printed_size, out_after};

use crate::arguments::value_of;
use crate::checking::check_text;
use crate::converters::convert_text;
pub use crate::explain::help;
use crate::explain::sentence;
use crate::listings::{text_text, words_text};
use crate::manifests::manifest_text;
use crate::overlays::{found_text, join_text};
use crate::packing::pack_text;

// The meaning of a number.
fn explain_text(number: &[u8], out: &mut [u8]) -> usize
    requires { 8192 ≤ length out.old }
    ensures { Wrote out.old 0 (explain_text number.now) out.new result }
{
    match value_of(number, 10) {
        Some(n) => sentence(out, 0, n),
        None => help(out),
    }
}

// The lines of the handler with this name and these permissions.
fn key_text(name: Option<u32>, perms: Option<u32>, input: &[u8], out: &mut [u8]) -> usize
    requires { (length input.now ≤ length out.old) × (8192 ≤ length out.old) }
    ensures { Wrote out.old 0 (key_text name perms input.now) out.new result }
{
    match name {
        Some(n) => match perms {
            Some(s) => found_text(n, s, input, out),
            None => help(out),
        },
        None => help(out),
    }
}

fn block_text(name: &[u8], perms: &[u8], input: &[u8], out: &mut [u8]) -> usize
    requires { (length input.now ≤ length out.old) × (8192 ≤ length out.old) }
    ensures { Wrote out.old 0 (block_text name.now perms.now input.now) out.new result }
{
    let n = value_of(name, 10);
    let s = value_of(perms, 16);
    key_text(n, s, input, out)
}

fn packed_for(rho: Option<u32>, input: &[u8], out: &mut [u8]) -> usize
    requires { room ≤ length out.old }
    ensures { Wrote out.old 0 (packed_for rho input.now) out.new result }
{
    match rho {
        Some(n) => pack_text(n, input, out),
        None => help(out),
    }
}

// The text of a command that stands after the others.
fn other_text(command: &[u8], first: &[u8], input: &[u8], out: &mut [u8]) -> usize
    requires { room ≤ length out.old }
    ensures { Wrote out.old 0 (other_text command.now first.now input.now) out.new result }
{
    if check::same(command, b"pack") {
        return packed_for(value_of(first, 16), input, out);
    }
    if check::same(command, b"widen") {
        return convert_text(true, input, out);
    }
    if check::same(command, b"narrow") {
        return convert_text(false, input, out);
    }
    help(out)
}

// The text of a command.
fn print(command: &[u8], first: &[u8], second: &[u8], input: &[u8], out: &mut [u8]) -> usize
    requires { room + length input.now ≤ length out.old }
    ensures { Wrote out.old 0 (printed command.now first.now second.now input.now)
        out.new result }
{
    if check::same(command, b"text") {
        return text_text(input, out);
    }
    if check::same(command, b"words") {
        return words_text(input, out);
    }
    if check::same(command, b"join") {
        return join_text(input, out);
    }
    if check::same(command, b"block") {
        return block_text(first, second, input, out);
    }
    if check::same(command, b"manifest") {
        return manifest_text(input, out);
    }
    if check::same(command, b"explain") {
        return explain_text(first, out);
    }
    if check::same(command, b"check") {
        return check_text(input, out);
    }
    other_text(command, first, input, out)
}

// The text of a command with its two arguments and its input, at the start of the output, and how many bytes it has. Nothing is written
// where the output has not 81,920 bytes more than the input, which is room for every text.
pub fn run(command: &[u8], first: &[u8], second: &[u8], input: &[u8], out: &mut [u8]) -> usize
    ensures size { result ≡ printed_size (printed command.now first.now second.now input.now)
        (length input.now) (length out.old) }
    ensures out { out.new ≡ out_after (printed command.now first.now second.now input.now)
        (length input.now) out.old }
    ensures fits { result ≤ length out.old }
{
    if out.len() < 81920 {
        return 0;
    }
    if out.len() - 81920 < input.len() {
        return 0;
    }
    print(command, first, second, input, out)
}
