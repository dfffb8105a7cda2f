// The commands `join` and `block`: two listings, one after the other.
ghost use Rattle.std.specs.Prelude.{◌≡◌, false, ◌+◌, ◌≤◌, length, get_or, drop};
ghost use Rattle.text.specs.Writing.{Wrote};
ghost use Rattle.overlay.specs.Lookup.{place_of};
ghost use Rattle.commands.specs.Printed.{starts_system, before as Printed·before, joined_text, join_text, found_text};
ghost use Rattle.commands.specs.Pairs.{PairAs, PlacedAs};

use crate::lines::put_lines;
use crate::listings::listing_text;
use listing::numbers::{refusal_number, refusal_place};
use listing::read::read;
use overlay::Found;
use overlay::join::join;
use overlay::lookup::find;
use overlay::numbers::{fault_number, fault_place};
use report::refusal_line;

// Why one of two listings is refused: the number of its refusal, 100 more for that of the second, and its place.
#[derive(Clone, Copy)]
struct PairRefusal {
    number: u32,
    place: usize,
}

fn byte_at(text: &[u8], i: usize) -> u8
    ensures { result ≡ get_or text.now i 0 }
{
    if i < text.len() { text[i] } else { 0 }
}

// Whether `system` stands at a place.
fn starts_system(text: &[u8], at: usize) -> bool
    requires { at ≤ length text.now }
    ensures { result ≡ starts_system (drop at text.now) }
{
    let s = byte_at(text, at) == 115;
    let y = byte_at(text, at + 1) == 121;
    let t = byte_at(text, at + 2) == 115;
    let u = byte_at(text, at + 3) == 116;
    let v = byte_at(text, at + 4) == 101;
    let w = byte_at(text, at + 5) == 109;
    s & (y & (t & (u & (v & w))))
}

// The place where the second listing starts.
fn second_start(text: &[u8]) -> usize
    ensures { (result ≡ Printed·before false text.now) × (result ≤ length text.now) }
{
    let mut start = false;
    for (i, b) in text.iter().enumerate() {
        if start && starts_system(text, i) {
            return i;
        }
        start = *b == b'\n';
    }
    text.len()
}

// The words of two listings, and how many each has.
fn read_pair(
    first: &[u8],
    second: &[u8],
    under: &mut [u32],
    over: &mut [u32],
) -> Result<(usize, usize), PairRefusal>
    requires { (length under.old ≡ 1024) × (length over.old ≡ 1024) }
    ensures { PairAs first.now second.now under.new over.new result }
{
    match read(first, under) {
        Err(r) => Err(PairRefusal {
            number: refusal_number(r),
            place: refusal_place(r),
        }),
        Ok(m) => match read(second, over) {
            Err(r) => Err(PairRefusal {
                number: 100 + refusal_number(r),
                place: refusal_place(r),
            }),
            Ok(n) => Ok((m, n)),
        },
    }
}

// The listing of the joined system.
fn joined_text(base: &[u32], overlay: &[u32], out: &mut [u8]) -> usize
    requires { 65536 ≤ length out.old }
    ensures { Wrote out.old 0 (joined_text base.now overlay.now) out.new result }
{
    let mut words = [0u32; 1024];
    match join(base, overlay, &mut words) {
        Ok(n) => listing_text(&words[..n], out),
        Err(f) => refusal_line(out, 0, fault_number(f), fault_place(f)),
    }
}

// Two listings in, the second laid over the first; the joined listing out.
pub fn join_text(input: &[u8], out: &mut [u8]) -> usize
    requires { 65536 ≤ length out.old }
    ensures { Wrote out.old 0 (join_text input.now) out.new result }
{
    let k = second_start(input);
    let mut under = [0u32; 1024];
    let mut over = [0u32; 1024];
    match read_pair(&input[..k], &input[k..], &mut under, &mut over) {
        Ok((m, n)) => joined_text(&under[..m], &over[..n], out),
        Err(r) => refusal_line(out, 0, r.number, r.place),
    }
}

// The lines of a block, where it stands.
fn place_text(
    first: &[u8],
    second: &[u8],
    base: &[u32],
    overlay: &[u32],
    name: u32,
    perms: u32,
    out: &mut [u8],
) -> usize
    requires { (length first.now ≤ length out.old) × (length second.now ≤ length out.old) × (96 ≤ length out.old) }
    ensures { PlacedAs first.now second.now (place_of base.now overlay.now name perms)
        out.old out.new result }
{
    match find(base, overlay, name, perms) {
        Err(f) => refusal_line(out, 0, fault_number(f), fault_place(f)),
        Ok(found) => match found {
            Found::Base(a, e) => put_lines(out, first, a, e - a),
            Found::Overlay(a, e) => put_lines(out, second, a, e - a),
        },
    }
}

// Two listings in, the lines of one handler out.
pub fn found_text(name: u32, perms: u32, input: &[u8], out: &mut [u8]) -> usize
    requires { (length input.now ≤ length out.old) × (96 ≤ length out.old) }
    ensures { Wrote out.old 0 (found_text name perms input.now) out.new result }
{
    let k = second_start(input);
    let mut under = [0u32; 1024];
    let mut over = [0u32; 1024];
    let first = &input[..k];
    let second = &input[k..];
    match read_pair(first, second, &mut under, &mut over) {
        Ok((m, n)) => place_text(first, second, &under[..m], &over[..n], name, perms, out),
        Err(r) => refusal_line(out, 0, r.number, r.place),
    }
}
