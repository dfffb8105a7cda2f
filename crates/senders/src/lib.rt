// For each block of a system a line of text: who may have sent to it, read from the words of an estimate.
#![tactic(auto)]

mod lines;

ghost use Rattle.std.specs.Prelude.{◌≡◌, ◌+◌, ◌*◌, ◌≤◌, ◌<◌, length};
ghost use Rattle.table.specs.Scan.{accepted, reading};
ghost use Rattle.table.specs.Code.{code};
ghost use Rattle.calculus.specs.Elements.{elements};
ghost use Rattle.listing.specs.Answer.{answered};
ghost use Rattle.text.specs.Added.{Added};
ghost use Rattle.senders.specs.Text.{or_nobody, sender_at, opponent, blocks, senders, handler_line, line_at, written, text_after};
ghost use Rattle.senders.specs.Text.{holds as Text·holds};
ghost use Rattle.senders.specs.Text.{text as Text·text};

use crate::lines::add_number;
use deliveries::{counted, word_at};
use listing::Refusal;
use rows::layout::Layout;
use table::kinds::BLOCK;
use table::read::read;
use table::{argument_of, kind_of};
use text::room::put_room;

// Whether the element v is in C(b).
fn holds(words: &[u32], est: &[u32], b: usize, v: usize) -> bool
    requires { (length words.now ≤ 1024) × (b < length words.now) × (v < elements (code words.now)) }
    ensures { result ≡ Text·holds words.now est.now b v }
{
    let row = Layout::of(words).row;
    let w = word_at(est, 2 * b * row + v / 32);
    (w >> (v % 32) as u32) % 2 == 1
}

// The position of the word at s, if it is a block that may have sent to b.
fn put_sender(
    words: &[u32],
    est: &[u32],
    b: usize,
    s: usize,
    position: usize,
    out: &mut [u8],
    at: usize,
) -> usize
    requires { (length words.now ≤ 1024) × (b < length words.now) × (s < length words.now) × (at ≤ 1000000000) }
    ensures added { Added out.old at (sender_at words.now est.now b s position) out.new result }
    ensures upper_bound { result ≤ at + 64 }
{
    if kind_of(words[s]) != BLOCK {
        return at;
    }
    let first = 32 * Layout::of(words).lead;
    if holds(words, est, b, first + s) {
        add_number(out, at, b" ", position)
    } else {
        at
    }
}

// The positions of all blocks that may have sent to b.
fn put_senders(words: &[u32], est: &[u32], b: usize, out: &mut [u8], at: usize) -> usize
    requires { (length words.now ≤ 1024) × (b < length words.now) × (at ≤ 200000000) }
    ensures added { Added out.old at (blocks words.now est.now b) out.new result }
    ensures upper_bound { result ≤ at + 65536 }
{
    let mut next = at;
    let mut position = 0;
    for (s, &w) in words.iter().enumerate() {
        next = put_sender(words, est, b, s, position, out, next);
        position = counted(w, position);
    }
    next
}

// The opponent, if it may have sent to b.
fn put_opponent(words: &[u32], est: &[u32], b: usize, out: &mut [u8], at: usize) -> usize
    requires { (length words.now ≤ 1024) × (b < length words.now) × (at ≤ 1000000000) }
    ensures added { Added out.old at (opponent words.now est.now b) out.new result }
    ensures upper_bound { result ≤ at + 64 }
{
    if holds(words, est, b, 7) {
        put_room(out, at, b" opponent")
    } else {
        at
    }
}

// All who may have sent to b, or a dash.
fn put_all(words: &[u32], est: &[u32], b: usize, out: &mut [u8], at: usize) -> usize
    requires { (length words.now ≤ 1024) × (b < length words.now) × (at ≤ 200000000) }
    ensures added { Added out.old at (or_nobody (senders words.now est.now b)) out.new result }
    ensures upper_bound { result ≤ at + 65600 }
{
    let next = put_senders(words, est, b, out, at);
    let end = put_opponent(words, est, b, out, next);
    if end == at {
        put_room(out, at, b" -")
    } else {
        end
    }
}

// The line of the block at b.
fn put_line(
    words: &[u32],
    est: &[u32],
    b: usize,
    position: usize,
    out: &mut [u8],
    at: usize,
) -> usize
    requires { (length words.now ≤ 1024) × (b < length words.now) × (at ≤ 100000000) }
    ensures added { Added out.old at (handler_line words.now est.now b position) out.new result }
    ensures upper_bound { result ≤ at + 66000 }
{
    let name = argument_of(words[b]);
    let a = add_number(out, at, b"handler ", position);
    let c = add_number(out, a, b" name ", name as usize);
    let d = put_room(out, c, b" from");
    let e = put_all(words, est, b, out, d);
    put_room(out, e, b"\n")
}

// The line of the word at b, if a block starts there.
fn put_block(
    words: &[u32],
    est: &[u32],
    b: usize,
    position: usize,
    out: &mut [u8],
    at: usize,
) -> usize
    requires { (length words.now ≤ 1024) × (b < length words.now) × (at ≤ 100000000) }
    ensures added { Added out.old at (line_at words.now est.now b position) out.new result }
    ensures upper_bound { result ≤ at + 66000 }
{
    if kind_of(words[b]) == BLOCK {
        put_line(words, est, b, position, out, at)
    } else {
        at
    }
}

// The lines of all blocks, as far as there is room, and their length.
fn put_blocks(words: &[u32], est: &[u32], out: &mut [u8]) -> usize
    requires { length words.now ≤ 1024 }
    ensures { Added out.old 0 (Text·text words.now est.now) out.new result }
{
    let mut next = 0;
    let mut position = 0;
    for (b, &w) in words.iter().enumerate() {
        next = put_block(words, est, b, position, out, next);
        position = counted(w, position);
    }
    next
}

// The text, at the start of out, and its length: measured first, since a text without room changes nothing.
fn write_accepted(words: &[u32], est: &[u32], out: &mut [u8]) -> Result<usize, Refusal>
    requires { reading words.now ≡ accepted }
    ensures answer { answered result ≡ written words.now est.now (length out.old) }
    ensures text { out.new ≡ text_after words.now est.now out.old }
{
    let n = put_blocks(words, est, &mut out[..0]);
    if out.len() < n {
        return Err(Refusal::NoRoom);
    }
    put_blocks(words, est, out);
    Ok(n)
}

// Who may have sent to each block of a system, by the words of an estimate of it, as text at the start of out, and its length. Words of the
// estimate that are missing count as zero.
pub fn write(words: &[u32], est: &[u32], out: &mut [u8]) -> Result<usize, Refusal>
    ensures answer { answered result ≡ written words.now est.now (length out.old) }
    ensures text { out.new ≡ text_after words.now est.now out.old }
{
    read(words)?;
    write_accepted(words, est, out)
}
