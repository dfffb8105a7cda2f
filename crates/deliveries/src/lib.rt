// For each send of a system and each block a line of text: whether the send is delivered, and if not, why.
#![tactic(auto)]

mod lines;

ghost use Rattle.std.specs.Prelude.{◌≡◌, ◌+◌, ◌*◌, ◌≤◌, ◌<◌, ◌-◌, length, get_or};
ghost use Rattle.table.specs.Scan.{accepted, reading};
ghost use Rattle.listing.specs.Answer.{answered};
ghost use Rattle.deliveries.specs.Text.{name_for, answer_at, receiver, receivers, lines_of, written, text_after};
ghost use Rattle.deliveries.specs.Positions.{counted as Positions·counted};
ghost use Rattle.deliveries.specs.Text.{text as Text·text};
ghost use Rattle.text.specs.Added.{Added};

use crate::lines::add_line;
use delivery::{Delivery, judge};
use listing::Refusal;
use permset::PermSet;
use table::kinds::{BLOCK, NAME, SEND};
use table::read::read;
use table::{argument_of, kind_of};
use table_links::{block_of, handler_at};

// The name that a send to this target is compared with, where the receiver has the name `own`.
#[tactic(auto, unfolding(crate::specs::Text::name_for))]
fn name_for(target: u32, own: u32) -> u32
    ensures { result ≡ name_for target own }
{
    if kind_of(target) == NAME {
        argument_of(target)
    } else {
        own
    }
}

// The word at a place, 0 past the end: as the specification's `get_or` has it.
pub fn word_at(words: &[u32], p: usize) -> u32
    ensures { result ≡ get_or words.now p 0 }
{
    words.get(p).copied().unwrap_or(0)
}

// What becomes of the send at p, in the block at `home`, for the block at q.
fn answer(words: &[u32], p: usize, home: usize, q: usize) -> Delivery
    requires { (p < 1024) × (home < length words.now) × (q < length words.now) }
    ensures { result ≡ answer_at words.now p home q }
{
    let receiver = handler_at(words, q);
    let sender = handler_at(words, home);
    let own = sender.perms;
    let required = PermSet::of(argument_of(word_at(words, p)));
    let name = name_for(word_at(words, p + 1), receiver.name);
    judge(name, required, own, receiver)
}

// How many blocks there are with the word w.
#[tactic(auto, unfolding(crate::specs::Positions::counted))]
pub fn counted(w: u32, count: usize) -> usize
    requires { count < 1024 }
    ensures { result ≡ Positions·counted w count }
{
    if kind_of(w) == BLOCK {
        count + 1
    } else {
        count
    }
}

// The line of the send at p for the word at q, if a block starts there and the line has room, and the place after it.
fn put_receiver(
    words: &[u32],
    p: usize,
    home: usize,
    from: usize,
    q: usize,
    to: usize,
    out: &mut [u8],
    at: usize,
) -> usize
    requires { (p < 1024) × (home < length words.now) × (q < length words.now) × (at ≤ 1000000000) }
    ensures added { Added out.old at (receiver words.now p home from q to (get_or words.now q 0)) out.new result }
    ensures upper_bound { result ≤ at + 96 }
{
    if kind_of(words[q]) == BLOCK {
        add_line(out, at, p, from, to, answer(words, p, home, q))
    } else {
        at
    }
}

// The lines of the send at p, as far as there is room from `at` on, and the place after them.
fn put_receivers(
    words: &[u32],
    p: usize,
    home: usize,
    from: usize,
    out: &mut [u8],
    at: usize,
) -> usize
    requires { (p < length words.now) × (home < length words.now) × (length words.now ≤ 1024) × (at ≤ 200000000) }
    ensures added { Added out.old at (receivers words.now p home from) out.new result }
    ensures upper_bound { result ≤ at + 96 * length words.now }
{
    let mut next = at;
    let mut to = 0;
    for (q, &w) in words.iter().enumerate() {
        next = put_receiver(words, p, home, from, q, to, out, next);
        to = counted(w, to);
    }
    next
}

// The lines of the word at p, as far as there is room, and the place after them.
fn put_word(words: &[u32], p: usize, home: usize, from: usize, out: &mut [u8], at: usize) -> usize
    requires { (p < length words.now) × (home < length words.now) × (length words.now ≤ 1024) × (at ≤ 200000000) }
    ensures added { Added out.old at (lines_of words.now p home from (get_or words.now p 0)) out.new result }
    ensures upper_bound { result ≤ at + 98304 }
{
    if kind_of(words[p]) == SEND {
        put_receivers(words, p, home, from, out, at)
    } else {
        at
    }
}

// The lines of all words, as far as there is room, and their length.
fn put_words(words: &[u32], out: &mut [u8]) -> usize
    requires { length words.now ≤ 1024 }
    ensures { Added out.old 0 (Text·text words.now) out.new result }
{
    let mut next = 0;
    let mut home = 0;
    let mut count = 0usize;
    for (p, &w) in words.iter().enumerate() {
        next = put_word(words, p, home, count.saturating_sub(1), out, next);
        home = block_of(w, p, home);
        count = counted(w, count);
    }
    next
}

// The text, at the start of out, and its length: measured first, since a text without room changes nothing.
fn write_accepted(words: &[u32], out: &mut [u8]) -> Result<usize, Refusal>
    requires { reading words.now ≡ accepted }
    ensures answer { answered result ≡ written words.now (length out.old) }
    ensures text { out.new ≡ text_after words.now out.old }
{
    let n = put_words(words, &mut out[..0]);
    if out.len() < n {
        return Err(Refusal::NoRoom);
    }
    put_words(words, out);
    Ok(n)
}

// The deliveries of a system as text, at the start of out, and its length.
pub fn write(words: &[u32], out: &mut [u8]) -> Result<usize, Refusal>
    ensures answer { answered result ≡ written words.now (length out.old) }
    ensures text { out.new ≡ text_after words.now out.old }
{
    read(words)?;
    write_accepted(words, out)
}
