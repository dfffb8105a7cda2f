// Values: where a value ends that nests arrays and objects at most so deep, and where the items of one start.
ghost use Rattle.std.specs.Prelude.{◌≡◌, ◌<◌, drop};
ghost use Rattle.json_text.specs.Values.{literal, start, closing, mark, name, separated, item, items, first, value, is_text};
ghost use Rattle.json_text.specs.Answers.{ended, started, stepped};

use crate::Item;
use crate::bytes::{byte, space};
use crate::numbers::number;
use crate::strings::string;

// What starts a value: all of a value without parts, or the bracket that opens an object (true) or an array.
#[derive(Clone, Copy)]
enum Begun {
    Plain(Option<usize>),
    Opens(bool, usize),
}

fn literal(text: &[u8], at: usize, word: &[u8]) -> Option<usize>
    ensures { ended text.now result ≡ literal word.now (drop at text.now) }
{
    let mut p = at;
    for b in word {
        if byte(text, p) != *b as u32 {
            return None;
        }
        p += 1;
    }
    Some(p)
}

#[tactic(auto, using(crate::proofs::Places::reading), unfolding(crate::specs::Values::start))]
fn start(text: &[u8], at: usize) -> Begun
    ensures { started text.now result ≡ start (drop at text.now) }
{
    match byte(text, at) {
        0x66 => Begun::Plain(literal(text, at + 1, b"alse")),
        0x6e => Begun::Plain(literal(text, at + 1, b"ull")),
        0x74 => Begun::Plain(literal(text, at + 1, b"rue")),
        0x7b => Begun::Opens(true, at + 1),
        0x5b => Begun::Opens(false, at + 1),
        0x22 => Begun::Plain(string(text, at + 1)),
        _ => Begun::Plain(number(text, at)),
    }
}

#[tactic(auto, unfolding(crate::specs::Values::closing))]
fn closing(keyed: bool) -> u32
    ensures { (result ≡ closing keyed) × (result < 256) }
{
    if keyed { 0x7d } else { 0x5d }
}

// A byte at a place, and the white space behind it.
#[tactic(auto, using(crate::proofs::Places::reading), unfolding(crate::specs::Values::mark))]
fn mark(text: &[u8], at: usize, b: u32) -> Option<usize>
    requires { b < 256 }
    ensures { ended text.now result ≡ mark b (drop at text.now) }
{
    if byte(text, at) == b {
        Some(space(text, at + 1))
    } else {
        None
    }
}

// The place of an item's value: behind the name of a member, or the item's own.
#[tactic(auto, using(crate::proofs::Places::reading), unfolding(crate::specs::Values::name, crate::specs::Bytes::then))]
pub fn name(text: &[u8], at: usize, keyed: bool) -> Option<usize>
    ensures { ended text.now result ≡ name keyed (drop at text.now) }
{
    if !keyed {
        return Some(at);
    }
    if byte(text, at) != 0x22 {
        return None;
    }
    let p = string(text, at + 1)?;
    mark(text, space(text, p), 0x3a)
}

// Behind an item and white space: the next item, or the end.
#[tactic(auto, using(crate::proofs::Places::reading), unfolding(crate::specs::Values::separated))]
fn separated(text: &[u8], at: usize, keyed: bool) -> Option<Item>
    ensures { stepped text.now result ≡ separated keyed (drop at text.now) }
{
    let b = byte(text, at);
    if b == 0x2c {
        return Some(Item::Goes(space(text, at + 1)));
    }
    if b == closing(keyed) {
        return Some(Item::Ends(at + 1));
    }
    None
}

// The item at a place, whose value nests at most so deep.
#[cycle(item_items_value)]
pub fn item(text: &[u8], at: usize, keyed: bool, nest: usize) -> Option<Item>
    ensures { stepped text.now result ≡ item (value nest) keyed (drop at text.now) }
{
    let p = name(text, at, keyed)?;
    let q = value(text, p, nest)?;
    separated(text, space(text, q), keyed)
}

// The items behind an opening bracket.
#[tactic(auto, using(crate::proofs::Places::read_in))]
#[cycle(item_items_value)]
fn items(text: &[u8], at: usize, keyed: bool, nest: usize) -> Option<usize>
    ensures { ended text.now result ≡ items (value nest) keyed (drop at text.now) }
{
    let mut p = space(text, at);
    if byte(text, p) == closing(keyed) {
        return Some(p + 1);
    }
    loop {
        match item(text, p, keyed, nest)? {
            Item::Goes(q) => p = q,
            Item::Ends(q) => return Some(q),
        }
    }
}

// Where the first item starts, behind an opening bracket.
#[tactic(auto, using(crate::proofs::Places::reading), unfolding(crate::specs::Values::first))]
pub fn first(text: &[u8], at: usize, keyed: bool) -> Option<usize>
    ensures { ended text.now result ≡ first keyed (drop at text.now) }
{
    let p = space(text, at);
    if byte(text, p) == closing(keyed) {
        None
    } else {
        Some(p)
    }
}

// The value at a place.
#[cycle(item_items_value)]
fn value(text: &[u8], at: usize, nest: usize) -> Option<usize>
    ensures { ended text.now result ≡ value nest (drop at text.now) }
{
    match start(text, at) {
        Begun::Plain(end) => end,
        Begun::Opens(keyed, p) => {
            if nest == 0 {
                None
            } else {
                items(text, p, keyed, nest - 1)
            }
        }
    }
}

// Whether the whole is a JSON text that nests at most so deep.
#[tactic(auto, using(crate::proofs::Places::reading), unfolding(crate::specs::Values::is_text))]
pub fn is_text(text: &[u8], nest: usize) -> bool
    ensures { result ≡ is_text nest text.now }
{
    match value(text, space(text, 0), nest) {
        Some(p) => text.len() <= space(text, p),
        None => false,
    }
}
