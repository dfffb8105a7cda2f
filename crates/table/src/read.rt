// The reading of a table: `read` answers that it is accepted, or the first refusal with its place.
ghost use Rattle.std.specs.Prelude.{◌≡◌, ◌&&◌, ◌||◌, List, [], ◌∷◌, ℕ, ◌≤◌, OnOk, eqb, leb, length, get_or, drop, replicate};
ghost use Rattle.table.specs.Words.{kind};
ghost use Rattle.table.specs.Scan.{Task, name, term, has, key, fault, scan, reading, narrow_reading};
ghost use Rattle.table.specs.Answer.{outcome};
ghost use Rattle.table.specs.Rest.{judged, after_step, FoundAt, after_block};

use crate::words::{argument_of, arity_of, binds, kind_of, limit_of, names_of};
use crate::{Refusal, kinds};

// Whether a word may stand for a term at a depth under so many binders.
#[tactic(auto, unfolding(crate::specs::Scan::fault, crate::specs::Scan::tests, crate::specs::Scan::first_of, crate::specs::Rest::judged, crate::specs::Answer::outcome, crate::specs::Answer::number, crate::specs::Answer::place))]
fn term_word(w: u32, at: usize, depth: usize, binders: usize, names: u32) -> Result<(), Refusal>
    ensures judged { (keys : List ℕ) (h : ℕ) (s : List ℕ) → length s ≡ binders → outcome result ≡ judged (fault names keys w (term depth h s)) at }
    ensures shallow { OnOk result (depth ≤ 64) }
{
    let kind = kind_of(w);
    let argument = argument_of(w);
    if kind < kinds::FIRST_TERM || kinds::LAST_TERM < kind {
        return Err(Refusal::NotTerm(at));
    }
    if limit_of(w) <= argument || (kind == kinds::NAME && names <= argument) {
        return Err(Refusal::ArgumentRange(at));
    }
    if kind == kinds::VARIABLE && binders <= argument as usize {
        return Err(Refusal::NoBinder(at));
    }
    if 64 < depth {
        return Err(Refusal::TooDeep(at));
    }
    Ok(())
}

// The term at a place, with its parts, whatever is to come after it.
fn term(
    words: &[u32],
    at: usize,
    depth: usize,
    binders: usize,
    names: u32,
) -> Result<usize, Refusal>
    requires { binders ≤ depth }
    ensures { (keys : List ℕ) (h : ℕ) (s : List ℕ) (ts : List Task) → length s ≡ binders
        → scan names (drop at words.now) keys at (term depth h s ∷ ts) ≡ after_step result names words.now keys ts }
{
    if words.len() <= at {
        return Err(Refusal::NoTerm(at));
    }
    let w = words[at];
    term_word(w, at, depth, binders, names)?;
    let mut next = at + 1;
    for i in 0..arity_of(w) {
        next = term(
            words,
            next,
            depth + 1,
            binders + usize::from(binds(w, i)),
            names,
        )?;
    }
    Ok(next)
}

// The argument of the word at a place, if it has the kind that a block has there.
fn block_word(words: &[u32], at: usize, kind: u32) -> Result<u32, Refusal>
    ensures { FoundAt words.now at kind result }
{
    if at < words.len() && kind_of(words[at]) == kind {
        Ok(argument_of(words[at]))
    } else {
        Err(Refusal::NotBlock(at))
    }
}

// The block at a place, whatever is to come after it: the place behind it and its key. `keys` are those of the blocks before.
fn block(words: &[u32], at: usize, keys: &[u32], names: u32) -> Result<(usize, u32), Refusal>
    requires { names ≤ 64 }
    ensures { (ts : List Task) → scan names (drop at words.now) keys.now at (name ∷ ts) ≡ after_block result names words.now keys.now ts }
{
    let name = block_word(words, at, kinds::BLOCK)?;
    if names <= name {
        return Err(Refusal::NameRange(at));
    }
    let perms = block_word(words, at + 1, kinds::PERMISSIONS)?;
    let key = name * kinds::ARGUMENTS + perms;
    if keys.contains(&key) {
        return Err(Refusal::KeyUsed(at + 1));
    }
    block_word(words, at + 2, kinds::GUARD)?;
    let next = term(words, at + 3, 1, 1, names)?;
    Ok((next, key))
}

// The blocks from word 1 on, so many of them, and nothing after the last.
fn blocks(words: &[u32], count: usize, names: u32) -> Result<(), Refusal>
    requires { (count ≤ 64) × (names ≤ 64) }
    ensures { outcome result ≡ scan names (drop 1 words.now) [] 1 (replicate count name) }
{
    // from the back, so that the last one is the first of those that are read
    let mut keys = [0; 64];
    let mut at = 1;
    for done in 0..count {
        let start = 64 - done;
        let (next, key) = block(words, at, &keys[start..], names)?;
        keys[start - 1] = key;
        at = next;
    }
    if at < words.len() {
        return Err(Refusal::Trailing(at));
    }
    Ok(())
}

// Whether a word of the kind starts a table.
fn starts_table(kind: u32) -> bool
    ensures { result ≡ (eqb kind 1 || eqb kind 5) }
{
    kind == kinds::TABLE || kind == kinds::WIDE_TABLE
}

// The whole table.
pub fn read(words: &[u32]) -> Result<(), Refusal>
    ensures { outcome result ≡ reading words.now }
{
    if words.is_empty() {
        return Err(Refusal::NotTable);
    }
    let w = words[0];
    if !starts_table(kind_of(w)) {
        return Err(Refusal::NotTable);
    }
    if 1024 < words.len() {
        return Err(Refusal::TooManyWords);
    }
    let count = argument_of(w);
    let names = names_of(w);
    if names < count {
        return Err(Refusal::TooManyHandlers);
    }
    blocks(words, count as usize, names)
}

// Whether word 0 starts a wide table.
pub fn is_wide(words: &[u32]) -> bool
    ensures { result ≡ eqb (kind (get_or words.now 0 0)) 5 }
{
    !words.is_empty() && kind_of(words[0]) == kinds::WIDE_TABLE
}

// The whole table, where a wide one is refused.
#[tactic(auto, unfolding(crate::specs::Scan::narrow_reading, crate::specs::Answer::outcome, crate::specs::Answer::number, crate::specs::Answer::place))]
pub fn read_narrow(words: &[u32]) -> Result<(), Refusal>
    ensures { outcome result ≡ narrow_reading words.now }
{
    if is_wide(words) {
        return Err(Refusal::NotTable);
    }
    read(words)
}
