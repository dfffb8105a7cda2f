// How the tables of the cases are put together, and the reading of the first words of a slice.
ghost use Rattle.std.specs.Prelude.{◌≡◌, ◌%◌, ◌^◌, drop, set, take};
ghost use Rattle.std.proofs.lemmas.List.Edits.{sets};
ghost use Rattle.table.specs.Words.{word_of};
ghost use Rattle.test_tables.specs.Tables.{block_word, head_words, in_turn, numbered};

use crate::show::{end, reading, text};
use std::io;
use std::io::Write;
use table::kinds;

// Document 01's sample relay.
pub const RELAY: [u32; 11] = [
    0x01000002, 0x02000000, 0x03000008, 0x04000000, 0x23000000, 0x13000001, 0x14000000, 0x02000001,
    0x03000002, 0x04000008, 0x24000002,
];

// The word of a kind and an argument.
pub fn word(kind: usize, argument: usize) -> u32
    ensures { result ≡ word_of (kind % 256) (argument % 2 ^ 24) }
{
    let arguments = kinds::ARGUMENTS as usize;
    (kind % 256 * arguments + argument % arguments) as u32
}

// Stores a word, where there is a place for it.
pub fn put(words: &mut [u32], at: usize, w: u32)
    ensures { words.new ≡ set words.old at w }
{
    if at < words.len() {
        words[at] = w;
    }
}

// Stores word k of a slice, if it has one.
#[tactic(auto, using(crate::proofs::Laws::one_stored, crate::proofs::Laws::none_stored))]
fn put_from(words: &mut [u32], at: usize, from: &[u32], k: usize)
    ensures { words.new ≡ sets words.old at (take 1 (drop k from.now)) }
{
    if k < from.len() {
        put(words, at, from[k]);
    }
}

// Copies words to a place, as far as there is room.
#[tactic(auto, using(crate::proofs::Laws::sets_more, crate::proofs::Laws::sets_done))]
pub fn copy(words: &mut [u32], at: usize, from: &[u32])
    ensures { words.new ≡ sets words.old at from.now }
{
    for i in at..words.len() {
        put_from(words, i, from, i - at);
    }
}

#[tactic(auto, unfolding(crate::specs::Tables::in_turn))]
fn in_turn(even: u32, odd: u32, n: usize) -> u32
    ensures { result ≡ in_turn even odd n }
{
    if n % 2 == 0 { even } else { odd }
}

// Fills a slice from a place on with two words in turn. `blocks` is the same loop with another word: one function for both would take a
// closure and its contract, and be no shorter.
#[tactic(auto, using(crate::proofs::Laws::numbered_more, crate::proofs::Laws::numbered_done))]
pub fn fill(words: &mut [u32], at: usize, even: u32, odd: u32)
    ensures { words.new ≡ numbered (in_turn even odd) 0 words.old at }
{
    for i in at..words.len() {
        words[i] = in_turn(even, odd, i - at);
    }
}

// Word 0 and the block words of a table of one handler, as document 01's samples have them.
pub fn head(words: &mut [u32])
    ensures { words.new ≡ sets words.old 0 head_words }
{
    copy(words, 0, &[0x01000001, 0x02000000, 0x03000003, 0x04000000]);
}

// Word n of blocks of so many words, all of one name: their permissions count from 0, and new cells stand around the handler's message.
#[tactic(auto, unfolding(crate::specs::Tables::block_word))]
fn block_word(span: usize, name: usize, n: usize) -> u32
    ensures { result ≡ block_word span name n }
{
    if span == 0 || span - 1 <= n % span {
        return 0x14000000;
    }
    match n % span {
        0 => word(2, name),
        1 => word(3, n / span),
        2 => 0x04000000,
        _ => 0x20000000,
    }
}

// Fills a slice from word 1 on with blocks of so many words, all of one name.
#[tactic(auto, using(crate::proofs::Laws::numbered_more, crate::proofs::Laws::numbered_done))]
pub fn blocks(words: &mut [u32], span: usize, name: usize)
    ensures { words.new ≡ numbered (block_word span name) 0 words.old 1 }
{
    for i in 1..words.len() {
        words[i] = block_word(span, name, i - 1);
    }
}

// What the reading of the first words of a slice answers.
pub fn first(out: &mut impl Write, label: &[u8], words: &[u32], n: usize) -> io::Result<()> {
    if n <= words.len() {
        return reading(out, label, &words[..n]);
    }
    Ok(())
}

// The same on a line.
pub fn first_words(out: &mut impl Write, label: &[u8], words: &[u32], n: usize) -> io::Result<()> {
    text(out, label)?;
    first(out, b": ", words, n)?;
    end(out)
}

// Stores a word, and reads the first words.
pub fn changed(
    out: &mut impl Write,
    label: &[u8],
    words: &mut [u32],
    n: usize,
    at: usize,
    w: u32,
) -> io::Result<()>
    ensures { words.new ≡ set words.old at w }
{
    put(words, at, w);
    first_words(out, label, words, n)
}
