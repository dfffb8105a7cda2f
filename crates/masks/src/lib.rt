// Which elements are functions, records (or 7), cells, and which may be sent: four rows, one after the other.
#![tactic(auto)]

ghost use Rattle.std.specs.Prelude.{◌≡◌, ℕ, ◌+◌, ◌*◌, ◌<◌, ◌≤◌, length, get_or, drop, replicate};
ghost use Rattle.table.specs.Scan.{accepted, reading};
ghost use Rattle.table.specs.Code.{code};
ghost use Rattle.calculus.specs.Elements.{plain};
ghost use Rattle.calculus.specs.Layout.{mark, pour};
ghost use Rattle.rows.specs.Laid.{LaidOut};
ghost use Rattle.masks.specs.Masks.{word_makes, sort_has, mark_if, mark_word, plain_masks, Filled, FilledIn};

use results::digit;
use rows::layout::Layout;
use table::{kind_of, kinds};

// The sorts of elements, in the order of their masks.
#[derive(Clone, Copy)]
pub enum Sort {
    Function,
    Record,
    Cell,
    Message,
}

// Sets digit n of the words.
fn set_digit(masks: &mut [u32], n: usize)
    requires { n < 32 * length masks.old }
    ensures { masks.new ≡ mark masks.old n }
{
    let at = n / 32;
    masks[at] |= digit((n % 32) as u32);
}

// Sets digit n if it is told to.
#[tactic(auto, unfolding(crate::specs::Masks::mark_if))]
pub fn set_if(masks: &mut [u32], n: usize, told: bool)
    requires { n < 32 * length masks.old }
    ensures { masks.new ≡ mark_if told masks.old n }
{
    if told {
        set_digit(masks, n);
    }
}

// What a word makes, two bits for the place of its kind among those of terms: 1 a function, 2 a record, 3 a cell.
const MAKES: u64 = 13455328256;

pub fn word_makes(w: u32) -> u32
    ensures { result ≡ word_makes w }
{
    let kind = kind_of(w);
    if kind < kinds::FIRST_TERM {
        return 0;
    }
    if kinds::LAST_TERM < kind {
        return 2;
    }
    ((MAKES >> (2 * (kind - kinds::FIRST_TERM))) % 4) as u32
}

// Whether what a word makes is of a sort.
#[tactic(auto, unfolding(crate::specs::Masks::sort_has))]
fn made_has(s: Sort, m: u32) -> bool
    ensures { result ≡ sort_has s m }
{
    match s {
        Sort::Function => m == 1,
        Sort::Record => m == 2,
        Sort::Cell => m == 3,
        Sort::Message => m != 1 && m != 3,
    }
}

// Sets digit n if what a word makes is of a sort.
fn set_sort(masks: &mut [u32], s: Sort, n: usize, m: u32)
    requires { n < 32 * length masks.old }
    ensures { masks.new ≡ mark_if (sort_has s m) masks.old n }
{
    set_if(masks, n, made_has(s, m));
}

// Sets the element v, which is a word that makes m, in the mask of each sort that it has.
#[tactic(auto, unfolding(crate::specs::Masks::mark_word))]
fn set_word(masks: &mut [u32], row: usize, v: usize, m: u32)
    requires { (v < 32 * row) × (4 * row ≤ length masks.old) × (length masks.old ≤ 256) }
    ensures { masks.new ≡ mark_word row v m masks.old }
{
    set_sort(masks, Sort::Function, v, m);
    set_sort(masks, Sort::Record, 32 * row + v, m);
    set_sort(masks, Sort::Cell, 64 * row + v, m);
    set_sort(masks, Sort::Message, 96 * row + v, m);
}

// Sets what the words make, the first of them the element `first`.
fn fill_made(words: &[u32], masks: &mut [u32], row: usize, first: usize)
    requires words_value { (reading words.now ≡ accepted) × (plain (code words.now) ≡ first) }
    requires words_bound { (first + length words.now ≤ 32 * row) × (4 * row ≤ length masks.old) × (length masks.old ≤ 256) }
    requires filled_2 { Filled (code words.now) row first masks.old }
    ensures filled { Filled (code words.now) row (first + length words.now) masks.new }
    ensures rest { drop (4 * row) masks.new ≡ drop (4 * row) masks.old }
{
    for (p, word) in words.iter().enumerate() {
        set_word(masks, row, first + p, word_makes(*word));
    }
}

// Sets all digits of n words.
fn set_words(masks: &mut [u32], at: usize, n: usize)
    requires { (at + n ≤ length masks.old) × (length masks.old ≤ 256) }
    ensures { masks.new ≡ pour masks.old at (replicate n 4294967295) }
{
    masks[at..at + n].fill(u32::MAX);
}

// Sets the plain elements, which fill `lead` words: 7, the opponent's record, and all that may be sent.
#[tactic(auto, unfolding(crate::specs::Masks::plain_masks))]
fn fill_plain(masks: &mut [u32], row: usize, lead: usize)
    requires { (1 ≤ lead) × (lead ≤ row) × (4 * row ≤ length masks.old) × (length masks.old ≤ 256) }
    ensures { masks.new ≡ plain_masks row lead masks.old }
{
    set_digit(masks, 32 * row + 7);
    set_words(masks, 3 * row, lead);
}

// Fills the masks of an accepted table into a slice of zeros. In their rows no digit is set but those of the elements; the words behind them stay.
pub fn fill_masks(words: &[u32], masks: &mut [u32], l: Layout)
    requires words_value { (reading words.now ≡ accepted) × LaidOut (code words.now) l }
    requires by_index { (k : ℕ) → get_or masks.old k 0 ≡ 0 }
    requires row_in_bounds { (4 * l.row ≤ length masks.old) × (length masks.old ≤ 256) }
    ensures { FilledIn (code words.now) l.row masks.old masks.new }
{
    let row = l.row;
    let lead = l.lead;
    fill_plain(masks, row, lead);
    fill_made(words, masks, row, 32 * lead);
}
