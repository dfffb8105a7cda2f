// The digits that may be set in a row, as a row.
ghost use Rattle.std.specs.Prelude.{◌≡◌, ℕ, ◌+◌, ◌*◌, ◌≤◌, length, get_or};
ghost use Rattle.table.specs.Scan.{accepted, reading};
ghost use Rattle.table.specs.Code.{code};
ghost use Rattle.calculus.specs.Elements.{plain, elements};
ghost use Rattle.rows.specs.Laid.{LaidOut};
ghost use Rattle.stray.specs.Allowed.{word_named, Leading, Allowed};

use crate::Holding;
use masks::{set_if, word_makes};
use rows::layout::Layout;
use table::{kind_of, kinds};

// Whether the element of a word may stand in a row.
fn named(h: Holding, w: u32) -> bool
    ensures { result ≡ word_named h w }
{
    match h {
        Holding::Things => word_makes(w) != 0,
        Holding::Blocks => kind_of(w) == kinds::BLOCK,
    }
}

// All plain elements, into a row of zeros.
fn set_plain(row: &mut [u32], lead: usize)
    requires by_index { (k : ℕ) → get_or row.old k 0 ≡ 0 }
    requires lead_in_bounds { lead ≤ length row.old }
    ensures { Leading lead row.new }
{
    row[..lead].fill(u32::MAX);
}

// The elements of the words that may stand in the row, besides the plain ones.
fn set_words(words: &[u32], row: &mut [u32], h: Holding, l: Layout)
    requires words_value { (reading words.now ≡ accepted) × LaidOut (code words.now) l × (l.row ≤ length row.old) × (length row.old ≤ 256) }
    requires allowed { Allowed (code words.now) h (plain (code words.now)) row.old }
    ensures { Allowed (code words.now) h (elements (code words.now)) row.new }
{
    let first = 32 * l.lead;
    for (p, word) in words.iter().enumerate() {
        set_if(row, first + p, named(h, *word));
    }
}

// All digits that may be set, into a row of zeros.
pub fn allow(words: &[u32], row: &mut [u32], h: Holding, l: Layout)
    requires words_value { (reading words.now ≡ accepted) × LaidOut (code words.now) l × (l.row ≤ length row.old) × (length row.old ≤ 256) }
    requires by_index { (k : ℕ) → get_or row.old k 0 ≡ 0 }
    ensures { Allowed (code words.now) h (elements (code words.now)) row.new }
{
    set_plain(row, l.lead);
    set_words(words, row, h, l);
}
