// What the schedule sees of the table and the estimate.
ghost use Rattle.std.specs.Prelude.{◌≡◌, ◌+◌, ◌<◌, max, length};
ghost use Rattle.table.specs.Links.{link_at};

use crate::memory::{MOST, TURNS};
use choices::word;
use rows::layout::Layout;
use table::{Link, kind_of, kinds};
use table_links::link_at;

const WIDEST: usize = 64;

// The kind of the word p, 0, which is none, past the end: it is compared with kinds alone.
pub fn kind_at(words: &[u32], p: usize) -> u32 {
    kind_of(word(words, p))
}

// The same within the table, which spares a test for each word of a walk over it.
pub fn kind_within(words: &[u32], p: usize) -> u32
    requires { p < length words.now }
{
    kind_of(words[p])
}

// Whether a word of a kind is a term or a block, and not a word of a block's head.
pub fn has_rows(kind: u32) -> bool {
    if kind < kinds::FIRST_TERM {
        kind == kinds::BLOCK
    } else {
        true
    }
}

// The binder of the word p and the word after the term at p are small, whatever the links say.
pub fn link(links: &[u32], p: usize) -> Link
    ensures { (result.end ≡ (link_at links.now p).end) × (result.end < 2048) × (result.binder < 2048) }
{
    link_at(links, p)
}

// The word after the term at p, but later than p whatever the links say.
pub fn past(links: &[u32], p: usize) -> usize
    requires { p < 4096 }
    ensures { result ≡ max (p + 1) (link_at links.now p).end }
{
    link(links, p).end.max(p + 1)
}

// The word after the block or the term at p.
pub fn close(words: &[u32], links: &[u32], p: usize) -> usize
    requires { p < length words.now }
    ensures { result < 2048 }
{
    if kind_within(words, p) == kinds::BLOCK {
        link(links, p + 3).end
    } else {
        link(links, p).end
    }
}

// How many words a row has, which are fewer than WIDEST in every estimate.
pub fn width(l: Layout) -> usize
    ensures { result < 64 }
{
    l.row % WIDEST
}

// The first word of the row r in an estimate, and of the mask r among the masks.
pub fn row_at(l: Layout, r: usize) -> usize
    requires { r < 4096 }
    ensures { result < 262144 }
{
    r * width(l)
}

// The permissions of p and its live flag, in an estimate.
pub fn flags(est: &[u32], l: Layout, p: usize) -> u32 {
    word(est, row_at(l, 2 * (l.size % TURNS)) + p % MOST)
}
