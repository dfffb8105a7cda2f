// The first word of a slice with a stray bit: the rows one after the other, then the words of permissions and flags.
ghost use Rattle.std.specs.Prelude.{◌≡◌, ◌+◌, ◌*◌, ◌<◌, ◌≤◌, length};
ghost use Rattle.table.specs.Scan.{accepted, reading};
ghost use Rattle.table.specs.Code.{code};
ghost use Rattle.stray.specs.Stray.{of_block, first_stray};
ghost use Rattle.stray.specs.First.{First};
ghost use Rattle.stray.specs.Allowed.{inside, clean, Slice, Rows};

use crate::Holding;
use crate::allowed::allow;
use rows::layout::Layout;
use table::{kind_of, kinds};

// The words of permissions and flags have 25 digits: 24 permissions, and the live flag.
const FLAGS_END: u32 = 33554432;

// The first of so many words from `at` on that has a digit outside a row; the place after them where there is none.
fn outside(est: &[u32], row: &[u32], at: usize, count: usize) -> usize
    requires { (at + count ≤ length est.now) × (count ≤ length row.now) }
    ensures { First (inside est.now row.now at) at (at + count) result }
{
    for i in 0..count {
        let x = est[at + i];
        if x & row[i] != x {
            return at + i;
        }
    }
    at + count
}

// Whether row r is the value set of a block's first word.
fn of_block(words: &[u32], r: usize) -> bool
    requires { (reading words.now ≡ accepted) × (r < 2 * length words.now) }
    ensures { result ≡ of_block (code words.now) r }
{
    r % 2 == 0 && kind_of(words[r / 2]) == kinds::BLOCK
}

// The first word of row r with a stray digit.
fn in_row(words: &[u32], est: &[u32], things: &[u32], blocks: &[u32], l: Layout, r: usize) -> usize
    requires { Slice words.now est.now l × Rows (code words.now) l things.now blocks.now × (r < 2 * l.size) }
    ensures { First (clean (code words.now) est.now) (r * l.row) (r * l.row + l.row) result }
{
    let at = r * l.row;
    if of_block(words, r) {
        return outside(est, blocks, at, l.row);
    }
    outside(est, things, at, l.row)
}

// The first word of the rows with a stray digit.
fn in_rows(words: &[u32], est: &[u32], things: &[u32], blocks: &[u32], l: Layout) -> usize
    requires { Slice words.now est.now l × Rows (code words.now) l things.now blocks.now }
    ensures { First (clean (code words.now) est.now) 0 (2 * l.size * l.row) result }
{
    let mut end = 0;
    for r in 0..2 * l.size {
        let k = in_row(words, est, things, blocks, l, r);
        end += l.row;
        if k < end {
            return k;
        }
    }
    end
}

// The first word of permissions and flags with a stray digit.
fn in_flags(words: &[u32], est: &[u32], l: Layout) -> usize
    requires { Slice words.now est.now l }
    ensures { First (clean (code words.now) est.now) (2 * l.size * l.row) (length est.now) result }
{
    for k in l.flags(0)..est.len() {
        if FLAGS_END <= est[k] {
            return k;
        }
    }
    est.len()
}

// The first word of the slice with a stray digit, with the rows that are lent.
fn search(words: &[u32], est: &[u32], things: &[u32], blocks: &[u32], l: Layout) -> usize
    requires { Slice words.now est.now l × Rows (code words.now) l things.now blocks.now }
    ensures { result ≡ first_stray (code words.now) est.now }
{
    let k = in_rows(words, est, things, blocks, l);
    if k < l.flags(0) {
        return k;
    }
    in_flags(words, est, l)
}

// The first word of the slice with a stray digit; so many as it has where there is none.
pub fn first_stray(words: &[u32], est: &[u32], l: Layout) -> usize
    requires { Slice words.now est.now l }
    ensures { result ≡ first_stray (code words.now) est.now }
{
    let mut things = [0u32; 36];
    allow(words, &mut things, Holding::Things, l);
    let mut blocks = [0u32; 36];
    allow(words, &mut blocks, Holding::Blocks, l);
    search(words, est, &things, &blocks, l)
}
