// The search for a block in an accepted table.
ghost use Rattle.std.specs.Prelude.{◌≡◌, ◌+◌, ◌≤◌, length, drop};
ghost use Rattle.table.specs.Scan.{accepted, narrow_reading};
ghost use Rattle.table.specs.Code.{skip};
ghost use Rattle.blocks.specs.Blocks.{block_length};
ghost use Rattle.overlay.specs.Lookup.{keyed, sought};
ghost use Rattle.overlay.specs.Parts.{span_of};

use table::{argument_of, arity_of};

// The word after the term at a place.
fn term_end(words: &[u32], at: usize) -> usize
    requires { length words.now ≤ 1024 }
    ensures { result ≡ at + skip (drop at words.now) 1 }
{
    let mut left = 1;
    for next in at..words.len() {
        left = left - 1 + arity_of(words[next]);
        if left == 0 {
            return next + 1;
        }
    }
    words.len().max(at)
}

// The word after the block at a place.
pub fn block_end(words: &[u32], at: usize) -> usize
    requires { (length words.now ≤ 1024) × (at ≤ length words.now) }
    ensures { result ≡ at + block_length (drop at words.now) }
{
    term_end(words, at + 3)
}

// Whether the block at a place has this name and this permission set.
fn has_key(words: &[u32], at: usize, name: u32, perms: u32) -> bool
    requires { at + 2 ≤ length words.now }
    ensures { result ≡ keyed name perms (drop at words.now) }
{
    argument_of(words[at]) == name && argument_of(words[at + 1]) == perms
}

// From where up to where the block with this name and this permission set stands.
pub fn seek(words: &[u32], name: u32, perms: u32) -> Option<(usize, usize)>
    requires { narrow_reading words.now ≡ accepted }
    ensures { result ≡ span_of (sought words.now name perms) }
{
    let handlers = argument_of(words[0]);
    let mut at = 1;
    for _ in 0..handlers {
        let end = block_end(words, at);
        if has_key(words, at, name, perms) {
            return Some((at, end));
        }
        at = end;
    }
    None
}
