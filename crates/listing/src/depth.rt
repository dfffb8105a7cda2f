// The depth of each word of an accepted table, with a stack of the depths that wait. The stack grows downwards: `top` is its first entry.
ghost use Rattle.std.specs.Prelude.{◌≡◌, ◌++◌, ◌+◌, ◌≤◌, ◌<◌, length, take, drop, replicate};
ghost use Rattle.table.specs.Scan.{accepted, narrow_reading};
ghost use Rattle.listing.specs.Listing.{depths as Listing·depths};
ghost use Rattle.listing.specs.Depths.{leaves};

use table::kinds::{BLOCK, FIRST_TERM, TABLE};
use table::{argument_of, arity_of, kind_of};

// The depth d, so many times.
fn push(stack: &mut [u8], top: usize, count: usize, d: u8) -> usize
    requires { (count ≤ top) × (top ≤ length stack.old) }
    ensures count_value { result + count ≡ top }
    ensures stack_after { drop result stack.new ≡ replicate count d ++ drop top stack.old }
{
    let at = top - count;
    stack[at..top].fill(d);
    at
}

// What a word at the depth d leaves to come.
fn push_left(stack: &mut [u8], top: usize, w: u32, d: u8) -> usize
    requires { (length (leaves w d) ≤ top) × (top ≤ length stack.old) × (d ≤ 64) }
    ensures d_value { result + length (leaves w d) ≡ top }
    ensures stack_after { drop result stack.new ≡ leaves w d ++ drop top stack.old }
{
    match kind_of(w) {
        TABLE => push(stack, top, argument_of(w) as usize, 0),
        BLOCK => {
            let body = push(stack, top, 1, 1);
            push(stack, body, 2, 0)
        }
        kind if kind < FIRST_TERM => top,
        _ => push(stack, top, arity_of(w), d + 1),
    }
}

// The depths of all words, at the start of `depths`.
pub fn find_depths(words: &[u32], depths: &mut [u8])
    requires { (narrow_reading words.now ≡ accepted) × (length words.now ≤ length depths.old) }
    ensures { take (length words.now) depths.new ≡ Listing·depths words.now }
{
    let mut stack = [0u8; 1024];
    let mut top = 1023;
    for (i, &w) in words.iter().enumerate() {
        let d = stack[top];
        depths[i] = d;
        top = push_left(&mut stack, top + 1, w, d);
    }
}
