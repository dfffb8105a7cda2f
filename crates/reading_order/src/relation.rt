// Who may send to whom, and who is live, read from the words of an estimate: sets of places in a list of blocks' first words.
ghost use Rattle.std.specs.Prelude.{◌≡◌, map, ◌+◌, ◌*◌, ◌^◌, ◌≤◌, ◌<◌, length};
ghost use Rattle.table.specs.Code.{Code};
ghost use Rattle.rows.specs.Laid.{LaidOut, Sized};
ghost use Rattle.graph.specs.Answer.{starting_with};
ghost use Rattle.reading_order.specs.Relation.{digit, senders_to, live_among};
ghost use Rattle.reading_order.specs.Parts.{Firsts};

use queries::{has, is_live};
use rows::layout::Layout;

// The set of the places one further on, and the first place if it is to be in.
fn shifted(set: u64, first: bool) -> u64
    requires { set < 2 ^ 63 }
    ensures { result ≡ digit first + 2 * set }
{
    if first { 1 + 2 * set } else { 2 * set }
}

// Those that may have sent to the block at b.
fn senders_to(est: &[u32], l: Layout, blocks: &[u32], b: usize) -> u64
    requires { Sized l est.now × Firsts l blocks.now × (b < l.size) }
    ensures { (c : Code) → LaidOut c l → result ≡ senders_to c est.now blocks.now b }
{
    let mut set = 0;
    for i in (0..blocks.len()).rev() {
        set = shifted(set, has(est, l, 2 * b, 32 * l.lead + blocks[i] as usize));
    }
    set
}

// Those that are live. Both loops stay: a closure for the test would bring what each query requires of its place into the clauses of one for both.
pub fn live_among(est: &[u32], l: Layout, blocks: &[u32]) -> u64
    requires { Sized l est.now × Firsts l blocks.now }
    ensures { (c : Code) → LaidOut c l → result ≡ live_among c est.now blocks.now }
{
    let mut set = 0;
    for i in (0..blocks.len()).rev() {
        set = shifted(set, is_live(est, l, blocks[i] as usize));
    }
    set
}

// A row for each block, from the start of a slice: those that may have sent to it.
pub fn fill_rows(est: &[u32], l: Layout, blocks: &[u32], rows: &mut [u64])
    requires { Sized l est.now × Firsts l blocks.now × (length blocks.now ≤ length rows.old) }
    ensures { (c : Code) → LaidOut c l → rows.new
        ≡ starting_with (map (senders_to c est.now blocks.now) blocks.now) rows.old }
{
    for (t, &block) in blocks.iter().enumerate() {
        rows[t] = senders_to(est, l, blocks, block as usize);
    }
}
