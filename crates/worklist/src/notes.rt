// What has grown, noted by whoever writes the estimate: it waits from then on.
ghost use Rattle.std.specs.Prelude.{◌+◌, ◌≤◌};
ghost use Rattle.worklist.specs.Memory.{Kept};

use crate::memory::{LIVE, MOST, PER_ROW, PERMISSIONS, ROWS, TOPS, TURN, TURN_TOPS, TURNS, get};
use crate::sets::add;

// A row, where 2p is C(p) and 2p + 1 is B(p); a word that is live; the permissions of a word.
#[derive(Clone, Copy)]
pub enum Growth {
    Row(usize),
    Live(usize),
    Permissions(usize),
}

pub fn note(h: &mut [u32], growth: Growth)
    ensures { Kept h.old h.new }
{
    match growth {
        Growth::Row(r) => note_row(h, r),
        Growth::Live(q) => note_word(h, LIVE, q),
        Growth::Permissions(p) => note_word(h, PERMISSIONS, p),
    }
}

fn note_row(h: &mut [u32], r: usize) {
    let row = r % TURNS;
    if TURN + PER_ROW * row < h.len() {
        let turn = get(h, TURN + PER_ROW * row) % TURNS;
        add(h, ROWS, TURN_TOPS, turn);
    }
}

// A word, in the set of words at `base`.
fn note_word(h: &mut [u32], base: usize, p: usize)
    requires { base + 33 ≤ TURN }
{
    if TURN <= h.len() {
        add(h, base, TOPS, p % MOST);
    }
}
