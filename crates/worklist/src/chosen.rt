// What is chosen, put into a list of choices. A full list takes no more; `choice_words` of specs/Memory.antt are enough for what an event calls for.
ghost use Rattle.std.specs.Prelude.{◌<◌};

use crate::memory::LIMIT;
use crate::sets::waits;
use choices::{choice_word, count};

pub fn choose(out: &mut [u32], k: usize, p: usize, f: usize) {
    let last = count(out) + 1;
    if last < out.len() {
        out[0] = (last % LIMIT) as u32;
        out[last] = choice_word(k, p, f);
    }
}

// The clauses of p from k on, before e, for all targets.
pub fn choose_some(out: &mut [u32], k: usize, e: usize, p: usize) {
    for i in k..e {
        choose(out, i, p, 0);
    }
}

// A clause that reads the row r, unless r waits or has not grown yet: then it comes to all its readers at its turn.
pub fn choose_unless(h: &[u32], out: &mut [u32], r: usize, k: usize, p: usize, f: usize)
    requires { r < 65536 }
{
    if !waits(h, r) {
        choose(out, k, p, f);
    }
}
