// Orders and shortest loops of a relation between up to 64 positions: row t has bit s where s may send to t.
#![tactic(auto)]

mod loops;
mod order;
mod set;

ghost use Rattle.std.specs.Prelude.{◌≡◌, length};
ghost use Rattle.graph.specs.Answer.{answer, written, starting_with, Means};

#[derive(Clone, Copy, PartialEq, Eq)]
pub enum Arrangement {
    // An order, of so many positions.
    Ordered(usize),
    // There is none, but a shortest loop, of so many positions.
    Looped(usize),
}

// Writes an order of the live positions, or else the first of their shortest loops, from the start of `positions`.
// None: the slice has fewer entries than there are positions.
pub fn arrange(rows: &[u64], live: u64, positions: &mut [u32]) -> Option<Arrangement>
    ensures value { result ≡ answer rows.now live (length positions.old) }
    ensures positions_after { positions.new ≡ starting_with (written rows.now live result) positions.old }
    ensures means { Means rows.now live result positions.new }
{
    let n = set::places(rows);
    if positions.len() < n {
        return None;
    }
    let alive = set::below(live, n);
    let Some(m) = loops::loop_length(rows, n, alive) else {
        let count = order::write_order(rows, n, alive, positions);
        return Some(Arrangement::Ordered(count));
    };
    let t = loops::loop_start(rows, n, alive, m);
    loops::write_loop(rows, n, alive, t, m, positions);
    Some(Arrangement::Looped(m))
}
