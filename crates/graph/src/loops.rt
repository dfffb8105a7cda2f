// The first of the shortest loops.
ghost use Rattle.std.specs.Prelude.{◌≡◌, ◌+◌, ◌-◌, ◌^◌, ◌≤◌, ◌<◌, length};
ghost use Rattle.graph.specs.Search.{lowest_from, closes, loop_length, loop_start, is_next, lowest_next, follow, IsBelow};
ghost use Rattle.graph.specs.Search.{senders as Search·senders};
ghost use Rattle.graph.specs.Search.{reaching as Search·reaching};
ghost use Rattle.graph.specs.Answer.{starting_with};

use crate::set;

// Who may send to a member of the set.
fn senders(rows: &[u64], set: u64) -> u64
    requires { set < 2 ^ length rows.now }
    ensures { result ≡ Search·senders rows.now set }
{
    let mut left = set;
    let mut found = 0;
    while left != 0 {
        let p = left.trailing_zeros() as usize;
        found |= rows[p];
        left = set::without(left, p);
    }
    found
}

// From where t is reached in exactly m messages.
fn reaching(rows: &[u64], alive: u64, t: usize, m: usize) -> u64
    requires { (t < 64) × (alive < 2 ^ length rows.now) }
    ensures { result ≡ Search·reaching rows.now alive t m }
{
    let mut set = set::only(alive, t);
    for _ in 0..m {
        set = senders(rows, set) & alive;
    }
    set
}

// In how many messages, from 1 and below the limit, t first reaches itself; the limit where it does not. No Option: `loop_length` takes the
// number as the least so far, either way.
fn closing(rows: &[u64], alive: u64, t: usize, limit: usize) -> usize
    requires { (t < 64) × (1 ≤ limit) × (alive < 2 ^ length rows.now) }
    ensures { result ≡ lowest_from (limit - 1) 1 (λ m. closes rows.now alive m t) }
{
    let mut set = set::only(alive, t);
    for m in 1..limit {
        set = senders(rows, set) & alive;
        if set::has(set, t) {
            return m;
        }
    }
    limit
}

// How many positions the shortest loop has.
pub fn loop_length(rows: &[u64], n: usize, alive: u64) -> Option<usize>
    requires { (n ≤ 64) × (n ≤ length rows.now) × (alive < 2 ^ length rows.now) }
    ensures { IsBelow (n + 1) (loop_length rows.now alive n) result }
{
    let mut shortest = n + 1;
    for t in 0..n {
        shortest = closing(rows, alive, t, shortest);
    }
    (shortest <= n).then_some(shortest)
}

fn is_closing(rows: &[u64], alive: u64, m: usize, t: usize) -> bool
    requires { (t < 64) × (alive < 2 ^ length rows.now) }
    ensures { result ≡ closes rows.now alive m t }
{
    set::has(reaching(rows, alive, t, m), t)
}

// The lowest position that reaches itself in m messages, where there is one. No Option: n, where `Search.loop_start` says n, is never used.
pub fn loop_start(rows: &[u64], n: usize, alive: u64, m: usize) -> usize
    requires { (n ≤ 64) × (n ≤ length rows.now) × (alive < 2 ^ length rows.now) }
    ensures { result ≡ loop_start rows.now alive n m }
{
    (0..n).find(|&t| is_closing(rows, alive, m, t)).unwrap_or(n)
}

fn is_next(rows: &[u64], set: u64, x: usize, z: usize) -> bool
    requires { z < length rows.now }
    ensures { result ≡ is_next rows.now set x z }
{
    set::has(set, z) && set::has(rows[z], x)
}

// The lowest member of the set that x may send to. No Option: n stands for none in `Search.lowest_next` too, and the walk never comes to it.
fn lowest_next(rows: &[u64], n: usize, set: u64, x: usize) -> usize
    requires { n ≤ length rows.now }
    ensures { result ≡ lowest_next rows.now n set x }
{
    (0..n).find(|&z| is_next(rows, set, x, z)).unwrap_or(n)
}

pub fn write_loop(rows: &[u64], n: usize, alive: u64, t: usize, m: usize, positions: &mut [u32])
    requires { (n ≤ 64) × (t < n) × (n ≤ length rows.now) × (alive < 2 ^ length rows.now) × (m ≤ length positions.old) }
    ensures { positions.new ≡ starting_with (follow rows.now alive n t m t) positions.old }
{
    let mut x = t;
    for i in 0..m {
        positions[i] = x as u32;
        x = lowest_next(rows, n, reaching(rows, alive, t, m - (i + 1)), x);
    }
}
