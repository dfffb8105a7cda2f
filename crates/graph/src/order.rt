// The order: the lowest free position each time.
ghost use Rattle.std.specs.Prelude.{◌≡◌, ◌≤◌, ◌<◌, length};
ghost use Rattle.graph.specs.Search.{is_free, lowest_free, order_from, IsBelow};
ghost use Rattle.graph.specs.Answer.{starting_with};

use crate::set;

fn is_free(rows: &[u64], left: u64, p: usize) -> bool
    requires { p < length rows.now }
    ensures { result ≡ is_free rows.now left p }
{
    set::has(left, p) && rows[p] & left == 0
}

fn lowest_free(rows: &[u64], n: usize, left: u64) -> Option<usize>
    requires { n ≤ length rows.now }
    ensures { IsBelow n (lowest_free rows.now n left) result }
{
    (0..n).find(|&p| is_free(rows, left, p))
}

pub fn write_order(rows: &[u64], n: usize, alive: u64, positions: &mut [u32]) -> usize
    requires { (n ≤ 64) × (n ≤ length rows.now) × (n ≤ length positions.old) }
    ensures value { result ≡ length (order_from rows.now n n alive) }
    ensures positions_after { positions.new ≡ starting_with (order_from rows.now n n alive) positions.old }
{
    let mut left = alive;
    for count in 0..n {
        let Some(p) = lowest_free(rows, n, left) else {
            return count;
        };
        positions[count] = p as u32;
        left = set::without(left, p);
    }
    n
}
