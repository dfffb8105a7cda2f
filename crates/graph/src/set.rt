// Sets of positions as the bits of a u64.
ghost use Rattle.std.specs.Prelude.{◌≡◌, ◌%◌, ◌^◌, ◌≤◌, ◌<◌};
ghost use Rattle.std.specs.Int.Bits.{bit_and};
ghost use Rattle.permset.specs.Sets.{member, difference};
ghost use Rattle.graph.specs.Answer.{places as Answer·places};

// How many positions there are: one for each row, as far as a set has bits.
pub fn places(rows: &[u64]) -> usize
    ensures { result ≡ Answer·places rows.now }
{
    rows.len().min(64)
}

// The set of i alone.
fn single(i: usize) -> u64
    requires { i < 64 }
    ensures { result ≡ 2 ^ i }
{
    1u64 << i as u32
}

// The members below n.
pub fn below(set: u64, n: usize) -> u64
    requires { n ≤ 64 }
    ensures { result ≡ set % 2 ^ n }
{
    if n < 64 { set % single(n) } else { set }
}

pub fn has(set: u64, i: usize) -> bool
    ensures { result ≡ member set i }
{
    i < 64 && (set >> i as u32) % 2 == 1
}

// The set without i.
pub fn without(set: u64, i: usize) -> u64
    requires { i < 64 }
    ensures { result ≡ difference set (2 ^ i) }
{
    set - (set & single(i))
}

// i alone, if it is in the set.
pub fn only(set: u64, i: usize) -> u64
    requires { i < 64 }
    ensures { result ≡ bit_and (2 ^ i) set }
{
    single(i) & set
}
