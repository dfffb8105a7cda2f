// Whether two words are close: one letter changed, left out or added, or two neighbours exchanged.
#![tactic(auto)]

ghost use Rattle.std.specs.Prelude.{◌≡◌, ◌+◌, ◌≤◌, length, drop, get_or};
ghost use Rattle.closeness.specs.Closeness.{shared as Closeness·shared};
ghost use Rattle.closeness.specs.Closeness.{agree as Closeness·agree};
ghost use Rattle.closeness.specs.Closeness.{exchanged as Closeness·exchanged};
ghost use Rattle.closeness.specs.Closeness.{close as Closeness·close};

// The letter at a place, 0 past the end: as the specification's `get_or` has it, which no letter is.
pub fn byte_at(x: &[u8], i: usize) -> u8
    ensures { result ≡ get_or x.now i 0 }
{
    x.get(i).copied().unwrap_or(0)
}

// The letters from a place on.
fn from(x: &[u8], i: usize) -> &[u8]
    ensures { result.now ≡ drop i x.now }
{
    x.get(i..).unwrap_or(&[])
}

// Whether x from i on is y from j on.
pub fn agree(x: &[u8], i: usize, y: &[u8], j: usize) -> bool
    ensures { result ≡ Closeness·agree x.now i y.now j }
{
    from(x, i) == from(y, j)
}

// How many letters they share at their start.
fn shared(x: &[u8], y: &[u8]) -> usize
    ensures { (result ≡ Closeness·shared x.now y.now) × (result ≤ length x.now) }
{
    for (i, a) in x.iter().enumerate() {
        if y.len() <= i || *a != y[i] {
            return i;
        }
    }
    x.len()
}

// Whether the letters at i and i + 1 are exchanged, and those behind them agree.
fn exchanged(x: &[u8], y: &[u8], i: usize) -> bool
    requires { i ≤ length x.now }
    ensures { result ≡ Closeness·exchanged x.now y.now i }
{
    if byte_at(x, i) != byte_at(y, i + 1) {
        return false;
    }
    if byte_at(x, i + 1) != byte_at(y, i) {
        return false;
    }
    agree(x, i + 2, y, i + 2)
}

// Whether two words are close. A word is close to itself.
pub fn close(x: &[u8], y: &[u8]) -> bool
    ensures { result ≡ Closeness·close x.now y.now }
{
    let i = shared(x, y);
    if agree(x, i + 1, y, i + 1) {
        return true;
    }
    if agree(x, i, y, i + 1) {
        return true;
    }
    if agree(x, i + 1, y, i) {
        return true;
    }
    exchanged(x, y, i)
}
