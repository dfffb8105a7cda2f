// What may be wrong with a call, in document 01's order.
ghost use Rattle.std.specs.Prelude.{◌≡◌};
ghost use Rattle.table.specs.Scan.{accepted, reading};
ghost use Rattle.table.specs.Code.{code};
ghost use Rattle.calculus.specs.Layout.{estimate_words};
ghost use Rattle.calls.specs.Calls.{stray_bound, CheckedAs};

use crate::Fault;
use rows::layout::Layout;
use table::read::read;

// A bound with bits above the permissions, save the standing bound, which means the empty set.
fn stray_bound(bound: u32) -> bool
    ensures { result ≡ stray_bound bound }
{
    16777216 <= bound && bound != 0x80000000
}

// The words of an estimate of an accepted table.
pub fn words_needed(words: &[u32]) -> usize
    requires { reading words.now ≡ accepted }
    ensures { result ≡ estimate_words (code words.now) }
{
    Layout::of(words).words()
}

// What the caller may get wrong where the table is accepted.
fn check_call(words: &[u32], rho: u32, bound: u32, est: usize, work: usize) -> Result<(), Fault>
    requires { reading words.now ≡ accepted }
    ensures { CheckedAs words.now rho bound est work result }
{
    if 16777216 <= rho {
        return Err(Fault::Rho);
    }
    if stray_bound(bound) {
        return Err(Fault::Bound);
    }
    if est < words_needed(words) {
        return Err(Fault::ShortEstimate);
    }
    if work < 4 * words.len() {
        return Err(Fault::ShortWork);
    }
    Ok(())
}

// What is wrong with a call on slices of `est` and `work` words.
pub fn check(words: &[u32], rho: u32, bound: u32, est: usize, work: usize) -> Result<(), Fault>
    ensures { CheckedAs words.now rho bound est work result }
{
    read(words)?;
    check_call(words, rho, bound, est, work)
}
