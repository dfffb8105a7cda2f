// What `leak RHO BOUND CEILING` prints of a listing, written into lent bytes.
#![tactic(auto)]

mod systems;

ghost use Rattle.std.specs.Prelude.{◌≡◌, ◌≤◌, length};
ghost use Rattle.text.specs.Writing.{Wrote};
ghost use Rattle.commands.specs.Printed.{printed_size, out_after};
ghost use Rattle.leaks.specs.Leak.{listing_leak, value_or, values_text, leak_text};

use crate::systems::system_leak;
use commands::arguments::value_of;
use commands::help;
use listing::numbers::{refusal_number, refusal_place};
use listing::read::read;
use report::refusal_line;

// The text of a listing's system, or its refusal.
fn listing_leak(rho: u32, bound: u32, ceiling: u32, input: &[u8], out: &mut [u8]) -> usize
    requires { 4096 ≤ length out.old }
    ensures { Wrote out.old 0 (listing_leak rho bound ceiling input.now) out.new result }
{
    let mut words = [0u32; 1024];
    match read(input, &mut words) {
        Ok(n) => system_leak(&words[..n], rho, bound, ceiling, out),
        Err(r) => refusal_line(out, 0, refusal_number(r), refusal_place(r)),
    }
}

// A number in a base, which may be left out.
#[tactic(auto, unfolding(crate::specs::Leak::value_or))]
fn value_or(digits: &[u8], base: u32, default: u32) -> Option<u32>
    requires { base ≤ 16 }
    ensures { result ≡ value_or base default digits.now }
{
    if digits.len() == 0 {
        return Some(default);
    }
    value_of(digits, base)
}

// The text for three numbers, or the help.
#[tactic(auto, unfolding(crate::specs::Leak::values_text, crate::specs::Leak::given))]
fn values_text(
    rho: Option<u32>,
    bound: Option<u32>,
    ceiling: Option<u32>,
    input: &[u8],
    out: &mut [u8],
) -> usize
    requires { 4096 ≤ length out.old }
    ensures { Wrote out.old 0 (values_text rho bound ceiling input.now) out.new result }
{
    let Some(rho) = rho else {
        return help(out);
    };
    let Some(bound) = bound else {
        return help(out);
    };
    let Some(ceiling) = ceiling else {
        return help(out);
    };
    listing_leak(rho, bound, ceiling, input, out)
}

fn leak_text(rho: &[u8], bound: &[u8], ceiling: &[u8], input: &[u8], out: &mut [u8]) -> usize
    requires { 4096 ≤ length out.old }
    ensures { Wrote out.old 0 (leak_text rho.now bound.now ceiling.now input.now)
        out.new result }
{
    let p = value_of(rho, 16);
    let b = value_or(bound, 16, 0);
    let n = value_or(ceiling, 10, 4294967295);
    values_text(p, b, n, input, out)
}

// The text for three arguments and an input, at the start of the output, and how many bytes it has. Nothing is written where the output has not
// 81,920 bytes more than the input, as for the other commands.
pub fn run(rho: &[u8], bound: &[u8], ceiling: &[u8], input: &[u8], out: &mut [u8]) -> usize
    ensures size { result ≡ printed_size (leak_text rho.now bound.now ceiling.now input.now)
        (length input.now) (length out.old) }
    ensures out { out.new ≡ out_after (leak_text rho.now bound.now ceiling.now input.now)
        (length input.now) out.old }
    ensures fits { result ≤ length out.old }
{
    if out.len() < 81920 {
        return 0;
    }
    if out.len() - 81920 < input.len() {
        return 0;
    }
    leak_text(rho, bound, ceiling, input, out)
}
