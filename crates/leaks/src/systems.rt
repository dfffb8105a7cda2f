// The text of a system under a ceiling on facts, over slices of its own.
ghost use Rattle.std.specs.Prelude.{◌≡◌, ◌≤◌, length};
ghost use Rattle.text.specs.Writing.{Wrote};
ghost use Rattle.printout.specs.Program.{room};
ghost use Rattle.leaks.specs.Leak.{system_leak};

use printout::limit::tell_within;

// The text over slices with room for every system.
fn sized_leak(
    words: &[u32],
    rho: u32,
    bound: u32,
    ceiling: u32,
    est: &mut [u32],
    work: &mut [u32],
    out: &mut [u8],
) -> usize
    requires { (length words.now ≤ 1024) × (length est.old ≡ 72704) × (length work.old ≡ 4096) × (room ≤ length out.old) }
    ensures { Wrote out.old 0 (system_leak rho bound ceiling words.now) out.new result }
{
    tell_within(words, rho, bound, ceiling as usize, est, work, out)
}

pub fn system_leak(words: &[u32], rho: u32, bound: u32, ceiling: u32, out: &mut [u8]) -> usize
    requires { (length words.now ≤ 1024) × (room ≤ length out.old) }
    ensures { Wrote out.old 0 (system_leak rho bound ceiling words.now) out.new result }
{
    let mut est = [0u32; 72704];
    let mut work = [0u32; 4096];
    sized_leak(words, rho, bound, ceiling, &mut est, &mut work, out)
}
