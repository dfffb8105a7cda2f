// Memory for the worklist and its choices by the size of the table, as worklist/specs/Memory.antt counts them (proofs/Rooms.antt).
ghost use Rattle.std.specs.Prelude.{◌<◌};
ghost use Rattle.table.specs.Code.{code};
ghost use Rattle.calculus.specs.Layout.{WellFormed};
ghost use Rattle.queries.specs.Ready.{Ready};
ghost use Rattle.fixpoint.specs.Grown.{Closed};

use crate::closing::settle;
use permset::PermSet;
use rows::layout::Layout;

// With so many words of memory and of choices.
fn sized<const MEMORY: usize, const CHOICES: usize>(
    words: &[u32],
    links: &[u32],
    masks: &[u32],
    est: &mut [u32],
    l: Layout,
    rho: PermSet,
    room: usize,
) -> usize
    requires { Ready words.now links.now masks.now l × WellFormed (code words.now) est.old
        × (MEMORY < 65536) × (1 < CHOICES) × (CHOICES < 65536) }
    ensures { Closed (code words.now) rho.bits room est.old est.new result }
{
    let mut h = [0u32; MEMORY];
    let mut out = [0u32; CHOICES];
    settle(words, links, masks, est, &mut h, &mut out, l, rho, room)
}

// From any estimate to one that obeys every rule, by sound steps, or until more than `room` facts are added. It answers how many were.
pub fn run(
    words: &[u32],
    links: &[u32],
    masks: &[u32],
    est: &mut [u32],
    l: Layout,
    rho: PermSet,
    room: usize,
) -> usize
    requires { Ready words.now links.now masks.now l × WellFormed (code words.now) est.old }
    ensures { Closed (code words.now) rho.bits room est.old est.new result }
{
    match l.size {
        0..=64 => sized::<772, 200>(words, links, masks, est, l, rho, room),
        65..=256 => sized::<4228, 776>(words, links, masks, est, l, rho, room),
        257..=512 => sized::<12420, 1544>(words, links, masks, est, l, rho, room),
        _ => sized::<41092, 3080>(words, links, masks, est, l, rho, room),
    }
}
