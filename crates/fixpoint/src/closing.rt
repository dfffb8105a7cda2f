// What the worklist chooses, and then sweeps over all words, until the checker finds every rule obeyed or more than `room` facts are added.
ghost use Rattle.std.specs.Prelude.{◌<◌, length};
ghost use Rattle.table.specs.Code.{code};
ghost use Rattle.calculus.specs.Layout.{WellFormed};
ghost use Rattle.queries.specs.Ready.{Ready};
ghost use Rattle.fixpoint.specs.Grown.{Closed};

use crate::events::{follow, sweep};
use checker::broken;
use permset::PermSet;
use rows::layout::Layout;

// From any estimate to one that obeys every rule, by sound steps, with a memory of zeros; or until more than `room` facts are added. It
// answers how many were.
pub fn settle(
    words: &[u32],
    links: &[u32],
    masks: &[u32],
    est: &mut [u32],
    h: &mut [u32],
    out: &mut [u32],
    l: Layout,
    rho: PermSet,
    room: usize,
) -> usize
    requires { Ready words.now links.now masks.now l × WellFormed (code words.now) est.old × (1 < length out.old) }
    ensures { Closed (code words.now) rho.bits room est.old est.new result }
{
    let mut added = follow(words, links, masks, est, h, out, l, rho, room);
    while added <= room && broken(words, links, masks, est, l, rho) < l.size {
        added += sweep(words, links, masks, est, h, out, l, rho, room - added);
    }
    added
}
