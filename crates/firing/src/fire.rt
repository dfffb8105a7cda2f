// A clause on an estimate.
ghost use Rattle.table.specs.Code.{code};
ghost use Rattle.calculus.specs.Layout.{WellFormed};
ghost use Rattle.clauses.specs.Asks.{effect, asks};
ghost use Rattle.queries.specs.Ready.{Ready};
ghost use Rattle.firing.specs.Fired.{Fired};
ghost use Rattle.firing.specs.Suits.{Fitting, Suits};

use crate::sends::send;
use crate::targets::{fill, flow, part, pass, permit, put, wake};
use crate::terms::{branches, operate_at, parts};
use crate::things::fire_things;
use clauses::{Clause, Effect, What};
use queries::holds;
use rows::layout::Layout;

// An effect, for all its targets or (f not 0) for the target f: a number, as a choice packs it and `effect` of clauses takes it.
fn add(
    words: &[u32],
    links: &[u32],
    masks: &[u32],
    est: &mut [u32],
    h: &mut [u32],
    l: Layout,
    e: Effect,
    f: usize,
) -> usize
    requires { Ready words.now links.now masks.now l × WellFormed (code words.now) est.old
        × Fitting l masks.now words.now e.what e.x e.y e.z }
    ensures { Fired (code words.now) (effect (code words.now) e.what e.x e.y e.z f) est.old
        est.new result }
{
    let what = e.what;
    let x = e.x;
    let y = e.y;
    let z = e.z;
    match what {
        What::Live => wake(est, h, l, x),
        What::Put => put(est, h, l, x, y),
        What::Fill => fill(est, h, l, x),
        What::Flow => flow(est, h, l, x, y),
        What::Pass => pass(est, masks, h, l, x, z, y),
        What::Permit => permit(est, h, l, x, y as u32),
        What::Operate => operate_at(est, h, l, x, y, z),
        What::Part => part(est, h, l, x, y),
        What::Parts => parts(est, h, l, x, y, z),
        What::Branches => branches(est, h, l, x, y, z),
        What::Send => send(words, links, masks, est, h, l, e, f),
        What::Enter | What::Lower | What::Hand | What::Take | What::Back => {
            fire_things(est, masks, h, l, e, f)
        }
    }
}

// What a clause asks, where its guard passes, for all its targets or (f not 0) for the target f. It answers how many bits that added.
pub fn fire(
    words: &[u32],
    links: &[u32],
    masks: &[u32],
    est: &mut [u32],
    h: &mut [u32],
    l: Layout,
    k: Clause,
    f: usize,
) -> usize
    requires { Ready words.now links.now masks.now l × WellFormed (code words.now) est.old × Suits l masks.now words.now k }
    ensures { Fired (code words.now) (asks (code words.now) k f) est.old est.new result }
{
    let guard = k.guard;
    let effect = k.effect;
    if holds(est, masks, l, guard) {
        add(words, links, masks, est, h, l, effect, f)
    } else {
        0
    }
}
