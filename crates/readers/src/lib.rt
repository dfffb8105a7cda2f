// The leak, read from an estimate.
#![tactic(auto)]

ghost use Rattle.std.specs.Prelude.{◌≡◌, [], ◌∷◌, ◌<◌, length};
ghost use Rattle.table.specs.Item.{item_at};
ghost use Rattle.table.specs.Scan.{name};
ghost use Rattle.table.specs.Code.{code, task_at};
ghost use Rattle.calculus.specs.Estimate.{leak_among, leak as estimateLeak};
ghost use Rattle.readers.specs.Reading.{item_guarded, Readable};

use permset::PermSet;
use rows::layout::Layout;
use table::Item;

// The permissions are the first 24 digits of a word of permissions and flags.
const PERMISSIONS_END: u32 = 16777216;

// Whether the opponent may enter what stands at b.
#[tactic(auto, unfolding(crate::specs::Reading::item_guarded))]
fn entered(words: &[u32], rho: PermSet, b: usize) -> bool
    ensures { result ≡ item_guarded (item_at words.now b) rho.bits }
{
    match table_links::item_at(words, b) {
        Item::Block(h) => h.guard.within(rho),
        Item::Gap | Item::Term(_) => false,
    }
}

// What the block at b adds to the leak.
fn leak_at(words: &[u32], links: &[u32], est: &[u32], l: Layout, rho: PermSet, b: usize) -> PermSet
    requires { Readable words.now links.now est.now l × (b < length words.now) × (task_at words.now b ≡ name) }
    ensures { result.bits ≡ leak_among (code words.now) rho.bits est.now (b ∷ []) }
{
    if !entered(words, rho, b) {
        return PermSet { bits: 0 };
    }
    PermSet {
        bits: est[l.flags(b)] % PERMISSIONS_END,
    }
}

// The leak: the permissions of the blocks that the opponent may enter.
pub fn leak(words: &[u32], links: &[u32], est: &[u32], l: Layout, rho: PermSet) -> PermSet
    requires { Readable words.now links.now est.now l }
    ensures { result.bits ≡ estimateLeak (code words.now) rho.bits est.now }
{
    let mut bits = 0;
    let mut b = 1;
    // a step goes from block to block, over the words within
    while b < words.len() {
        bits |= leak_at(words, links, est, l, rho, b).bits;
        b = table_links::link_at(links, b + 3).end;
    }
    PermSet { bits }
}
