// What a send asks: of its own word, and of each block that it may start.
ghost use Rattle.std.specs.Prelude.{◌≡◌, ℕ, ◌<◌, length, T};
ghost use Rattle.table.specs.declared.Item.TheVariants as items;
ghost use Rattle.table.specs.declared.Term.TheVariants as terms;
ghost use Rattle.table.specs.Item.{item_at};
ghost use Rattle.table.specs.Scan.{name};
ghost use Rattle.table.specs.Code.{code, task_at};
ghost use Rattle.table.specs.Links.{LinksOf};
ghost use Rattle.calculus.specs.Constraint.{L};
ghost use Rattle.calculus.specs.Layout.{sets};
ghost use Rattle.checker.specs.Viewed.{Seen, Lowers, Handed, LowersFor, LowersForAll};

use crate::tests::lowered;
use crate::view::View;
use clauses::elements::UNIT;
use clauses::make::{end, permissions_of};
use clauses::masks::MESSAGES;
use permset::PermSet;
use queries::{has_some, starts};
use table_links::link_at;

// The send at p, in the block at `home`, with its message at d: what it requires of a receiver, and the permissions of its block.
#[derive(Clone, Copy)]
pub struct Sending {
    pub p: usize,
    pub d: usize,
    pub home: usize,
    pub required: PermSet,
    pub own: PermSet,
}

impl View<'_> {
    // `below`, or the lowest word that does not obey what the send asks for the block b: of the send itself to deliver, of b to know its sender.
    fn to_block(&self, s: Sending, b: usize, below: usize) -> usize
        requires { Handed self.now s × (b < length self.now.words.now) × (task_at self.now.words.now b ≡ name) }
        ensures { LowersFor self.now s b below result }
    {
        if !starts(
            self.words,
            self.estimate,
            self.layout,
            s.p,
            s.required,
            s.own,
            b,
        ) {
            return below;
        }
        let delivered = self.is_live(b)
            & (self.passed_by(MESSAGES, 2 * s.d, 2 * b + 1) & self.lifted(b, s.p));
        let sent = lowered(below, s.p, delivered);
        lowered(sent, b, self.in_value(b, 32 * self.layout.lead + s.home))
    }

    // The same for all blocks, where there is something to send.
    fn to_blocks(&self, s: Sending, below: usize) -> usize
        requires { Handed self.now s × LinksOf self.now.words.now self.now.links.now }
        ensures { LowersForAll self.now s below result }
    {
        if !has_some(self.estimate, self.masks, self.layout, 2 * s.d, MESSAGES) {
            return below;
        }
        let mut lowest = below;
        let mut b = 1;
        // A `while`: where the next block starts is read from the links, which no range or iterator says as plainly.
        while b < self.words.len() {
            lowest = self.to_block(s, b, lowest);
            b = link_at(self.links, b + 3).end;
        }
        lowest
    }

    // `below`, or the lowest word that does not obey what the live send at p asks of it, which requires a set of its receivers.
    pub fn send(&self, required: PermSet, p: usize, below: usize) -> usize
        requires { Seen self.now p × (item_at self.now.words.now p ≡ items.Term (terms.Send required))
            × T (sets (code self.now.words.now) self.now.estimate.now (L p) 0) }
        ensures { (ρ : ℕ) → Lowers self.now ρ p below result }
    {
        let d = end(self.links, p + 1);
        let home = link_at(self.links, p).home;
        let own = permissions_of(self.words, self.links, p);
        let s = Sending {
            p,
            d,
            home,
            required,
            own,
        };
        let lowest = self.to_blocks(s, below);
        lowered(lowest, p, self.parts(p, d) & self.in_value(p, UNIT))
    }
}
