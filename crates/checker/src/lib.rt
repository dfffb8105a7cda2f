// Whether an estimate obeys the flow rules: a test for each kind of word, in the order of the clauses. Nothing is written.
#![tactic(auto)]

mod sends;
mod terms;
mod tests;
mod things;
mod view;

ghost use Rattle.std.specs.Prelude.{◌≡◌, ℕ, ◌+◌, ◌<◌};
ghost use Rattle.table.specs.declared.Item.TheVariants as items;
ghost use Rattle.table.specs.Item.{item_at};
ghost use Rattle.table.specs.Code.{code, block as Block};
ghost use Rattle.calculus.specs.Rules.{guarded, entry as Entry};
ghost use Rattle.calculus.specs.Layout.{WellFormed};
ghost use Rattle.queries.specs.Ready.{Ready};
ghost use Rattle.checker.specs.Obeyed.{first_broken};
ghost use Rattle.checker.specs.Words.{Accepted, own_rule};
ghost use Rattle.checker.specs.Viewed.{TestedIf, Seen, Lowers};

use crate::tests::lowered;
use crate::view::View;
use clauses::elements::{LITERALS, NAMES, OPPONENT_RECORD};
use clauses::make::{binder_of, constant_element, end, next_end, permissions_of, sign_element};
use permset::PermSet;
use rows::layout::Layout;
use table::{Handler, Item, Term};
use table_links::item_at;

// Whether there is a block at p whose guard lets in who has rho.
pub fn opens(words: &[u32], l: Layout, rho: PermSet, p: usize) -> bool
    requires { Accepted words.now l × (p < l.size) }
    ensures { result ≡ guarded ((code words.now).node p) rho.bits }
{
    match item_at(words, p) {
        Item::Gap => false,
        Item::Block(h) => h.guard.within(rho),
        Item::Term(_) => false,
    }
}

impl View<'_> {
    // Whether the entry of the block h at p by its guard is obeyed.
    fn entry(&self, rho: PermSet, p: usize, h: Handler) -> bool
        requires { p < self.now.layout.size }
        ensures { TestedIf self.now (λ c. c.node p ≡ Block h.name h.perms.bits h.guard.bits) (λ c. Entry c rho.bits p) result }
    {
        if !h.guard.within(rho) {
            return true;
        }
        self.is_live(p) & (self.full(2 * p + 1) & self.in_value(p, OPPONENT_RECORD))
    }

    // Whether the rule of the block h at p is obeyed but for its senders: its entry, and where it is live what it asks of its body.
    fn block(&self, rho: PermSet, p: usize, h: Handler) -> bool
        requires { p + 3 < self.now.layout.size }
        ensures { TestedIf self.now (λ c. c.node p ≡ Block h.name h.perms.bits h.guard.bits) (λ c. own_rule c rho.bits p) result }
    {
        self.entry(rho, p, h) & (!self.is_live(p) | self.part(p, p + 3))
    }

    // `below`, or the lowest word that does not obey what the term t at p asks where it is live: of itself its own rule, of a block to know its sender.
    fn term(&self, p: usize, t: Term, below: usize) -> usize
        requires { Seen self.now p × (item_at self.now.words.now p ≡ items.Term t) }
        ensures { (ρ : ℕ) → Lowers self.now ρ p below result }
    {
        if !self.is_live(p) {
            return below;
        }
        let links = self.links;
        let obeyed = match t {
            Term::Constant(c) => self.in_value(p, constant_element(c)),
            Term::Number(n) => self.in_value(p, sign_element(n)),
            Term::Literal(n) => self.in_value(p, LITERALS + n as usize),
            Term::Name(n) => self.in_value(p, NAMES + n as usize),
            Term::Variable(_) => self.passed(2 * binder_of(links, p) + 1, 2 * p),
            Term::Function => self.in_value(p, 32 * self.layout.lead + p),
            Term::Apply => self.apply(p, end(links, p + 1)),
            Term::Let => self.bind(p, end(links, p + 1)),
            Term::Sequence => self.sequence(p, end(links, p + 1)),
            Term::If => self.branch(p, end(links, p + 1), next_end(links, p + 1)),
            Term::While => self.repeat(p, end(links, p + 1)),
            Term::Operation(o) => self.operation(p, end(links, p + 1), o),
            Term::Record => self.in_value(p, 32 * self.layout.lead + p),
            Term::Get => self.get(p, end(links, p + 1)),
            Term::Set => self.set(p, end(links, p + 1), next_end(links, p + 1)),
            Term::Delete => self.delete(p, end(links, p + 1)),
            Term::Cell => self.cell(p),
            Term::Read => self.read(p),
            Term::Assign => self.assign(p, end(links, p + 1)),
            Term::Send(required) => return self.send(required, p, below),
            Term::Exercise(set) => self.exercise(p, set, permissions_of(self.words, links, p)),
        };
        lowered(below, p, obeyed)
    }

    // `below`, or the lowest word that does not obey what the word p asks.
    fn word(&self, rho: PermSet, p: usize, below: usize) -> usize
        requires { Seen self.now p }
        ensures { Lowers self.now rho.bits p below result }
    {
        match item_at(self.words, p) {
            Item::Gap => below,
            Item::Block(h) => lowered(below, p, self.block(rho, p, h)),
            Item::Term(t) => self.term(p, t, below),
        }
    }
}

// The lowest word whose rule the estimate does not obey; the size of the table where it obeys all.
pub fn broken(
    words: &[u32],
    links: &[u32],
    masks: &[u32],
    est: &[u32],
    l: Layout,
    rho: PermSet,
) -> usize
    requires { Ready words.now links.now masks.now l × WellFormed (code words.now) est.now }
    ensures { result ≡ first_broken (code words.now) rho.bits est.now }
{
    let view = View {
        words,
        links,
        masks,
        estimate: est,
        layout: l,
    };
    let mut lowest = l.size;
    for p in 0..l.size {
        lowest = view.word(rho, p, lowest);
    }
    lowest
}
