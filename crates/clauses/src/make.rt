// Clause k of the word p. It comes from the words and links of the table alone: nothing here sees an estimate.
ghost use Rattle.std.specs.Prelude.{◌≡◌, ◌+◌, ◌*◌, ◌<◌, ◌≤◌, length, get_or};
ghost use Rattle.table.specs.Item.{item_at, item_perms};
ghost use Rattle.table.specs.Words.{operation_number};
ghost use Rattle.table.specs.Links.{link_at};
ghost use Rattle.calculus.specs.Elements.{constant_element, sign as signElement};
ghost use Rattle.clauses.specs.Clauses.{when as When, of as Of, never as Never, site_at, of_term, clause_at};
ghost use Rattle.clauses.specs.Clauses.{of_value, of_variable, of_permitted, of_exercise, of_apply, of_let, of_sequence, of_if, of_while, of_operation};
ghost use Rattle.clauses.specs.Clauses.{of_get, of_set, of_delete, of_cell, of_read, of_assign, of_send, of_block};
ghost use Rattle.clauses.specs.declared.Test.TheVariants as tests;
ghost use Rattle.clauses.specs.declared.What.TheVariants as whats;

use crate::elements::{
    FALSEHOOD, LITERALS, NAMES, NEGATIVE, NOUGHT, OPPONENT_RECORD, POSITIVE, TRUTH, UNDEFINED, UNIT,
};
use crate::masks::{CELLS, FUNCTIONS, MESSAGES, RECORDS};
use crate::{Clause, Effect, Guard, Test, What};
use permset::PermSet;
use table::{Constant, Item, Operation, Term};
use table_links::{item_at, link_at};

// ---- short forms

// The rows of a word: C(p) and B(p).
fn value(p: usize) -> usize
    requires { p ≤ 2048 }
    ensures { result ≡ 2 * p }
{
    2 * p
}

fn held(p: usize) -> usize
    requires { p ≤ 2048 }
    ensures { result ≡ 2 * p + 1 }
{
    2 * p + 1
}

fn when(test: Test, d: usize, a: usize, v: usize, effect: Effect) -> Clause
    ensures { result ≡ When test d a v effect }
{
    let guard = Guard { test, d, a, v };
    Clause { guard, effect }
}

fn of(what: What, x: usize, y: usize, z: usize) -> Effect
    ensures { result ≡ Of what x y z }
{
    Effect { what, x, y, z }
}

fn alive(q: usize) -> Effect
    ensures { result ≡ Of whats.Live q 0 0 }
{
    of(What::Live, q, 0, 0)
}

fn put(r: usize, v: usize) -> Effect
    ensures { result ≡ Of whats.Put r v 0 }
{
    of(What::Put, r, v, 0)
}

fn fill(r: usize) -> Effect
    ensures { result ≡ Of whats.Fill r 0 0 }
{
    of(What::Fill, r, 0, 0)
}

fn flow(r: usize, s: usize) -> Effect
    ensures { result ≡ Of whats.Flow r s 0 }
{
    of(What::Flow, r, s, 0)
}

fn parts(p: usize, d: usize, e: usize) -> Effect
    ensures { result ≡ Of whats.Parts p d e }
{
    of(What::Parts, p, d, e)
}

fn branches(p: usize, d: usize, e: usize) -> Effect
    ensures { result ≡ Of whats.Branches p d e }
{
    of(What::Branches, p, d, e)
}

fn never() -> Clause
    ensures { result ≡ Never }
{
    when(Test::Never, 0, 0, 0, alive(0))
}

fn free(effect: Effect) -> Clause
    ensures { result ≡ When tests.Free 0 0 0 effect }
{
    when(Test::Free, 0, 0, 0, effect)
}

fn has(a: usize, v: usize, effect: Effect) -> Clause
    ensures { result ≡ When tests.Has 0 a v effect }
{
    when(Test::Has, 0, a, v, effect)
}

fn some(a: usize, v: usize, effect: Effect) -> Clause
    ensures { result ≡ When tests.Some 0 a v effect }
{
    when(Test::Some, 0, a, v, effect)
}

fn text(d: usize, effect: Effect) -> Clause
    ensures { result ≡ When tests.Text d 0 0 effect }
{
    when(Test::Text, d, 0, 0, effect)
}

fn text_has(d: usize, a: usize, v: usize, effect: Effect) -> Clause
    ensures { result ≡ When tests.TextHas d a v effect }
{
    when(Test::TextHas, d, a, v, effect)
}

fn text_some(d: usize, a: usize, v: usize, effect: Effect) -> Clause
    ensures { result ≡ When tests.TextSome d a v effect }
{
    when(Test::TextSome, d, a, v, effect)
}

// ---- the clauses of each kind, a line each

#[tactic(auto, unfolding(crate::specs::Clauses::of_value))]
fn of_value(p: usize, v: usize, k: usize) -> Clause
    requires { p < 2048 }
    ensures { result ≡ get_or (of_value p v) k Never }
{
    match k {
        0 => free(put(value(p), v)),
        _ => never(),
    }
}

#[tactic(auto, unfolding(crate::specs::Clauses::of_variable))]
fn of_variable(p: usize, binder: usize, k: usize) -> Clause
    requires { (p < 2048) × (binder < 2048) }
    ensures { result ≡ get_or (of_variable p binder) k Never }
{
    match k {
        0 => free(flow(held(binder), value(p))),
        _ => never(),
    }
}

#[tactic(auto, unfolding(crate::specs::Clauses::of_apply))]
fn of_apply(p: usize, d: usize, k: usize) -> Clause
    requires { (p < 2048) × (d < 2048) }
    ensures { result ≡ get_or (of_apply p d) k Never }
{
    match k {
        0 => free(parts(p, d, 0)),
        1 => free(of(What::Enter, p, 0, FUNCTIONS)),
        2 => free(of(What::Hand, p, value(d), FUNCTIONS)),
        3 => free(of(What::Back, p, value(p), FUNCTIONS)),
        4 => free(of(What::Lower, p, 0, FUNCTIONS)),
        _ => never(),
    }
}

#[tactic(auto, unfolding(crate::specs::Clauses::of_let))]
fn of_let(p: usize, d: usize, k: usize) -> Clause
    requires { (p < 2048) × (d < 2048) }
    ensures { result ≡ get_or (of_let p d) k Never }
{
    match k {
        0 => free(parts(p, d, 0)),
        1 => free(flow(value(p + 1), held(p))),
        2 => free(flow(value(d), value(p))),
        _ => never(),
    }
}

#[tactic(auto, unfolding(crate::specs::Clauses::of_sequence))]
fn of_sequence(p: usize, d: usize, k: usize) -> Clause
    requires { (p < 2048) × (d < 2048) }
    ensures { result ≡ get_or (of_sequence p d) k Never }
{
    match k {
        0 => free(parts(p, d, 0)),
        1 => free(flow(value(d), value(p))),
        _ => never(),
    }
}

#[tactic(auto, unfolding(crate::specs::Clauses::of_if))]
fn of_if(p: usize, d: usize, e: usize, k: usize) -> Clause
    requires { (p < 2048) × (d < 2048) × (e < 2048) }
    ensures { result ≡ get_or (of_if p d e) k Never }
{
    match k {
        0 => free(branches(p, d, e)),
        1 => has(p + 1, TRUTH, alive(d)),
        2 => has(p + 1, FALSEHOOD, alive(e)),
        3 => free(flow(value(d), value(p))),
        4 => free(flow(value(e), value(p))),
        _ => never(),
    }
}

#[tactic(auto, unfolding(crate::specs::Clauses::of_while))]
fn of_while(p: usize, d: usize, k: usize) -> Clause
    requires { (p < 2048) × (d < 2048) }
    ensures { result ≡ get_or (of_while p d) k Never }
{
    match k {
        0 => free(branches(p, d, 0)),
        1 => has(p + 1, TRUTH, alive(d)),
        2 => has(p + 1, FALSEHOOD, put(value(p), UNDEFINED)),
        _ => never(),
    }
}

#[tactic(auto, unfolding(crate::specs::Clauses::of_operation))]
fn of_operation(p: usize, d: usize, o: usize, k: usize) -> Clause
    requires { (p < 2048) × (d < 2048) }
    ensures { result ≡ get_or (of_operation p d o) k Never }
{
    match k {
        0 => free(parts(p, d, 0)),
        1 => free(of(What::Operate, p, d, o)),
        _ => never(),
    }
}

#[tactic(auto, unfolding(crate::specs::Clauses::of_get))]
fn of_get(p: usize, d: usize, k: usize) -> Clause
    requires { (p < 2048) × (d < 2048) }
    ensures { result ≡ get_or (of_get p d) k Never }
{
    match k {
        0 => free(parts(p, d, 0)),
        1 => text_some(d, p + 1, RECORDS, put(value(p), UNDEFINED)),
        2 => text_has(d, p + 1, OPPONENT_RECORD, fill(value(p))),
        3 => text(d, of(What::Take, p, value(p), RECORDS)),
        _ => never(),
    }
}

#[tactic(auto, unfolding(crate::specs::Clauses::of_set))]
fn of_set(p: usize, d: usize, e: usize, own: usize, k: usize) -> Clause
    requires { (p < 2048) × (d < 2048) × (e < 2048) }
    ensures { result ≡ get_or (of_set p d e own) k Never }
{
    match k {
        0 => free(parts(p, d, e)),
        1 => text_some(d, p + 1, RECORDS, put(value(p), own)),
        2 => text_some(d, p + 1, RECORDS, flow(value(e), held(p))),
        3 => text_has(d, p + 1, OPPONENT_RECORD, fill(held(p))),
        4 => text(d, of(What::Take, p, held(p), RECORDS)),
        _ => never(),
    }
}

#[tactic(auto, unfolding(crate::specs::Clauses::of_delete))]
fn of_delete(p: usize, d: usize, k: usize) -> Clause
    requires { (p < 2048) × (d < 2048) }
    ensures { result ≡ get_or (of_delete p d) k Never }
{
    match k {
        0 => free(parts(p, d, 0)),
        1 => text(d, of(What::Pass, value(p + 1), value(p), RECORDS)),
        _ => never(),
    }
}

#[tactic(auto, unfolding(crate::specs::Clauses::of_cell))]
fn of_cell(p: usize, own: usize, k: usize) -> Clause
    requires { p < 2048 }
    ensures { result ≡ get_or (of_cell p own) k Never }
{
    match k {
        0 => free(parts(p, 0, 0)),
        1 => free(put(value(p), own)),
        2 => free(flow(value(p + 1), held(p))),
        _ => never(),
    }
}

#[tactic(auto, unfolding(crate::specs::Clauses::of_read))]
fn of_read(p: usize, k: usize) -> Clause
    requires { p < 2048 }
    ensures { result ≡ get_or (of_read p) k Never }
{
    match k {
        0 => free(parts(p, 0, 0)),
        1 => free(of(What::Take, p, value(p), CELLS)),
        _ => never(),
    }
}

#[tactic(auto, unfolding(crate::specs::Clauses::of_assign))]
fn of_assign(p: usize, d: usize, k: usize) -> Clause
    requires { (p < 2048) × (d < 2048) }
    ensures { result ≡ get_or (of_assign p d) k Never }
{
    match k {
        0 => free(parts(p, d, 0)),
        1 => some(p + 1, CELLS, flow(value(d), value(p))),
        2 => free(of(What::Hand, p, value(d), CELLS)),
        _ => never(),
    }
}

#[tactic(auto, unfolding(crate::specs::Clauses::of_send))]
fn of_send(p: usize, d: usize, set: usize, k: usize) -> Clause
    requires { (p < 2048) × (d < 2048) }
    ensures { result ≡ get_or (of_send p d set) k Never }
{
    match k {
        0 => free(parts(p, d, 0)),
        1 => free(put(value(p), UNIT)),
        2 => some(d, MESSAGES, of(What::Send, p, d, set)),
        _ => never(),
    }
}

#[tactic(auto, unfolding(crate::specs::Clauses::of_block))]
fn of_block(p: usize, k: usize) -> Clause
    requires { p < 2048 }
    ensures { result ≡ get_or (of_block p) k Never }
{
    match k {
        0 => free(of(What::Part, p, p + 3, 0)),
        _ => never(),
    }
}

// An exercise that its block's permissions allow.
#[tactic(auto, unfolding(crate::specs::Clauses::of_permitted))]
fn of_permitted(p: usize, set: usize, k: usize) -> Clause
    requires { p < 2048 }
    ensures { result ≡ get_or (of_permitted p set) k Never }
{
    match k {
        0 => free(put(value(p), UNIT)),
        1 => free(of(What::Permit, p, set, 0)),
        _ => never(),
    }
}

// The elements of a constant and of a number. No `From`: an element is a number among others here.
#[tactic(auto, unfolding(calculus::specs::Elements::constant_element, table::specs::Words::constant_number))]
pub fn constant_element(c: Constant) -> usize
    ensures { result ≡ constant_element c }
{
    match c {
        Constant::Undefined => UNDEFINED,
        Constant::Unit => UNIT,
        Constant::True => TRUTH,
        Constant::False => FALSEHOOD,
    }
}

#[tactic(auto, unfolding(calculus::specs::Elements::sign))]
pub fn sign_element(a: u32) -> usize
    ensures { result ≡ signElement a }
{
    if a == 0 {
        NOUGHT
    } else if a < 8388608 {
        POSITIVE
    } else {
        NEGATIVE
    }
}

#[tactic(auto, unfolding(table::specs::Words::operation_number))]
fn operation_number(o: Operation) -> usize
    ensures { result ≡ operation_number o }
{
    match o {
        Operation::Add => 0,
        Operation::Less => 1,
        Operation::Equal => 2,
    }
}

// The word after the term at p; that after the term which starts there; the binder of p; the permissions of its block.
#[tactic(auto, unfolding(table::specs::Links::link_at, table::specs::Links::unpack))]
pub fn end(links: &[u32], p: usize) -> usize
    ensures { (result ≡ (link_at links.now p).end) × (result < 2048) }
{
    link_at(links, p).end
}

pub fn next_end(links: &[u32], p: usize) -> usize
    ensures { (result ≡ (link_at links.now (link_at links.now p).end).end) × (result < 2048) }
{
    end(links, end(links, p))
}

#[tactic(auto, unfolding(table::specs::Links::link_at, table::specs::Links::unpack))]
pub fn binder_of(links: &[u32], p: usize) -> usize
    ensures { (result ≡ (link_at links.now p).binder) × (result < 2048) }
{
    link_at(links, p).binder
}

#[tactic(auto, unfolding(table::specs::Item::item_perms))]
pub fn permissions_of(words: &[u32], links: &[u32], p: usize) -> PermSet
    ensures { result.bits ≡ item_perms (item_at words.now (link_at links.now p).home) }
{
    let home = link_at(links, p).home;
    match item_at(words, home) {
        Item::Gap => PermSet { bits: 0 },
        Item::Block(h) => h.perms,
        Item::Term(_) => PermSet { bits: 0 },
    }
}

#[tactic(auto, unfolding(crate::specs::Clauses::of_exercise))]
fn of_exercise(p: usize, set: PermSet, own: PermSet, k: usize) -> Clause
    requires { p < 2048 }
    ensures { result ≡ get_or (of_exercise p set.bits own.bits) k Never }
{
    if set.within(own) {
        of_permitted(p, set.bits as usize, k)
    } else {
        never()
    }
}

// ---- the clauses of a word

// Clause k of the term t at p, where made things start at the element `plain`.
#[tactic(auto, unfolding(crate::specs::Clauses::of_term))]
fn of_term(words: &[u32], links: &[u32], plain: usize, p: usize, t: Term, k: usize) -> Clause
    requires { (p < 1024) × (plain ≤ 1024) }
    ensures { result ≡ get_or (of_term p t (site_at words.now links.now plain p)) k Never }
{
    match t {
        Term::Constant(c) => of_value(p, constant_element(c), k),
        Term::Number(n) => of_value(p, sign_element(n), k),
        Term::Literal(n) => of_value(p, LITERALS + n as usize, k),
        Term::Name(n) => of_value(p, NAMES + n as usize, k),
        Term::Variable(_) => of_variable(p, binder_of(links, p), k),
        Term::Function => of_value(p, plain + p, k),
        Term::Apply => of_apply(p, end(links, p + 1), k),
        Term::Let => of_let(p, end(links, p + 1), k),
        Term::Sequence => of_sequence(p, end(links, p + 1), k),
        Term::If => of_if(p, end(links, p + 1), next_end(links, p + 1), k),
        Term::While => of_while(p, end(links, p + 1), k),
        Term::Operation(o) => of_operation(p, end(links, p + 1), operation_number(o), k),
        Term::Record => of_value(p, plain + p, k),
        Term::Get => of_get(p, end(links, p + 1), k),
        Term::Set => of_set(p, end(links, p + 1), next_end(links, p + 1), plain + p, k),
        Term::Delete => of_delete(p, end(links, p + 1), k),
        Term::Cell => of_cell(p, plain + p, k),
        Term::Read => of_read(p, k),
        Term::Assign => of_assign(p, end(links, p + 1), k),
        Term::Send(set) => of_send(p, end(links, p + 1), set.bits as usize, k),
        Term::Exercise(set) => of_exercise(p, set, permissions_of(words, links, p), k),
    }
}

// Clause k of the word p, where made things start at the element `plain`.
#[tactic(auto, unfolding(crate::specs::Clauses::clause_at, crate::specs::Clauses::clauses_at, crate::specs::Clauses::of_item))]
pub fn clause(words: &[u32], links: &[u32], plain: usize, p: usize, k: usize) -> Clause
    requires { (p < length words.now) × (length words.now ≤ 1024) × (plain ≤ 1024) }
    ensures { result ≡ clause_at words.now links.now plain p k }
{
    match item_at(words, p) {
        Item::Gap => never(),
        Item::Block(_) => of_block(p, k),
        Item::Term(t) => of_term(words, links, plain, p, t, k),
    }
}
