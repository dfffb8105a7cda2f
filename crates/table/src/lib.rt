// The reading of a system table: the terms and the refusals. What the layers above see of an accepted table is in table_links.
#![tactic(auto)]

pub mod kinds;
pub mod numbers;
mod packing;
pub mod read;
mod words;

pub use crate::words::{argument_of, arity_of, binds, kind_of, names_in, operation_of, term_of};
use permset::PermSet;

#[derive(Clone, Copy)]
pub enum Constant {
    Undefined,
    Unit,
    True,
    False,
}

#[derive(Clone, Copy)]
pub enum Operation {
    Add,
    Less,
    Equal,
}

// A term: a case for each of kinds 16 to 36, in their order. `word` of specs/Words.antt gives each its word.
#[derive(Clone, Copy)]
pub enum Term {
    Constant(Constant),
    Number(u32),
    Literal(u32),
    Name(u32),
    Variable(u32),
    Function,
    Apply,
    Let,
    Sequence,
    If,
    While,
    Operation(Operation),
    Record,
    Get,
    Set,
    Delete,
    Cell,
    Read,
    Assign,
    Send(PermSet),
    Exercise(PermSet),
}

// Why a table is refused, and at which word: a case for each of numbers 1 to 12, in their order. `number` and `place` of
// specs/Answer.antt give each its number and place.
#[derive(Clone, Copy, PartialEq, Eq)]
pub enum Refusal {
    NotTable,
    TooManyWords,
    TooManyHandlers,
    NotBlock(usize),
    NameRange(usize),
    KeyUsed(usize),
    NotTerm(usize),
    NoTerm(usize),
    ArgumentRange(usize),
    NoBinder(usize),
    TooDeep(usize),
    Trailing(usize),
}

// A block's name, permissions and guard.
#[derive(Clone, Copy)]
pub struct Handler {
    pub name: u32,
    pub perms: PermSet,
    pub guard: PermSet,
}

// What stands at a word of an accepted table: nothing of its own, the first word of a block, or a term.
#[derive(Clone, Copy)]
pub enum Item {
    Gap,
    Block(Handler),
    Term(Term),
}

// Of a term: the word after it, its innermost binder (of a variable: the binder that it counts to), and the first word of its block.
#[derive(Clone, Copy)]
pub struct Link {
    pub end: usize,
    pub binder: usize,
    pub home: usize,
}
