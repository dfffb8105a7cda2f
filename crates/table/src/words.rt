// What a word says by itself: its kind, its argument, its parts and its term.
ghost use Rattle.std.specs.Prelude.{◌≡◌, false, get_or};
ghost use Rattle.table.specs.Words.{kind, argument, names_of, parts, arity, limit, term_of, constant_of, operation_of};

use crate::{Constant, Operation, Term, kinds};
use permset::PermSet;

pub fn kind_of(w: u32) -> u32
    ensures { result ≡ kind w }
{
    w / kinds::ARGUMENTS
}

pub fn argument_of(w: u32) -> u32
    ensures { result ≡ argument w }
{
    w % kinds::ARGUMENTS
}

// How many names a table may have, by its word 0.
#[tactic(auto, unfolding(crate::specs::Words::names_of))]
pub fn names_of(w: u32) -> u32
    ensures { result ≡ names_of w }
{
    if kind_of(w) == kinds::WIDE_TABLE {
        64
    } else {
        32
    }
}

// The same, of all words of a table.
#[tactic(auto, unfolding(crate::specs::Words::names_of))]
pub fn names_in(words: &[u32]) -> u32
    ensures { result ≡ names_of (get_or words.now 0 0) }
{
    if words.is_empty() {
        32
    } else {
        names_of(words[0])
    }
}

// How many parts the terms of each kind have, in two bits for each kind. A number, since a match on the kinds takes branches, and is slower in
// the reading of a table by a tenth.
const ARITIES: u64 = (1 << (2 * (kinds::FUNCTION - kinds::FIRST_TERM)))
    | (2 << (2 * (kinds::APPLY - kinds::FIRST_TERM)))
    | (2 << (2 * (kinds::LET - kinds::FIRST_TERM)))
    | (2 << (2 * (kinds::SEQUENCE - kinds::FIRST_TERM)))
    | (3 << (2 * (kinds::IF - kinds::FIRST_TERM)))
    | (2 << (2 * (kinds::WHILE - kinds::FIRST_TERM)))
    | (2 << (2 * (kinds::OPERATION - kinds::FIRST_TERM)))
    | (2 << (2 * (kinds::GET - kinds::FIRST_TERM)))
    | (3 << (2 * (kinds::SET - kinds::FIRST_TERM)))
    | (2 << (2 * (kinds::DELETE - kinds::FIRST_TERM)))
    | (1 << (2 * (kinds::CELL - kinds::FIRST_TERM)))
    | (1 << (2 * (kinds::READ - kinds::FIRST_TERM)))
    | (2 << (2 * (kinds::ASSIGN - kinds::FIRST_TERM)))
    | (2 << (2 * (kinds::SEND - kinds::FIRST_TERM)));

// How many parts the term has.
pub fn arity_of(w: u32) -> usize
    ensures { result ≡ arity w }
{
    let kind = kind_of(w);
    if kind < kinds::FIRST_TERM || kinds::LAST_TERM < kind {
        return 0;
    }
    (ARITIES >> (2 * (kind - kinds::FIRST_TERM))) as usize % 4
}

// The first argument that is out of range. Kinds below those of terms have the limit of the first one. An arm for each kind, since that
// gives a table, where ranges of kinds give a chain of tests.
#[tactic(auto, unfolding(crate::specs::Words::limit, crate::specs::Words::limits_by_kind))]
pub fn limit_of(w: u32) -> u32
    ensures { result ≡ limit w }
{
    match kind_of(w) {
        kinds::CONSTANT => 4,
        kinds::NUMBER => kinds::ARGUMENTS,
        kinds::LITERAL => 23,
        kinds::NAME => kinds::ARGUMENTS,
        kinds::VARIABLE => kinds::ARGUMENTS,
        kinds::FUNCTION => 1,
        kinds::APPLY => 1,
        kinds::LET => 1,
        kinds::SEQUENCE => 1,
        kinds::IF => 1,
        kinds::WHILE => 1,
        kinds::OPERATION => 3,
        kinds::RECORD => 1,
        kinds::GET => 1,
        kinds::SET => 1,
        kinds::DELETE => 1,
        kinds::CELL => 1,
        kinds::READ => 1,
        kinds::ASSIGN => 1,
        kinds::SEND => kinds::ARGUMENTS,
        kinds::EXERCISE => kinds::ARGUMENTS,
        kind => if kind < kinds::FIRST_TERM { 4 } else { 0 },
    }
}

// Whether part i has the term itself as its innermost binder: the body of a function, and the second part of a let.
#[tactic(auto, unfolding(crate::specs::Words::parts, crate::specs::Words::parts_by_kind))]
pub fn binds(w: u32, i: usize) -> bool
    ensures { result ≡ get_or (parts w) i false }
{
    match kind_of(w) {
        kinds::FUNCTION => i == 0,
        kinds::LET => i == 1,
        _ => false,
    }
}

// The constant with a number, the first one where there is none. No `TryFrom`, since in an accepted table there always is one.
#[tactic(auto, unfolding(crate::specs::Words::constant_of))]
fn constant_of(a: u32) -> Constant
    ensures { result ≡ constant_of a }
{
    match a {
        1 => Constant::Unit,
        2 => Constant::True,
        3 => Constant::False,
        _ => Constant::Undefined,
    }
}

// The operation that an argument names; add past the last. No `TryFrom`, since in an accepted table no argument is past it.
#[tactic(auto, unfolding(crate::specs::Words::operation_of))]
pub fn operation_of(a: u32) -> Operation
    ensures { result ≡ operation_of a }
{
    match a {
        1 => Operation::Less,
        2 => Operation::Equal,
        _ => Operation::Add,
    }
}

// The term that a word is. Kinds below those of terms give a constant, those past them a record. No `From`, since not every word is a term.
#[tactic(auto, unfolding(crate::specs::Words::term_of, crate::specs::Words::terms_by_kind))]
pub fn term_of(w: u32) -> Term
    ensures { result ≡ term_of w }
{
    let a = argument_of(w);
    match kind_of(w) {
        0..=kinds::CONSTANT => Term::Constant(constant_of(a)),
        kinds::NUMBER => Term::Number(a),
        kinds::LITERAL => Term::Literal(a),
        kinds::NAME => Term::Name(a),
        kinds::VARIABLE => Term::Variable(a),
        kinds::FUNCTION => Term::Function,
        kinds::APPLY => Term::Apply,
        kinds::LET => Term::Let,
        kinds::SEQUENCE => Term::Sequence,
        kinds::IF => Term::If,
        kinds::WHILE => Term::While,
        kinds::OPERATION => Term::Operation(operation_of(a)),
        kinds::GET => Term::Get,
        kinds::SET => Term::Set,
        kinds::DELETE => Term::Delete,
        kinds::CELL => Term::Cell,
        kinds::READ => Term::Read,
        kinds::ASSIGN => Term::Assign,
        kinds::SEND => Term::Send(PermSet { bits: a }),
        kinds::EXERCISE => Term::Exercise(PermSet { bits: a }),
        _ => Term::Record,
    }
}
