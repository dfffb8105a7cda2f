// What the program prints.
use permset::PermSet;
use std::io;
use std::io::Write;
use table::numbers::{refusal_number, refusal_place};
use table::read::read;
use table::{Handler, Item, Link, Refusal, Term, kinds};

pub fn text(out: &mut impl Write, s: &[u8]) -> io::Result<()> {
    out.write_all(s)
}

pub fn number(out: &mut impl Write, label: &[u8], n: usize) -> io::Result<()> {
    text(out, label)?;
    write!(out, "{n}")
}

pub fn hex(out: &mut impl Write, label: &[u8], w: u32) -> io::Result<()> {
    text(out, label)?;
    write!(out, "{w:08x}")
}

fn set(out: &mut impl Write, label: &[u8], s: PermSet) -> io::Result<()> {
    text(out, label)?;
    let bits = s.bits;
    write!(out, "{bits:06x}")
}

pub fn end(out: &mut impl Write) -> io::Result<()> {
    text(out, b"\n")
}

// A refusal, with document 01's number for its case.
fn refusal(out: &mut impl Write, r: Refusal) -> io::Result<()> {
    number(out, b"refused ", refusal_number(r) as usize)?;
    number(out, b" at ", refusal_place(r))
}

// What the reading of a table answers.
pub fn reading(out: &mut impl Write, label: &[u8], words: &[u32]) -> io::Result<()> {
    text(out, label)?;
    match read(words) {
        Ok(()) => text(out, b"accepted"),
        Err(r) => refusal(out, r),
    }
}

// A line with what the reading of a table answers.
pub fn answer(out: &mut impl Write, label: &[u8], words: &[u32]) -> io::Result<()> {
    text(out, label)?;
    reading(out, b": ", words)?;
    end(out)
}

// Document 01's kind of a term. A term has a kind and an argument, so no `From` stands for either.
fn kind(t: Term) -> u32 {
    match t {
        Term::Constant(_) => kinds::CONSTANT,
        Term::Number(_) => kinds::NUMBER,
        Term::Literal(_) => kinds::LITERAL,
        Term::Name(_) => kinds::NAME,
        Term::Variable(_) => kinds::VARIABLE,
        Term::Function => kinds::FUNCTION,
        Term::Apply => kinds::APPLY,
        Term::Let => kinds::LET,
        Term::Sequence => kinds::SEQUENCE,
        Term::If => kinds::IF,
        Term::While => kinds::WHILE,
        Term::Operation(_) => kinds::OPERATION,
        Term::Record => kinds::RECORD,
        Term::Get => kinds::GET,
        Term::Set => kinds::SET,
        Term::Delete => kinds::DELETE,
        Term::Cell => kinds::CELL,
        Term::Read => kinds::READ,
        Term::Assign => kinds::ASSIGN,
        Term::Send(_) => kinds::SEND,
        Term::Exercise(_) => kinds::EXERCISE,
    }
}

// Its argument, 0 where the term has none.
fn argument(t: Term) -> u32 {
    match t {
        Term::Constant(c) => c as u32,
        Term::Number(n) | Term::Literal(n) | Term::Name(n) | Term::Variable(n) => n,
        Term::Operation(o) => o as u32,
        Term::Send(s) | Term::Exercise(s) => s.bits,
        _ => 0,
    }
}

fn term(out: &mut impl Write, t: Term) -> io::Result<()> {
    number(out, b"term ", kind(t) as usize)?;
    set(out, b" ", PermSet::of(argument(t)))
}

fn handler(out: &mut impl Write, h: Handler) -> io::Result<()> {
    number(out, b"block name ", h.name as usize)?;
    set(out, b" permissions ", h.perms)?;
    set(out, b" guard ", h.guard)
}

pub fn item(out: &mut impl Write, i: Item) -> io::Result<()> {
    match i {
        Item::Gap => text(out, b"gap"),
        Item::Block(h) => handler(out, h),
        Item::Term(t) => term(out, t),
    }
}

pub fn link(out: &mut impl Write, l: Link) -> io::Result<()> {
    number(out, b" end ", l.end)?;
    number(out, b" binder ", l.binder)?;
    number(out, b" home ", l.home)
}
