// The kinds of a table's words, each a word's top 8 bits. Below them stands the argument.

// How many arguments a kind has: a word is its kind times this, and its argument.
pub const ARGUMENTS: u32 = 16777216;

// Word 0 of a table: its argument counts the handlers.
pub const TABLE: u32 = 1;

pub const WIDE_TABLE: u32 = 5;

// The three words before a handler's body: its name, its permissions and its guard.
pub const BLOCK: u32 = 2;

pub const PERMISSIONS: u32 = 3;

pub const GUARD: u32 = 4;

// The terms, in the order of `Term`.
pub const CONSTANT: u32 = 16;

pub const NUMBER: u32 = 17;

pub const LITERAL: u32 = 18;

pub const NAME: u32 = 19;

pub const VARIABLE: u32 = 20;

pub const FUNCTION: u32 = 21;

pub const APPLY: u32 = 22;

pub const LET: u32 = 23;

pub const SEQUENCE: u32 = 24;

pub const IF: u32 = 25;

pub const WHILE: u32 = 26;

pub const OPERATION: u32 = 27;

pub const RECORD: u32 = 28;

pub const GET: u32 = 29;

pub const SET: u32 = 30;

pub const DELETE: u32 = 31;

pub const CELL: u32 = 32;

pub const READ: u32 = 33;

pub const ASSIGN: u32 = 34;

pub const SEND: u32 = 35;

pub const EXERCISE: u32 = 36;

// The least and the greatest kind of a term.
pub const FIRST_TERM: u32 = CONSTANT;

pub const LAST_TERM: u32 = EXERCISE;
