// The clauses of each kind of words by their numbers, as `clauses` counts them and a choice packs them. Clause 0 is the value of a word without
// parts; of another it asks that its parts are live, and their permissions in its own.
pub const VALUE: usize = 0;

pub const PARTS: usize = 0;

pub const APPLY_ENTER: usize = 1;

pub const APPLY_HAND: usize = 2;

pub const APPLY_BACK: usize = 3;

pub const APPLY_LOWER: usize = 4;

pub const LET_BIND: usize = 1;

pub const LET_RESULT: usize = 2;

pub const SEQUENCE_RESULT: usize = 1;

// Clauses 1 and 2 of an if and of a while look at its test.
pub const TESTS: usize = 1;

pub const TESTS_END: usize = 3;

pub const IF_THEN: usize = 3;

pub const IF_ELSE: usize = 4;

pub const OPERATION_RESULT: usize = 1;

// Clauses 1 and 2 of a get and 1 to 3 of a set ask the same for all records, then one clause what a record holds.
pub const RECORDS_FIRST: usize = 1;

pub const GET_TAKE: usize = 3;

pub const SET_TAKE: usize = 4;

pub const DELETE_RESULT: usize = 1;

pub const CELL_HOLD: usize = 2;

pub const READ_TAKE: usize = 1;

pub const ASSIGN_RESULT: usize = 1;

pub const ASSIGN_HAND: usize = 2;

pub const SEND_SEND: usize = 2;

// Where clauses 0 and 1 ask for what a word gives by itself: a cell, a send, an exercise.
pub const OWN_END: usize = 2;
