// The elements that the rules name, in the words of calculus/specs/Elements.antt.

pub const UNDEFINED: usize = 0;

pub const UNIT: usize = 1;

pub const TRUTH: usize = 2;

pub const FALSEHOOD: usize = 3;

pub const NEGATIVE: usize = 4;

pub const NOUGHT: usize = 5;

pub const POSITIVE: usize = 6;

pub const OPPONENT_RECORD: usize = 7;

// The first element of a literal and of a name.
pub const LITERALS: usize = 9;

pub const NAMES: usize = 32;
