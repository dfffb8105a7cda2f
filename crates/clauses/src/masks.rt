// The masks by their numbers, in the order of masks::Sort.

pub const FUNCTIONS: usize = 0;

pub const RECORDS: usize = 1;

pub const CELLS: usize = 2;

pub const MESSAGES: usize = 3;
