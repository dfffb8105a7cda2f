// JSON text (RFC 8259): where a value of it ends, and the characters of its strings. A place is an index into the text.
#![tactic(auto)]

pub mod bytes;
mod numbers;
mod strings;
pub mod units;
pub mod values;

// A character of a string as UTF-16 units, and where it ends; or the quotation mark that ends the string.
#[derive(Clone, Copy)]
pub enum Character {
    One(u32, usize),
    Two(u32, u32, usize),
    Ends(usize),
}

// Behind an item of an array or an object: where the next one starts, or where the whole ends.
#[derive(Clone, Copy)]
pub enum Item {
    Goes(usize),
    Ends(usize),
}
