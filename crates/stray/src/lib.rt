// Stray bits of an estimate: the first word of a slice that has one.
#![tactic(auto)]

mod allowed;
pub mod search;

// What a row may hold past the plain elements: things that words make, or blocks.
#[derive(Clone, Copy)]
pub enum Holding {
    Things,
    Blocks,
}
