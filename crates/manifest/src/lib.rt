// A browser extension's manifest, versions 2 and 3: its permission set.
#![tactic(auto)]

mod members;
pub mod numbers;
pub mod read;
mod strings;

use permset::PermSet;

// Why a manifest is refused: a case for each of numbers 43 to 46, in their order. `number` of specs/Answer.antt gives each its number.
#[derive(Clone, Copy)]
pub enum Refusal {
    NotObject,
    KeyRepeated,
    NoVersion,
    NotStrings,
}

// What a manifest says: its version, its set, and how many strings of the lists read set nothing.
#[derive(Clone, Copy)]
pub struct Manifest {
    pub version: u32,
    pub set: PermSet,
    pub others: u32,
}
