// The report on a class: a stream of systems in, a line for each and the totals out.
#![tactic(auto)]

mod counts;
mod judge;
mod lines;
pub mod steps;
mod stream;
pub mod window;

pub use crate::counts::empty_tally;
use permset::PermSet;

// How many permissions there are.
const PERMISSIONS: usize = 24;

// Why an analysis refuses a system: the number of its refusal, and the place.
#[derive(Clone, Copy, PartialEq, Eq)]
pub struct Refusal {
    pub number: u32,
    pub place: usize,
}

// What an analysis says of a system: its leak, or why it is refused. `outcome_of` of specs/Report.antt gives each its number, place or leak.
pub type Outcome = Result<PermSet, Refusal>;

// Why a stream is not whole. `number` of specs/Stream.antt gives each its number.
#[derive(Clone, Copy, PartialEq, Eq)]
pub enum Fault {
    TooMany,
    TooLong,
    CutShort,
}

// How many systems were accepted and refused so far, and how many of the accepted leak each permission.
#[derive(Clone, Copy)]
pub struct Tally {
    pub accepted: u32,
    pub refused: u32,
    pub leaks: [u32; PERMISSIONS],
}

// What a piece of a stream calls for: more bytes, the totals, the line of a fault, or the line of a system of so many words.
#[derive(Clone, Copy)]
pub enum Task {
    More,
    Totals,
    Refusal(Fault),
    System(usize),
}

// What the caller does next: it comes again with more bytes, or behind those that were used, or not at all.
#[derive(Clone, Copy, PartialEq, Eq)]
pub enum Status {
    More,
    Line,
    Done,
}

// What a step says: the counts after it, the bytes of the piece that were used, and those that were written.
#[derive(Clone, Copy)]
pub struct Step {
    pub status: Status,
    pub tally: Tally,
    pub used: usize,
    pub size: usize,
}
