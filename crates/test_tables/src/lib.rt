// What the programs that test the reading of tables share: tables, and printing.
#![tactic(auto)]

mod show;
pub mod tables;

pub use crate::show::{answer, end, hex, item, link, number, text};
