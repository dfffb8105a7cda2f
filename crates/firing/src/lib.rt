// The one writer of an estimate: what a clause asks is added where its guard passes, and the bits that this adds are counted. What grows is noted in the
// memory of the worklist, of which its length is promised (`Kept` of worklist/specs/Memory.antt).
#![tactic(auto)]

mod fire;
mod sends;
pub mod step;
mod targets;
mod terms;
mod things;

pub use crate::targets::{fill, mark, wake};
