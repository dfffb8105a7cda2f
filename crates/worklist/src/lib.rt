// The memory of the schedule and its choices: what waits, and which clauses an event calls for. It sees the estimate and never writes it.
// specs/Memory.antt describes a memory `h` and a list `out`, and names what is promised of them: their length. What any of the lent slices says is
// never trusted: a word past the end reads 0, a write there does nothing, and every loop ends by its own count; so no caller has anything to show
// of them. `past` asks for a place below 4,096, so that there is one after it.
#![tactic(auto)]

mod chosen;
mod clause;
mod events;
mod memory;
pub mod next;
pub mod notes;
pub mod plan;
mod sets;
mod things;
mod view;

pub use crate::view::past;
