// Clauses of live words, fired until the estimate obeys every rule. The worklist chooses them; whatever it chooses is sound, and the
// checker has the last word.
#![tactic(auto)]

mod closing;
mod entry;
mod events;
pub mod room;
