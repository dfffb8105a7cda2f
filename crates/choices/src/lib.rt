// Choices of a schedule: clause k of the word p, for the target f of its effect or (0) for all of them, each packed into a word of a list whose first word
// counts them. What a list says is never trusted, and past its end it reads 0.
#![tactic(auto)]

ghost use Rattle.std.specs.Prelude.{◌≡◌, ◌<◌, get_or};
ghost use Rattle.choices.specs.Choices.{choice_of, clause_of, place_of, target_of};

// A choice has room for targets and words below PLACES, and for clauses below CLAUSES.
const PLACES: usize = 1024;

const CLAUSES: usize = 4096;

// The word at a place of a slice, 0 past the end. The worklist reads its memory and the table by it too. No Option: `get_or` of the clauses is this
// number, and what a memory says is never trusted, so nobody asks whether it was there.
pub fn word(list: &[u32], i: usize) -> u32
    ensures { result ≡ get_or list.now i 0 }
{
    if i < list.len() { list[i] } else { 0 }
}

// ---- a choice

pub fn choice_word(k: usize, p: usize, f: usize) -> u32
    ensures { result ≡ choice_of k p f }
{
    ((k % CLAUSES * PLACES + p % PLACES) * PLACES + f % PLACES) as u32
}

pub fn choice_clause(w: u32) -> usize
    ensures { (result ≡ clause_of w) × (result < 4096) }
{
    w as usize / (PLACES * PLACES)
}

pub fn choice_place(w: u32) -> usize
    ensures { (result ≡ place_of w) × (result < 1024) }
{
    w as usize / PLACES % PLACES
}

pub fn choice_target(w: u32) -> usize
    ensures { (result ≡ target_of w) × (result < 1024) }
{
    w as usize % PLACES
}

// ---- a list of choices

// How many choices a list has.
pub fn count(list: &[u32]) -> usize
    ensures { (result ≡ get_or list.now 0 0) × (result < 4294967296) }
{
    word(list, 0) as usize
}

// The choice at a place of a list, from 1 on; clause 0 of word 0 past the end, for the same reason.
pub fn choice_at(list: &[u32], i: usize) -> u32
    ensures { result ≡ get_or list.now i 0 }
{
    word(list, i)
}
