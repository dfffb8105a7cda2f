// The top members of a manifest: repeated keys, the value of a key, and what a list of strings says.
ghost use Rattle.std.specs.Prelude.{◌≡◌, true, false, [], ◌∷◌, ◌+◌, ◌≤◌, ◌<◌, ◌^◌, MatchOption, length, drop, take};
ghost use Rattle.json_text.specs.Bytes.{tail, starts};
ghost use Rattle.json_text.specs.Strings.{units};
ghost use Rattle.json_text.specs.Values.{item, value, starts_from};
ghost use Rattle.json_text.specs.Answers.{ended};
ghost use Rattle.manifest.specs.Members.{members_from, elements_from, has, repeated, unless_zero, find, counted, listed};
ghost use Rattle.manifest.specs.Answer.{count_of, others_of};

use crate::strings::set_of;
use json_text::Item;
use json_text::bytes::byte;
use json_text::units::{hash, same, spells};
use json_text::values::{first, item, name};
use permset::PermSet;

// The set of some strings, and how many of them set nothing.
#[derive(Clone, Copy)]
pub struct Tally {
    pub set: PermSet,
    pub others: u32,
}

// The place behind the byte at a place.
pub fn behind(text: &[u8], at: usize) -> usize
    ensures { drop result text.now ≡ tail (drop at text.now) }
{
    if at < text.len() { at + 1 } else { at }
}

// Where the item behind the one at a place starts, if there is one.
fn following(text: &[u8], at: usize, keyed: bool, nest: usize) -> Option<usize>
    ensures { MatchOption result (starts (item (value nest) keyed) (drop at text.now) ≡ drop at text.now ∷ []) (λ next. (starts (item (value nest) keyed) (drop at text.now) ≡ drop at text.now ∷ starts (item (value nest) keyed) (drop next text.now)) × (length (drop next text.now) < length (drop at text.now))) }
{
    match item(text, at, keyed, nest)? {
        Item::Goes(next) => Some(next),
        Item::Ends(_) => None,
    }
}

// The value of the first member with this key.
pub fn find(text: &[u8], members: Option<usize>, key: &[u8]) -> Option<usize>
    ensures { ended text.now result ≡ find key.now (starts_from (value 15) true (ended text.now members)) }
{
    let mut member = members?;
    loop {
        if spells(text, behind(text, member), key) {
            return name(text, member, true);
        }
        member = following(text, member, true, 15)?;
    }
}

// Whether one of the first members from a place on, so many of them, has the key that stands at another place.
fn has(text: &[u8], at: usize, count: usize, key: usize) -> bool
    ensures { result ≡ has (take count (members_from (drop at text.now))) (units (drop key text.now)) }
{
    let mut member = at;
    for _ in 0..count {
        if same(text, behind(text, member), key) {
            return true;
        }
        let Some(next) = following(text, member, true, 15) else {
            return false;
        };
        member = next;
    }
    false
}

// The same, where a mark says whether there may be one.
#[tactic(auto, unfolding(crate::specs::Members::unless_zero))]
fn has_marked(text: &[u8], at: usize, count: usize, key: usize, mark: u8) -> bool
    ensures { result ≡ unless_zero mark (has (take count (members_from (drop at text.now))) (units (drop key text.now))) }
{
    mark != 0 && has(text, at, count, key)
}

// Whether a member from a place on has the key of one before it. A key that one of them has is marked, by its number; what was
// marked at first does not matter.
fn repeated_from(text: &[u8], at: usize, marks: &mut [u8]) -> bool
    requires { 2 ^ 18 ≤ length marks.old }
    ensures { result ≡ repeated [] (members_from (drop at text.now)) }
{
    let mut member = at;
    let mut count = 0;
    loop {
        let key = behind(text, member);
        let number = hash(text, key);
        if has_marked(text, at, count, key, marks[number]) {
            return true;
        }
        marks[number] = 1;
        let Some(next) = following(text, member, true, 15) else {
            return false;
        };
        member = next;
        count += 1;
    }
}

// Whether a member has the key of one before it.
pub fn repeated(text: &[u8], members: Option<usize>) -> bool
    ensures { result ≡ repeated [] (starts_from (value 15) true (ended text.now members)) }
{
    let Some(at) = members else {
        return false;
    };
    let mut marks = [0u8; 262144];
    repeated_from(text, at, &mut marks)
}

// With one more element of a list, if that is a string.
#[tactic(auto, using(json_text::proofs::Places::read_in))]
fn element(text: &[u8], at: usize, names: bool, hosts: bool, tally: Tally) -> Option<Tally>
    requires { tally.others + 1 < 2 ^ 32 }
    ensures counts { count_of result ≡ counted names hosts (drop at text.now ∷ []) (count_of (Some tally)) }
    ensures few { others_of result ≤ tally.others + 1 }
{
    if byte(text, at) != 0x22 {
        return None;
    }
    let Tally { set, others } = tally;
    let more = set_of(text, at + 1, names, hosts);
    if more.is_empty() {
        Some(Tally {
            set,
            others: others + 1,
        })
    } else {
        Some(Tally {
            set: set.union(more),
            others,
        })
    }
}

// With the elements of a list from a place on, if all are strings.
fn elements(text: &[u8], at: usize, names: bool, hosts: bool, tally: Tally) -> Option<Tally>
    requires { tally.others + length text.now + 1 < 2 ^ 32 }
    ensures counts { count_of result ≡ counted names hosts (elements_from (drop at text.now)) (count_of (Some tally)) }
    ensures few { others_of result ≤ tally.others + length text.now + 1 }
{
    let mut place = at;
    let mut sum = tally;
    loop {
        sum = element(text, place, names, hosts, sum)?;
        let Some(next) = following(text, place, false, 14) else {
            return Some(sum);
        };
        place = next;
    }
}

// With a list that is read, where it is there, if it is one of strings.
#[tactic(auto, using(json_text::proofs::Places::read_in))]
pub fn list(
    text: &[u8],
    value: Option<usize>,
    names: bool,
    hosts: bool,
    tally: Tally,
) -> Option<Tally>
    requires { tally.others + length text.now + 1 < 2 ^ 32 }
    ensures counts { count_of result ≡ listed names hosts (ended text.now value) (count_of (Some tally)) }
    ensures few { others_of result ≤ tally.others + length text.now + 1 }
{
    let Some(at) = value else {
        return Some(tally);
    };
    if byte(text, at) != 0x5b {
        return None;
    }
    let Some(start) = first(text, at + 1, false) else {
        return Some(tally);
    };
    elements(text, start, names, hosts, tally)
}
