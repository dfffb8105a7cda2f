// What a string of a list says: the set of a name or of a host pattern. A place is behind the first quotation mark.
ghost use Rattle.std.specs.Prelude.{◌≡◌, ◌≤◌, length, map, drop};
ghost use Rattle.json_text.specs.Strings.{units};
ghost use Rattle.manifest.specs.Strings.{names, named, is_host, name_set, host_set, set_of};

use json_text::units::{contains, spells};
use permset::PermSet;

// The names of permissions, that of permission i at place i.
const NAMES: [&[u8]; 10] = [
    b"storage",
    b"tabs",
    b"cookies",
    b"history",
    b"downloads",
    b"bookmarks",
    b"notifications",
    b"webRequest",
    b"management",
    b"proxy",
];

// The set of the name that stands at a place; the empty one, which is what any other string sets, where it is none of these.
fn set_among(text: &[u8], at: usize, names: &[&[u8]]) -> u32
    requires { length names.now ≤ 31 }
    ensures { result ≡ named (map (λ name. name.now) names.now) 1 (units (drop at text.now)) }
{
    let mut bit = 1;
    for name in names {
        if spells(text, at, name) {
            return bit;
        }
        bit *= 2;
    }
    0
}

// The set of the name that stands at a place; the empty one where it is no permission's.
fn name_set(text: &[u8], at: usize) -> u32
    ensures { result ≡ named names 1 (units (drop at text.now)) }
{
    set_among(text, at, &NAMES)
}

#[tactic(auto, unfolding(crate::specs::Strings::is_host))]
fn is_host(text: &[u8], at: usize) -> bool
    ensures { result ≡ is_host (units (drop at text.now)) }
{
    spells(text, at, b"<all_urls>") || contains(text, at, b"://")
}

// The set of a string where names count.
#[tactic(auto, unfolding(crate::specs::Strings::name_set))]
fn by_name(text: &[u8], at: usize, counts: bool) -> PermSet
    ensures { result.bits ≡ name_set counts (units (drop at text.now)) }
{
    if counts {
        PermSet::of(name_set(text, at))
    } else {
        PermSet::empty()
    }
}

// The set of a string where hosts count.
#[tactic(auto, unfolding(crate::specs::Strings::host_set))]
fn by_host(text: &[u8], at: usize, counts: bool) -> PermSet
    ensures { result.bits ≡ host_set counts (units (drop at text.now)) }
{
    if !counts {
        return PermSet::empty();
    }
    if is_host(text, at) {
        PermSet::of(8388608)
    } else {
        PermSet::empty()
    }
}

// The set of a string; empty where it sets nothing.
#[tactic(auto, unfolding(crate::specs::Strings::set_of))]
pub fn set_of(text: &[u8], at: usize, names: bool, hosts: bool) -> PermSet
    ensures { result.bits ≡ set_of names hosts (units (drop at text.now)) }
{
    by_name(text, at, names).union(by_host(text, at, hosts))
}
