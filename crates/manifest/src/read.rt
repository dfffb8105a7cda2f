// The reading of a manifest: `read` answers its version, its set and how many strings set nothing, or the first refusal.
ghost use Rattle.std.specs.Prelude.{◌≡◌, true, ◌≤◌, length};
ghost use Rattle.json_text.specs.Values.{value, starts_from};
ghost use Rattle.json_text.specs.Answers.{ended};
ghost use Rattle.manifest.specs.Members.{strings};
ghost use Rattle.manifest.specs.Manifest.{sources, total, goes_on, version, judged_from, judged};
ghost use Rattle.manifest.specs.Answer.{spelled, count_of, others_of, others_in, outcome};

use crate::members::{Tally, behind, find, list, repeated};
use crate::{Manifest, Refusal};
use json_text::bytes::{byte, is_either, is_within, space};
use json_text::values::{first, is_text};
use permset::PermSet;

// Whether a number goes on with this byte.
fn goes_on(b: u32) -> bool
    ensures { result ≡ goes_on b }
{
    is_within(0x30, 0x39, b) || b == 0x2e || is_either(0x65, 0x45, b)
}

// The version that a value spells.
#[tactic(auto, unfolding(crate::specs::Manifest::version))]
fn version(text: &[u8], value: Option<usize>) -> Option<u32>
    ensures { result ≡ spelled (version (ended text.now value)) }
{
    let at = value?;
    if goes_on(byte(text, behind(text, at))) {
        return None;
    }
    match byte(text, at) {
        0x32 => Some(2),
        0x33 => Some(3),
        _ => None,
    }
}

// What the lists of a version say.
fn total(text: &[u8], members: Option<usize>, version: u32) -> Option<Tally>
    requires { length text.now ≤ 16384 }
    ensures counts { count_of result ≡ total (sources version) (starts_from (value 15) true (ended text.now members)) (strings 0 0) }
    ensures few { others_of result ≤ 32770 }
{
    let none = Tally {
        set: PermSet::empty(),
        others: 0,
    };
    let names = find(text, members, b"permissions");
    if version == 2 {
        return list(text, names, true, true, none);
    }
    let first = list(text, names, true, false, none)?;
    list(
        text,
        find(text, members, b"host_permissions"),
        false,
        true,
        first,
    )
}

// The members of the top object, judged.
fn judge(text: &[u8], members: Option<usize>) -> Result<Manifest, Refusal>
    requires { length text.now ≤ 16384 }
    ensures says { outcome result ≡ judged_from (starts_from (value 15) true (ended text.now members)) }
    ensures few { others_in result ≤ 32770 }
{
    if repeated(text, members) {
        return Err(Refusal::KeyRepeated);
    }
    let value = find(text, members, b"manifest_version");
    let version = version(text, value).ok_or(Refusal::NoVersion)?;
    let tally = total(text, members, version).ok_or(Refusal::NotStrings)?;
    Ok(Manifest {
        version,
        set: tally.set,
        others: tally.others,
    })
}

// The whole manifest.
#[tactic(auto, using(json_text::proofs::Places::read_in))]
pub fn read(text: &[u8]) -> Result<Manifest, Refusal>
    ensures says { outcome result ≡ judged text.now }
    ensures few { others_in result ≤ 32770 }
{
    if 16384 < text.len() {
        return Err(Refusal::NotObject);
    }
    if !is_text(text, 16) {
        return Err(Refusal::NotObject);
    }
    let top = space(text, 0);
    if byte(text, top) != 0x7b {
        return Err(Refusal::NotObject);
    }
    judge(text, first(text, top + 1, true))
}
