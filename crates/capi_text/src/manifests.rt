// Manifests for programs in C.
ghost use Rattle.std.specs.Prelude.{◌≡◌, ◌+◌, ◌*◌, ◌^◌, ◌≤◌};
ghost use Rattle.manifest.specs.Manifest.{judged};
ghost use Rattle.capi_text.specs.Manifest.{outcome_number};

use fields::refusal;
use manifest::numbers::refusal_number;
use manifest::read::read;

// A set, a version and a count as one number.
fn manifest_answer(version: u32, set: u32, others: u32) -> u64
    requires { others ≤ 32770 }
    ensures { result ≡ set + version * 2 ^ 24 + others * 2 ^ 40 }
{
    set as u64 + version as u64 * 16777216 + others as u64 * 1099511627776
}

// What a manifest says: set + version × 2^24 + how many strings set nothing × 2^40; refused, 2^32 + number × 65,536.
pub fn wiphosega_manifest(json: &[u8]) -> u64
    ensures { result ≡ outcome_number (judged json.now) }
{
    match read(json) {
        Ok(m) => manifest_answer(m.version, m.set.bits, m.others),
        Err(r) => refusal(refusal_number(r), 0),
    }
}
