// Manifests as C links them.
ghost use Rattle.std.specs.Prelude.{◌≡◌};
ghost use Rattle.manifest.specs.Manifest.{judged};
ghost use Rattle.capi_text.specs.Manifest.{outcome_number};

// What a manifest says: set + version × 2^24 + how many strings set nothing × 2^40; refused, 2^32 + number × 65,536.
#[unsafe(no_mangle)]
pub extern "C" fn wiphosega_manifest(json: &[u8]) -> u64
    ensures { result ≡ outcome_number (judged json.now) }
{
    capi_text::manifests::wiphosega_manifest(json)
}
