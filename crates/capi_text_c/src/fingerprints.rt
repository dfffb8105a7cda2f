// Fingerprints as C links them.
ghost use Rattle.std.specs.Prelude.{◌≡◌};
ghost use Rattle.fingerprint.specs.Fnv.{fnv1a};

// The published hash FNV-1a of 32 bits, of the bytes of a system.
#[unsafe(no_mangle)]
pub extern "C" fn wiphosega_fingerprint(system: &[u8]) -> u32
    ensures { result ≡ fnv1a system.now }
{
    capi_text::fingerprints::wiphosega_fingerprint(system)
}
