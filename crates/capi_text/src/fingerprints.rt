// Fingerprints for programs in C.
ghost use Rattle.std.specs.Prelude.{◌≡◌};
ghost use Rattle.fingerprint.specs.Fnv.{fnv1a};

use fingerprint::fingerprint;

// The published hash FNV-1a of 32 bits, of the bytes of a system.
pub fn wiphosega_fingerprint(system: &[u8]) -> u32
    ensures { result ≡ fnv1a system.now }
{
    fingerprint(system)
}
