// The fingerprint of a system: the published hash FNV-1a of 32 bits.
#![tactic(auto)]

ghost use Rattle.std.specs.Prelude.{◌≡◌, ◌*◌, ◌%◌, ◌^◌};
ghost use Rattle.fingerprint.specs.Fnv.{fnv1a};
ghost use Rattle.fingerprint.specs.Fnv.{step as Fnv-step};

const PRIME: u32 = 0x01000193;

const BASIS: u32 = 0x811c9dc5;

// The product modulo 2^32.
fn wrapping_mul(a: u32, b: u32) -> u32
    ensures { result ≡ a * b % 2 ^ 32 }
{
    (a as u64 * b as u64 % 0x100000000) as u32
}

// One byte more.
#[tactic(auto, unfolding(crate::specs::Fnv::step))]
fn step(hash: u32, byte: u8) -> u32
    ensures { result ≡ Fnv-step hash byte }
{
    wrapping_mul(hash ^ u32::from(byte), PRIME)
}

pub fn fingerprint(bytes: &[u8]) -> u32
    ensures { result ≡ fnv1a bytes.now }
{
    bytes.iter().fold(BASIS, |hash, byte| step(hash, *byte))
}
