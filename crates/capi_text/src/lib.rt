// Listings for programs in C, over bytes. Fingerprints, manifests, overlays and converters stand in files of their own.
#![tactic(auto)]

pub mod converters;
pub mod fingerprints;
pub mod manifests;
pub mod overlays;

ghost use Rattle.std.specs.Prelude.{◌≡◌, ◌≤◌, length};
ghost use Rattle.capi_text.specs.Interface.{answer_number, write_answer, text_after, read_answer, system_after, PutAs};

use fields::refusal;
use listing::numbers::{refusal_number, refusal_place};
use listing::read::read;
use listing::write::write;
use little_endian::{bytes_of, words_of};

// The listing of the bytes of a system: how many bytes it has; refused, 2^32 + number × 65,536 + place.
pub fn wiphosega_listing_write(system: &[u8], text: &mut [u8]) -> u64
    ensures answer { result ≡ answer_number (write_answer system.now (length text.old)) }
    ensures text { text.new ≡ text_after system.now text.old }
{
    if system.len() % 4 != 0 {
        return refusal(30, 0);
    }
    let mut words = [0u32; 1025];
    let n = words_of(system, &mut words);
    match write(&words[..n], text) {
        Ok(count) => count as u64,
        Err(r) => refusal(refusal_number(r), refusal_place(r)),
    }
}

// The first words, as bytes, where the slice has room for them; where it has not, a refusal with this number.
fn put_words(words: &[u32], count: usize, bytes: &mut [u8], number: u32) -> u64
    requires { (count ≤ length words.now) × (count ≤ 1024) }
    ensures { PutAs number words.now count bytes.old bytes.new result }
{
    if bytes.len() / 4 < count {
        return refusal(number, 0);
    }
    bytes_of(&words[..count], bytes);
    4 * count as u64
}

// The bytes of the system that a listing is of: how many they are; refused, 2^32 + number × 65,536 + place. The system's slice counts whole
// words.
pub fn wiphosega_listing_read(text: &[u8], system: &mut [u8]) -> u64
    ensures answer { result ≡ answer_number (read_answer text.now (length system.old)) }
    ensures system { system.new ≡ system_after text.now system.old }
{
    let mut words = [0u32; 1024];
    match read(text, &mut words) {
        Ok(count) => put_words(&words, count, system, 42),
        Err(r) => refusal(refusal_number(r), refusal_place(r)),
    }
}
