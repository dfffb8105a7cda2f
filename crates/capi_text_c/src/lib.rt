// The calls of capi_text as C links them. Fingerprints, manifests, overlays and converters stand in files of their own.
#![tactic(auto)]

mod converters;
mod fingerprints;
mod manifests;
mod overlays;

ghost use Rattle.std.specs.Prelude.{◌≡◌, length};
ghost use Rattle.capi_text.specs.Interface.{answer_number, write_answer, text_after, read_answer, system_after};

// The listing of the bytes of a system: how many bytes it has; refused, 2^32 + number × 65,536 + place.
#[unsafe(no_mangle)]
pub extern "C" fn wiphosega_listing_write(system: &[u8], text: &mut [u8]) -> u64
    ensures answer { result ≡ answer_number (write_answer system.now (length text.old)) }
    ensures text { text.new ≡ text_after system.now text.old }
{
    capi_text::wiphosega_listing_write(system, text)
}

// The bytes of the system that a listing is of: how many they are; refused, 2^32 + number × 65,536 + place. The system's slice counts whole
// words.
#[unsafe(no_mangle)]
pub extern "C" fn wiphosega_listing_read(text: &[u8], system: &mut [u8]) -> u64
    ensures answer { result ≡ answer_number (read_answer text.now (length system.old)) }
    ensures system { system.new ≡ system_after text.now system.old }
{
    capi_text::wiphosega_listing_read(text, system)
}
