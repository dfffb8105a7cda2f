// A table laid over another, as C links it.
ghost use Rattle.std.specs.Prelude.{◌≡◌, length};
ghost use Rattle.capi_text.specs.Interface.{answer_number};
ghost use Rattle.capi_text.specs.Overlay.{lookup_answer, place_number, joined_answer, out_after};

// Where a block is: offset + length × 2^16, in bytes, + 2^33 in the overlay; refused, 2^32 + number × 65,536 + place.
#[unsafe(no_mangle)]
pub extern "C" fn wiphosega_lookup(base: &[u8], overlay: &[u8], name: u32, perms: u32) -> u64
    ensures { result ≡ place_number (lookup_answer base.now overlay.now name perms) }
{
    capi_text::overlays::wiphosega_lookup(base, overlay, name, perms)
}

// The joined table: how many bytes it has; refused, 2^32 + number × 65,536 + place. The output counts whole words.
#[unsafe(no_mangle)]
pub extern "C" fn wiphosega_join(base: &[u8], overlay: &[u8], out: &mut [u8]) -> u64
    ensures answer { result ≡ answer_number (joined_answer base.now overlay.now (length out.old)) }
    ensures out { out.new ≡ out_after base.now overlay.now out.old }
{
    capi_text::overlays::wiphosega_join(base, overlay, out)
}
