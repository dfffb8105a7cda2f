// Narrow tables made wide and wide tables made narrow, as C links them.
ghost use Rattle.std.specs.Prelude.{◌≡◌, true, false, length};
ghost use Rattle.capi_text.specs.Interface.{answer_number};
ghost use Rattle.capi_text.specs.Converters.{converted_answer, out_after};

// A narrow table made wide.
#[unsafe(no_mangle)]
pub extern "C" fn wiphosega_widen(system: &[u8], out: &mut [u8]) -> u64
    ensures answer { result ≡ answer_number (converted_answer true system.now (length out.old)) }
    ensures out { out.new ≡ out_after true system.now out.old }
{
    capi_text::converters::wiphosega_widen(system, out)
}

// A wide table made narrow.
#[unsafe(no_mangle)]
pub extern "C" fn wiphosega_narrow(system: &[u8], out: &mut [u8]) -> u64
    ensures answer { result ≡ answer_number (converted_answer false system.now (length out.old)) }
    ensures out { out.new ≡ out_after false system.now out.old }
{
    capi_text::converters::wiphosega_narrow(system, out)
}
