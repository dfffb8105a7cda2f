// The calls of capi as C links them.
#![tactic(auto)]

ghost use Rattle.std.specs.Prelude.{◌≡◌, length};
ghost use Rattle.little_endian.specs.LittleEndian.{words_of};
ghost use Rattle.interface.specs.Numbers.{answer_number};
ghost use Rattle.capi.specs.Interface.{bytes_answer, estimate_bytes, work_bytes, CorrectNumber, GuaranteedNumber};
ghost use Rattle.capi.specs.Check.{check_number, bytes_audited, ExactNumber};

// The verdict on the bytes of a system: the leak, plus 2^24 if it is over the bound; refused, 2^32 + number × 65,536 + place. The other
// two slices count whole words; a refusal leaves both as they were, and a verdict changes their first words alone.
#[unsafe(no_mangle)]
pub extern "C" fn wiphosega_verdict(
    system: &[u8],
    rho: u32,
    bound: u32,
    estimate: &mut [u8],
    work: &mut [u8],
) -> u64
    ensures answer { result ≡ answer_number (bytes_answer system.now rho bound (length estimate.old) (length work.old)) }
    ensures estimate { estimate.new ≡ estimate_bytes (words_of system.now) rho
        (bytes_answer system.now rho bound (length estimate.old) (length work.old)) estimate.old }
    ensures work { work.new ≡ work_bytes (words_of system.now) (bytes_answer system.now rho bound
        (length estimate.old) (length work.old)) work.old }
    ensures correct { CorrectNumber (words_of system.now) rho bound estimate.new result }
    ensures guarantee { GuaranteedNumber (words_of system.now) rho result }
{
    capi::wiphosega_verdict(system, rho, bound, estimate, work)
}

// Whether the bytes of an estimate have no stray bit and obey every rule of a system: the leak read from it; refused, 2^32 + number × 65,536 +
// place. Nothing is written.
#[unsafe(no_mangle)]
pub extern "C" fn wiphosega_check(system: &[u8], rho: u32, estimate: &[u8]) -> u64
    ensures answer { result ≡ check_number (bytes_audited system.now rho estimate.now) }
    ensures exact { ExactNumber system.now rho estimate.now result }
{
    capi::check::wiphosega_check(system, rho, estimate)
}
