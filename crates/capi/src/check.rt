// The check of an estimate from elsewhere for programs in C, over bytes that are only read.
ghost use Rattle.std.specs.Prelude.{◌≡◌, ◌<◌, ◌≤◌, length};
ghost use Rattle.little_endian.specs.LittleEndian.{words_of};
ghost use Rattle.audit.specs.Audited.{said, place_of, audited};
ghost use Rattle.capi.specs.Check.{check_number, estimate_from, bytes_audited, ExactNumber, TakenIn};

use audit::AuditFault;
use audit::judge::audit;
use audit::numbers::{audit_number, audit_place};
use interface::{refusal, system_fault};
use little_endian::words_of;
use permset::PermSet;

// What is said of an estimate, as one number.
#[tactic(auto, using(crate::proofs::Taken::fault_numbered), unfolding(crate::specs::Check::check_number, audit::specs::Audited::said))]
fn check_number(audited: Result<PermSet, AuditFault>) -> u64
    requires { place_of (said audited) < 65536 }
    ensures { result ≡ check_number (said audited) }
{
    match audited {
        Ok(leak) => leak.bits as u64,
        Err(_) => refusal(audit_number(audited), audit_place(audited)),
    }
}

// The words of an estimate, at the start of a slice that has room for the largest, and how many they are.
fn take_words(bytes: &[u8], room: &mut [u32]) -> usize
    requires { length room.old ≡ 5888 }
    ensures { TakenIn bytes.now room.new result }
{
    if 23552 < bytes.len() {
        return 0;
    }
    if bytes.len() % 4 != 0 {
        return 0;
    }
    words_of(bytes, room)
}

// The check of an estimate over words for it that are lent.
fn of_room(words: &[u32], rho: u32, estimate: &[u8], room: &mut [u32]) -> u64
    requires { (length words.now ≤ 256) × (length room.old ≡ 5888) }
    ensures { result ≡ check_number (audited words.now rho (estimate_from estimate.now)) }
{
    let n = take_words(estimate, room);
    check_number(audit(words, rho, &room[..n]))
}

// The same over an array of words.
fn of_words(words: &[u32], rho: u32, estimate: &[u8]) -> u64
    requires { length words.now ≤ 256 }
    ensures { result ≡ check_number (audited words.now rho (estimate_from estimate.now)) }
{
    let mut room = [0u32; 5888];
    of_room(words, rho, estimate, &mut room)
}

// The same for the words of a system, over words that are lent.
fn of_system(system: &[u8], rho: u32, estimate: &[u8], words: &mut [u32]) -> u64
    requires { (length system.now ≤ 1024) × (length words.old ≡ 256) }
    ensures { result ≡ check_number (audited (words_of system.now) rho (estimate_from estimate.now)) }
{
    let n = words_of(system, words);
    of_words(&words[..n], rho, estimate)
}

// Whether the bytes of an estimate have no stray bit and obey every rule of a system: the leak read from it; refused, 2^32 + number × 65,536 +
// place. Nothing is written.
pub fn wiphosega_check(system: &[u8], rho: u32, estimate: &[u8]) -> u64
    ensures answer { result ≡ check_number (bytes_audited system.now rho estimate.now) }
    ensures exact { ExactNumber system.now rho estimate.now result }
{
    if let Some(number) = system_fault(system.len()) {
        return refusal(number, 0);
    }
    let mut words = [0u32; 256];
    of_system(system, rho, estimate, &mut words)
}
