// A call on words whose slices are bytes: their whole words are copied to arrays that have room for the largest system, and back.
ghost use Rattle.std.specs.Prelude.{◌≡◌, ◌/◌, ◌≤◌, length};
ghost use Rattle.calculus.specs.Answer.{answer};
ghost use Rattle.comparison.specs.Values.{answer_of};
ghost use Rattle.capi.specs.Interface.{estimate_left, estimate_bytes, work_bytes};

use calls::Fault;
use comparison::Verdict;
use little_endian::{bytes_of, words_of};
use verdict::judge::verdict;

// The work slice as bytes, over words that are lent.
fn with_own(
    words: &[u32],
    rho: u32,
    bound: u32,
    est: &mut [u32],
    work: &mut [u8],
    own: &mut [u32],
) -> Result<Verdict, Fault>
    requires { (length words.now ≤ 256) × (length own.old ≡ 1024) }
    ensures result_value { answer_of result ≡ answer words.now rho bound (length est.old) (length work.old / 4) }
    ensures est_after { est.new ≡ estimate_left words.now rho (answer_of result) est.old }
    ensures work_after { work.new ≡ work_bytes words.now (answer_of result) work.old }
{
    let n = words_of(work, own);
    let v = verdict(words, rho, bound, est, &mut own[..n]);
    bytes_of(&own[..n], work);
    v
}

// The same over an array of words.
fn with_work(
    words: &[u32],
    rho: u32,
    bound: u32,
    est: &mut [u32],
    work: &mut [u8],
) -> Result<Verdict, Fault>
    requires { length words.now ≤ 256 }
    ensures result_value { answer_of result ≡ answer words.now rho bound (length est.old) (length work.old / 4) }
    ensures est_after { est.new ≡ estimate_left words.now rho (answer_of result) est.old }
    ensures work_after { work.new ≡ work_bytes words.now (answer_of result) work.old }
{
    let mut own = [0u32; 1024];
    with_own(words, rho, bound, est, work, &mut own)
}

// Both slices as bytes, over words for the estimate that are lent.
fn with_room(
    words: &[u32],
    rho: u32,
    bound: u32,
    estimate: &mut [u8],
    work: &mut [u8],
    room: &mut [u32],
) -> Result<Verdict, Fault>
    requires { (length words.now ≤ 256) × (length room.old ≡ 5888) }
    ensures result_value { answer_of result ≡ answer words.now rho bound (length estimate.old / 4) (length work.old / 4) }
    ensures estimate_after { estimate.new ≡ estimate_bytes words.now rho (answer_of result) estimate.old }
    ensures work_after { work.new ≡ work_bytes words.now (answer_of result) work.old }
{
    let n = words_of(estimate, room);
    let v = with_work(words, rho, bound, &mut room[..n], work);
    bytes_of(&room[..n], estimate);
    v
}

// Both slices as bytes. Not one function with `with_work`: what is lent as bytes differs, and with it the array that stands in for it.
pub fn with_bytes(
    words: &[u32],
    rho: u32,
    bound: u32,
    estimate: &mut [u8],
    work: &mut [u8],
) -> Result<Verdict, Fault>
    requires { length words.now ≤ 256 }
    ensures result_value { answer_of result ≡ answer words.now rho bound (length estimate.old / 4) (length work.old / 4) }
    ensures estimate_after { estimate.new ≡ estimate_bytes words.now rho (answer_of result) estimate.old }
    ensures work_after { work.new ≡ work_bytes words.now (answer_of result) work.old }
{
    let mut room = [0u32; 5888];
    with_room(words, rho, bound, estimate, work, &mut room)
}
