// A table laid over another, for programs in C, over bytes.
ghost use Rattle.std.specs.Prelude.{◌≡◌, ◌+◌, ◌-◌, ◌*◌, ◌^◌, ◌≤◌, length};
ghost use Rattle.little_endian.specs.LittleEndian.{words_of};
ghost use Rattle.overlay.specs.Lookup.{place_of};
ghost use Rattle.overlay.specs.Join.{join_answer, out_after as words_after};
ghost use Rattle.overlay.specs.Answers.{found_as, joined_as};
ghost use Rattle.capi_text.specs.Interface.{answer_number};
ghost use Rattle.capi_text.specs.Overlay.{OddAs, lookup_answer, place_number, joined_answer, out_after};

use crate::put_words;
use fields::refusal;
use little_endian::words_of;
use overlay::join::join;
use overlay::lookup::find;
use overlay::numbers::{fault_number, fault_place};
use overlay::{Fault, Found};

// A part of a table, its offset and its length in bytes.
fn part_answer(start: usize, end: usize) -> u64
    requires { (start ≤ end) × (end ≤ 1024) }
    ensures { result ≡ 4 * start + 4 * (end - start) * 65536 }
{
    4 * start as u64 + 4 * (end - start) as u64 * 65536
}

// 30 where the base's bytes are no whole words, then 130 for the overlay's.
fn odd_number(base: &[u8], overlay: &[u8]) -> Option<u32>
    ensures { OddAs base.now overlay.now result }
{
    if base.len() % 4 != 0 {
        return Some(30);
    }
    if overlay.len() % 4 != 0 {
        return Some(130);
    }
    None
}

// `find` over the whole words of bytes: of more than 1,025 words the first decide.
fn find_in(base: &[u8], overlay: &[u8], name: u32, perms: u32) -> Result<Found, Fault>
    ensures { found_as result ≡ place_of (words_of base.now) (words_of overlay.now) name perms }
{
    let mut under = [0u32; 1025];
    let b = words_of(base, &mut under);
    let mut over = [0u32; 1025];
    let o = words_of(overlay, &mut over);
    find(&under[..b], &over[..o], name, perms)
}

// `join` over the whole words of bytes.
fn join_in(base: &[u8], overlay: &[u8], out: &mut [u32]) -> Result<usize, Fault>
    ensures answer { joined_as result ≡ join_answer (words_of base.now) (words_of overlay.now) (length out.old) }
    ensures out { out.new ≡ words_after (words_of base.now) (words_of overlay.now) out.old }
{
    let mut under = [0u32; 1025];
    let b = words_of(base, &mut under);
    let mut over = [0u32; 1025];
    let o = words_of(overlay, &mut over);
    join(&under[..b], &over[..o], out)
}

// Where a block is: offset + length × 2^16, in bytes, + 2^33 in the overlay; refused, 2^32 + number × 65,536 + place.
pub fn wiphosega_lookup(base: &[u8], overlay: &[u8], name: u32, perms: u32) -> u64
    ensures { result ≡ place_number (lookup_answer base.now overlay.now name perms) }
{
    if let Some(number) = odd_number(base, overlay) {
        return refusal(number, 0);
    }
    match find_in(base, overlay, name, perms) {
        Err(f) => refusal(fault_number(f), fault_place(f)),
        Ok(found) => match found {
            Found::Base(start, end) => part_answer(start, end),
            Found::Overlay(start, end) => part_answer(start, end) + 8589934592,
        },
    }
}

// The joined table: how many bytes it has; refused, 2^32 + number × 65,536 + place. The output counts whole words.
pub fn wiphosega_join(base: &[u8], overlay: &[u8], out: &mut [u8]) -> u64
    ensures answer { result ≡ answer_number (joined_answer base.now overlay.now (length out.old)) }
    ensures out { out.new ≡ out_after base.now overlay.now out.old }
{
    if let Some(number) = odd_number(base, overlay) {
        return refusal(number, 0);
    }
    let mut words = [0u32; 1024];
    match join_in(base, overlay, &mut words) {
        Ok(count) => put_words(&words, count, out, 50),
        Err(f) => refusal(fault_number(f), fault_place(f)),
    }
}
