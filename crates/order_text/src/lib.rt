// The line that says what a call for an order of reading replied.
#![tactic(auto)]

ghost use Rattle.std.specs.Prelude.{◌≡◌, ◌+◌, ◌*◌, ◌≤◌, ltb, length, take};
ghost use Rattle.text.specs.Writing.{Wrote};
ghost use Rattle.reading_order.specs.Reply.{reply_of};
ghost use Rattle.order_text.specs.Text.{spaced, line, reply_text, room, text_size, text_after};

use calls::numbers::{fault_number, fault_place};
use reading_order::{Arrangement, OrderFault};
use report::refusal_line;
use text::{number_field, put};

// Each position behind a space.
fn put_positions(out: &mut [u8], at: usize, positions: &[u32]) -> usize
    requires { at + 21 * length positions.now ≤ length out.old }
    ensures { Wrote out.old at (spaced positions.now) out.new result × (result ≤ at + 21 * length positions.now) }
{
    let mut next = at;
    for position in positions {
        next = number_field(out, next, b" ", *position as u64);
    }
    next
}

// The line of a word and of positions.
#[tactic(auto, unfolding(crate::specs::Text::line), using(text::proofs::Writing::then))]
fn put_line(out: &mut [u8], word: &[u8], positions: &[u32]) -> usize
    requires { (length word.now ≤ 5) × (room (length positions.now) ≤ length out.old) }
    ensures { Wrote out.old 0 (line word.now positions.now) out.new result }
{
    let a = put(out, 0, word);
    let b = put_positions(out, a, positions);
    put(out, b, b"\n")
}

// The same of the first positions, or of all where there are fewer.
fn put_first(out: &mut [u8], word: &[u8], count: usize, positions: &[u32]) -> usize
    requires { (length word.now ≤ 5) × (room (length positions.now) ≤ length out.old) }
    ensures { Wrote out.old 0 (line word.now (take count positions.now)) out.new result }
{
    if positions.len() <= count {
        return put_line(out, word, positions);
    }
    put_line(out, word, &positions[..count])
}

#[tactic(auto, unfolding(crate::specs::Text::reply_text, reading_order::specs::Reply::reply_of))]
fn put_reply(out: &mut [u8], reply: Result<Arrangement, OrderFault>, positions: &[u32]) -> usize
    requires { room (length positions.now) ≤ length out.old }
    ensures { Wrote out.old 0 (reply_text (reply_of reply) positions.now) out.new result }
{
    match reply {
        Err(OrderFault::Call(f)) => refusal_line(out, 0, fault_number(f), fault_place(f)),
        Err(OrderFault::Short) => refusal_line(out, 0, 51, 0),
        Err(OrderFault::Facts(n)) => refusal_line(out, 0, 23, n),
        Ok(Arrangement::Ordered(n)) => put_first(out, b"order", n, positions),
        Ok(Arrangement::Looped(n)) => put_first(out, b"loop", n, positions),
    }
}

// Whether a slice of so many bytes is shorter than a line with so many positions may be.
#[tactic(auto, using(crate::proofs::Laws::divided))]
fn lacks_room(size: usize, positions: usize) -> bool
    ensures { result ≡ ltb size (room positions) }
{
    size < 96 || (size - 96) / 21 < positions
}

// The line of a reply, where `positions` starts with the order or loop, at the start of `out`, and how long it is. A slice of less than 96 bytes and 21
// for each position gets nothing.
pub fn write(reply: Result<Arrangement, OrderFault>, positions: &[u32], out: &mut [u8]) -> usize
    ensures size { result ≡ text_size (length positions.now) (reply_text (reply_of reply) positions.now) (length out.old) }
    ensures text { out.new ≡ text_after (length positions.now) (reply_text (reply_of reply) positions.now) out.old }
    ensures fits { result ≤ length out.old }
{
    if lacks_room(out.len(), positions.len()) {
        return 0;
    }
    put_reply(out, reply, positions)
}
