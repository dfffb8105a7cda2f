// The line of one send and one block, written into a lent slice where it has room.
ghost use Rattle.std.specs.Prelude.{◌+◌, ◌≤◌, length};
ghost use Rattle.text.specs.Writing.{Wrote, Line};
ghost use Rattle.deliveries.specs.Text.{field, outcome, line as Text·line};
ghost use Rattle.text.specs.Added.{Added};

use delivery::Delivery;
use text::room::put_room;
use text::{number_field, put, set_field};

// A label, a set and a line feed.
fn set_line(out: &mut [u8], at: usize, label: &[u8], s: u32) -> usize
    requires { at + length label.now + 7 ≤ length out.old }
    ensures { Wrote out.old at (field label.now s) out.new result }
{
    let next = set_field(out, at, label, s);
    put(out, next, b"\n")
}

// What became of the send, and a line feed.
#[tactic(auto, unfolding(crate::specs::Text::outcome))]
fn put_outcome(out: &mut [u8], at: usize, d: Delivery) -> usize
    requires { at + 14 ≤ length out.old }
    ensures { Wrote out.old at (outcome d) out.new result }
{
    match d {
        Delivery::OtherName => put(out, at, b" other name\n"),
        Delivery::ReceiverLacks(s) => set_line(out, at, b" lacks ", s.bits),
        Delivery::SenderLacks(s) => set_line(out, at, b" needs ", s.bits),
        Delivery::Delivered => put(out, at, b" delivered\n"),
    }
}

// The line, at the start of out, and its length.
fn delivery_line(out: &mut [u8; 96], p: usize, from: usize, to: usize, d: Delivery) -> usize
    ensures line { Line out.old (Text·line p from to d) out.new result }
    ensures upper_bound { result ≤ 96 }
{
    let a = number_field(out, 0, b"send ", p as u64);
    let b = number_field(out, a, b" from ", from as u64);
    let c = number_field(out, b, b" to ", to as u64);
    put_outcome(out, c, d)
}

// The line, where it has room, and the place after it.
pub fn add_line(out: &mut [u8], at: usize, p: usize, from: usize, to: usize, d: Delivery) -> usize
    requires { at ≤ 1000000000 }
    ensures added { Added out.old at (Text·line p from to d) out.new result }
    ensures upper_bound { result ≤ at + 96 }
{
    let mut line = [0u8; 96];
    let n = delivery_line(&mut line, p, from, to, d);
    put_room(out, at, &line[..n])
}
