// The parts of a line, each written into a lent slice where it has room.
ghost use Rattle.std.specs.Prelude.{◌++◌, ◌+◌, ◌≤◌, length};
ghost use Rattle.text.specs.Text.{decimal};
ghost use Rattle.text.specs.Writing.{Line};
ghost use Rattle.text.specs.Added.{Added};

use text::number_field;
use text::room::put_room;

// A label and a number, at the start of out, and their length.
fn number_line(out: &mut [u8; 64], label: &[u8], n: usize) -> usize
    requires { length label.now ≤ 40 }
    ensures line { Line out.old (label.now ++ decimal n) out.new result }
    ensures upper_bound { result ≤ 64 }
{
    number_field(out, 0, label, n as u64)
}

// A label and a number, where they have room, and the place after them.
pub fn add_number(out: &mut [u8], at: usize, label: &[u8], n: usize) -> usize
    requires { (at ≤ 1000000000) × (length label.now ≤ 40) }
    ensures added { Added out.old at (label.now ++ decimal n) out.new result }
    ensures upper_bound { result ≤ at + 64 }
{
    let mut line = [0u8; 64];
    let size = number_line(&mut line, label, n);
    put_room(out, at, &line[..size])
}
