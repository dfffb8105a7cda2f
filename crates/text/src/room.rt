// Text where it has room. Each writer answers the place after its text whether it is there or not, so that a text can be measured first.
ghost use Rattle.std.specs.Prelude.{◌≤◌, length};
ghost use Rattle.text.specs.Added.{Added};

use crate::put;

// The bytes of s, where they have room, and the place after them.
pub fn put_room(out: &mut [u8], at: usize, s: &[u8]) -> usize
    requires { (at ≤ 1000000000) × (length s.now ≤ 96) }
    ensures { Added out.old at s.now out.new result }
{
    if at + s.len() <= out.len() {
        put(out, at, s)
    } else {
        at + s.len()
    }
}
