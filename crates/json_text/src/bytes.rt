// A byte of a text, and white space.
ghost use Rattle.std.specs.Prelude.{◌≡◌, ◌&&◌, ◌||◌, eqb, drop};
ghost use Rattle.json_text.specs.Bytes.{head, within, is_space, space};

// The byte at a place, and 256 past the end: no test for a byte or a range of them then takes a case for the end, as in `head` of the
// specification.
pub fn byte(text: &[u8], at: usize) -> u32
    ensures { result ≡ head (drop at text.now) }
{
    if at < text.len() {
        text[at] as u32
    } else {
        256
    }
}

pub fn is_within(low: u32, high: u32, b: u32) -> bool
    ensures { result ≡ within low high b }
{
    low <= b && b <= high
}

pub fn is_either(x: u32, y: u32, b: u32) -> bool
    ensures { result ≡ (eqb b x || eqb b y) }
{
    b == x || b == y
}

fn is_space(b: u32) -> bool
    ensures { result ≡ is_space b }
{
    is_either(0x20, 0x09, b) || is_either(0x0a, 0x0d, b)
}

// The place behind the white space at a place. The place may stand past the end, where no chain of an iterator over the rest can start.
pub fn space(text: &[u8], at: usize) -> usize
    ensures { drop result text.now ≡ space (drop at text.now) }
{
    let mut p = at;
    while is_space(byte(text, p)) {
        p += 1;
    }
    p
}
