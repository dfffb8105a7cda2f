// The arguments: numbers in decimal and in hexadecimal digits.
ghost use Rattle.std.specs.Prelude.{◌≡◌, ◌+◌, ◌*◌, ◌%◌, ◌^◌, ◌<◌, ◌≤◌};
ghost use Rattle.commands.specs.Arguments.{IsDigit, value_of};

// The digit that a byte is.
fn digit(b: u8) -> Option<u32>
    ensures { IsDigit b result }
{
    match b {
        b'0'..=b'9' => Some(b as u32 - 48),
        b'a'..=b'f' => Some(b as u32 - 87),
        _ => None,
    }
}

// A number with one digit more, of 32 bits.
fn with_digit(n: u32, base: u32, d: u32) -> u32
    requires { (base ≤ 16) × (d ≤ 16) }
    ensures { result ≡ (n * base + d) % 2 ^ 32 }
{
    ((n as u64 * base as u64 + d as u64) % 4294967296) as u32
}

// The number of one to eight digits in a base.
pub fn value_of(digits: &[u8], base: u32) -> Option<u32>
    requires { base ≤ 16 }
    ensures { result ≡ value_of base digits.now }
{
    if digits.len() == 0 {
        return None;
    }
    if 8 < digits.len() {
        return None;
    }
    let mut n = 0;
    for b in digits {
        let d = digit(*b)?;
        if base <= d {
            return None;
        }
        n = with_digit(n, base, d);
    }
    Some(n)
}
