// What stands at the front of a stream.
ghost use Rattle.std.specs.Prelude.{◌≡◌, ◌+◌, ◌≤◌, length};
ghost use Rattle.class_report.specs.Stream.{word_at, sized, front};

use crate::Fault;
use little_endian::word;

// The word at a place.
pub fn word_at(stream: &[u8], at: usize) -> u32
    requires { at + 4 ≤ length stream.now }
    ensures { result ≡ word_at at stream.now }
{
    word(stream[at], stream[at + 1], stream[at + 2], stream[at + 3])
}

// A system of so many words, as far as the stream has it.
fn front_sized(stream: &[u8], size: u32) -> Result<Option<usize>, Fault>
    ensures { result ≡ sized stream.now size }
{
    if 256 < size {
        return Err(Fault::TooLong);
    }
    let words = size as usize;
    if stream.len() < 8 + 4 * words {
        return Err(Fault::CutShort);
    }
    Ok(Some(words))
}

// No byte, a whole system of so many words, or a fault.
pub fn front_of(stream: &[u8]) -> Result<Option<usize>, Fault>
    ensures { result ≡ front stream.now }
{
    if stream.len() == 0 {
        return Ok(None);
    }
    if stream.len() < 4 {
        return Err(Fault::CutShort);
    }
    front_sized(stream, word_at(stream, 0))
}
