// The bytes of a stream that a caller still holds, moved to the start of its buffer.
ghost use Rattle.std.specs.Prelude.{◌≡◌, ◌++◌, ◌-◌, min, length, take, drop};

// Moves the bytes from a place up to an end to the start of the buffer, and answers how many they are.
pub fn keep(buffer: &mut [u8], from: usize, end: usize) -> usize
    ensures count { result ≡ min end (length buffer.old) - from }
    ensures bytes { buffer.new ≡ take result (drop from buffer.old) ++ drop result buffer.old }
{
    let end = end.min(buffer.len());
    if end <= from {
        return 0;
    }
    buffer.copy_within(from..end, 0);
    end - from
}
