// Little-endian words of four bytes, from bytes and to bytes.
#![tactic(auto)]

ghost use Rattle.std.specs.Prelude.{◌≡◌, [], ◌∷◌, ◌++◌, ◌+◌, ◌*◌, ◌≤◌, min, length, take, drop};
ghost use Rattle.little_endian.specs.LittleEndian.{number, low_bytes, words_of, bytes_of, whole_words};

// The word of four bytes.
pub fn word(a: u8, b: u8, c: u8, d: u8) -> u32
    ensures { result ≡ number (a ∷ b ∷ c ∷ d ∷ []) }
{
    u32::from_le_bytes([a, b, c, d])
}

// The whole words of `bytes`, as many as `words` has room for, at its start, and how many they are.
pub fn words_of(bytes: &[u8], words: &mut [u32]) -> usize
    ensures count { result ≡ whole_words bytes.now words.old }
    ensures content { words.new ≡ take result (words_of bytes.now) ++ drop result words.old }
{
    let (fours, _) = bytes.as_chunks::<4>();
    let n = fours.len().min(words.len());
    for (i, four) in fours[..n].iter().enumerate() {
        words[i] = u32::from_le_bytes(*four);
    }
    n
}

// The bytes of `words`, as many whole words as `bytes` has room for, at its start, and how many words they are.
pub fn bytes_of(words: &[u32], bytes: &mut [u8]) -> usize
    ensures count { result ≡ whole_words bytes.old words.now }
    ensures content { bytes.new ≡ bytes_of (take result words.now) ++ drop (4 * result) bytes.old }
{
    let n = (bytes.len() / 4).min(words.len());
    for (i, word) in words[..n].iter().enumerate() {
        bytes[4 * i..4 * i + 4].copy_from_slice(&word.to_le_bytes());
    }
    n
}
