// The check of a block: the sum of its 127 words, modulo 2^32.
#![tactic(auto)]

ghost use Rattle.std.specs.Prelude.{◌≡◌, ◌+◌, ◌<◌, ◌≤◌, length, drop};
ghost use Rattle.checksum.specs.Sum.{word_of, sum_words, block_sum};

// The words that a block's check sums.
const WORDS: usize = 127;

// Four bytes as a number, little-endian.
fn word(s: &[u8], at: usize) -> u32
    requires { at + 4 ≤ length s.now }
    ensures { result ≡ word_of (drop at s.now) }
{
    u32::from_le_bytes([s[at], s[at + 1], s[at + 2], s[at + 3]])
}

// The wrapping sum of the 127 words at a place; 0 where the text ends before them.
pub fn block_sum(s: &[u8], at: usize) -> u32
    ensures { result ≡ block_sum s.now at }
{
    if s.len() < 4 * WORDS || s.len() - 4 * WORDS < at {
        return 0;
    }
    let mut sum: u32 = 0;
    for i in 0..WORDS {
        sum = sum.wrapping_add(word(s, at + 4 * i));
    }
    sum
}
