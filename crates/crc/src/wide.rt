// The remainder of the bytes, eight at a time: side by side in one number, they are added by one exclusive or.
ghost use Rattle.std.specs.Prelude.{◌≡◌, ◌++◌, ◌+◌, ◌-◌, ◌≤◌, ◌<◌, length, take, replicate};
ghost use Rattle.crc.specs.Check.{coefficients, remainder};
ghost use Rattle.crc.specs.Word.{word, lanes};

use crate::remainder_of;

// The two lanes of a word, which has four pairs of halves side by side: it is folded to two pairs, and these to one.
// Stays as it is: the new form is no plainer, as to_le_bytes gives all eight bytes of the folded word, of which the lanes are two.
fn lanes_of(w: u64) -> u16
    ensures { result ≡ lanes 4 w }
{
    let two = w ^ (w / 0x100000000);
    let one = two ^ (two / 0x10000);
    u16::from_be_bytes([(one % 256) as u8, (one / 256 % 256) as u8])
}

// The first n bytes behind zeros, eight in all, as one number: the first eight bytes, moved up until only the first n of them are left.
fn front_word(bytes: &[u8], n: usize) -> u64
    requires { (n < 8) × (8 ≤ length bytes.now) }
    ensures { result ≡ word (replicate (8 - n) 0 ++ take n bytes.now) }
{
    let (words, _) = bytes[..8].as_chunks::<8>();
    let others = 56 - 8 * n;
    u64::from_le_bytes(words[0]) << 8 << others
}

// The remainder of the bytes, in words of eight that are counted back from the last byte: the bytes left in front are the first word, and fewer than eight bytes are taken two by two.
pub(crate) fn remainder_wide(bytes: &[u8]) -> u16
    ensures { result ≡ remainder 0 (coefficients bytes.now) }
{
    if bytes.len() < 8 {
        return remainder_of(bytes);
    }
    let (front, words) = bytes.as_rchunks::<8>();
    let mut sum = front_word(bytes, front.len());
    for word in words {
        sum ^= u64::from_le_bytes(*word);
    }
    lanes_of(sum)
}
