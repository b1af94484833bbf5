// The check of information bytes, and the test of a stored check.
#![tactic(auto)]

ghost use Rattle.std.specs.Prelude.{◌≡◌};
ghost use Rattle.crc.specs.Check.{coefficients, remainder, check_of, agrees};

mod wide;

use wide::remainder_wide;

// The remainder of the bytes, kept as a byte for each half: going back from the last byte, the low half and the high half take one byte each by turns.
// Of an odd number of bytes the first is left over, and is the low half's: of C1 C2 C3 the low half takes C3 and C1, the high half C2.
fn remainder_of(bytes: &[u8]) -> u16
    ensures { result ≡ remainder 0 (coefficients bytes.now) }
{
    let (front, pairs) = bytes.as_rchunks::<2>();
    let mut high: u8 = 0;
    let mut low: u8 = 0;
    for [h, l] in pairs.iter().rev() {
        low ^= *l;
        high ^= *h;
    }
    match front {
        [] => u16::from_be_bytes([high, low]),
        [first, ..] => u16::from_be_bytes([high, low ^ *first]),
    }
}

// The check of the bytes: the remainder with every bit complemented.
pub fn check_of(bytes: &[u8]) -> u16
    ensures { result ≡ check_of bytes.now }
{
    !remainder_wide(bytes)
}

// Whether the check of the bytes is stored as the byte high and then the byte low.
pub fn check_agrees(bytes: &[u8], high: u8, low: u8) -> bool
    ensures { result ≡ agrees bytes.now high low }
{
    check_of(bytes) == u16::from_be_bytes([high, low])
}
