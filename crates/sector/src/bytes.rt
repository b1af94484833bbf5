// Bytes of a span: one byte, a field with its check, an opening.
ghost use Rattle.std.specs.Prelude.{◌≡◌, [], ◌∷◌, get_or};
ghost use Rattle.format.specs.Opening.{starts_with, plain_opening, closed_after, check_follows, closing_follows};

use format::layout::{CHECK, CLOSING, CLOSING_BYTE, PLAIN_OPENING};

// The byte at i, and 0 past the end.
pub fn byte_at(r: &[u8], i: usize) -> u8
    ensures { result ≡ get_or r.now i 0 }
{
    r.get(i).copied().unwrap_or(0)
}

// Whether the check of n information bytes follows them.
#[tactic(auto, using(crate::proofs::Opening::check_short, crate::proofs::Opening::check_two))]
pub(crate) fn check_follows(r: &[u8], n: usize) -> bool
    ensures { result ≡ check_follows n r.now }
{
    if r.len() < n {
        return false;
    }
    if r.len() - n < CHECK {
        return false;
    }
    let high = r[n];
    let low = r[n + 1];
    crc::check_agrees(&r[..n], high, low)
}

// Whether the closing byte follows them and their check.
#[tactic(auto, using(crate::proofs::Opening::closing_short, crate::proofs::Opening::closing_third))]
pub(crate) fn closing_follows(r: &[u8], n: usize) -> bool
    ensures { result ≡ closing_follows n r.now }
{
    if r.len() < n {
        return false;
    }
    if r.len() - n < CLOSING {
        return false;
    }
    r[n + CHECK] == CLOSING_BYTE
}

// Whether n information bytes are followed by their check and the closing byte.
#[tactic(auto, using(format::proofs::Cells::Field::closed_parts))]
pub fn closed_after(r: &[u8], n: usize) -> bool
    ensures { result ≡ closed_after n r.now }
{
    check_follows(r, n) && closing_follows(r, n)
}

// Whether the bytes start with these.
#[tactic(auto, using(crate::proofs::Opening::starts_pointwise))]
pub(crate) fn starts_with(c: &[u8], wanted: &[u8]) -> bool
    ensures { result ≡ starts_with wanted.now c.now }
{
    c.starts_with(wanted)
}

// Whether the bytes start with an unmarked opening.
pub(crate) fn starts_plain(c: &[u8]) -> bool
    ensures { result ≡ starts_with plain_opening c.now }
{
    starts_with(c, &PLAIN_OPENING)
}

// Whether the bytes start with one 00.
pub(crate) fn starts_zero(c: &[u8]) -> bool
    ensures { result ≡ starts_with (0x00 ∷ []) c.now }
{
    starts_with(c, &[0x00])
}
