// The marks of packed bytes, the first of eight in the top bit, and whether spare bits are zero.
ghost use Rattle.std.specs.Prelude.{◌≡◌, ◌*◌, ◌<◌, ◌≤◌, length};
ghost use Rattle.base.specs.Indexed.{list_to};
ghost use Rattle.base.specs.Laid.{laid_over};
ghost use Rattle.cylinder.specs.Packed.{packed_size, bit_of, unpacked, spare_clear};

// Bit k of a byte, of which the top bit is bit 0.
fn bit_of(x: u8, k: usize) -> u8
    requires { k < 8 }
    ensures { result ≡ bit_of x k }
{
    (x >> (7 - k)) % 2
}

// Writes bits of a byte to out, as many as it takes, top bit first.
fn put_bits(x: u8, out: &mut [u8])
    requires { length out.old ≤ 8 }
    ensures { out.new ≡ list_to (bit_of x) (length out.old) }
{
    for (k, bit) in out.iter_mut().enumerate() {
        *bit = bit_of(x, k);
    }
}

// Writes the first l marks of packed bytes over the front of out: those of whole bytes, then those of the last.
pub(crate) fn unpack(bytes: &[u8], l: usize, out: &mut [u8])
    requires l_in_bounds { l ≤ length bytes.now * 8 }
    requires l_in_bounds_2 { l ≤ length out.old }
    ensures { out.new ≡ laid_over (unpacked l bytes.now) out.old }
{
    let whole = l / 8;
    for i in 0..whole {
        put_bits(bytes[i], &mut out[i * 8..i * 8 + 8]);
    }
    if l % 8 != 0 {
        put_bits(bytes[whole], &mut out[whole * 8..l]);
    }
}

// Whether no bit behind the first l is set in the bytes that l marks take.
pub(crate) fn spare_clear(bytes: &[u8], l: usize) -> bool
    requires { length bytes.now ≡ packed_size l }
    ensures { result ≡ spare_clear l bytes.now }
{
    let used = l % 8;
    if used == 0 {
        return true;
    }
    for k in used..8 {
        if bit_of(bytes[l / 8], k) != 0 {
            return false;
        }
    }
    true
}
