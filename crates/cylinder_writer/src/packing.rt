// Marks eight to a byte, the first in the top bit and spare bits zero.
ghost use Rattle.std.specs.Prelude.{◌≡◌, ◌≤◌, length};
ghost use Rattle.base.specs.Laid.{laid_over};
ghost use Rattle.cylinder.specs.Packed.{packed_size, octet_at, packed};

// The byte of eight marks.
#[tactic(auto, unfolding(cylinder::specs::Packed::octet, cylinder::specs::Packed::octet_at))]
fn octet_of(marks: &[u8; 8]) -> u8
    ensures { result ≡ octet_at marks.now 0 }
{
    let [a, b, c, d, e, f, g, h] = *marks;
    a % 2 * 128 + b % 2 * 64 + c % 2 * 32 + d % 2 * 16 + e % 2 * 8 + f % 2 * 4 + g % 2 * 2 + h % 2
}

// Writes the bytes of all marks over the front of out; the last byte has 0 for each mark that is not there.
pub(crate) fn pack(marks: &[u8], out: &mut [u8])
    requires { packed_size (length marks.now) ≤ length out.old }
    ensures { out.new ≡ laid_over (packed marks.now) out.old }
{
    let (whole, rest) = marks.as_chunks::<8>();
    for (i, eight) in whole.iter().enumerate() {
        out[i] = octet_of(eight);
    }
    if !rest.is_empty() {
        let mut last = [0; 8];
        last[..rest.len()].copy_from_slice(rest);
        out[whole.len()] = octet_of(&last);
    }
}
