// The drive's bit cells: from them to a track and its marks, and back.
#![tactic(auto)]

ghost use Rattle.std.specs.Prelude.{◌≡◌, ◌==◌, bit_and};
ghost use Rattle.std.specs.List.{list_all};

mod reading;
mod writing;

pub use reading::from_cells;
pub use writing::to_cells;

// Whether each of the bytes, of the bits in the mask, has those that are wanted, by one pass without a branch.
#[inline(always)]
fn all_equal(bytes: &[u8], mask: u8, wanted: u8) -> bool
    ensures { result ≡ list_all (λ b. bit_and b mask == wanted) bytes.now }
{
    let mut all = true;
    for b in bytes {
        all &= *b & mask == wanted;
    }
    all
}
