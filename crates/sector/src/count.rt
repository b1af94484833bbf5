// The count of a sector, read from what follows its opening.
ghost use Rattle.std.specs.Prelude.{◌≡◌};
ghost use Rattle.format.specs.Count.{key_length, data_length, count_fits, count_closed, count_address_right, count_fields_right};
ghost use Rattle.sector.specs.As.{as_address, as_home, as_settled};

use crate::bytes::{byte_at, closed_after};
use crate::fields::{Address, Home, address_in, address_right, count_flag_right, same_address};
use format::layout::{COUNT_INFO, COUNT_TAIL};

// Whether the 12 bytes of the count lie in its span.
#[tactic(auto, unfolding(format::specs::Count::count_fits))]
pub fn count_fits(r: &[u8]) -> bool
    ensures { result ≡ count_fits r.now }
{
    COUNT_TAIL <= r.len()
}

// Whether check and closing byte of the count are right.
#[tactic(auto, unfolding(format::specs::Count::count_closed))]
pub fn count_closed(r: &[u8]) -> bool
    ensures { result ≡ count_closed r.now }
{
    closed_after(r, COUNT_INFO)
}

// KL.
pub fn key_length(r: &[u8]) -> usize
    ensures { result ≡ key_length r.now }
{
    byte_at(r, 6) as usize
}

// DL.
pub fn data_length(r: &[u8]) -> usize
    ensures { result ≡ data_length r.now }
{
    usize::from(u16::from_be_bytes([byte_at(r, 7), byte_at(r, 8)]))
}

// Whether C and H of a count keep their rule: sector 0's, before which no count has named an address, by the flag of home; a later one's as sector 0's.
#[tactic(auto, unfolding(format::specs::Count::count_address_right))]
fn count_address_right(h: Home, x: Option<Address>, a: Address) -> bool
    ensures { result ≡ count_address_right (as_home h) (as_settled x) (as_address a) }
{
    let own = h.address;
    match x {
        None => address_right(h.flag, own, a),
        Some(b) => same_address(a, b),
    }
}

// Whether flag, C and H of the count in position i keep their rules.
#[tactic(auto, unfolding(format::specs::Count::count_fields_right))]
pub fn count_fields_right(h: Home, i: usize, x: Option<Address>, r: &[u8]) -> bool
    ensures { result ≡ count_fields_right (as_home h) i (as_settled x) r.now }
{
    count_flag_right(h.flag, i, byte_at(r, 0)) && count_address_right(h, x, address_in(r))
}
