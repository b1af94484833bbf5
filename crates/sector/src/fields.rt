// Flag, C and H of home and of counts, and the rules that they keep.
ghost use Rattle.std.specs.Prelude.{◌≡◌};
ghost use Rattle.format.specs.Flag.{home_flag_right, sequence_right, count_flag_right, names_itself};
ghost use Rattle.format.specs.Address.{word, address_in, address_in_range, same_address, address_right};
ghost use Rattle.format.specs.Home.{home_fields_right};
ghost use Rattle.sector.specs.As.{as_address, as_home};

use crate::bytes::byte_at;

// C and H, the address of a track.
#[derive(Clone, Copy, Debug, PartialEq, Eq)]
pub struct Address {
    pub cylinder: u16,
    pub head: u16,
}

// Home: its place, its flag and its address.
#[derive(Clone, Copy, Debug, PartialEq, Eq)]
pub struct Home {
    pub place: usize,
    pub flag: u8,
    pub address: Address,
}

// The address in the second to fifth information byte of home or of a count.
#[tactic(auto, unfolding(format::specs::Address::address_in))]
pub fn address_in(xs: &[u8]) -> Address
    ensures { as_address result ≡ address_in xs.now }
{
    Address {
        cylinder: u16::from_be_bytes([byte_at(xs, 1), byte_at(xs, 2)]),
        head: u16::from_be_bytes([byte_at(xs, 3), byte_at(xs, 4)]),
    }
}

// Whether the flag of home keeps its rule: B8, B7 and B6 to B3 are zero.
#[tactic(auto, unfolding(format::specs::Flag::home_flag_right))]
fn home_flag_right(f: u8) -> bool
    ensures { result ≡ home_flag_right f }
{
    if f / 128 != 0 {
        return false;
    }
    if f / 64 % 2 != 0 {
        return false;
    }
    f / 4 % 16 == 0
}

// Whether B8 and B7 keep the rule of position i: B8 alternates from 0 in sector 0, whose B7 is 0.
#[tactic(auto, unfolding(format::specs::Flag::sequence_right))]
fn sequence_right(i: usize, f: u8) -> bool
    ensures { result ≡ sequence_right i f }
{
    if (f / 128) as usize != i % 2 {
        return false;
    }
    if i != 0 {
        return true;
    }
    f / 64 % 2 == 0
}

// Whether the flag f of the count in position i keeps its rule on a track whose home has the flag h: B2 B1 as in home.
#[tactic(auto, unfolding(format::specs::Flag::count_flag_right))]
pub fn count_flag_right(h: u8, i: usize, f: u8) -> bool
    ensures { result ≡ count_flag_right h i f }
{
    if f % 4 != h % 4 {
        return false;
    }
    if f / 4 % 16 != 0 {
        return false;
    }
    sequence_right(i, f)
}

// Whether a track with the flag f names itself in its counts: flags 00 and 11.
#[tactic(auto, unfolding(format::specs::Flag::names_itself))]
pub fn names_itself(f: u8) -> bool
    ensures { result ≡ names_itself f }
{
    if f % 4 == 0 {
        return true;
    }
    f % 4 == 3
}

// Whether an address is in range: cylinder 0 to 202, head 0 to 9.
#[tactic(auto, unfolding(format::specs::Address::address_in_range))]
pub fn address_in_range(a: Address) -> bool
    ensures { result ≡ address_in_range (as_address a) }
{
    if 202 < a.cylinder {
        return false;
    }
    a.head <= 9
}

// Whether two addresses are the same.
#[tactic(auto, unfolding(format::specs::Address::same_address))]
pub fn same_address(a: Address, b: Address) -> bool
    ensures { result ≡ same_address (as_address a) (as_address b) }
{
    a == b
}

// Whether a is what counts hold on the track own with the flag f: own for 00 and 11, else another in range.
#[tactic(auto, unfolding(format::specs::Address::address_right))]
pub fn address_right(f: u8, own: Address, a: Address) -> bool
    ensures { result ≡ address_right f (as_address own) (as_address a) }
{
    if names_itself(f) {
        return same_address(a, own);
    }
    address_in_range(a) && !same_address(a, own)
}

// Whether flag, C and H of home keep their rules.
#[tactic(auto, unfolding(format::specs::Home::home_fields_right))]
pub fn home_fields_right(h: Home) -> bool
    ensures { result ≡ home_fields_right (as_home h) }
{
    home_flag_right(h.flag) && address_in_range(h.address)
}
