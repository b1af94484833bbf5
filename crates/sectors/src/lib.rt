// Stepping over the sectors of a track, from the place of one count to the place of the next.
#![tactic(auto)]

ghost use Rattle.std.specs.Prelude.{◌≡◌, ◌≤◌};
ghost use Rattle.format.specs.Lent.{cells};
ghost use Rattle.sectors.specs.SectorAt.{sector_fields, opens_first, sector_at, as_sector_at};

pub mod counting;
pub mod seeking;
pub mod steps;

pub use counting::sector_count;
use format::layout::{HOME_LAST, HOME_TO_COUNT, LONGEST, PLAIN};
pub use seeking::{Passage, Sought, place_of, search_from};
pub use steps::{Step, step_at};

// The last place at which sector 0's count opens: home starts at 37 at the latest and has 14 bytes, and 11 follow it.
pub const LAST_FIRST_COUNT: usize = HOME_LAST + HOME_TO_COUNT;

// A sector: flag, S, KL, DL, the places of its information, where its data block ends, where the next span starts, whether its own span runs to index, and C and H.
// Stays as it is: what may not change (sector_at cannot fail: its clause gives each field at each place).
#[derive(Clone, Copy)]
pub struct SectorAt {
    pub flag: u8,
    pub number: u8,
    pub key_length: usize,
    pub data_length: usize,
    pub key_place: usize,
    pub data_place: usize,
    pub end: usize,
    pub next: usize,
    pub last: bool,
    pub address: sector::Address,
}

// The sector of which r follows the count's opening from place q on, where the next span starts at next.
fn sector_in(q: usize, next: usize, last: bool, r: &[u8]) -> SectorAt
    requires { q ≤ 4010 }
    ensures { as_sector_at result ≡ sector_fields q next last r.now }
{
    let blocks = sector::measured_in(r);
    let key_length = blocks.key_length;
    let data_length = blocks.data_length;
    let end = q + blocks.end;
    let key_place = if key_length == 0 {
        0
    } else {
        q + sector::KEY_OFFSET + PLAIN
    };
    SectorAt {
        flag: sector::byte_at(r, 0),
        number: sector::byte_at(r, 5),
        key_length,
        data_length,
        key_place,
        data_place: q + blocks.data_offset + PLAIN,
        end,
        next,
        last,
        address: sector::address_in(r),
    }
}

// Whether the count that opens at place p is sector 0's.
#[tactic(auto, unfolding(crate::specs::SectorAt::opens_first))]
pub fn opens_first(p: usize) -> bool
    ensures { result ≡ opens_first p }
{
    p <= LAST_FIRST_COUNT
}

// The sector whose count opens at place p, with an opening of 6 bytes where it is sector 0's, else of 8; above place 4,002 there is none, and all numbers are zero.
#[tactic(auto, using(crate::proofs::Rest::sector_past))]
pub fn sector_at(track: &[u8], marks: &[u8], p: usize) -> SectorAt
    ensures { as_sector_at result ≡ sector_at p (cells track.now marks.now) }
{
    if LONGEST < p {
        let address = sector::Address {
            cylinder: 0,
            head: 0,
        };
        return SectorAt {
            flag: 0,
            number: 0,
            key_length: 0,
            data_length: 0,
            key_place: 0,
            data_place: 0,
            end: 0,
            next: 0,
            last: true,
            address,
        };
    }
    let o = sector::opening_length(opens_first(p));
    let span = search::span_at(track, marks, p, o);
    let from = p + o;
    let next = p + span.length;
    let rest = track.get(from..next).unwrap_or(&[]);
    sector_in(from, next, span.last, rest)
}
