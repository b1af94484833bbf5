// Judging a sector from the bytes of its own span: what follows its count's opening.
#![tactic(auto)]

ghost use Rattle.std.specs.Prelude.{◌≡◌};
ghost use Rattle.format.specs.Answer.{as_answer};
ghost use Rattle.format.specs.Judged.{answer_of};
ghost use Rattle.format.specs.Sector.{judge_count, read_blocks};
ghost use Rattle.format.specs.Count.{settled};
ghost use Rattle.sector.specs.As.{as_address, as_home, as_settled};
ghost use Rattle.sector.specs.Right.{sector_right};

pub mod blocks;
pub mod bytes;
pub mod count;
pub mod fields;

use blocks::blocks_right;
pub use blocks::{KEY_OFFSET, Measured, judge_data, judge_fit, judge_key, measured_in};
pub use bytes::{byte_at, closed_after};
pub use count::{count_closed, data_length, key_length};
use count::{count_fields_right, count_fits};
pub use fields::{
    Address, Home, address_in, address_in_range, address_right, home_fields_right, names_itself,
};
use format::Refusal;
pub use format::layout::opening_length;

// The answer for the count at p, in position i: 9 where it does not fit its span, then 7, then 8.
#[tactic(auto, unfolding(format::specs::Sector::judge_count))]
pub fn judge_count(h: Home, i: usize, x: Option<Address>, p: usize, r: &[u8]) -> Result<(), Refusal>
    ensures { as_answer result ≡ answer_of (judge_count (as_home h) i (as_settled x) p r.now) }
{
    if !count_fits(r) {
        return Err(Refusal::SpanTooShort(p));
    }
    if !count_closed(r) {
        return Err(Refusal::CountCheckWrong(p));
    }
    if !count_fields_right(h, i, x, r) {
        return Err(Refusal::CountFieldsWrong(p));
    }
    Ok(())
}

// The answer for the blocks of the count at p: 9 where they and the least gap do not fit its span, then 10, then 11.
pub fn judge_blocks(first: bool, p: u32, last: bool, r: &[u8]) -> Result<(), Refusal>
    ensures { as_answer result ≡ answer_of (read_blocks first p last r.now) }
{
    judge_fit(p as usize, last, r)?;
    judge_key(first, p, r)?;
    judge_data(first, p, r)
}

// Whether nothing is at fault in a later sector, the one in position i, where sector 0 names the address a; no answer is made.
// Stays as it is: the new form is no plainer. judge_count(h, i, Some(a), p, r).is_ok() asks for a place p that no answer speaks of here.
#[tactic(auto, unfolding(crate::specs::Right::sector_right))]
pub fn later_right(h: Home, i: usize, a: Address, last: bool, r: &[u8]) -> bool
    ensures { result ≡ sector_right (as_home h) i (settled (as_address a)) last r.now }
{
    count_fits(r)
        && count_closed(r)
        && count_fields_right(h, i, Some(a), r)
        && blocks_right(last, r)
}
