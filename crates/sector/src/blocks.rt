// The key and the data block of a sector, read from what follows its count's opening.
ghost use Rattle.std.specs.Prelude.{◌≡◌, ◌+◌, ◌≤◌};
ghost use Rattle.format.specs.Answer.{as_answer};
ghost use Rattle.format.specs.Judged.{answer_of};
ghost use Rattle.format.specs.Block.{data_offset, empty_size, block_end, least_gap, blocks_fit, test_block, test_empty, test_key, test_data};
ghost use Rattle.format.specs.Blocks.{blocks_at, judge_fit};
ghost use Rattle.format.specs.Sector.{opening_length};
ghost use Rattle.sector.specs.As.{as_tested};
ghost use Rattle.sector.specs.Measured.{as_measured, measured_in};
ghost use Rattle.sector.specs.Right.{blocks_right};

use crate::bytes::{check_follows, closing_follows, starts_plain, starts_with, starts_zero};
use crate::count::{data_length, key_length};
use crate::opening_length;
use format::layout::{
    BLOCK_FRAME, CLOSED_EMPTY_BLOCK, COUNT_TO_BLOCK, EMPTY_BLOCK, EMPTY_CLOSING, KEY_FRAME, PLAIN,
};
use format::{Fault, Refusal};

// The key's opening comes 11 bytes after the count's 12.
pub const KEY_OFFSET: usize = COUNT_TO_BLOCK;

// What follows a count's opening, measured: KL, DL, and the offsets at which the data block opens and ends.
#[derive(Clone, Copy)]
pub struct Measured {
    pub key_length: usize,
    pub data_length: usize,
    pub data_offset: usize,
    pub end: usize,
}

// Where the data block opens: behind a gap of 11, which follows the key, or the count of a sector without one.
#[tactic(auto, unfolding(format::specs::Block::key_size, format::specs::Block::data_offset))]
fn data_offset(r: &[u8]) -> usize
    ensures value { result ≡ data_offset r.now }
    ensures upper_bound { result ≤ 298 }
{
    let n = key_length(r);
    if n == 0 {
        KEY_OFFSET
    } else {
        KEY_OFFSET + n + KEY_FRAME
    }
}

// What a data block where DL = 0 takes, where c is the rest of its span from the block's opening on: ten bytes if FF FF CC stands in c behind the place of the 00, whatever that holds;
// else seven.
#[tactic(auto, unfolding(format::specs::Block::empty_size))]
fn empty_size(c: &[u8]) -> usize
    ensures value { result ≡ empty_size c.now }
    ensures upper_bound { result ≤ 10 }
{
    if c.len() < EMPTY_BLOCK {
        return EMPTY_BLOCK;
    }
    if starts_with(&c[EMPTY_BLOCK..], &EMPTY_CLOSING) {
        CLOSED_EMPTY_BLOCK
    } else {
        EMPTY_BLOCK
    }
}

// The offset at which the data block ends.
#[tactic(auto, using(crate::proofs::Block::end_short), unfolding(format::specs::Block::block_end))]
fn block_end(r: &[u8]) -> usize
    ensures value { result ≡ block_end r.now }
    ensures upper_bound { result ≤ 65842 }
{
    let at = data_offset(r);
    let n = data_length(r);
    if n != 0 {
        return at + n + BLOCK_FRAME;
    }
    if r.len() < at {
        return at + EMPTY_BLOCK;
    }
    at + empty_size(&r[at..])
}

// The measures of what follows a count's opening.
#[tactic(auto, unfolding(crate::specs::Measured::measured_in))]
pub fn measured_in(r: &[u8]) -> Measured
    ensures { as_measured result ≡ measured_in r.now }
{
    Measured {
        key_length: key_length(r),
        data_length: data_length(r),
        data_offset: data_offset(r),
        end: block_end(r),
    }
}

// The least gap after the block: 13 where the span runs to index, else 21.
#[tactic(auto, unfolding(format::specs::Block::least_gap))]
fn least_gap(last: bool) -> usize
    ensures value { result ≡ least_gap last }
    ensures upper_bound { result ≤ 21 }
{
    if last { 13 } else { 21 }
}

// Whether the blocks and the least gap lie in the span.
#[tactic(auto, unfolding(format::specs::Block::blocks_fit))]
fn blocks_fit(last: bool, r: &[u8]) -> bool
    ensures { result ≡ blocks_fit last r.now }
{
    block_end(r) + least_gap(last) <= r.len()
}

// What is at fault in a block of n information bytes: its opening is tried first, then its check, then its closing byte.
#[inline(always)]
#[tactic(auto, unfolding(format::specs::Block::test_block))]
fn test_block(n: usize, c: &[u8]) -> Result<(), Fault>
    ensures { as_tested result ≡ test_block n c.now }
{
    if !starts_plain(c) {
        return Err(Fault::Opening);
    }
    if !check_follows(&c[PLAIN..], n) {
        return Err(Fault::Check);
    }
    if !closing_follows(&c[PLAIN..], n) {
        return Err(Fault::Closing);
    }
    Ok(())
}

// The data block where DL = 0: its opening, then one 00, which counts as its check.
#[tactic(auto, unfolding(format::specs::Block::test_empty))]
fn test_empty(c: &[u8]) -> Result<(), Fault>
    ensures { as_tested result ≡ test_empty c.now }
{
    if !starts_plain(c) {
        return Err(Fault::Opening);
    }
    if !starts_zero(&c[PLAIN..]) {
        return Err(Fault::Check);
    }
    Ok(())
}

// The key; none where KL = 0, and nothing to be at fault.
#[inline(always)]
#[tactic(auto, using(crate::proofs::Block::key_short), unfolding(format::specs::Block::test_key))]
fn test_key(r: &[u8]) -> Result<(), Fault>
    ensures { as_tested result ≡ test_key r.now }
{
    let n = key_length(r);
    if n == 0 {
        return Ok(());
    }
    if r.len() < KEY_OFFSET {
        return Err(Fault::Opening);
    }
    test_block(n, &r[KEY_OFFSET..])
}

// The data block; if DL = 0 its opening and one 00, and no more is looked at.
#[inline(always)]
#[tactic(auto, using(crate::proofs::Block::data_short), unfolding(format::specs::Block::test_data))]
fn test_data(r: &[u8]) -> Result<(), Fault>
    ensures { as_tested result ≡ test_data r.now }
{
    let offset = data_offset(r);
    if r.len() < offset {
        return Err(Fault::Opening);
    }
    let size = data_length(r);
    if size == 0 {
        test_empty(&r[offset..])
    } else {
        test_block(size, &r[offset..])
    }
}

// Whether the blocks and the least gap lie in the span and nothing is at fault in them; no answer is made.
#[tactic(auto, unfolding(crate::specs::Right::blocks_right))]
pub(crate) fn blocks_right(last: bool, r: &[u8]) -> bool
    ensures { result ≡ blocks_right last r.now }
{
    blocks_fit(last, r) && test_key(r).is_ok() && test_data(r).is_ok()
}

// The answer for the blocks of the count at p: 9 where they and the least gap do not lie in its span.
#[tactic(auto, unfolding(format::specs::Blocks::judge_fit))]
pub fn judge_fit(p: usize, last: bool, r: &[u8]) -> Result<(), Refusal>
    ensures { as_answer result ≡ answer_of (judge_fit p last r.now) }
{
    if !blocks_fit(last, r) {
        return Err(Refusal::SpanTooShort(p));
    }
    Ok(())
}

// The answer for the key of the count at p: 10 where something is at fault in it.
pub fn judge_key(first: bool, p: u32, r: &[u8]) -> Result<(), Refusal>
    ensures { as_answer result ≡ answer_of (blocks_at (p + opening_length first) r.now).key }
{
    let at = p as usize + opening_length(first) + KEY_OFFSET;
    test_key(r).map_err(|f| Refusal::KeyWrong(f, at))
}

// The answer for the data block of the count at p: 11 where something is at fault in it.
pub fn judge_data(first: bool, p: u32, r: &[u8]) -> Result<(), Refusal>
    ensures { as_answer result ≡ answer_of (blocks_at (p + opening_length first) r.now).body }
{
    let at = p as usize + opening_length(first) + data_offset(r);
    test_data(r).map_err(|f| Refusal::DataWrong(f, at))
}
