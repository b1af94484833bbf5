// From bit cells to a track and its marks.
ghost use Rattle.std.specs.Prelude.{◌≡◌, ◌+◌, ◌*◌, ◌^◌, ◌<◌, length};
ghost use Rattle.format.specs.Answer.{as_answer};
ghost use Rattle.format.specs.Written.{after, leaves};
ghost use Rattle.pattern.specs.Pattern.{data_in, legal_pattern, mark_in};
ghost use Rattle.bitcells.specs.Each.{each_pattern, judge_each};
ghost use Rattle.bitcells.specs.FromCells.{lent_from, from_cells};
ghost use Rattle.bitcells.specs.Judging.{judged_fault};

use crate::all_equal;
use format::Refusal;

// The first of the track bytes from place p on whose two cell bytes are no legal pattern.
// Stays as it is: no plainer as one function with `judge_bytes`: it would count an index and take the test of the two bytes at it as a closure, with a contract on a list of what that gives.
fn judge_cells(p: usize, bit_cells: &[u8]) -> Result<(), Refusal>
    requires { p + length bit_cells.now < 2 ^ 64 }
    ensures { judged_fault result ≡ judge_each p (each_pattern legal_pattern bit_cells.now) }
{
    let (pairs, _) = bit_cells.as_chunks::<2>();
    for (i, [x, y]) in pairs.iter().enumerate() {
        if !pattern::legal_pattern(*x, *y) {
            return Err(Refusal::PatternWrong(p + i));
        }
    }
    Ok(())
}

// The first track byte whose two cell bytes are no legal pattern, by blocks of sixteen, of which those with all clocks are passed.
// Stays as it is: no plainer as one function with `judge_marked`: a block is here the cell bytes of sixteen track bytes, and there thirty-two marks with the bytes beside them, so that both tests would be closures.
fn judge_patterns(bit_cells: &[u8]) -> Result<(), Refusal>
    ensures { judged_fault result ≡ judge_each 0 (each_pattern legal_pattern bit_cells.now) }
{
    let (blocks, rest) = bit_cells.as_chunks::<32>();
    for (k, block) in blocks.iter().enumerate() {
        if !all_equal(block, 0xAA, 0xAA) {
            judge_cells(16 * k, block)?;
        }
    }
    judge_cells(16 * blocks.len(), rest)
}

// Writes the track and the marks that the cell bytes stand for.
fn write_pair(bit_cells: &[u8], track: &mut [u8], marks: &mut [u8])
    requires bit_cells_len { length bit_cells.now ≡ 2 * length track.old }
    requires marks_len { length marks.old ≡ length track.old }
    ensures bytes { track.new ≡ each_pattern data_in bit_cells.now }
    ensures marks { marks.new ≡ each_pattern mark_in bit_cells.now }
{
    let (pairs, _) = bit_cells.as_chunks::<2>();
    for (i, b) in track.iter_mut().enumerate() {
        let [x, y] = pairs[i];
        *b = pattern::data_in(x, y);
        marks[i] = pattern::mark_in(x, y);
    }
}

// Whether the cell bytes and the pair are lent within the rule.
fn lent_from(n: usize, l: usize, k: usize) -> bool
    ensures { result ≡ lent_from n l k }
{
    if !search::lent_for_writing(l, k) {
        return false;
    }
    n == 2 * l
}

// From bit cells to a track and its marks: 1 and 17 leave every byte and mark as it was; 0 where both are written.
pub fn from_cells(bit_cells: &[u8], track: &mut [u8], marks: &mut [u8]) -> Result<(), Refusal>
    ensures { after (as_answer result) track.new marks.new ≡ leaves (from_cells bit_cells.now (length track.old) (length marks.old)) track.old marks.old }
{
    if !lent_from(bit_cells.len(), track.len(), marks.len()) {
        return Err(Refusal::LentWrong);
    }
    judge_patterns(bit_cells)?;
    write_pair(bit_cells, track, marks);
    Ok(())
}
