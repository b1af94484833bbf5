// From a track and its marks to bit cells.
ghost use Rattle.std.specs.Prelude.{◌≡◌, ◌+◌, ◌*◌, ◌^◌, ◌<◌, length};
ghost use Rattle.format.specs.Answer.{as_answer};
ghost use Rattle.format.specs.Judged.{answer_of, value_or};
ghost use Rattle.pattern.specs.Pattern.{recordable};
ghost use Rattle.bitcells.specs.Each.{each_byte, judge_each};
ghost use Rattle.bitcells.specs.ToCells.{lent_to, written_cells, to_cells};
ghost use Rattle.bitcells.specs.Judging.{judged_fault};

use crate::all_equal;
use format::Refusal;

// Whether a byte can be recorded with its mark.
fn can_record(b: u8, mark: u8) -> bool
    ensures { result ≡ recordable b mark }
{
    if mark == 0 {
        return true;
    }
    b == 0xFF
}

// The first of the bytes from place p on that is marked and not FF.
// Stays as it is: no plainer as one function with `judge_cells`, as said there.
fn judge_bytes(p: usize, track: &[u8], marks: &[u8]) -> Result<(), Refusal>
    requires marks_len { length marks.now ≡ length track.now }
    requires fits { p + length track.now < 2 ^ 64 }
    ensures { judged_fault result ≡ judge_each p (each_byte recordable track.now marks.now) }
{
    for (i, b) in track.iter().enumerate() {
        if !can_record(*b, marks[i]) {
            return Err(Refusal::PatternWrong(p + i));
        }
    }
    Ok(())
}

// The first marked byte that is not FF, by blocks of thirty-two, of which those with no mark are passed.
// Stays as it is: no plainer as one function with `judge_patterns`, as said there.
fn judge_marked(track: &[u8], marks: &[u8]) -> Result<(), Refusal>
    requires { length marks.now ≡ length track.now }
    ensures { judged_fault result ≡ judge_each 0 (each_byte recordable track.now marks.now) }
{
    let (blocks, rest) = marks.as_chunks::<32>();
    for (k, block) in blocks.iter().enumerate() {
        if !all_equal(block, 0xFF, 0) {
            let p = 32 * k;
            judge_bytes(p, &track[p..p + 32], block)?;
        }
    }
    let p = 32 * blocks.len();
    judge_bytes(p, &track[p..], rest)
}

// Writes the two cell bytes of each byte with its mark.
fn write_cells(track: &[u8], marks: &[u8], bit_cells: &mut [u8])
    requires marks_len { length marks.now ≡ length track.now }
    requires bit_cells_len { length bit_cells.old ≡ 2 * length track.now }
    ensures { bit_cells.new ≡ written_cells track.now marks.now }
{
    for (i, b) in track.iter().enumerate() {
        let mark = marks[i];
        bit_cells[2 * i] = pattern::first_cells(*b, mark);
        bit_cells[2 * i + 1] = pattern::second_cells(*b, mark);
    }
}

// Whether the pair and n cell bytes are lent within the rule.
fn lent_to(track: &[u8], marks: &[u8], n: usize) -> bool
    ensures { result ≡ lent_to track.now marks.now n }
{
    if !search::lent_for_reading(track, marks) {
        return false;
    }
    n == 2 * track.len()
}

// From a track and its marks to bit cells: 1 and 17 leave every cell byte as it was; 0 where all are written.
pub fn to_cells(track: &[u8], marks: &[u8], bit_cells: &mut [u8]) -> Result<(), Refusal>
    ensures answer { as_answer result ≡ answer_of (to_cells track.now marks.now (length bit_cells.old)) }
    ensures bytes { bit_cells.new ≡ value_or bit_cells.old (to_cells track.now marks.now (length bit_cells.old)) }
{
    if !lent_to(track, marks, bit_cells.len()) {
        return Err(Refusal::LentWrong);
    }
    judge_marked(track, marks)?;
    write_cells(track, marks, bit_cells);
    Ok(())
}
