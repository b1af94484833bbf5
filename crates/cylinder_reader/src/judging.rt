// The file of a cylinder judged by itself.
ghost use Rattle.std.specs.Prelude.{◌≡◌, true, ◌≤◌, length};
ghost use Rattle.cylinder.specs.File.{header_length, table_end};
ghost use Rattle.cylinder.specs.Reading.{track_count_in, offset_due, header_right, offsets_right, spares_clear, judge_file};
ghost use Rattle.cylinder_reader.specs.Reading.{lengths_in, judged_file};

use crate::{table, unpacking};
use cylinder_layout::{ENTRY, HEADER, Lengths};
use format::Refusal;

// Whether the number of tracks is 1 to 10 and the zero field is zero.
#[tactic(auto, unfolding(cylinder::specs::Reading::header_right, cylinder::specs::Reading::track_count_in, cylinder::specs::Reading::zero_field))]
fn header_right(file: &[u8]) -> bool
    requires { header_length ≤ length file.now }
    ensures { result ≡ header_right file.now }
{
    let n = usize::from(table::two_bytes_at(file, 0));
    cylinder_layout::track_count_right(n) && table::two_bytes_at(file, 2) == 0
}

// Whether every offset of the table is the one that it has to give.
#[tactic(auto, using(crate::proofs::Pieces::length_lengths, crate::proofs::Pieces::length_at))]
fn offsets_right(file: &[u8], lengths: Lengths<'_>) -> bool
    requires lengths_value { lengths.items.now ≡ lengths_in file.now }
    requires table_there { table_end (track_count_in file.now) ≤ length file.now }
    ensures { result ≡ offsets_right file.now }
{
    let mut due = lengths.table_end();
    for (k, l) in lengths.items.iter().enumerate() {
        if table::offset_in(file, k) != due {
            return false;
        }
        due += cylinder_layout::stored_size(*l);
    }
    true
}

// Whether every track's spare bits are zero.
#[tactic(auto, using(crate::proofs::Pieces::length_lengths, crate::proofs::Pieces::length_at, cylinder::proofs::Sound::due_within))]
fn spares_clear(file: &[u8], lengths: Lengths<'_>) -> bool
    requires lengths_value { lengths.items.now ≡ lengths_in file.now }
    requires end_value { offset_due file.now (track_count_in file.now) ≡ length file.now }
    ensures { result ≡ spares_clear file.now }
{
    let mut offset = lengths.table_end();
    for l in lengths.items {
        let size = usize::from(*l);
        let from = offset + size;
        let to = from + cylinder_layout::packed_size(size);
        if !unpacking::spare_clear(&file[from..to], size) {
            return false;
        }
        offset = to;
    }
    true
}

// The table and all that follows it, of a file whose header is right.
#[tactic(auto, using(crate::proofs::Pieces::count_most, crate::proofs::Pieces::length_lengths, crate::proofs::Pieces::lengths_right_in, crate::proofs::Pieces::end_in), unfolding(cylinder::specs::Reading::judge_file))]
fn judge_table(file: &[u8], n: usize) -> Result<(), Refusal>
    requires n_value { n ≡ track_count_in file.now }
    requires header_length_in_bounds { (header_length ≤ length file.now) × (header_right file.now ≡ true) }
    ensures { judged_file result ≡ judge_file file.now }
{
    if file.len() < HEADER + n * ENTRY {
        return Err(Refusal::FileLengthWrong);
    }
    let table = table::lengths_in(file, n);
    let lengths = Lengths::first(&table, n);
    if !lengths.are_right() {
        return Err(Refusal::LentWrong);
    }
    if !offsets_right(file, lengths) {
        return Err(Refusal::OffsetWrong);
    }
    if file.len() != lengths.file_length() {
        return Err(Refusal::FileLengthWrong);
    }
    if !spares_clear(file, lengths) {
        return Err(Refusal::SpareBitsSet);
    }
    Ok(())
}

// The file by itself, before anything is filled: 20, 18, 20, 1, 19, 20 and 21.
#[tactic(auto, using(crate::proofs::Pieces::count_is), unfolding(cylinder::specs::Reading::judge_file))]
pub(crate) fn judge_file(file: &[u8]) -> Result<(), Refusal>
    ensures { judged_file result ≡ judge_file file.now }
{
    if file.len() < HEADER {
        return Err(Refusal::FileLengthWrong);
    }
    if !header_right(file) {
        return Err(Refusal::HeaderWrong);
    }
    judge_table(file, usize::from(table::two_bytes_at(file, 0)))
}
