// From a sound file to the tracks, their marks and their Ls.
ghost use Rattle.std.specs.Prelude.{◌≡◌, ◌≤◌, length};
ghost use Rattle.base.specs.Indexed.{sum_to, join_to};
ghost use Rattle.base.specs.Laid.{laid_over};
ghost use Rattle.format.specs.Answer.{as_answer, given};
ghost use Rattle.format.specs.Judged.{good, answer_of};
ghost use Rattle.cylinder.specs.Cylinder.{track_count};
ghost use Rattle.cylinder.specs.Reading.{track_count_in, length_in, track_in, marks_in, judge_file, room_for, cylinder_read};
ghost use Rattle.cylinder_reader.specs.Reading.{lengths_in, room, read_into};

use crate::{judging, table, unpacking};
use cylinder_layout::Lengths;
use format::Refusal;

// Whether what is lent is enough for the cylinder that the file holds.
#[tactic(auto, using(crate::proofs::Pieces::length_lengths, crate::proofs::Pieces::total_in), unfolding(cylinder::specs::Reading::room_for))]
fn room_for(file: &[u8], table: Lengths<'_>, tracks: usize, marks: usize, lengths: usize) -> bool
    requires table_value { table.items.now ≡ lengths_in file.now }
    ensures { result ≡ room_for file.now (room tracks marks lengths) }
{
    let sum = table.total();
    sum <= tracks && sum <= marks && table.items.len() <= lengths
}

// Writes the tracks of the file, one behind the other, and their marks likewise.
#[tactic(auto, using(crate::proofs::Pieces::table_there, crate::proofs::Pieces::piece_in, crate::proofs::Pieces::length_lengths, crate::proofs::Pieces::length_at))]
fn fill(file: &[u8], table: Lengths<'_>, tracks: &mut [u8], marks: &mut [u8])
    requires table_value { table.items.now ≡ lengths_in file.now }
    requires file_value { judge_file file.now ≡ good tt }
    requires tracks_len { sum_to (length_in file.now) (track_count_in file.now) ≤ length tracks.old }
    requires marks_len { sum_to (length_in file.now) (track_count_in file.now) ≤ length marks.old }
    ensures tracks { tracks.new ≡ laid_over (join_to (track_in file.now) (track_count_in file.now)) tracks.old }
    ensures marks { marks.new ≡ laid_over (join_to (marks_in file.now) (track_count_in file.now)) marks.old }
{
    let mut offset = table.table_end();
    let mut at = 0;
    for l in table.items {
        let size = usize::from(*l);
        let from = offset + size;
        let to = from + cylinder_layout::packed_size(size);
        tracks[at..at + size].copy_from_slice(&file[offset..from]);
        unpacking::unpack(&file[from..to], size, &mut marks[at..]);
        offset = to;
        at += size;
    }
}

// Fills what is lent from a sound file; 24 leaves every byte and entry as it was.
#[tactic(auto, using(crate::proofs::Pieces::count_is, crate::proofs::Pieces::length_lengths, crate::proofs::Pieces::table_there, crate::proofs::Pieces::room_enough, base::proofs::Filling::over_nothing), unfolding(cylinder::specs::Reading::read_cylinder))]
fn read_sound(
    file: &[u8],
    tracks: &mut [u8],
    marks: &mut [u8],
    lengths: &mut [u16],
) -> Result<usize, Refusal>
    requires { judge_file file.now ≡ good tt }
    ensures answer { as_answer result ≡ answer_of (read_into file.now tracks.old marks.old lengths.old) }
    ensures count { given result ≡ track_count (cylinder_read (read_into file.now tracks.old marks.old lengths.old)) }
    ensures tracks { tracks.new ≡ laid_over (cylinder_read (read_into file.now tracks.old marks.old lengths.old)).tracks tracks.old }
    ensures marks { marks.new ≡ laid_over (cylinder_read (read_into file.now tracks.old marks.old lengths.old)).marks marks.old }
    ensures lengths { lengths.new ≡ laid_over (cylinder_read (read_into file.now tracks.old marks.old lengths.old)).lengths lengths.old }
{
    let n = usize::from(table::two_bytes_at(file, 0));
    let ten = table::lengths_in(file, n);
    let table = Lengths::first(&ten, n);
    if !room_for(file, table, tracks.len(), marks.len(), lengths.len()) {
        return Err(Refusal::BufferTooShort);
    }
    fill(file, table, tracks, marks);
    lengths[..n].copy_from_slice(table.items);
    Ok(n)
}

// Reads the file of a cylinder and hands back the number of its tracks: a refusal leaves every byte, mark and entry as it was.
#[tactic(auto, using(base::proofs::Filling::over_nothing), unfolding(cylinder::specs::Reading::read_cylinder))]
pub fn read_cylinder(
    file: &[u8],
    tracks: &mut [u8],
    marks: &mut [u8],
    lengths: &mut [u16],
) -> Result<usize, Refusal>
    ensures answer { as_answer result ≡ answer_of (read_into file.now tracks.old marks.old lengths.old) }
    ensures count { given result ≡ track_count (cylinder_read (read_into file.now tracks.old marks.old lengths.old)) }
    ensures tracks { tracks.new ≡ laid_over (cylinder_read (read_into file.now tracks.old marks.old lengths.old)).tracks tracks.old }
    ensures marks { marks.new ≡ laid_over (cylinder_read (read_into file.now tracks.old marks.old lengths.old)).marks marks.old }
    ensures lengths { lengths.new ≡ laid_over (cylinder_read (read_into file.now tracks.old marks.old lengths.old)).lengths lengths.old }
{
    judging::judge_file(file)?;
    read_sound(file, tracks, marks, lengths)
}
